//! Rules: texts that name them, and the next cell under each.
#![tactic(auto)]

mod bs_rule;
mod counts;
mod digits;
mod fault;
mod gen_rule;
mod hood;
mod laws;
mod notation;
mod rule;
mod rule_laws;
mod spelling;
mod table;

pub use bs_rule::BsRule;
pub use counts::Counts;
pub use fault::RuleFault;
pub use gen_rule::GenRule;
pub use hood::Hood;
pub use laws::{
    alike, names_itself, one_rule, rule_or_fault, worked_countings, worked_examples, worked_faults,
    worked_masks, worked_next_cells,
};
pub use rule::{Rule, is_unknown_rule, resolve};
pub use rule_laws::{
    generations_alike, generations_do_alike, generations_names_itself, generations_rule_or_fault,
    named_rules, one_generations_rule, same_rules, two_states_do_as_bs, worked_generations,
    worked_generations_cells, worked_generations_faults, worked_names,
};
pub use spelling::lists_of;
pub use table::{
    Neighbourhood, Slot, Symmetry, Table, TableFault, one_table, table_or_fault, untied_tables,
    worked_cells, worked_orders, worked_texts, worked_transitions,
};
