//! Rule files for texts that name a rule of two states or a Generations rule: tables that Golly and `ca_rule` read.
#![tactic(auto)]

mod fault;
mod generations;
mod isotropic;
mod kind_list;
mod kinds;
mod laws;
mod map;
mod texts;
mod writing;

pub use fault::RuleFileFault;
pub use generations::generations_file;
pub use isotropic::IsotropicRule;
pub use laws::{all_letters, digits_alone, one_kind, one_text_rule, worked_rules};
pub use map::MapRule;
pub use texts::rule_file;
pub use writing::table_file;
