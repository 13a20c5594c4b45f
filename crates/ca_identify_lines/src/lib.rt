//! What is printed of files that were identified: a claim text with what is true of them.
#![tactic(auto)]

mod catalog;
mod entry;
mod entry_lines;
mod fault_report;
mod growth;
mod known_rules;
mod names;
mod outcome;
mod taken_names;
mod task;

pub use catalog::{Catalog, head_pieces, rules_text, says_its_claims};
pub use entry::{Content, Entry, Outcome, Settles, Subject};
pub use entry_lines::{
    objects_word, push_claim, push_code, push_comment_head, push_entry, push_load,
};
pub use fault_report::report_of;
pub use known_rules::KnownRules;
pub use names::{add_name, is_claim_path};
pub use taken_names::TakenNames;
pub use task::Task;
