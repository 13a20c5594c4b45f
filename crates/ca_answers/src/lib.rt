//! What is answered: verdicts on claims with their notes, what planes are found to be, and their codes.
#![tactic(auto)]

mod cause;
mod coded_look;
mod identity;
mod note;
mod scope;
mod verdict;

pub use cause::Cause;
pub use coded_look::CodedLook;
pub use identity::{Growth, Identity};
pub use note::Note;
pub use scope::{Look, Scope};
pub use verdict::{Answer, Refutation, Verdict};
