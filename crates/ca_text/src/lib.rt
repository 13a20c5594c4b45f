//! Claim texts: which lines say what, which files they name, and what their claims ask.
#![tactic(auto)]

mod asks;
mod both;
mod claims;
mod fault;
mod kind;
mod laws;
mod line;
mod line_kind;
mod marks;
mod numbers;
mod reading;
mod version;
mod word_set;
mod words;

pub use asks::{Asks, Expected, Forbidden};
pub use both::Both;
pub use claims::Claims;
pub use fault::ClaimFault;
pub use kind::Kind;
pub use laws::{no_fault_in_claim_text, one_fault, one_meaning, worked_examples};
pub use line::{Claim, ClaimLine, NamedPath};
pub use reading::read_claims;
pub use word_set::WordSet;
