//! Verdicts on claims about the patterns of files.
#![tactic(auto)]

mod decide;
mod judge;
mod noting;
mod refusal;
pub mod verdict_laws;
mod verifier;

pub use judge::{Judge, look_up};
pub use verifier::{FaultyTable, NeededFiles, Tables, verify};
