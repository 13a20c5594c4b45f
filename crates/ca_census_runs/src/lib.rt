//! Runs that take a census of pattern files, and write what each settles into.
#![tactic(auto)]

mod counts;
mod fault;
mod file_lines;
pub mod laws;
mod lines;
mod objects;
mod outcome;
mod places;
mod run;
mod task;

pub use fault::CensusFault;
pub use lines::push_census;
pub use outcome::CensusOutcome;
pub use run::census_run;
pub use task::CensusTask;
