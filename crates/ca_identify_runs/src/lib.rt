//! Runs that identify pattern files, and write a claim text with what is true of them.
#![tactic(auto)]

mod coded_files;
mod identification_run;

pub use coded_files::identify_with_code;
pub use identification_run::identify_run;
