//! What is printed of verdicts.
#![tactic(auto)]

mod finding;
mod printing;

pub use finding::{Finding, ReportStyle, remember_note, send_finding};
pub use printing::{lines, status, worse_status};
