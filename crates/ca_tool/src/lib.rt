//! What the program calls: runs over devices, the texts that they print, and what is reported of their faults.
#![tactic(auto)]

mod claims_remedy;
mod complaint;
mod explanation;
mod fault;
mod ties;
mod verification_run;

pub use ca_draw::{Size, View, WindowFault};
pub use ca_identify_lines::{
    Catalog, Content, KnownRules, Subject, Task, is_claim_path, says_its_claims,
};
pub use ca_pattern_runs::{
    DrawRequest, Evolution, Form, FormText, TextForm, convert_run, drawing_laws, form_text,
    show_run, write_form,
};
pub use ca_report::{
    Absence, FaultyRule, InputFault, MAX_FILE, MissingFile, ToolFault, lies_outside, path_in,
    push_escaped, read_all, rule_path,
};
pub use ca_verify_lines::{ReportStyle, lines, status};
pub use claims_remedy::explain_claims;
pub use complaint::{complain, complain_with_path};
pub use explanation::{RunFiles, explain, has_explanation};
pub use fault::Fault;
pub use ties::explain_ties;
pub use verification_run::{verify_run, verify_watched};
