//! All calls that a program needs of claims and patterns, under one name; and the rules that a text's patterns
//! name and that aren't known.
#![tactic(auto)]

mod unknown;

pub use ca_answers::{Answer, Cause, Growth, Identity, Look, Note, Refutation, Scope, Verdict};
pub use ca_evolution::{Observer, RunSubject, open_evolved};
pub use ca_identify::{identify, identity_laws};
pub use ca_pattern::{
    Cells, ConvertFault, File, Format, Limits, Loaded, LocatedFault, Pattern, PatternFault,
    StoredTree, Summary, Target, USUAL_MEMO, conversion_laws, convert, evolution_laws,
    open_pattern, read_pattern, rule_text_of, summary,
};
pub use ca_plane::limits::MOST_MEMO;
pub use ca_text::{
    ClaimFault, Claims, Kind, WordSet, no_fault_in_claim_text, one_fault, one_meaning, read_claims,
    worked_examples,
};
pub use ca_verify::{Judge, look_up, verdict_laws, verify};
pub use unknown::unknown_rules;
