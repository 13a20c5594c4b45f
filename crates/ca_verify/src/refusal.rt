//! Why a claim isn't judged, and what the cause is about.

use ca_answers::{Cause, Verdict};

/// Why a claim isn't judged, and what the cause is about.
#[derive(Drop)]
pub(crate) struct Refusal {
    pub(crate) cause: Cause,
    pub(crate) about: About,
}

/// What the cause of a refusal is about.
#[derive(Drop)]
pub(crate) enum About {
    /// The claim as a whole: its patterns' rules differ, or work or memory is out.
    Claim,
    /// One of its patterns. Where the cause is a fault that stands on a line of the file, this is the line;
    /// where the file's rule text names no rule, this is the text.
    Pattern {
        part: WhichPattern,
        line: Option<u64>,
        rule_text: Option<Vec<u8>>,
    },
    /// The file of a rule line, whose path has this index among the text's paths.
    RuleFile(usize),
}

/// Which of a claim's patterns.
#[derive(Clone, Copy)]
pub(crate) enum WhichPattern {
    First,
    Second,
}

/// A verdict, and what its cause is about where it is a refusal.
#[derive(Drop)]
pub(crate) struct JudgedClaim {
    pub(crate) verdict: Verdict,
    pub(crate) about: About,
}
