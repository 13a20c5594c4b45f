//! Why a claim isn't judged, or a pattern isn't identified.

ghost use Rattle.std.specs.Prelude.{◌≡◌, ◌++◌};
ghost use Rattle.ca_pattern.specs.Prelude.{table_fault_text};
ghost use Rattle.ca_answers.specs.Answers.{cause_text};

use ca_pattern::{PatternFault, rule_fault_text, table_kind};
use ca_rule::{RuleFault, TableFault};
use thiserror::Error;

/// Why a claim isn't judged: the first of these that holds. Out of memory alone may come before any other,
/// where all files are there, all rule tables are good, and the first pattern's file needs memory: it is an
/// RLE that reads, or a macrocell that is spelled well or has a good node before any fault. Of two patterns
/// the claim's first goes before the other in each of them.
#[derive(Clone, Copy, Debug, PartialEq, Eq, Error)]
pub enum Cause {
    /// No file with the path of one of the patterns, or of a rule line of the text, is supplied.
    #[error("no file")]
    NoFile,
    /// The file of a rule line is the text of no rule table, or of one that wakes the empty plane; the first
    /// such line's. Its fault is never out of memory here.
    #[error("rule table: {0}")]
    BadTable(TableFault),
    /// A pattern's file doesn't read. Its fault is never out of memory here.
    #[error("{0}")]
    BadPattern(PatternFault),
    /// A pattern's rule text names no rule: none in B/S notation or of the family Generations, and none of the
    /// tables.
    #[error("{0}")]
    BadRule(RuleFault),
    /// A pattern has a cell whose state isn't below the number of its rule's states.
    #[error("state too large")]
    StateTooLarge,
    /// The two patterns have different rules.
    #[error("mixed rules")]
    MixedRules,
    /// A pattern whose cells the claim moves has more than 16777216 live cells: a spaceship's, or the one
    /// that another becomes, with a shift.
    #[error("too many cells")]
    TooManyCells,
    /// As much work was done on the claim as may be.
    #[error("out of work")]
    Work,
    /// An allocation failed.
    #[error("out of memory")]
    Memory,
}

impl Cause {
    /// Why a claim isn't judged, or a file isn't identified, in the words that are printed: a text, and what
    /// follows it.
    pub fn words<'a>(self) -> (&'a [u8], &'a [u8])
        ensures { result.0.now ++ result.1.now ≡ cause_text self }
    {
        match self {
            Cause::NoFile => (b"no file", b""),
            Cause::BadTable(fault) => table_words(fault),
            Cause::BadPattern(fault) => (fault.text(), b""),
            Cause::BadRule(fault) => (b"bad rule: ", rule_fault_text(fault)),
            Cause::StateTooLarge => (b"state too large", b""),
            Cause::MixedRules => (b"mixed rules", b""),
            Cause::TooManyCells => (b"too many cells", b""),
            Cause::Work => (b"work", b""),
            Cause::Memory => (b"memory", b""),
        }
    }
}

/// Why a rule table isn't good, in two such texts.
fn table_words<'a>(fault: TableFault) -> (&'a [u8], &'a [u8])
    ensures { result.0.now ++ result.1.now ≡ table_fault_text fault }
{
    if let TableFault::Memory = fault {
        return (b"memory", b"");
    }
    (b"bad table:", table_kind(fault))
}
