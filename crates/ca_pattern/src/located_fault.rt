//! Why a pattern isn't opened, taken on or written, and where the fault stands.

ghost use Rattle.std.specs.Prelude.{◌≡◌, ℕ, List, Some};
ghost use Rattle.ca_rule.specs.Prelude.{TableRule};
ghost use Rattle.ca_pattern.specs.LocatedFaults.{IsOpeningFault, convert_fault_of};
ghost use Rattle.ca_pattern.specs.Patterns.{IsUnread};
ghost use Rattle.ca_pattern.specs.declared.convert_fault.ConvertFault.{ConvertFault};

use crate::convert_fault::ConvertFault;
use crate::pattern_fault::PatternFault;
use crate::read::BadPattern;
use crate::ruled::UnnamedRule;
use thiserror::Error;

/// Why a pattern isn't opened, advanced by some generations, or written, with its place: the first of these
/// that holds, but that too many cells are judged last, and that out of memory may come before any other
/// where memory is needed for the pattern's file.
#[derive(Debug, Drop, Error)]
pub enum LocatedFault {
    /// The file doesn't read. Its fault is never out of memory here.
    #[error("{}", .0.fault)]
    Unread(BadPattern),
    /// The file's rule text names no rule, neither in its own notation nor among the tables.
    #[error("{}", .0.fault)]
    UnnamedRule(UnnamedRule),
    /// A cell has a state that isn't below the number of the rule's states.
    #[error("state too large")]
    StateTooLarge,
    /// The file's generation and the generations after it are together more than 2^63 - 1, the greatest that
    /// a file may name.
    #[error("generation too large")]
    GenTooLarge,
    /// As much work was done as may be. A run of no generations is never out of work.
    #[error("out of work")]
    Work,
    /// A cell is live in the end outside -2^60 to 2^60 - 1, where no file may have one. Only what is written
    /// after some generations has it.
    #[error("out of range")]
    Range,
    /// More than 16777216 cells are live, which is more than an RLE may have. Only what is written as RLE has
    /// it.
    #[error("too many cells")]
    TooManyCells,
    /// An allocation failed.
    #[error("out of memory")]
    Memory,
}

impl LocatedFault {
    /// Why a pattern file isn't opened that isn't read.
    pub(crate) fn of_unread(bad: BadPattern) -> LocatedFault
        ensures { (bytes : List ℕ) (tables : List TableRule) → IsUnread bytes bad
            → IsOpeningFault bytes tables result }
    {
        match bad.fault {
            PatternFault::Memory => LocatedFault::Memory,
            _ => LocatedFault::Unread(bad),
        }
    }

    /// The fault alone, of a file that isn't converted or has no summary.
    pub(crate) fn convert_fault(&self) -> ConvertFault
        requires { (fault : ConvertFault) × (convert_fault_of self.now ≡ Some fault) }
        ensures { convert_fault_of self.now ≡ Some result }
    {
        match self {
            LocatedFault::Unread(bad) => ConvertFault::BadPattern(bad.fault),
            LocatedFault::UnnamedRule(unnamed) => ConvertFault::BadRule(unnamed.fault),
            LocatedFault::StateTooLarge => ConvertFault::StateTooLarge,
            LocatedFault::TooManyCells => ConvertFault::TooManyCells,
            LocatedFault::Memory => ConvertFault::Memory,
            LocatedFault::GenTooLarge | LocatedFault::Work | LocatedFault::Range => unreachable!(),
        }
    }
}
