//! Why a pattern file isn't converted or summed up.

use crate::pattern_fault::PatternFault;
use ca_rule::RuleFault;
use thiserror::Error;

/// Why a pattern isn't converted, or no summary of it is given: the first of these that holds, but that out
/// of memory may come before any other where memory is needed for the pattern's file: an RLE that reads, or a
/// macrocell that is spelled well or has a good node before any fault.
#[derive(Clone, Copy, Debug, PartialEq, Eq, Error)]
pub enum ConvertFault {
    /// The bytes don't read. Their fault is never out of memory here.
    #[error("{0}")]
    BadPattern(PatternFault),
    /// The rule text names no rule: none in B/S notation or of the family Generations, and none of the tables.
    #[error("{0}")]
    BadRule(RuleFault),
    /// A cell has a state that isn't below the number of the rule's states.
    #[error("state too large")]
    StateTooLarge,
    /// More than 16777216 cells are live, which is more than an RLE may have. No other target has it, nor has
    /// a summary.
    #[error("too many cells")]
    TooManyCells,
    /// An allocation failed.
    #[error("out of memory")]
    Memory,
}
