//! What is wrong with a macrocell text.

ghost use Rattle.std.specs.Prelude.{◌≡◌, ℕ, List};
ghost use Rattle.ca_macro.specs.declared.fault.MacroFault.TheVariants.{Memory};
ghost use Rattle.ca_macro.specs.inner.Reading.{HasFaultOn, IsMacrocellReadingFault};

use thiserror::Error;

/// What is wrong with a macrocell text: the first fault of its spelling, else a live cell that is out of
/// range.
#[derive(Clone, Copy, Debug, PartialEq, Eq, Error)]
pub enum MacroFault {
    /// The text doesn't begin with `[M2]`.
    #[error("no macrocell")]
    NotMacro,
    /// A `#FRAME` line begins a plane of a timeline.
    #[error("a timeline")]
    Timeline,
    /// A line is misspelled.
    #[error("syntax")]
    Syntax,
    /// A part of a square isn't given on an earlier line.
    #[error("a part that isn't given earlier")]
    Forward,
    /// A level is 0 or above 120, or that of a part isn't one less than its square's.
    #[error("a bad level")]
    Level,
    /// A leaf has more than eight rows, or more than eight cells in a row.
    #[error("a leaf larger than 8 by 8 cells")]
    LeafSize,
    /// A live cell is out of range.
    #[error("out of range")]
    Range,
    /// The generation is above 2^63 - 1.
    #[error("the generation is too large")]
    GenTooLarge,
    /// An allocation failed.
    #[error("out of memory")]
    Memory,
}

/// A fault, and the number of the line on which it stands, counted from 1: none for a live cell that is out
/// of range, and for want of memory.
#[derive(Clone, Copy, Debug, PartialEq, Eq)]
pub struct LineFault {
    pub fault: MacroFault,
    pub line: Option<u64>,
}

impl LineFault {
    /// What was met at the line with this number.
    pub(crate) fn at_line(fault: MacroFault, number: u64) -> LineFault
        ensures { (bytes : List ℕ) → HasFaultOn bytes fault number
            → IsMacrocellReadingFault bytes result.fault result.line }
    {
        let line = match fault {
            MacroFault::Memory => None,
            _ => Some(number),
        };
        LineFault { fault, line }
    }
}

impl From<ca_plane::Memory> for MacroFault {
    ghost from_gives = { λ _ f. f ≡ Memory };

    fn from(_refused: ca_plane::Memory) -> MacroFault {
        MacroFault::Memory
    }
}
