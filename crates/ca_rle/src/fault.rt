//! What is wrong with an RLE text.

ghost use Rattle.std.specs.Prelude.{◌≡◌, None};
ghost use Rattle.ca_rle.specs.declared.fault.RleFault.TheVariants.{Memory};

use thiserror::Error;

/// What is wrong with an RLE text: the first fault of its spelling, else a limit that it passes.
#[derive(Clone, Copy, Debug, PartialEq, Eq, Error)]
pub enum RleFault {
    /// A word of a `#CXRLE` line or an item is misspelled.
    #[error("syntax")]
    Syntax,
    /// No line is a header, or the line where it should stand isn't one.
    #[error("no header")]
    Header,
    /// The header names no rule, and an `#r` line gives XLife's.
    #[error("a rule in XLife's way")]
    XlifeRule,
    /// The bytes end before `!`.
    #[error("no end")]
    NoEnd,
    /// A cell's state is above 255.
    #[error("a state above 255")]
    BadState,
    /// A count, the corner or a live cell is out of range.
    #[error("out of range")]
    Range,
    /// There are more than 16777216 live cells.
    #[error("too many cells")]
    TooManyCells,
    /// The generation is above 2^63 - 1.
    #[error("the generation is too large")]
    GenTooLarge,
    /// An allocation failed.
    #[error("out of memory")]
    Memory,
}

impl From<ca_plane::Memory> for RleFault {
    ghost from_gives = { λ _ f. f ≡ Memory };

    fn from(_refused: ca_plane::Memory) -> RleFault {
        RleFault::Memory
    }
}

/// A fault, and the number of the line on which it stands, counted from 1: none for a limit that is passed,
/// and for want of memory.
#[derive(Clone, Copy, Debug, PartialEq, Eq)]
pub struct LineFault {
    pub fault: RleFault,
    pub line: Option<u64>,
}

impl From<ca_plane::Memory> for LineFault {
    ghost from_gives = { λ _ f. (f.fault ≡ Memory) × (f.line ≡ None) };

    fn from(_refused: ca_plane::Memory) -> LineFault {
        LineFault {
            fault: RleFault::Memory,
            line: None,
        }
    }
}
