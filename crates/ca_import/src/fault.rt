//! What is wrong with a text of another format.

ghost use Rattle.std.specs.Prelude.{◌≡◌, ℕ, List};
ghost use Rattle.ca_import.specs.declared.fault.ImportFault.TheVariants.{Memory};
ghost use Rattle.ca_import.specs.Import.{IsImportFaultOn, HasFaultOn};

use thiserror::Error;

/// What is wrong with a text: its format, else its first faulty line.
#[derive(Clone, Copy, Debug, PartialEq, Eq, Error)]
pub enum ImportFault {
    /// The text is in none of the formats.
    #[error("an unknown format")]
    UnknownFormat,
    /// A line is misspelled, or an apgcode's representation is that of no cells.
    #[error("syntax")]
    Syntax,
    /// A row stands before any `#P` line.
    #[error("a row before its corner")]
    NoCorner,
    /// A live cell, a corner or a row is out of range.
    #[error("out of range")]
    Range,
    /// There are more than 16777216 live cells.
    #[error("too many cells")]
    TooManyCells,
    /// An allocation failed.
    #[error("out of memory")]
    Memory,
}

impl From<ca_plane::Memory> for ImportFault {
    ghost from_gives = { λ _ f. f ≡ Memory };

    fn from(_refused: ca_plane::Memory) -> ImportFault {
        ImportFault::Memory
    }
}

/// A fault, and the number of the line on which it stands, counted from 1: none for an unknown format and for
/// want of memory.
#[derive(Clone, Copy, Debug, PartialEq, Eq)]
pub struct LineFault {
    pub fault: ImportFault,
    pub line: Option<u64>,
}

impl LineFault {
    /// What was met at the line with this number.
    pub(crate) fn at_line(fault: ImportFault, number: u64) -> LineFault
        ensures { (bytes : List ℕ) → HasFaultOn bytes fault number
            → IsImportFaultOn bytes result.fault result.line }
    {
        let line = match fault {
            ImportFault::Memory => None,
            _ => Some(number),
        };
        LineFault { fault, line }
    }
}
