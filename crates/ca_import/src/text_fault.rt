//! Why nothing is written of a text of another format.

ghost use Rattle.std.specs.Prelude.{◌≡◌};
ghost use Rattle.ca_import.specs.declared.text_fault.ImportTextFault.TheVariants.{Memory};

use crate::fault::LineFault;
use ca_rule::RuleFault;
use thiserror::Error;

/// Why nothing is written of a text: the text's own fault, else that of the rule text that is asked for, else
/// too many cells.
#[derive(Clone, Copy, Debug, PartialEq, Eq, Error)]
pub enum ImportTextFault {
    /// The text isn't read, for this fault, on this line.
    #[error("the text isn't read")]
    Text(LineFault),
    /// The rule text that is asked for can't be written.
    #[error("{0}")]
    Rule(RuleFault),
    /// More than 16777216 cells are live, and an RLE is to be written.
    #[error("too many cells")]
    TooManyCells,
    /// An allocation failed while the text was written.
    #[error("out of memory")]
    Memory,
}

impl From<ca_plane::Memory> for ImportTextFault {
    ghost from_gives = { λ _ f. f ≡ Memory };

    fn from(_refused: ca_plane::Memory) -> ImportTextFault {
        ImportTextFault::Memory
    }
}
