//! Why a text is not read.

ghost use Rattle.std.specs.Prelude.{◌≡◌};
ghost use Rattle.ca_apgcode.specs.declared.fault.ReadFault.TheVariants.{Memory};

use thiserror::Error;

/// Why a text is not read.
#[derive(Clone, Copy, Debug, PartialEq, Eq, Error)]
pub enum ReadFault {
    /// An allocation failed.
    #[error("out of memory")]
    Memory,
    /// The text isn't the representation of cells in their smallest box, at most 40 by 40.
    #[error("no representation of at most 40 by 40 cells")]
    NoRepresentation,
}

impl From<ca_plane::Memory> for ReadFault {
    ghost from_gives = { λ _ f. f ≡ Memory };

    fn from(_refused: ca_plane::Memory) -> ReadFault {
        ReadFault::Memory
    }
}
