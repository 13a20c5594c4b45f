//! Why a tree was not made a plane.

ghost use Rattle.std.specs.Prelude.{◌≡◌};
ghost use Rattle.ca_quad.specs.declared.fault.QuadFault.TheVariants.{Memory as NoMemory};

use ca_plane::Memory;
use thiserror::Error;

/// Why a tree was not made a plane.
#[derive(Clone, Copy, Debug, PartialEq, Eq, Error)]
pub enum QuadFault {
    /// An allocation failed.
    #[error("out of memory")]
    Memory,
    /// More cells are live than are handled at once.
    #[error("too many cells")]
    TooManyCells,
    /// A live cell lies outside the square in which a plane keeps its cells.
    #[error("a cell lies outside the plane")]
    Range,
}

impl From<Memory> for QuadFault {
    ghost from_gives = { λ _ f. f ≡ NoMemory };

    fn from(_refused: Memory) -> QuadFault {
        QuadFault::Memory
    }
}
