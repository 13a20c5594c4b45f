//! Why a plane was not stepped.

ghost use Rattle.std.specs.Prelude.{◌≡◌};
ghost use Rattle.ca_steps.specs.declared.fault.RunFault.TheVariants.{Memory};

use thiserror::Error;

/// Why a plane was not stepped.
#[derive(Clone, Copy, Debug, PartialEq, Eq, Error)]
pub enum RunFault {
    /// An allocation failed.
    #[error("out of memory")]
    Memory,
    /// A live cell is where its neighbours would leave the plane: outside -(2^62 - 2) to 2^62 - 2.
    #[error("a live cell is too far from the origin for a step")]
    Range,
}

impl From<ca_plane::Memory> for RunFault {
    ghost from_gives = { λ _ f. f ≡ Memory };

    fn from(_refused: ca_plane::Memory) -> RunFault {
        RunFault::Memory
    }
}
