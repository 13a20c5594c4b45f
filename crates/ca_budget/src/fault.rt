//! Why a tree was not advanced.

ghost use Rattle.std.specs.Prelude.{◌≡◌};
ghost use Rattle.ca_budget.specs.declared.fault.LeapFault.TheVariants.{Memory};

use thiserror::Error;

/// Why a tree was not advanced.
#[derive(Clone, Copy, Debug, PartialEq, Eq, Error)]
pub enum LeapFault {
    /// An allocation failed.
    #[error("out of memory")]
    Memory,
    /// As much work was done as may be.
    #[error("out of work")]
    Work,
}

impl From<ca_plane::Memory> for LeapFault {
    ghost from_gives = { λ _ f. f ≡ Memory };

    fn from(_refused: ca_plane::Memory) -> LeapFault {
        LeapFault::Memory
    }
}
