//! Why the clusters of a plane aren't found.

ghost use Rattle.std.specs.Prelude.{◌≡◌};
ghost use Rattle.ca_clusters.specs.declared.fault.ClusterFault.TheVariants.{Memory};

use std::alloc::{AllocError, AllocFailed};
use thiserror::Error;

/// Why the clusters of a plane were not found.
#[derive(Clone, Copy, Debug, PartialEq, Eq, Error)]
pub enum ClusterFault {
    /// An allocation failed.
    #[error("out of memory")]
    Memory,
    /// The budget is used up. Whether the plane is settled isn't known then.
    #[error("the budget is used up")]
    Spent,
    /// A part of the plane, going on alone, dies before it meets another. So it isn't known yet whether the plane is
    /// settled; a later one may tell.
    #[error("a part dies alone")]
    Spark,
    /// A part of the plane, going on alone, comes too near the edge of the square in which cells are stepped.
    #[error("a live cell is too far from the origin for a step")]
    Range,
}

impl From<ca_plane::Memory> for ClusterFault {
    ghost from_gives = { λ _ f. f ≡ Memory };

    fn from(_refused: ca_plane::Memory) -> ClusterFault {
        ClusterFault::Memory
    }
}

impl From<AllocError> for ClusterFault {
    ghost from_gives = { λ _ f. f ≡ Memory };

    fn from(_refused: AllocError) -> ClusterFault {
        ClusterFault::Memory
    }
}

impl<T: Drop> From<AllocFailed<T>> for ClusterFault {
    ghost from_gives = { λ _ f. f ≡ Memory };

    fn from(_refused: AllocFailed<T>) -> ClusterFault {
        ClusterFault::Memory
    }
}
