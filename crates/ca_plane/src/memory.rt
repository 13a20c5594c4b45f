//! Out of memory, and why a text isn't written, or a plane or a tree isn't moved.

ghost use Rattle.std.specs.Prelude.{◌≡◌};
ghost use Rattle.ca_plane.specs.declared.memory.MoveFault.TheVariants.{Memory};

use std::alloc::{AllocError, AllocFailed};
use thiserror::Error;

/// An allocation failed.
#[derive(Clone, Copy, Debug, PartialEq, Eq, Error)]
#[error("out of memory")]
pub struct Memory;

impl From<AllocError> for Memory {
    ghost from_gives = { λ _ m. m ≡ record {} };

    fn from(_refused: AllocError) -> Memory {
        Memory
    }
}

impl<T: Drop> From<AllocFailed<T>> for Memory {
    ghost from_gives = { λ _ m. m ≡ record {} };

    fn from(_refused: AllocFailed<T>) -> Memory {
        Memory
    }
}

/// Why a text was not written.
#[derive(Clone, Copy, Debug, PartialEq, Eq, Error)]
pub enum WriteFault {
    /// Memory was refused before the first byte, and nothing was written.
    #[error("out of memory")]
    Memory,
    /// A write failed or took no byte, after some first part of the text was written.
    #[error("writing failed")]
    Write,
}

/// Why a plane or a tree was not moved.
#[derive(Clone, Copy, Debug, PartialEq, Eq, Error)]
pub enum MoveFault {
    /// An allocation failed.
    #[error("out of memory")]
    Memory,
    /// A live cell would leave the square in which a plane keeps its cells.
    #[error("a cell would leave the plane")]
    Range,
}

impl From<Memory> for MoveFault {
    ghost from_gives = { λ _ f. f ≡ Memory };

    fn from(_refused: Memory) -> MoveFault {
        MoveFault::Memory
    }
}
