//! What every square looks like.

use crate::id::Id;

/// What every square looks like: four cells, or a level and four parts of one level less.
/// They are in the order north-west, north-east, south-west, south-east.
#[derive(Clone, Copy, Drop)]
pub(crate) enum Square {
    Four(u8, u8, u8, u8),
    Parts(u8, Id, Id, Id, Id),
}
