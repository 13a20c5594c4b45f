//! Four squares that lie together.

use crate::id::Id;

/// Four squares of one level, as they lie in a larger one.
#[derive(Clone, Copy, PartialEq, Eq, Hash, Drop)]
pub(crate) struct Neighbours {
    pub nw: Id,
    pub ne: Id,
    pub sw: Id,
    pub se: Id,
}
