//! A result at full leap.

use ca_quad::Id;

/// A square, and its centre as far ahead as it can be known.
#[derive(Clone, Copy, Drop)]
pub(crate) struct FullLeap {
    pub(crate) square: Id,
    pub(crate) centre: Id,
}
