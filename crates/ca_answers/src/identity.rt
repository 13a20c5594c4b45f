//! What a pattern is.

use ca_plane::Bounds;
use ca_text::Kind;

/// What a pattern is found to be, by what its plane shows up to a limit. One of these holds of each pattern, and no other.
#[derive(Clone, Copy, Debug, PartialEq, Eq)]
pub enum Identity {
    /// No cell is live, so that none of the others can be claimed.
    Empty,
    /// The pattern is live, and the claim of this kind is true of it: one that names no other pattern.
    Claim(Kind),
    /// The pattern is live, and no such claim is true of it within the limit. The growth is that of its plane
    /// after as many generations as the limit.
    Unknown { growth: Growth },
}

/// How far a live plane has grown: how many cells are live, and the smallest box round them.
#[derive(Clone, Copy, Debug, PartialEq, Eq)]
pub struct Growth {
    pub cells: u128,
    pub bounds: Bounds,
}
