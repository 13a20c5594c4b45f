//! Trees, and places on them.

ghost use Rattle.std.specs.Prelude.{◌≡◌, ◌+◌, ◌<◌, ◌≤◌, ◌^◌, ◌⊎◌, pos, ◌+ℤ◌, ◌<ℤ◌, ◌≤ℤ◌, IfSome, IfNone};

use crate::id::Id;

/// A square that lies on the unbounded plane. One of level k covers x and y from -2^(k-1) to 2^(k-1) - 1.
/// Every cell outside it is 0.
#[derive(Clone, Copy, Debug, PartialEq, Eq, Drop)]
pub struct Tree {
    pub root: Id,
    /// The level of the root, from 1 to 125.
    pub level: u8,
}

/// A place of the unbounded plane. `x` grows to the right and `y` downward.
#[derive(Clone, Copy, Debug, PartialEq, Eq)]
pub struct Spot {
    pub x: i128,
    pub y: i128,
}

/// A box of places, both ends included.
#[derive(Clone, Copy, Debug, PartialEq, Eq)]
pub struct WideBounds {
    pub x0: i128,
    pub y0: i128,
    pub x1: i128,
    pub y1: i128,
}

/// How far a place lies from the left or upper edge of a square that is `half` wide on either side of 0: none
/// where it lies outside.
pub fn edge_distance(half: u128, at: i128) -> Option<u128>
    requires { half ≤ 2 ^ 124 }
    ensures inside { IfSome result (λ n. (at +ℤ pos half ≡ pos n) × (n < half + half)) }
    ensures outside { IfNone result (((at +ℤ pos half) <ℤ pos 0) ⊎ (pos (half + half) ≤ℤ (at +ℤ pos half))) }
{
    let half = half as i128;
    if at < -half {
        return None;
    }
    if at >= half {
        return None;
    }
    Some((at + half) as u128)
}
