//! Planes that are another one, moved.

ghost use Rattle.std.specs.Prelude.{◌≡◌, ℤ, length, IsNone, IfSome, IsTrue, ◌↔◌};
ghost use Rattle.ca_plane.specs.Prelude.{shifted, IsSame, IsLive, IsSparse, IsInPlane};
ghost use Rattle.ca_clusters.specs.inner.Shifts.{IsShift};

use ca_plane::{Plane, Point};

/// A way to the right and downward.
#[derive(Clone, Copy)]
pub(crate) struct Shift {
    pub(crate) dx: i128,
    pub(crate) dy: i128,
}

/// The vector by which the other plane is the first one, moved, if it is. The first one is live.
pub(crate) fn shift_between(one: &Plane, other: &Plane) -> Option<Shift>
    requires { IsLive one.now }
    ensures some { IfSome result (λ s. IsSame other.now (shifted one.now s.dx s.dy)) }
    ensures none { IsNone result → (dx dy : ℤ) → IsSame other.now (shifted one.now dx dy) → ⊥ }
{
    let (from, to) = (one.as_slice(), other.as_slice());
    if from.len() != to.len() {
        return None;
    }
    let shift = shift_of(from.first()?.0, to.first()?.0);
    if are_moved(from, to, shift) {
        Some(shift)
    } else {
        None
    }
}

// The vector from one point to another.
fn shift_of(from: Point, to: Point) -> Shift
    requires from { IsInPlane from }
    requires to { IsInPlane to }
    ensures { IsShift from to result }
{
    Shift {
        dx: i128::from(to.x) - i128::from(from.x),
        dy: i128::from(to.y) - i128::from(from.y),
    }
}

// Whether each cell is the one at the same place of the first list, moved.
fn are_moved(from: &[(Point, u8)], to: &[(Point, u8)], shift: Shift) -> bool
    requires from { IsSparse from.now }
    requires to { IsSparse to.now }
    requires lengths { length from.now ≡ length to.now }
    ensures { IsTrue result ↔ (to.now ≡ shifted from.now shift.dx shift.dy) }
{
    'cells: for (&(at, state), &(there, other)) in from.iter().zip(to) {
        if state != other || !is_moved(at, there, shift) {
            return false;
        }
    }
    true
}

// Whether the second point is the first one, moved.
fn is_moved(from: Point, to: Point, shift: Shift) -> bool
    requires from { IsInPlane from }
    requires to { IsInPlane to }
    ensures { IsTrue result ↔ IsShift from to shift }
{
    let Shift { dx, dy } = shift_of(from, to);
    dx == shift.dx && dy == shift.dy
}
