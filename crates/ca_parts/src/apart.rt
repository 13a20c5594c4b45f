//! Whether two planes are apart: no window of three by three cells sees live cells of both.

ghost use Rattle.std.specs.Prelude.{◌≡◌, ℕ, ◌^◌, ℤ, pos, ◌+ℤ◌, ◌≤ℤ◌, ◌<ℤ◌, IsTrue, IsFalse, ◌↔◌};
ghost use Rattle.ca_plane.specs.Prelude.{cell, shifted, IsSparse};
ghost use Rattle.ca_parts.specs.Parts.{AreApart, AreFurther};
ghost use Rattle.ca_parts.specs.inner.Apart.{AreFarBoxes, AreFarStretches, AreFurtherWhenMoved};
ghost use Rattle.ca_parts.specs.inner.Apart.{IsNearLive, IsShort, IsShortWay};

use crate::rows::is_live_between;
use ca_plane::{Bounds, Plane, Point};

/// Whether the planes are apart: no window of three by three cells sees live cells of both.
///
/// Planes with boxes of live cells that are far from each other are told by these. Else each cell of the
/// plane with fewer is looked for in the other.
pub fn are_apart(one: &Plane, other: &Plane) -> bool
    ensures { IsTrue result ↔ AreApart (cell one.now) (cell other.now) }
{
    are_further(one, Way::of(0, 0), other)
}

/// The same of the first plane moved by `dx` to the right and `dy` downward, however far that is.
pub fn are_apart_when_moved(one: &Plane, dx: i64, dy: i64, other: &Plane) -> bool
    ensures { IsTrue result ↔ AreApart (cell (shifted one.now dx dy)) (cell other.now) }
{
    are_further(one, Way::of(dx, dy), other)
}

/// Planes are apart exactly where no two live cells, one of each, are within 2 of each other in both
/// directions.
pub fn apart_planes_are_further_than_two()
    ensures { (f g : ℤ → ℤ → ℕ) → AreApart f g ↔ AreFurther 2 f g }
{}

// How far a plane is moved.
#[derive(Clone, Copy)]
pub(crate) struct Way {
    pub(crate) dx: i128,
    pub(crate) dy: i128,
}

impl Way {
    fn of(dx: i64, dy: i64) -> Way
        ensures across { result.dx ≡ dx }
        ensures down { result.dy ≡ dy }
        ensures short { IsShortWay result }
    {
        Way {
            dx: i128::from(dx),
            dy: i128::from(dy),
        }
    }

    // The way back.
    fn back(self) -> Way
        requires { IsShortWay self }
        ensures across { result.dx +ℤ self.dx ≡ pos 0 }
        ensures down { result.dy +ℤ self.dy ≡ pos 0 }
        ensures short { IsShortWay result }
    {
        Way {
            dx: -self.dx,
            dy: -self.dy,
        }
    }
}

// Whether no live cell of the first plane, moved, is within 2 of a live cell of the other.
pub(crate) fn are_further(one: &Plane, way: Way, other: &Plane) -> bool
    requires { IsShortWay way }
    ensures { IsTrue result ↔ AreFurtherWhenMoved one.now way.dx way.dy other.now }
{
    if are_boxes_further(one, way, other) {
        return true;
    }
    if one.len() <= other.len() {
        is_each_far(one.as_slice(), way, other.as_slice())
    } else {
        is_each_far(other.as_slice(), way.back(), one.as_slice())
    }
}

// Whether the boxes round the live cells show it.
fn are_boxes_further(one: &Plane, way: Way, other: &Plane) -> bool
    requires { IsShortWay way }
    ensures { IsTrue result → AreFurtherWhenMoved one.now way.dx way.dy other.now }
{
    let Some(bounds) = one.bounds() else {
        return true;
    };
    let Some(others) = other.bounds() else {
        return true;
    };
    are_far(bounds, way, others)
}

// Whether each place of the first box, moved, is more than 2 from each of the other.
fn are_far(one: Bounds, way: Way, other: Bounds) -> bool
    requires { IsShortWay way }
    ensures { IsTrue result → AreFarBoxes one way.dx way.dy other }
{
    are_far_along(one.x0, one.x1, way.dx, other.x0, other.x1)
        || are_far_along(one.y0, one.y1, way.dy, other.y0, other.y1)
}

// Whether each coordinate of the first stretch, moved by the distance, is more than 2 from each of the other.
fn are_far_along(low: i64, high: i64, distance: i128, other_low: i64, other_high: i64) -> bool
    requires { IsShort distance }
    ensures { IsTrue result → AreFarStretches low high distance other_low other_high }
{
    is_well_above(i128::from(other_low), i128::from(high) + distance)
        || is_well_above(i128::from(low) + distance, i128::from(other_high))
}

// Whether the first coordinate is more than 2 above the second.
fn is_well_above(upper: i128, lower: i128) -> bool
    requires { lower ≤ℤ pos (2 ^ 66) }
    ensures { IsTrue result → (lower +ℤ pos 2) <ℤ upper }
{
    lower + 2 < upper
}

// Whether none of the cells, moved, is within 2 of a live cell of the others.
fn is_each_far(cells: &[(Point, u8)], way: Way, others: &[(Point, u8)]) -> bool
    requires short { IsShortWay way }
    requires sparse { IsSparse cells.now }
    requires sparse_too { IsSparse others.now }
    ensures { IsTrue result ↔ AreFurtherWhenMoved cells.now way.dx way.dy others.now }
{
    'cells: for &(at, _) in cells {
        if is_near(others, at, way) {
            return false;
        }
    }
    true
}

// Whether some cell is live within 2 of the point, moved.
fn is_near(cells: &[(Point, u8)], at: Point, way: Way) -> bool
    requires sparse { IsSparse cells.now }
    requires short { IsShortWay way }
    ensures near { IsTrue result → IsNearLive cells.now (at.x +ℤ way.dx) (at.y +ℤ way.dy) }
    ensures far { IsFalse result → IsNearLive cells.now (at.x +ℤ way.dx) (at.y +ℤ way.dy) → ⊥ }
{
    let x = i128::from(at.x) + way.dx;
    let y = i128::from(at.y) + way.dy;
    'rows: for row in y - 2..y + 3 {
        if is_live_between(cells, x - 2, x + 2, row) {
            return true;
        }
    }
    false
}
