//! Trees that are made planes.

ghost use Rattle.std.specs.Prelude.{◌≡◌, ◌≤◌, ◌^◌, pos, neg_ℤ, IsTrue, IsFalse, IfOk, IfErr, OnOk};
ghost use Rattle.ca_plane.specs.Prelude.{IsInPlane, IsSparse, HasFewCells};
ghost use Rattle.ca_quad.specs.Trees.{IsTree, cell};
ghost use Rattle.ca_quad.specs.Expanded.{FitsPlane, IsExpanded, IsRefused};
ghost use Rattle.ca_quad.specs.inner.Drawn.{IsNearSpot, ArePartCorners};
ghost use Rattle.ca_quad.specs.inner.Reach.{IsBoxInReach, IsBoxOutOfReach};

use super::Store;
use super::read::half_side;
use crate::fault::QuadFault;
use crate::tree::{Spot, Tree, WideBounds};
use ca_plane::limits::{MOST_CELLS, REACH};
use ca_plane::{Plane, Point};
use std::alloc::Global;

// The most live cells that are handled at once.
const MAX_CELLS: u128 = MOST_CELLS as u128;

// A tree of this level lies in the square of a plane.
const INSIDE: u8 = 63;

// The corners of three parts of a square; the north-western one has that of the square.
#[derive(Clone, Copy, Drop)]
pub(crate) struct Corners {
    pub ne: Spot,
    pub sw: Spot,
    pub se: Spot,
}

impl Store {
    /// The plane with the cells of a tree.
    ///
    /// The limits are judged by squares, each looked at once, before a cell is read.
    ///
    /// # Errors
    ///
    /// `Range` where a live cell lies outside the square in which a plane keeps its cells, that is, from
    /// -2^62 to 2^62 in both directions; else `TooManyCells` where more than 16777216 cells are live; and
    /// `Memory` where an allocation fails.
    pub fn to_plane(&self, alloc: Global, tree: Tree) -> Result<Plane, QuadFault>
        requires { IsTree self.now tree }
        ensures cells { IfOk result (IsExpanded self.now tree) }
        ensures sparse { IfOk result IsSparse }
        ensures fault { IfErr result (IsRefused self.now tree) }
    {
        self.check_limits(alloc, tree)?;
        Ok(self.draw_plane(alloc, tree)?)
    }

    // Looks whether the live cells of a tree lie in the square of a plane and aren't too many.
    fn check_limits(&self, alloc: Global, tree: Tree) -> Result<(), QuadFault>
        requires { IsTree self.now tree }
        ensures fits { OnOk result (FitsPlane (cell self.now tree)) }
        ensures few { OnOk result (HasFewCells (cell self.now tree)) }
        ensures fault { IfErr result (IsRefused self.now tree) }
    {
        self.check_reach(alloc, tree)?;
        if self.live_cells(alloc, tree.root)? > MAX_CELLS {
            return Err(QuadFault::TooManyCells);
        }
        Ok(())
    }

    // Looks whether the live cells of a tree lie in the square of a plane.
    fn check_reach(&self, alloc: Global, tree: Tree) -> Result<(), QuadFault>
        requires { IsTree self.now tree }
        ensures fits { OnOk result (FitsPlane (cell self.now tree)) }
        ensures fault { IfErr result (IsRefused self.now tree) }
    {
        if self.level(tree.root) <= INSIDE {
            return Ok(());
        }
        let Some(bounds) = self.bounds(alloc, tree)? else {
            return Ok(());
        };
        if !are_in_reach(bounds) {
            return Err(QuadFault::Range);
        }
        Ok(())
    }
}

// The corner of a tree with this half of a side.
pub(super) fn first_corner(half: u128) -> Spot
    requires { half ≤ 2 ^ 124 }
    ensures x { result.x ≡ neg_ℤ (pos half) }
    ensures y { result.y ≡ neg_ℤ (pos half) }
{
    let edge = -(half as i128);
    Spot { x: edge, y: edge }
}

// The corners of the parts of a square whose own corner lies there, and whose parts have this side.
pub(super) fn part_corners(at: Spot, side: u128) -> Corners
    requires side { side ≤ 2 ^ 124 }
    requires near { IsNearSpot at }
    ensures { ArePartCorners at side result }
{
    let east = at.x + side as i128;
    let south = at.y + side as i128;
    Corners {
        ne: Spot { x: east, y: at.y },
        sw: Spot { x: at.x, y: south },
        se: Spot { x: east, y: south },
    }
}

// The point of a plane at a place.
pub(super) fn point(at: Spot) -> Point
    requires { IsInPlane (record { y = at.y; x = at.x }) }
    ensures x { result.x ≡ at.x }
    ensures y { result.y ≡ at.y }
{
    Point {
        y: at.y as i64,
        x: at.x as i64,
    }
}

// Whether the box lies in the square in which a plane keeps its cells.
fn are_in_reach(bounds: WideBounds) -> bool
    ensures yes { IsTrue result → IsBoxInReach bounds }
    ensures no { IsFalse result → IsBoxOutOfReach bounds }
{
    if bounds.x0 < -REACH {
        return false;
    }
    if bounds.x1 > REACH {
        return false;
    }
    if bounds.y0 < -REACH {
        return false;
    }
    bounds.y1 <= REACH
}
