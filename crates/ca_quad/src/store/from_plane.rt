//! Planes that are made trees.

ghost use Rattle.std.specs.Prelude.{◌≡◌, ◌-◌, ◌≤◌, ◌^◌, ℤ, IsTrue, IsFalse, IfOk};
ghost use Rattle.ca_plane.specs.Prelude.{cell as plane_cell};
ghost use Rattle.ca_quad.specs.Sound.{Grows};
ghost use Rattle.ca_quad.specs.Trees.{IsTree, cell, HoldsAll, IsTrimmed};
ghost use Rattle.ca_quad.specs.inner.Filled.{cells_from, AreRowsOf, HoldsBox, IsEmptyOf};
ghost use Rattle.ca_quad.specs.inner.Window.{ShowsFrom};

use super::Store;
use super::read::half_side;
use super::rows::{Row, parts_round, rows_of};
use super::to_plane::{first_corner, part_corners};
use crate::id::Id;
use crate::tree::{Spot, Tree};
use ca_plane::{Bounds, Memory, Plane, Point};
use std::alloc::Global;

// A square of this level is a block, and one of the next with this many rows: lone cells would make it dear.
const LEAST: u8 = 4;

const MANY: usize = 8;

// A tree of this level holds every point of a plane.
const LARGEST: u8 = 65;

impl Store {
    /// The tree of the smallest level, at least 1, that shows the cells of a plane.
    ///
    /// # Errors
    ///
    /// Fails where there is no memory for more squares, and may leave more squares in the store than before.
    pub fn from_plane(&mut self, plane: &Plane) -> Result<Tree, Memory>
        ensures tree { IfOk result (IsTree self.new) }
        ensures cells { IfOk result (λ t. (x y : ℤ) → cell self.new t x y ≡ plane_cell plane.now x y) }
        ensures trimmed { IfOk result (IsTrimmed self.new) }
        ensures grows { Grows self.old self.new }
    {
        let alloc = *self.nodes.allocator();
        let level = level_for(plane);
        let empty = self.empty(level)?;
        let corner = first_corner(half_side(level));
        let cells = plane.as_slice();
        let rows = rows_of(alloc, cells)?;
        let root = self.fill(alloc, cells, &rows, empty, level, corner)?;
        self.trim(Tree { root, level })
    }

    // The square of this level, from 4 to 65, whose corner lies there and which shows the cells, given the
    // empty one. The rows hold all cells that lie there.
    #[tactic(auto, using(crate::proofs::FilledSquares::grows_five))]
    fn fill(
        &mut self,
        alloc: Global,
        cells: &[(Point, u8)],
        rows: &[Row],
        empty: Id,
        level: u8,
        at: Spot,
    ) -> Result<Id, Memory>
        requires empty { IsEmptyOf self.old 4 level empty }
        requires rows { AreRowsOf level cells.now rows.now at }
        ensures shows { IfOk result (λ id. ShowsFrom self.new id level
            (cells_from (plane_cell cells.now) at) 0 0) }
        ensures grows { Grows self.old self.new }
    {
        let _ = &self.nodes;
        if rows.is_empty() {
            return Ok(empty);
        }
        if is_block(level, rows.len()) {
            return self.fill_block(cells, rows, level, at);
        }
        let [part, _, _, _] = self.children(empty);
        let corners = part_corners(at, half_side(level));
        let parts = parts_round(alloc, cells, rows, corners.se)?;
        let nw = self.fill(alloc, cells, &parts.nw, part, level - 1, at)?;
        let ne = self.fill(alloc, cells, &parts.ne, part, level - 1, corners.ne)?;
        let sw = self.fill(alloc, cells, &parts.sw, part, level - 1, corners.sw)?;
        let se = self.fill(alloc, cells, &parts.se, part, level - 1, corners.se)?;
        self.join(nw, ne, sw, se)
    }
}

// Whether a square of this level with `rows` rows is read at once.
fn is_block(level: u8, rows: usize) -> bool
    requires { 4 ≤ level }
    ensures small { IsTrue result → level ≤ 5 }
    ensures large { IsFalse result → 5 ≤ level }
{
    if level == LEAST {
        return true;
    }
    level == LEAST + 1 && rows >= MANY
}

// The smallest level, from 4 to 65, of trees that hold every live cell of a plane.
fn level_for(plane: &Plane) -> u8
    ensures least { 4 ≤ result }
    ensures most { result ≤ 65 }
    ensures holds { HoldsAll result (plane_cell plane.now) }
{
    let Some(bounds) = plane.bounds() else {
        return LEAST;
    };
    level_from(bounds, LEAST)
}

// The smallest level, from `level` to 65, of a tree that holds the box.
pub(super) fn level_from(bounds: Bounds, level: u8) -> u8
    requires least { 4 ≤ level }
    requires most { level ≤ 65 }
    ensures least { 4 ≤ result }
    ensures most { result ≤ 65 }
    ensures from { level ≤ result }
    ensures holds { HoldsBox (2 ^ (result - 1)) bounds }
{
    if level == LARGEST {
        return LARGEST;
    }
    if holds_box(half_side(level), bounds) {
        return level;
    }
    level_from(bounds, level + 1)
}

// Whether a tree with this half of a side holds the box.
fn holds_box(half: u128, bounds: Bounds) -> bool
    requires { half ≤ 2 ^ 124 }
    ensures { IsTrue result → HoldsBox half bounds }
{
    let half = half as i128;
    if i128::from(bounds.x0) < -half {
        return false;
    }
    if i128::from(bounds.x1) >= half {
        return false;
    }
    if i128::from(bounds.y0) < -half {
        return false;
    }
    i128::from(bounds.y1) < half
}
