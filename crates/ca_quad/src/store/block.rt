//! Blocks of 32 by 32 cells or less, which are read at once.

ghost use Rattle.std.specs.Prelude.{◌≡◌, ℕ, ◌+◌, ◌<◌, ◌≤◌, ◌^◌, pos, neg_ℤ, ◌+ℤ◌, ◌≤ℤ◌, IfOk, MatchOption};
ghost use Rattle.std.proofs.Common.{arith};
ghost use Rattle.ca_plane.specs.Prelude.{cell, IsSparse};
ghost use Rattle.ca_quad.specs.Sound.{Grows};
ghost use Rattle.ca_quad.specs.inner.Block.{block_cells, IsCell, TellsPlace, IsPut, IsRight};
ghost use Rattle.ca_quad.specs.inner.Filled.{cells_from, LiesNear, AreRowsOf};
ghost use Rattle.ca_quad.specs.inner.Rows.{point_at, IsInRow, IsPictureRow, AreRows, HoldCells};
ghost use Rattle.ca_quad.specs.inner.Window.{ShowsFrom};

use super::Store;
use super::gather::Block;
use super::rows::Row;
use crate::id::Id;
use crate::tree::Spot;
use ca_plane::{Memory, Point};

impl Store {
    // The square of this level, at most 5, whose corner lies there and which shows the cells, of which the
    // rows hold all that lie there.
    pub(super) fn fill_block(
        &mut self,
        cells: &[(Point, u8)],
        rows: &[Row],
        level: u8,
        at: Spot,
    ) -> Result<Id, Memory>
        requires least { 1 ≤ level }
        requires most { level ≤ 5 }
        requires rows { AreRowsOf level cells.now rows.now at }
        ensures shows { IfOk result (λ id. ShowsFrom self.new id level (cells_from (cell cells.now) at) 0 0) }
        ensures grows { Grows self.old self.new }
    {
        let states = block_states(cells, rows, at);
        self.gather(&states, level, 0, 0)
    }
}

impl Block for [u8; 1024] {
    const LEAST: u8 = 1;

    ghost LEAST = { 1 };

    ghost side = { 32 };

    ghost cells = { block_cells };

    fn least_square(&self, store: &mut Store, x: usize, y: usize) -> Result<Id, Memory> {
        store.leaf(
            block_cell(self, x, y),
            block_cell(self, x + 1, y),
            block_cell(self, x, y + 1),
            block_cell(self, x + 1, y + 1),
        )
    }

    ghost some = { omega arith };

    ghost small = { omega arith };
}

// The state of a block's cell.
fn block_cell(states: &[u8; 1024], x: usize, y: usize) -> u8
    requires x { x ≤ 31 }
    requires y { y ≤ 31 }
    ensures { result ≡ block_cells states.now x y }
{
    states[32 * y + x]
}

// The states of the block whose corner lies there, as far as the rows hold all cells that lie there.
fn block_states(cells: &[(Point, u8)], rows: &[Row], at: Spot) -> [u8; 1024]
    requires near { LiesNear 0 at }
    requires sparse { IsSparse cells.now }
    requires rows { AreRows cells.now rows.now }
    ensures { (side : ℕ) → side ≤ 32 → HoldCells cells.now rows.now side at → (x y : ℕ) → x < side → y < side
        → IsRight cells.now at result x y }
{
    let mut states = [0; 1024];
    'rows: for &row in rows {
        put_row(&mut states, cells, row, at);
    }
    states
}

// Writes the states of a row's cells, of those that lie in the block.
fn put_row(states: &mut [u8; 1024], cells: &[(Point, u8)], row: Row, at: Spot)
    requires near { LiesNear 0 at }
    requires sparse { IsSparse cells.now }
    requires row { IsPictureRow cells.now row }
    ensures put { (i x y : ℕ) → IsInRow row i → IsCell at (point_at cells.now i) x y
        → IsRight cells.now at states.new x y }
    ensures kept { (x y : ℕ) → x < 32 → y < 32 → IsRight cells.now at states.old x y
        → IsRight cells.now at states.new x y }
{
    'places: for place in row.first..row.end {
        let (point, state) = cells[place];
        put_cell(states, point, state, at);
    }
}

// Writes the state of a cell, where it lies in the block.
fn put_cell(states: &mut [u8; 1024], point: Point, state: u8, at: Spot)
    requires near { LiesNear 0 at }
    ensures { IsPut at point state states.old states.new }
{
    if let Some(place) = place_in(point, at) {
        states[place] = state;
    }
}

// The place of a point's state in a block, where the point lies there.
fn place_in(point: Point, at: Spot) -> Option<usize>
    requires near { LiesNear 0 at }
    ensures { TellsPlace at point result }
{
    let x = offset_from(at.x, point.x)?;
    let y = offset_from(at.y, point.y)?;
    Some(32 * y + x)
}

// How far the coordinate is from the first one, where it is not below it and less than 32 above it.
fn offset_from(first: i128, coordinate: i64) -> Option<usize>
    requires low { neg_ℤ (pos (2 ^ 64)) ≤ℤ first }
    requires high { (first +ℤ pos 0) ≤ℤ pos (2 ^ 64) }
    ensures { MatchOption result ((n : ℕ) → n < 32 → coordinate ≡ first +ℤ pos n → ⊥)
        (λ n. (n < 32) × (coordinate ≡ first +ℤ pos n)) }
{
    let way = i128::from(coordinate) - first;
    if way < 0 {
        return None;
    }
    if way >= 32 {
        return None;
    }
    Some(way as usize)
}
