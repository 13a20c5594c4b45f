//! Planes of bits of a tree's states as grids of bricks.

ghost use Rattle.std.specs.Prelude.{◌≡◌, ℕ, ◌+◌, ◌*◌, ◌-◌, ◌<◌, ◌≤◌, ◌^◌, ◌⊎◌};
ghost use Rattle.std.specs.Prelude.{MatchOption, ℤ, pos, ◌+ℤ◌, slice_index, IfOk, IfSome};
ghost use Rattle.ca_quad.specs.Prelude.{IsOf, cell};
ghost use Rattle.ca_run.specs.inner.Shown.{ShowsAt};
ghost use Rattle.ca_bricks.specs.Prelude.{WordShows, BrickShows, GridShows};
ghost use Rattle.ca_run.specs.inner.Frames.{IsReadByBricks, IsGridFrame, IsFramed, IsOfFrame, IsNewGrid, piece_start, row_start};

use super::Leaper;
use super::aged_plane::StatePlane;
use crate::bricks::Frame;
use ca_bricks::{BrickGrid, brick_of};
use ca_plane::{Automaton, Memory};
use ca_quad::{Id, Tree};
use std::alloc::Global;

// How many bricks lie side by side in half of a tree of this level.
fn bricks_in_half(level: u8) -> usize
    requires least { 7 ≤ level }
    requires greatest { level ≤ 62 }
    ensures cells { 64 * result ≡ 2 ^ (level - 1) }
    ensures most { result ≤ 2 ^ 55 }
{
    1 << (level - 7)
}

// How far a place lies beyond the first of `count` places, where it is one of them.
fn place_from(place: usize, first: usize, count: usize) -> Option<usize>
    requires { first + count < 2 ^ 63 }
    ensures { MatchOption result ((place < first) ⊎ (first + count ≤ place))
        (λ i. (first + i ≡ place) × (i < count)) }
{
    if place < first || first + count <= place {
        return None;
    }
    Some(place - first)
}

impl<A: Automaton> Leaper<A> {
    // The eight words of a row of a square of 64 by 64 cells, where their bits can be told.
    fn eight_words<P: StatePlane>(&self, plane: P, piece: Id, row: usize) -> Option<[u64; 8]>
        requires square { IsOf self.now.nodes piece 6 }
        requires row { row < 8 }
        ensures { (p : ℤ → ℤ → ℕ) (a b : ℤ) → ShowsAt self.now.nodes piece 6 p a b
            → IfSome result (λ words. (k : ℕ) → k < 8
            → WordShows (slice_index words k) (λ x y. P.bit_of plane (p x y))
            (a +ℤ pos (8 * k)) (b +ℤ pos (8 * row))) }
    {
        let mut words = [0; 8];
        'words: for k in 0..8 {
            words[k] = plane.word(self, self.part_at(piece, 3, 3, k, row))?;
        }
        Some(words)
    }

    // The brick of these numbers of a column and of a row, where its bits can be told.
    fn brick_at<P: StatePlane>(
        &self,
        plane: P,
        tree: &Tree,
        column: usize,
        row: usize,
    ) -> Option<[u64; 16]>
        requires tree { IsReadByBricks self.now.nodes tree.now }
        requires none { P.bit_of plane 0 ≡ 0 }
        ensures { IfSome result (λ rows. BrickShows rows
            (λ x y. P.bit_of plane (cell self.now.nodes tree.now x y)) (piece_start column) (row_start row)) }
    {
        let half = bricks_in_half(tree.level);
        let Some(i) = place_from(column, (1 << 56) - half, 2 * half) else {
            return Some([0; 16]);
        };
        let Some(j) = place_from(row, (1 << 58) - 4 * half, 8 * half) else {
            return Some([0; 16]);
        };
        let piece = self.part_at(tree.root, 6, tree.level - 6, i, j / 4);
        if self.store.is_empty(piece) {
            return Some([0; 16]);
        }
        let north = self.eight_words(plane, piece, 2 * (j % 4))?;
        let south = self.eight_words(plane, piece, 2 * (j % 4) + 1)?;
        Some(brick_of(&north, &south))
    }

    // The brick of a place of a grid, counted from the grid's first: none but those that hold a part of the
    // box is looked at.
    fn brick_in<P: StatePlane>(
        &self,
        plane: P,
        tree: &Tree,
        frame: &Frame,
        i: usize,
        j: usize,
    ) -> Option<[u64; 16]>
        requires tree { IsReadByBricks self.now.nodes tree.now }
        requires frame { IsGridFrame frame.now }
        requires column { i < frame.now.columns.count }
        requires row { j < 4 * frame.now.rows.count }
        requires none { P.bit_of plane 0 ≡ 0 }
        ensures { (m : ℕ) → IsFramed m frame.now (cell self.now.nodes tree.now)
            → IfSome result (λ rows. BrickShows rows
            (λ x y. P.bit_of plane (cell self.now.nodes tree.now x y))
            (piece_start (frame.now.columns.first + i)) (row_start (4 * frame.now.rows.first + j))) }
    {
        let column = frame.columns.first + i;
        let row = 4 * frame.rows.first + j;
        if !frame.columns.holds(column) {
            return Some([0; 16]);
        }
        if !frame.rows.holds(row / 4) {
            return Some([0; 16]);
        }
        self.brick_at(plane, tree, column, row)
    }

    // The grid of a frame round the cells of a tree that aren't dead, of a plane of bits of their states.
    pub(crate) fn grid_of<P: StatePlane>(
        &self,
        alloc: Global,
        plane: P,
        tree: &Tree,
        frame: &Frame,
    ) -> Result<Option<BrickGrid>, Memory>
        requires tree { IsReadByBricks self.now.nodes tree.now }
        requires frame { IsGridFrame frame.now }
        requires none { P.bit_of plane 0 ≡ 0 }
        ensures shows { (m : ℕ) → IsFramed m frame.now (cell self.now.nodes tree.now)
            → IfOk result (λ found. IfSome found
            (λ grid. GridShows grid m (λ x y. P.bit_of plane (cell self.now.nodes tree.now x y)))) }
        ensures place { IfOk result (λ found. IfSome found (IsOfFrame frame.now)) }
        ensures fresh { IfOk result (λ found. IfSome found IsNewGrid) }
    {
        let across = frame.columns.count;
        let mut bricks = Vec::new(alloc);
        'bricks: for t in 0..4 * (across * frame.rows.count) {
            let Some(brick) = self.brick_in(plane, tree, frame, t % across, t / across) else {
                return Ok(None);
            };
            bricks.push(brick)?;
        }
        Ok(Some(BrickGrid {
            x: frame.columns.start(),
            y: frame.rows.start(),
            across,
            down: 4 * frame.rows.count,
            bricks,
            work: 0,
        }))
    }
}
