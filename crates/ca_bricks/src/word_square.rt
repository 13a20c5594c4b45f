//! Squares of 16 by 16 cells of two states, as four words of 64 bits.

ghost use Rattle.std.specs.Prelude.{ℕ, ◌≤◌, ℤ, pos, ◌+ℤ◌, List, IfOk};
ghost use Rattle.ca_plane.specs.Prelude.{cells_after};
ghost use Rattle.ca_bricks.specs.WordSquares.{WordSquareShows};
ghost use Rattle.ca_bricks.specs.Words.{WordShows};
ghost use Rattle.ca_bricks.specs.CellRules.{GoesByCells};

use crate::cell_rule::CellRule;
use crate::kernel::Bits;
use crate::tile::{later_tile, middle, tile_of};
use ca_plane::Memory;

/// The four quarters of a square of 16 by 16 cells: bit `8 * y + x` of each is its cell at (x, y).
#[derive(Clone, Copy, Drop)]
pub struct WordSquare {
    pub nw: u64,
    pub ne: u64,
    pub sw: u64,
    pub se: u64,
}

impl WordSquare {
    /// The 8 by 8 cells in the middle after n generations, at most 4. What `scratch` holds is lost.
    ///
    /// # Errors
    ///
    /// Fails where there is no memory for what a diagram's nodes stand for.
    pub fn centre(&self, rule: &CellRule, n: u8, scratch: &mut Vec<Bits>) -> Result<u64, Memory>
        requires { n ≤ 4 }
        ensures { (next : List ℕ → ℕ) (p : ℤ → ℤ → ℕ) (a b : ℤ) → GoesByCells next rule.now
            → WordSquareShows self.now p a b
            → IfOk result (λ word. WordShows word (cells_after next p n) (a +ℤ pos 4) (b +ℤ pos 4)) }
    {
        let later = later_tile(tile_of(self), rule, n, scratch)?;
        Ok(middle(&later.rows.to_array()))
    }

    /// The square in the middle between two that lie side by side.
    pub(crate) fn middle_of_row(west: WordSquare, east: WordSquare) -> WordSquare
        ensures { (p : ℤ → ℤ → ℕ) (a b : ℤ) → WordSquareShows west p a b → WordSquareShows east p (a +ℤ pos 16) b
            → WordSquareShows result p (a +ℤ pos 8) b }
    {
        WordSquare {
            nw: west.ne,
            ne: east.nw,
            sw: west.se,
            se: east.sw,
        }
    }

    /// The square in the middle between two of which one lies over the other.
    pub(crate) fn middle_of_column(north: WordSquare, south: WordSquare) -> WordSquare
        ensures { (p : ℤ → ℤ → ℕ) (a b : ℤ) → WordSquareShows north p a b → WordSquareShows south p a (b +ℤ pos 16)
            → WordSquareShows result p a (b +ℤ pos 8) }
    {
        WordSquare {
            nw: north.sw,
            ne: north.se,
            sw: south.nw,
            se: south.ne,
        }
    }
}
