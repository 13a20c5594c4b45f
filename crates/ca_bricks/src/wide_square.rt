//! Squares of 32 by 32 cells of two states, by nine squares that overlap, each half as wide.

ghost use Rattle.std.specs.Prelude.{ℕ, ◌+◌, ◌≤◌, ℤ, pos, ◌+ℤ◌, List, IfOk};
ghost use Rattle.ca_plane.specs.Prelude.{cells_after};
ghost use Rattle.ca_bricks.specs.Overlaps.{PairShows, TrioShows, RowsShow};
ghost use Rattle.ca_bricks.specs.WordSquares.{WordSquareShows, WideSquareShows};
ghost use Rattle.ca_bricks.specs.Words.{WordShows};
ghost use Rattle.ca_bricks.specs.CellRules.{GoesByCells};

use crate::cell_rule::CellRule;
use crate::kernel::Bits;
use crate::trio::{Rows, Trio};
use crate::word_square::WordSquare;
use ca_plane::Memory;

/// The four quarters of a square of 32 by 32 cells.
#[derive(Clone, Copy, Drop)]
pub struct WideSquare {
    pub nw: WordSquare,
    pub ne: WordSquare,
    pub sw: WordSquare,
    pub se: WordSquare,
}

impl WideSquare {
    /// The 16 by 16 cells in the middle after `first` generations and then `more`, at most 4 each. What
    /// `scratch` holds is lost.
    ///
    /// # Errors
    ///
    /// Fails where there is no memory for what a diagram's nodes stand for.
    pub fn centre(
        &self,
        rule: &CellRule,
        first: u8,
        more: u8,
        scratch: &mut Vec<Bits>,
    ) -> Result<WordSquare, Memory>
        requires first { first ≤ 4 }
        requires more { more ≤ 4 }
        ensures { (next : List ℕ → ℕ) (p : ℤ → ℤ → ℕ) (a b : ℤ) → GoesByCells next rule.now
            → WideSquareShows self.now p a b → IfOk result
            (λ words. WordSquareShows words (cells_after next p (first + more)) (a +ℤ pos 8) (b +ℤ pos 8)) }
    {
        let nine = self.nine(rule, first, scratch)?;
        let (nw, ne) = pair(&nine.north, &nine.middle, rule, more, scratch)?;
        let (sw, se) = pair(&nine.middle, &nine.south, rule, more, scratch)?;
        Ok(WordSquare { nw, ne, sw, se })
    }

    // The centres of the nine squares.
    fn nine(&self, rule: &CellRule, n: u8, scratch: &mut Vec<Bits>) -> Result<Rows<u64>, Memory>
        requires { n ≤ 4 }
        ensures { (next : List ℕ → ℕ) (p : ℤ → ℤ → ℕ) (a b : ℤ) → GoesByCells next rule.now
            → WideSquareShows self.now p a b → IfOk result
            (λ rows. RowsShow WordShows (pos 8) rows (cells_after next p n) (a +ℤ pos 4) (b +ℤ pos 4)) }
    {
        let west = WordSquare::middle_of_column(self.nw, self.sw);
        let east = WordSquare::middle_of_column(self.ne, self.se);
        let north = three_centres(self.nw, self.ne, rule, n, scratch)?;
        let middle = three_centres(west, east, rule, n, scratch)?;
        let south = three_centres(self.sw, self.se, rule, n, scratch)?;
        Ok(Rows {
            north,
            middle,
            south,
        })
    }
}

// The centres of two squares side by side, and of the one between them.
fn three_centres(
    west: WordSquare,
    east: WordSquare,
    rule: &CellRule,
    n: u8,
    scratch: &mut Vec<Bits>,
) -> Result<Trio<u64>, Memory>
    requires { n ≤ 4 }
    ensures { (next : List ℕ → ℕ) (p : ℤ → ℤ → ℕ) (a b : ℤ) → GoesByCells next rule.now
        → WordSquareShows west p a b → WordSquareShows east p (a +ℤ pos 16) b → IfOk result
        (λ three. TrioShows WordShows (pos 8) three (cells_after next p n) (a +ℤ pos 4) (b +ℤ pos 4)) }
{
    let between = WordSquare::middle_of_row(west, east);
    let west = west.centre(rule, n, scratch)?;
    let middle = between.centre(rule, n, scratch)?;
    let east = east.centre(rule, n, scratch)?;
    Ok(Trio { west, middle, east })
}

// The centres of two squares that overlap by half, made of two rows of three.
fn pair(
    north: &Trio<u64>,
    south: &Trio<u64>,
    rule: &CellRule,
    n: u8,
    scratch: &mut Vec<Bits>,
) -> Result<(u64, u64), Memory>
    requires { n ≤ 4 }
    ensures { (next : List ℕ → ℕ) (p : ℤ → ℤ → ℕ) (a b : ℤ) → GoesByCells next rule.now
        → TrioShows WordShows (pos 8) north.now p a b
        → TrioShows WordShows (pos 8) south.now p a (b +ℤ pos 8) → IfOk result
        (λ two. PairShows WordShows (pos 8) two.0 two.1 (cells_after next p n) (a +ℤ pos 4) (b +ℤ pos 4)) }
{
    let west = WordSquare {
        nw: north.west,
        ne: north.middle,
        sw: south.west,
        se: south.middle,
    };
    let east = WordSquare {
        nw: north.middle,
        ne: north.east,
        sw: south.middle,
        se: south.east,
    };
    let west = west.centre(rule, n, scratch)?;
    let east = east.centre(rule, n, scratch)?;
    Ok((west, east))
}
