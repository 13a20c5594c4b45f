//! Squares of 8 by 8 cells of two states, as one word each.

ghost use Rattle.std.specs.Prelude.{◌≡◌, ℕ, ◌+◌, ◌≤◌, length, IfOk, OnErr, MatchOption};
ghost use Rattle.ca_quad.specs.Squares.{level_of, cell_of};
ghost use Rattle.ca_quad.specs.Sound.{Grows, AddsOnly};
ghost use Rattle.ca_quad.specs.Trees.{IsIn, ShowsSquare, HasMoreStates};
ghost use Rattle.ca_plane.specs.Prelude.{word_cells};

use super::Store;
use super::bits::{corners, rows};
use crate::id::Id;
use crate::node::Node;
use ca_plane::Memory;

impl Store {
    /// The cells of a square of level 3 as bits, row by row: bit `8 * y + x` is the cell at (x, y), counted
    /// from the north-western corner. There is none where a cell has a state above 1.
    pub fn word(&self, id: Id) -> Option<u64>
        requires known { IsIn self.now id }
        requires level { level_of self.now id ≡ 3 }
        ensures { MatchOption result (HasMoreStates (cell_of self.now 3 id))
            (λ word. (x y : ℕ) → cell_of self.now 3 id x y ≡ word_cells word x y) }
    {
        let cells = self.number(id)?;
        Some(rows(cells))
    }

    /// The square of level 3 with these cells: bit `8 * y + x` is the cell at (x, y), counted from the
    /// north-western corner.
    ///
    /// # Errors
    ///
    /// Fails where there is no memory for one more square, and then leaves the store as it was.
    pub fn from_word(&mut self, word: u64) -> Result<Id, Memory>
        ensures shows { IfOk result (λ id. ShowsSquare self.new id 3 (word_cells word)) }
        ensures grows { Grows self.old self.new }
        ensures added { IfOk result (AddsOnly self.old self.new) }
        ensures count { length self.new ≤ length self.old + 1 }
        ensures err { OnErr result (self.new ≡ self.old) }
    {
        self.put(Node::Block(corners(word)))
    }
}
