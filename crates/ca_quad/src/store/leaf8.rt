//! Squares of 8 by 8 cells of two states, as eight rows.

ghost use Rattle.std.specs.Prelude.{◌≡◌, ℕ, ◌+◌, ◌<◌, ◌≤◌, length, IfOk, OnErr};
ghost use Rattle.ca_quad.specs.Squares.{level_of, cell_of};
ghost use Rattle.ca_quad.specs.Sound.{Grows, AddsOnly};
ghost use Rattle.ca_quad.specs.Trees.{IsIn, ShowsSquare};
ghost use Rattle.ca_plane.specs.Prelude.{row_cells};

use super::Store;
use crate::id::Id;
use ca_plane::Memory;

impl Store {
    /// The eight rows of a square of level 3 of two states, from the top. Bit 0 of a row is the western-most.
    pub fn leaf8(&self, id: Id) -> [u8; 8]
        requires known { IsIn self.now id }
        requires level { level_of self.now id ≡ 3 }
        requires states { (x y : ℕ) → cell_of self.now 3 id x y < 2 }
        ensures { (x y : ℕ) → cell_of self.now 3 id x y ≡ row_cells result x y }
    {
        match self.word(id) {
            Some(word) => word.to_le_bytes(),
            None => unreachable!(),
        }
    }

    /// The square of level 3 with these eight rows, from the top. Bit 0 of a row is its western-most cell.
    ///
    /// # Errors
    ///
    /// Fails where there is no memory for one more square, and then leaves the store as it was.
    pub fn from_leaf8(&mut self, rows: &[u8; 8]) -> Result<Id, Memory>
        ensures shows { IfOk result (λ id. ShowsSquare self.new id 3 (row_cells rows.now)) }
        ensures grows { Grows self.old self.new }
        ensures added { IfOk result (AddsOnly self.old self.new) }
        ensures count { length self.new ≤ length self.old + 1 }
        ensures err { OnErr result (self.new ≡ self.old) }
    {
        self.from_word(u64::from_le_bytes(*rows))
    }
}
