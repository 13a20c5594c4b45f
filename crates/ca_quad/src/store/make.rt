//! Squares that are made of cells, and of smaller squares.

ghost use Rattle.std.specs.Prelude.{◌≡◌, ℕ, suc, ◌+◌, ◌≤◌, ◌^◌, length, IfOk, OnErr};
ghost use Rattle.ca_quad.specs.Squares.{one_cell, joined_cells, cell_of, IsOf};
ghost use Rattle.ca_quad.specs.Sound.{Grows, AddsOnly};
ghost use Rattle.ca_quad.specs.Trees.{ShowsSquare, AreFour};

use super::Store;
use crate::id::Id;
use crate::node::Node;
use ca_plane::Memory;

impl Store {
    /// The 2 by 2 square of these cells.
    ///
    /// # Errors
    ///
    /// Fails where there is no memory for one more square, and then leaves the store as it was.
    pub fn leaf(&mut self, nw: u8, ne: u8, sw: u8, se: u8) -> Result<Id, Memory>
        ensures shows { IfOk result (λ id. ShowsSquare self.new id 1
            (joined_cells 1 (one_cell nw) (one_cell ne) (one_cell sw) (one_cell se))) }
        ensures grows { Grows self.old self.new }
        ensures added { IfOk result (AddsOnly self.old self.new) }
        ensures count { length self.new ≤ length self.old + 1 }
        ensures err { OnErr result (self.new ≡ self.old) }
    {
        let _ = &self.nodes;
        if nw < 2 && ne < 2 && sw < 2 && se < 2 {
            return Ok(Id::cells2(nw + 2 * ne + 4 * sw + 8 * se));
        }
        self.put(Node::Leaf(nw, ne, sw, se))
    }

    /// The square of these four, which have one level, at most 124.
    ///
    /// # Errors
    ///
    /// Fails where there is no memory for one more square, and then leaves the store as it was.
    pub fn join(&mut self, nw: Id, ne: Id, sw: Id, se: Id) -> Result<Id, Memory>
        requires { (level : ℕ) × AreFour self.old level nw ne sw se }
        ensures shows { (level : ℕ) → IsOf self.old nw level
            → IfOk result (λ id. ShowsSquare self.new id (suc level)
            (joined_cells (2 ^ level) (cell_of self.old level nw) (cell_of self.old level ne)
            (cell_of self.old level sw) (cell_of self.old level se))) }
        ensures grows { Grows self.old self.new }
        ensures added { IfOk result (AddsOnly self.old self.new) }
        ensures count { length self.new ≤ length self.old + 1 }
        ensures err { OnErr result (self.new ≡ self.old) }
    {
        let _ = &self.nodes;
        if let Some(cells) = Id::sixteen_cells(nw, ne, sw, se) {
            return Ok(Id::cells4(cells));
        }
        if let Some(cells) = Id::sixty_four_cells(nw, ne, sw, se) {
            return self.put(Node::Block(cells));
        }
        let level = self.level(nw) + 1;
        self.put(Node::Join(level, nw, ne, sw, se))
    }

    /// The square of this level, from 1 to 125, whose cells are all 0.
    ///
    /// # Errors
    ///
    /// Fails where there is no memory for more squares, and may leave more squares in the store than before.
    pub fn empty(&mut self, level: u8) -> Result<Id, Memory>
        requires least { 1 ≤ level }
        requires most { level ≤ 125 }
        ensures shows { IfOk result (λ id. ShowsSquare self.new id level (λ x y. 0)) }
        ensures grows { Grows self.old self.new }
        ensures count { length self.new ≤ length self.old + level }
    {
        if level == 1 {
            return self.leaf(0, 0, 0, 0);
        }
        let part = self.empty(level - 1)?;
        self.join(part, part, part, part)
    }
}
