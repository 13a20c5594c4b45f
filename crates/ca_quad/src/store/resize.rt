//! Trees of one level more or less, with the same cells.

ghost use Rattle.std.specs.Prelude.{◌≡◌, ℕ, suc, ◌+◌, ◌≤◌, ◌^◌, ◌↔◌, ℤ, length, IfOk, IsTrue};
ghost use Rattle.std.specs.List.{All};
ghost use Rattle.ca_quad.specs.Squares.{level_of, one_cell, joined_cells, cell_of, IsOf};
ghost use Rattle.ca_quad.specs.Sound.{Grows};
ghost use Rattle.ca_quad.specs.Trees.{IsIn, IsTree, ShowsSquare, AreFour, cell, IsTrimmed};
ghost use Rattle.ca_quad.specs.inner.Ring.{IsEmptySquare, Rings, TellsMiddle, with_ring};

use super::Store;
use crate::id::Id;
use crate::square::Square;
use crate::tree::Tree;
use ca_plane::Memory;

impl Store {
    /// The tree of one level more that shows the same cells. The level is at most 124.
    ///
    /// # Errors
    ///
    /// Fails where there is no memory for more squares, and may leave more squares in the store than before.
    pub fn pad(&mut self, tree: Tree) -> Result<Tree, Memory>
        requires tree { IsTree self.old tree }
        requires low { tree.level ≤ 124 }
        ensures level { IfOk result (λ t. t.level ≡ tree.level + 1) }
        ensures tree { IfOk result (IsTree self.new) }
        ensures cells { IfOk result (λ t. (x y : ℤ) → cell self.new t x y ≡ cell self.old tree x y) }
        ensures grows { Grows self.old self.new }
        ensures count { length self.new ≤ length self.old + 130 }
    {
        let root = self.with_ring(tree.root)?;
        Ok(Tree {
            root,
            level: tree.level + 1,
        })
    }

    // The square with a ring of empty cells round it, half its side wide.
    fn with_ring(&mut self, id: Id) -> Result<Id, Memory>
        requires known { IsIn self.old id }
        requires low { level_of self.old id ≤ 124 }
        ensures shows { (level : ℕ) → IsOf self.old id level
            → IfOk result (Rings self.old self.new level id) }
        ensures least { 1 ≤ level_of self.old id }
        ensures grows { Grows self.old self.new }
        ensures count { length self.new ≤ length self.old + 130 }
    {
        match self.square(id) {
            Square::Four(nw, ne, sw, se) => self.ringed_cells(nw, ne, sw, se),
            Square::Parts(level, nw, ne, sw, se) => self.ringed_parts(level - 1, nw, ne, sw, se),
        }
    }

    // These four cells with a ring of empty ones.
    fn ringed_cells(&mut self, nw: u8, ne: u8, sw: u8, se: u8) -> Result<Id, Memory>
        ensures shows { IfOk result (λ id. ShowsSquare self.new id 2
            (with_ring 1 (one_cell nw) (one_cell ne) (one_cell sw) (one_cell se))) }
        ensures grows { Grows self.old self.new }
        ensures count { length self.new ≤ length self.old + 5 }
    {
        let a = self.leaf(0, 0, 0, nw)?;
        let b = self.leaf(0, 0, ne, 0)?;
        let c = self.leaf(0, sw, 0, 0)?;
        let d = self.leaf(se, 0, 0, 0)?;
        self.join(a, b, c, d)
    }

    // These four squares with a ring of empty ones.
    fn ringed_parts(&mut self, level: u8, nw: Id, ne: Id, sw: Id, se: Id) -> Result<Id, Memory>
        requires least { 1 ≤ level }
        requires low { level ≤ 123 }
        requires four { AreFour self.old level nw ne sw se }
        ensures shows { IfOk result (λ id. ShowsSquare self.new id (suc (suc level))
            (with_ring (2 ^ level) (cell_of self.old level nw) (cell_of self.old level ne)
            (cell_of self.old level sw) (cell_of self.old level se))) }
        ensures grows { Grows self.old self.new }
        ensures count { length self.new ≤ length self.old + 130 }
    {
        let _ = &self.nodes;
        let e = self.empty(level)?;
        let a = self.join(e, e, e, nw)?;
        let b = self.join(e, e, ne, e)?;
        let c = self.join(e, sw, e, e)?;
        let d = self.join(se, e, e, e)?;
        self.join(a, b, c, d)
    }

    /// The tree of the smallest level, at least 1, that holds every live cell of a tree.
    ///
    /// # Errors
    ///
    /// Fails where there is no memory for more squares, and may leave more squares in the store than before.
    pub fn trim(&mut self, tree: Tree) -> Result<Tree, Memory>
        requires tree { IsTree self.old tree }
        ensures tree { IfOk result (IsTree self.new) }
        ensures cells { IfOk result (λ t. (x y : ℤ) → cell self.new t x y ≡ cell self.old tree x y) }
        ensures trimmed { IfOk result (IsTrimmed self.new) }
        ensures grows { Grows self.old self.new }
        ensures levels { length self.new ≤ length self.old + tree.level }
        ensures count { length self.new ≤ length self.old + 130 }
    {
        let _ = &self.nodes;
        if self.level(tree.root) == 1 {
            return Ok(tree);
        }
        let Some(root) = self.middle(tree.root)? else {
            return Ok(tree);
        };
        self.trim(Tree {
            root,
            level: tree.level - 1,
        })
    }

    // The middle of a square, half its side wide, where there are no live cells round it.
    fn middle(&mut self, id: Id) -> Result<Option<Id>, Memory>
        requires known { IsIn self.old id }
        requires large { 2 ≤ level_of self.old id }
        ensures tells { (level : ℕ) → IsOf self.old id (suc level)
            → IfOk result (TellsMiddle self.new level (cell_of self.old (suc level) id)) }
        ensures grows { Grows self.old self.new }
        ensures count { length self.new ≤ length self.old + 1 }
    {
        let Square::Parts(level, nw, ne, sw, se) = self.square(id) else {
            unreachable!()
        };
        if level == 2 {
            return self.middle_cells(nw, ne, sw, se);
        }
        self.middle_parts(nw, ne, sw, se)
    }

    // The same for four squares of level 1. Their outer cells are a to l.
    fn middle_cells(&mut self, nw: Id, ne: Id, sw: Id, se: Id) -> Result<Option<Id>, Memory>
        requires four { AreFour self.old 1 nw ne sw se }
        ensures tells { IfOk result (TellsMiddle self.new 1
            (joined_cells 2 (cell_of self.old 1 nw) (cell_of self.old 1 ne) (cell_of self.old 1 sw)
            (cell_of self.old 1 se))) }
        ensures grows { Grows self.old self.new }
        ensures count { length self.new ≤ length self.old + 1 }
    {
        let _ = &self.nodes;
        let Square::Four(a, b, c, north_west) = self.square(nw) else {
            unreachable!()
        };
        let Square::Four(d, e, north_east, f) = self.square(ne) else {
            unreachable!()
        };
        let Square::Four(g, south_west, h, i) = self.square(sw) else {
            unreachable!()
        };
        let Square::Four(south_east, j, k, l) = self.square(se) else {
            unreachable!()
        };
        let north = a.max(b).max(c).max(d.max(e).max(f));
        let south = g.max(h).max(i).max(j.max(k).max(l));
        if north.max(south) > 0 {
            return Ok(None);
        }
        Ok(Some(self.leaf(north_west, north_east, south_west, south_east)?))
    }

    // The same for four squares of one level, at least 2. Their outer parts are a to l.
    fn middle_parts(&mut self, nw: Id, ne: Id, sw: Id, se: Id) -> Result<Option<Id>, Memory>
        requires large { 2 ≤ level_of self.old nw }
        requires four { AreFour self.old (level_of self.old nw) nw ne sw se }
        ensures tells { (level : ℕ) → IsOf self.old nw level → IfOk result (TellsMiddle self.new level
            (joined_cells (2 ^ level) (cell_of self.old level nw) (cell_of self.old level ne)
            (cell_of self.old level sw) (cell_of self.old level se))) }
        ensures grows { Grows self.old self.new }
        ensures count { length self.new ≤ length self.old + 1 }
    {
        let _ = &self.nodes;
        let Square::Parts(_, a, b, c, north_west) = self.square(nw) else {
            unreachable!()
        };
        let Square::Parts(_, d, e, north_east, f) = self.square(ne) else {
            unreachable!()
        };
        let Square::Parts(_, g, south_west, h, i) = self.square(sw) else {
            unreachable!()
        };
        let Square::Parts(_, south_east, j, k, l) = self.square(se) else {
            unreachable!()
        };
        if !self.are_empty(&[a, b, c, d, e, f, g, h, i, j, k, l]) {
            return Ok(None);
        }
        Ok(Some(self.join(north_west, north_east, south_west, south_east)?))
    }

    // Whether every cell of these squares is 0.
    fn are_empty(&self, squares: &[Id]) -> bool
        requires { All (IsIn self.now) squares.now }
        ensures { IsTrue result ↔ All (IsEmptySquare self.now) squares.now }
    {
        'squares: for &square in squares {
            if !self.is_empty(square) {
                return false;
            }
        }
        true
    }
}
