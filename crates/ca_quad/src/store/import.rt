//! Trees of another store, and the squares that a store had at first.

ghost use Rattle.std.specs.Prelude.{◌≡◌, ◌≢◌, ◌≤◌, ◌⊎◌, ◌+◌, ℤ, None, length, take, IsOk, IfOk, OnOk, MatchOption};
ghost use Rattle.ca_quad.specs.Sound.{IsSoundStore, Grows, most_nodes};
ghost use Rattle.ca_quad.specs.Trees.{IsIn, IsTree, cell, IsTrimmed};
ghost use Rattle.ca_quad.specs.Squares.{IsParted, place_id, square_of};
ghost use Rattle.ca_quad.specs.Added.{IsPartedPart, IsCopy, AreCopies, AddsCopies};
ghost use Rattle.ca_quad.specs.SquareValues.{square_value, KeepValues, IsClosedUnderParts};

use super::{MOST, Store};
use crate::id::Id;
use crate::square::Square;
use crate::square_map::SquareMap;
use crate::tree::Tree;
use ca_plane::Memory;

impl Store {
    /// The tree of the same level and cells as one of another store.
    ///
    /// Each square of the tree is looked at once, however often it lies there, and no other is.
    ///
    /// No more squares are added than the other store keeps.
    ///
    /// # Errors
    ///
    /// Fails where there is no memory for more squares. The store may then have more squares than before:
    /// copies of squares of the tree, as on success.
    pub fn import(&mut self, from: &Store, tree: Tree) -> Result<Tree, Memory>
        requires tree { IsTree from.now tree }
        ensures tree { IfOk result (IsTree self.new) }
        ensures level { IfOk result (λ t. t.level ≡ tree.level) }
        ensures cells { IfOk result (λ t. (x y : ℤ) → cell self.new t x y ≡ cell from.now tree x y) }
        ensures trimmed { IsTrimmed from.now tree → IfOk result (IsTrimmed self.new) }
        ensures added { AddsCopies from.now tree.root self.old self.new }
        ensures count { length self.new ≤ length self.old + length from.now }
        ensures grows { Grows self.old self.new }
    {
        let alloc = *self.nodes.allocator();
        let root = self.import_square(from, tree.root, &mut SquareMap::new(alloc))?;
        Ok(Tree {
            root,
            level: tree.level,
        })
    }

    /// The square that is kept at a place, counted from 0 in the order in which squares were added; none where
    /// there are at most `place` of them.
    pub fn square_at(&self, place: usize) -> Option<Id>
        ensures { MatchOption result ((length self.now ≤ place) ⊎ (most_nodes ≤ place))
            (λ id. (id ≡ place_id place) × IsIn self.now id) }
    {
        if place >= self.nodes.len().min(MOST) {
            return None;
        }
        Some(Id::at_place(place))
    }

    /// The store of the first `count` squares alone, each under the id that it has. The memory of the others is given
    /// back, and their ids end with the store that made them.
    pub fn first_squares(self, count: usize) -> Store
        ensures first { result ≡ take count self }
        ensures named { Grows result self }
    {
        let mut nodes = self.nodes;
        nodes.truncate(count);
        nodes.shrink_to_fit();
        Store { nodes }
    }

    /// The square of the same level and cells as one of another store. Copies of some of that store's squares are
    /// known, and those that are made become known, so that what several squares share is looked at once: where
    /// the known squares' parts that have parts are known before, they are afterwards. Nothing is made where the copy
    /// of a square with parts is known, and then no memory is wanted.
    ///
    /// # Errors
    ///
    /// Fails where there is no memory for more squares. The store may then have more squares than before:
    /// copies of squares of the square, as on success.
    pub fn import_square(
        &mut self,
        from: &Store,
        id: Id,
        copies: &mut SquareMap<Id>,
    ) -> Result<Id, Memory>
        requires known { IsIn from.now id }
        requires copies { AreCopies from.now self.old copies.old }
        ensures copy { IfOk result (IsCopy from.now self.new id) }
        ensures copies { OnOk result (AreCopies from.now self.new copies.new) }
        ensures remembered { OnOk result (IsParted (square_of from.now id)
            → square_value copies.new id ≢ None) }
        ensures again { IsParted (square_of from.now id) → square_value copies.old id ≢ None → IsOk result }
        ensures kept { OnOk result (KeepValues copies.old copies.new) }
        ensures closed { OnOk result (IsClosedUnderParts (IsPartedPart from.now) (square_value copies.old)
            → IsClosedUnderParts (IsPartedPart from.now) (square_value copies.new)) }
        ensures added { AddsCopies from.now id self.old self.new }
        ensures grows { Grows self.old self.new }
        ensures sound { IsSoundStore from.now }
    {
        let _ = &self.nodes;
        match from.square(id) {
            Square::Four(nw, ne, sw, se) => self.leaf(nw, ne, sw, se),
            Square::Parts(_, nw, ne, sw, se) => {
                if let Some(copy) = copies.get(id) {
                    return Ok(copy);
                }
                let nw = self.import_square(from, nw, copies)?;
                let ne = self.import_square(from, ne, copies)?;
                let sw = self.import_square(from, sw, copies)?;
                let se = self.import_square(from, se, copies)?;
                let copy = self.join(nw, ne, sw, se)?;
                copies.put(id, copy)?;
                Ok(copy)
            }
        }
    }
}
