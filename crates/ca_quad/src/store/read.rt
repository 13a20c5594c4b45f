//! What squares hold.

ghost use Rattle.std.specs.Prelude.{◌≡◌, ℕ, suc, ◌-◌, ◌<◌, ◌≤◌, ◌^◌, ◌↔◌, pos, ◌+ℤ◌, IsTrue};
ghost use Rattle.ca_quad.specs.Squares.{level_of, square_of, IsOf, one_cell, joined_cells, cell_of};
ghost use Rattle.ca_quad.specs.Trees.{IsIn, IsEmpty, IsTree, AreCorners, AreQuarters, corners, parts, cell};

use super::Store;
use crate::id::Id;
use crate::square::Square;
use crate::tree::{Spot, Tree, edge_distance};

impl Store {
    /// The level of a square: it has 2^level cells a side.
    pub fn level(&self, id: Id) -> u8
        requires { IsIn self.now id }
        ensures level { result ≡ level_of self.now id }
        ensures least { 1 ≤ result }
        ensures most { result ≤ 125 }
    {
        match self.square(id) {
            Square::Four(_, _, _, _) => 1,
            Square::Parts(level, _, _, _, _) => level,
        }
    }

    /// The four cells of a square of level 1: north-west, north-east, south-west, south-east.
    pub fn cells4(&self, id: Id) -> [u8; 4]
        requires known { IsIn self.now id }
        requires level { level_of self.now id ≡ 1 }
        ensures value { result ≡ corners (square_of self.now id) }
        ensures corners { AreCorners self.now id result }
    {
        match self.square(id) {
            Square::Four(nw, ne, sw, se) => [nw, ne, sw, se],
            Square::Parts(_, _, _, _, _) => unreachable!(),
        }
    }

    /// The four parts of a square of a level above 1: north-west, north-east, south-west, south-east.
    pub fn children(&self, id: Id) -> [Id; 4]
        requires known { IsIn self.now id }
        requires level { 2 ≤ level_of self.now id }
        ensures value { result ≡ parts (square_of self.now id) }
        ensures quarters { (level : ℕ) → IsOf self.now id (suc level) → AreQuarters self.now id level result }
    {
        match self.square(id) {
            Square::Four(_, _, _, _) => unreachable!(),
            Square::Parts(_, nw, ne, sw, se) => [nw, ne, sw, se],
        }
    }

    /// Whether every cell of a square is 0.
    pub fn is_empty(&self, id: Id) -> bool
        requires { IsIn self.now id }
        ensures { (level : ℕ) → IsOf self.now id level → IsTrue result ↔ IsEmpty (cell_of self.now level id) }
    {
        match self.square(id) {
            Square::Four(nw, ne, sw, se) => nw.max(ne).max(sw.max(se)) == 0,
            Square::Parts(_, nw, ne, sw, se) => {
                if !Id::are_one(nw, ne, sw, se) {
                    return false;
                }
                self.is_empty(nw)
            }
        }
    }

    /// The state of a tree's cell.
    pub fn cell(&self, tree: Tree, at: Spot) -> u8
        requires { IsTree self.now tree }
        ensures { result ≡ cell self.now tree at.x at.y }
    {
        let half = half_side(self.level(tree.root));
        let Some(x) = edge_distance(half, at.x) else {
            return 0;
        };
        let Some(y) = edge_distance(half, at.y) else {
            return 0;
        };
        self.cell_in(tree.root, x, y)
    }

    // The state of a square's cell, counted from its upper left corner.
    pub(super) fn cell_in(&self, id: Id, x: u128, y: u128) -> u8
        requires known { IsIn self.now id }
        requires x { x < 2 ^ level_of self.now id }
        requires y { y < 2 ^ level_of self.now id }
        ensures { (level : ℕ) → IsOf self.now id level → result ≡ cell_of self.now level id x y }
    {
        match self.square(id) {
            Square::Four(nw, ne, sw, se) => corner(x, y, nw, ne, sw, se),
            Square::Parts(level, nw, ne, sw, se) => {
                let half = half_side(level);
                if y < half {
                    if x < half {
                        return self.cell_in(nw, x, y);
                    }
                    return self.cell_in(ne, x - half, y);
                }
                if x < half {
                    return self.cell_in(sw, x, y - half);
                }
                self.cell_in(se, x - half, y - half)
            }
        }
    }
}

// Half the side of a square of this level.
pub(crate) fn half_side(level: u8) -> u128
    requires least { 1 ≤ level }
    requires most { level ≤ 125 }
    ensures half { result ≡ 2 ^ (level - 1) }
    ensures low { result ≤ 2 ^ 124 }
{
    1 << (level - 1)
}

// The place that lies this way from the edge of a tree.
pub(super) fn from_middle(half: u128, way: u128) -> i128
    requires half { half ≤ 2 ^ 124 }
    requires way { way < 2 ^ 125 }
    ensures { result +ℤ pos half ≡ pos way }
{
    way as i128 - half as i128
}

// The cell of a 2 by 2 square.
fn corner(x: u128, y: u128, nw: u8, ne: u8, sw: u8, se: u8) -> u8
    requires x { x < 2 }
    requires y { y < 2 }
    ensures { result ≡ joined_cells 1 (one_cell nw) (one_cell ne) (one_cell sw) (one_cell se) x y }
{
    match (x, y) {
        (0, 0) => nw,
        (_, 0) => ne,
        (0, _) => sw,
        (_, _) => se,
    }
}
