//! Where two trees differ.

ghost use Rattle.std.specs.Prelude.{◌≡◌, ◌≢◌, ℕ, suc, ◌≤◌, ◌^◌, ◌↔◌, ℤ, IsNone, IfSome};
ghost use Rattle.ca_quad.specs.Squares.{level_of, IsOf, cell_of};
ghost use Rattle.ca_quad.specs.Sound.{IsSoundStore};
ghost use Rattle.ca_quad.specs.Trees.{IsIn, IsTree, cell};
ghost use Rattle.ca_quad.specs.inner.Difference.{TellsDifference, TellsQuarters, four_cells};

use super::Store;
use super::read::{from_middle, half_side};
use crate::id::Id;
use crate::square::Square;
use crate::tree::{Spot, Tree};

impl Store {
    /// A place where two trees of one level differ. None exactly where they are equal.
    pub fn difference(&self, a: Tree, b: Tree) -> Option<Spot>
        requires a { IsTree self.now a }
        requires b { IsTree self.now b }
        requires level { a.level ≡ b.level }
        ensures none { IsNone result ↔ ((x y : ℤ) → cell self.now a x y ≡ cell self.now b x y) }
        ensures some { IfSome result (λ at. cell self.now a at.x at.y ≢ cell self.now b at.x at.y) }
    {
        let half = half_side(self.level(a.root));
        let (x, y) = self.difference_in(a.root, b.root)?;
        Some(Spot {
            x: from_middle(half, x),
            y: from_middle(half, y),
        })
    }

    // A place where two squares of one level differ, counted from their upper left corners.
    fn difference_in(&self, a: Id, b: Id) -> Option<(u128, u128)>
        requires a { IsIn self.now a }
        requires b { IsIn self.now b }
        requires level { level_of self.now a ≡ level_of self.now b }
        ensures { (level : ℕ) → IsOf self.now a level
            → TellsDifference (2 ^ level) (cell_of self.now level a) (cell_of self.now level b) result }
    {
        if self.level(a) == 1 {
            return corner_difference(self.cells4(a), self.cells4(b));
        }
        let (p, q, left, top) = self.unequal_quarters(a, b)?;
        let (x, y) = self.difference_in(p, q)?;
        Some((left + x, top + y))
    }

    // Two quarters that lie at one place of two squares and aren't the same, and their way from left and top.
    fn unequal_quarters(&self, a: Id, b: Id) -> Option<(Id, Id, u128, u128)>
        requires a { IsIn self.now a }
        requires b { IsIn self.now b }
        requires level { level_of self.now a ≡ level_of self.now b }
        requires large { 2 ≤ level_of self.now a }
        ensures tells { (level : ℕ) → IsOf self.now a (suc level) → TellsQuarters self.now level a b result }
        ensures sound { IsSoundStore self.now }
    {
        let Square::Parts(level, nw, ne, sw, se) = self.square(a) else {
            unreachable!()
        };
        let Square::Parts(_, other_nw, other_ne, other_sw, other_se) = self.square(b) else {
            unreachable!()
        };
        let half = half_side(level);
        if nw != other_nw {
            return Some((nw, other_nw, 0, 0));
        }
        if ne != other_ne {
            return Some((ne, other_ne, half, 0));
        }
        if sw != other_sw {
            return Some((sw, other_sw, 0, half));
        }
        if se != other_se {
            return Some((se, other_se, half, half));
        }
        None
    }
}

// A place where two squares of these four cells differ.
fn corner_difference(p: [u8; 4], q: [u8; 4]) -> Option<(u128, u128)>
    ensures { TellsDifference 2 (four_cells p) (four_cells q) result }
{
    if p[0] != q[0] {
        return Some((0, 0));
    }
    if p[1] != q[1] {
        return Some((1, 0));
    }
    if p[2] != q[2] {
        return Some((0, 1));
    }
    if p[3] != q[3] {
        return Some((1, 1));
    }
    None
}
