//! Planes that are made trees, trees that are moved, and where trees differ.

ghost use Rattle.std.specs.Prelude.{◌≡◌, ◌≢◌, ◌≤◌, ◌↔◌, ℤ, ◌-ℤ◌, IfOk, IfErr, IsNone, IfSome};
ghost use Rattle.ca_plane.specs.Prelude.{cell as plane_cell};
ghost use Rattle.ca_quad.specs.Prelude.{IsTree, cell, IsTrimmed, FitsPlane, shifted_cells, IsShiftRefused};
ghost use Rattle.ca_run.specs.Leaping.{LeaperGrows};

use super::Leaper;
use ca_plane::{Automaton, Memory, MoveFault, Plane};
use ca_quad::{Spot, Tree};

impl<A: Automaton> Leaper<A> {
    /// The tree of the smallest level that shows the cells of a plane. The level is at most 64.
    ///
    /// # Errors
    ///
    /// Fails where there is no memory for more squares. Every tree stays as it was.
    pub fn load_plane(&mut self, plane: &Plane) -> Result<Tree, Memory>
        ensures tree { IfOk result (IsTree self.new.nodes) }
        ensures cells { IfOk result (λ t. (x y : ℤ) → cell self.new.nodes t x y ≡ plane_cell plane.now x y) }
        ensures trimmed { IfOk result (IsTrimmed self.new.nodes) }
        ensures level { IfOk result (λ t. t.level ≤ 64) }
        ensures goes_on { LeaperGrows A self.old self.new }
        ensures spent { self.new.spent ≡ self.old.spent }
    {
        let _count = plane.len();
        self.store.from_plane(plane)
    }

    /// The tree of the smallest level, at least 1, whose cell at (x, y) is the old one's at (x - dx, y - dy).
    /// The level is at most 64.
    ///
    /// # Errors
    ///
    /// `Range` where a live cell would leave the square in which a plane keeps its cells, that is, from -2^62
    /// to 2^62 in both directions, and `Memory` where there is no memory for more squares. Every tree stays
    /// as it was.
    pub fn shifted(&mut self, tree: Tree, dx: i64, dy: i64) -> Result<Tree, MoveFault>
        requires { IsTree self.old.nodes tree }
        ensures tree { IfOk result (IsTree self.new.nodes) }
        ensures cells { IfOk result (λ t.
            (x y : ℤ) → cell self.new.nodes t x y ≡ cell self.old.nodes tree (x -ℤ dx) (y -ℤ dy)) }
        ensures fits { IfOk result (λ t. FitsPlane (cell self.new.nodes t)) }
        ensures trimmed { IfOk result (IsTrimmed self.new.nodes) }
        ensures level { IfOk result (λ t. t.level ≤ 64) }
        ensures fault { IfErr result (IsShiftRefused (shifted_cells (cell self.old.nodes tree) dx dy)) }
        ensures goes_on { LeaperGrows A self.old self.new }
        ensures spent { self.new.spent ≡ self.old.spent }
    {
        self.store.shifted(tree, dx, dy)
    }

    /// A place where two trees differ, whose levels are at most 124. None exactly where all cells agree.
    ///
    /// # Errors
    ///
    /// Fails where there is no memory for more squares. Every tree stays as it was.
    pub fn difference(&mut self, a: Tree, b: Tree) -> Result<Option<Spot>, Memory>
        requires a { IsTree self.old.nodes a }
        requires b { IsTree self.old.nodes b }
        requires a_low { a.level ≤ 124 }
        requires b_low { b.level ≤ 124 }
        ensures none { IfOk result (λ found. IsNone found
            ↔ ((x y : ℤ) → cell self.old.nodes a x y ≡ cell self.old.nodes b x y)) }
        ensures some { IfOk result (λ found. IfSome found
            (λ at. cell self.old.nodes a at.x at.y ≢ cell self.old.nodes b at.x at.y)) }
        ensures goes_on { LeaperGrows A self.old self.new }
        ensures spent { self.new.spent ≡ self.old.spent }
    {
        let level = a.level.max(b.level);
        let a = self.padded_tree(a, level)?;
        let b = self.padded_tree(b, level)?;
        Ok(self.store.difference(a, b))
    }
}
