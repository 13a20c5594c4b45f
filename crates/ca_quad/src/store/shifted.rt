//! Trees that are moved.

ghost use Rattle.std.specs.Prelude.{◌≡◌, ◌+◌, ◌≤◌, ◌^◌, ℤ, pos, ◌-ℤ◌, ◌≤ℤ◌, IsTrue, IsFalse, IfOk, IfErr, OnOk};
ghost use Rattle.ca_quad.specs.Sound.{Grows};
ghost use Rattle.ca_quad.specs.Trees.{IsTree, cell, IsTrimmed};
ghost use Rattle.ca_quad.specs.Expanded.{FitsPlane};
ghost use Rattle.ca_quad.specs.Shifted.{shifted_cells, IsShiftRefused};
ghost use Rattle.ca_quad.specs.inner.Reach.{IsBoxInReach, IsBoxOutOfReach};
ghost use Rattle.ca_quad.specs.inner.Shifted.{IsNoFarther, IsShort, HasRoom, CanMove, shifted_box};

use super::Store;
use super::cut::Offset;
use super::cuts::Cuts;
use super::read::half_side;
use crate::neighbours::Neighbours;
use crate::tree::{Spot, Tree, WideBounds};
use ca_plane::limits::REACH;
use ca_plane::{Memory, MoveFault};

// A tree of this level that moves no farther than the margin stays in the square of a plane.
const INNER: u8 = 62;

// The smallest way from such a tree to the edge of the square.
const MARGIN: u128 = 1 << 61;

impl Store {
    /// The tree of the smallest level, at least 1, whose cell at (x, y) is the old one's at (x - dx, y - dy).
    ///
    /// # Errors
    ///
    /// `Range` where a live cell would leave the square in which a plane keeps its cells, that is, from -2^62
    /// to 2^62 in both directions, and `Memory` where an allocation fails. The store may then have more
    /// squares than before.
    pub fn shifted(&mut self, tree: Tree, dx: i64, dy: i64) -> Result<Tree, MoveFault>
        requires { IsTree self.old tree }
        ensures tree { IfOk result (IsTree self.new) }
        ensures cells { IfOk result (λ t.
            (x y : ℤ) → cell self.new t x y ≡ cell self.old tree (x -ℤ dx) (y -ℤ dy)) }
        ensures fits { IfOk result (λ t. FitsPlane (cell self.new t)) }
        ensures trimmed { IfOk result (IsTrimmed self.new) }
        ensures level { IfOk result (λ t. t.level ≤ 64) }
        ensures fault { IfErr result (IsShiftRefused (shifted_cells (cell self.old tree) dx dy)) }
        ensures grows { Grows self.old self.new }
    {
        let _ = &self.nodes;
        let to = spot(dx, dy);
        let small = self.trim(tree)?;
        self.check_shift(small, to)?;
        let wide = self.with_room(small, farthest(to))?;
        Ok(self.moved(wide, to)?)
    }

    // Looks whether the live cells of a tree, when its middle is moved there, lie in the square of a plane.
    fn check_shift(&self, tree: Tree, to: Spot) -> Result<(), MoveFault>
        requires tree { IsTree self.now tree }
        requires short { IsShort to }
        ensures fits { OnOk result (FitsPlane (shifted_cells (cell self.now tree) to.x to.y)) }
        ensures fault { IfErr result (IsShiftRefused (shifted_cells (cell self.now tree) to.x to.y)) }
    {
        let _ = &self.nodes;
        if tree.level <= INNER && farthest(to) <= MARGIN {
            return Ok(());
        }
        let alloc = *self.nodes.allocator();
        let Some(bounds) = self.bounds(alloc, tree)? else {
            return Ok(());
        };
        if !stays_in_reach(bounds, to) {
            return Err(MoveFault::Range);
        }
        Ok(())
    }

    // The tree of at least two levels more with the same cells, an eighth of whose side is no less than the
    // offset.
    fn with_room(&mut self, tree: Tree, offset: u128) -> Result<Tree, Memory>
        requires tree { IsTree self.old tree }
        requires least { 1 ≤ tree.level }
        requires low { tree.level ≤ 65 }
        requires short { offset ≤ 2 ^ 63 }
        ensures room { IfOk result (HasRoom self.new (cell self.old tree) (tree.level + 2) offset) }
        ensures grows { Grows self.old self.new }
    {
        let wide = self.pad(tree)?;
        let wider = self.pad(wide)?;
        self.padded_for(wider, offset)
    }

    // The same of at least the level of the tree.
    fn padded_for(&mut self, tree: Tree, offset: u128) -> Result<Tree, Memory>
        requires tree { IsTree self.old tree }
        requires least { 3 ≤ tree.level }
        requires most { tree.level ≤ 67 }
        requires short { offset ≤ 2 ^ 63 }
        ensures room { IfOk result (HasRoom self.new (cell self.old tree) tree.level offset) }
        ensures grows { Grows self.old self.new }
    {
        let _ = &self.nodes;
        if offset <= half_side(tree.level - 2) {
            return Ok(tree);
        }
        let wide = self.pad(tree)?;
        self.padded_for(wide, offset)
    }

    // The tree whose middle is moved there.
    fn moved(&mut self, tree: Tree, to: Spot) -> Result<Tree, Memory>
        requires { CanMove self.old tree to }
        ensures tree { IfOk result (IsTree self.new) }
        ensures cells { IfOk result (λ t.
            (x y : ℤ) → cell self.new t x y ≡ shifted_cells (cell self.old tree) to.x to.y x y) }
        ensures trimmed { IfOk result (IsTrimmed self.new) }
        ensures grows { Grows self.old self.new }
    {
        let alloc = *self.nodes.allocator();
        let [nw, ne, sw, se] = self.children(tree.root);
        let offset = offset_back(half_side(tree.level - 1), to);
        let parts = Neighbours { nw, ne, sw, se };
        let root = self.cut_out(parts, offset, &mut Cuts::new(alloc))?;
        self.trim(Tree {
            root,
            level: tree.level - 1,
        })
    }
}

// The place that lies so far to the right and downward.
fn spot(dx: i64, dy: i64) -> Spot
    ensures x { result.x ≡ dx }
    ensures y { result.y ≡ dy }
    ensures short { IsShort result }
{
    Spot {
        x: i128::from(dx),
        y: i128::from(dy),
    }
}

// How far the place is from the origin, to a side.
fn farthest(to: Spot) -> u128
    requires { IsShort to }
    ensures x { IsNoFarther result to.x }
    ensures y { IsNoFarther result to.y }
    ensures most { result ≤ 2 ^ 63 }
{
    to.x.unsigned_abs().max(to.y.unsigned_abs())
}

// The offset from a place to that one on the diagonal.
fn offset_back(diagonal: u128, to: Spot) -> Offset
    requires most { diagonal ≤ 2 ^ 65 }
    requires short { IsShort to }
    requires near_x { to.x ≤ℤ pos diagonal }
    requires near_y { to.y ≤ℤ pos diagonal }
    ensures x { pos result.x ≡ pos diagonal -ℤ to.x }
    ensures y { pos result.y ≡ pos diagonal -ℤ to.y }
{
    let place = diagonal as i128;
    Offset {
        x: (place - to.x) as u128,
        y: (place - to.y) as u128,
    }
}

// Whether the box, when the origin is moved there, lies in the square in which a plane keeps its cells.
fn stays_in_reach(bounds: WideBounds, to: Spot) -> bool
    requires { IsShort to }
    ensures yes { IsTrue result → IsBoxInReach (shifted_box bounds to) }
    ensures no { IsFalse result → IsBoxOutOfReach (shifted_box bounds to) }
{
    if bounds.x0 < -REACH - to.x {
        return false;
    }
    if bounds.x1 > REACH - to.x {
        return false;
    }
    if bounds.y0 < -REACH - to.y {
        return false;
    }
    if bounds.y1 > REACH - to.y {
        return false;
    }
    true
}
