//! The smallest box round the live cells of a tree.

ghost use Rattle.std.specs.Prelude.{◌≡◌, ◌^◌, ◌+◌, ◌≤◌, pos, ◌-ℤ◌, IfOk, OnOk, MatchOption};
ghost use Rattle.ca_quad.specs.Trees.{IsTree, cell};
ghost use Rattle.ca_quad.specs.Boxes.{IsDead, IsLeastWideBox, AreSquareBoxes};
ghost use Rattle.ca_quad.specs.inner.Extent.{FitsSide};

use super::Store;
use super::extent::Extent;
use super::read::half_side;
use crate::square_boxes::SquareBoxes;
use crate::tree::{Tree, WideBounds};
use ca_plane::Memory;
use std::alloc::Global;

impl Store {
    /// The smallest box that holds every live cell of a tree, where there are any.
    ///
    /// Each square of the tree is looked at once, however often it lies there.
    ///
    /// # Errors
    ///
    /// Fails where there is no memory to remember the boxes of its squares.
    pub fn bounds(&self, alloc: Global, tree: Tree) -> Result<Option<WideBounds>, Memory>
        requires { IsTree self.now tree }
        ensures { IfOk result (λ found. MatchOption found (IsDead (cell self.now tree))
            (IsLeastWideBox (cell self.now tree))) }
    {
        self.bounds_with(alloc, tree, &mut SquareBoxes::new(alloc))
    }

    /// The same box, of squares that may have been measured before. Those that are measured now are remembered
    /// too, as long as they are not too many.
    ///
    /// # Errors
    ///
    /// As for `bounds`.
    pub fn bounds_with(
        &self,
        alloc: Global,
        tree: Tree,
        boxes: &mut SquareBoxes,
    ) -> Result<Option<WideBounds>, Memory>
        requires tree { IsTree self.now tree }
        requires boxes { AreSquareBoxes self.now boxes.old }
        ensures bounds { IfOk result (λ found. MatchOption found (IsDead (cell self.now tree))
            (IsLeastWideBox (cell self.now tree))) }
        ensures boxes { OnOk result (AreSquareBoxes self.now boxes.new) }
    {
        let half = half_side(self.level(tree.root));
        let extent: Option<Extent> = self.measure(tree.root, &mut boxes.boxes)?;
        boxes.make_room(alloc);
        let Some(extent) = extent else {
            return Ok(None);
        };
        Ok(Some(bounds_from_middle(half, extent)))
    }
}

// The box of a tree's root, counted from the middle of the tree.
fn bounds_from_middle(half: u128, extent: Extent) -> WideBounds
    requires half { half ≤ 2 ^ 124 }
    requires within { FitsSide (half + half) extent }
    ensures x0 { result.x0 ≡ pos extent.left -ℤ pos half }
    ensures y0 { result.y0 ≡ pos extent.top -ℤ pos half }
    ensures x1 { result.x1 ≡ pos extent.right -ℤ pos half }
    ensures y1 { result.y1 ≡ pos extent.bottom -ℤ pos half }
{
    let half = half as i128;
    WideBounds {
        x0: extent.left as i128 - half,
        y0: extent.top as i128 - half,
        x1: extent.right as i128 - half,
        y1: extent.bottom as i128 - half,
    }
}
