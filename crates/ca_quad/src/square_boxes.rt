//! The smallest boxes of squares, so that a walk need not measure a square that an earlier one did.

ghost use Rattle.std.specs.Prelude.{List};
ghost use Rattle.ca_quad.specs.declared.node.Node.{Node};
ghost use Rattle.ca_quad.specs.Boxes.{AreSquareBoxes};

use crate::square_map::SquareMap;
use crate::store::extent::Extent;
use std::alloc::Global;
use std::marker::Model;

// At most `MOST` boxes are remembered from one walk to the next, some 10 MB of them.
const MOST: usize = 1 << 16;

/// The smallest boxes round the live cells of some squares of one store, as `Store::bounds_with` has found them.
/// They stay true while the store grows.
#[derive(Drop)]
pub struct SquareBoxes {
    pub(crate) boxes: SquareMap<Option<Extent>>,
}

impl Model for SquareBoxes {
    ghost use Rattle.std.specs.Prelude.{ℕ, List, Option};
    ghost use Rattle.ca_quad.specs.declared.store.extent.Extent.{Extent};

    ghost Value = { List (ℕ × Option Extent) };

    ghost view = { λ b. b.boxes };
}

impl SquareBoxes {
    /// No square has a box that is known.
    pub fn new(alloc: Global) -> SquareBoxes
        ensures { (nodes : List Node) → AreSquareBoxes nodes result }
    {
        SquareBoxes {
            boxes: SquareMap::new(alloc),
        }
    }

    // Forgets the boxes where they have become too many.
    pub(crate) fn make_room(&mut self, alloc: Global)
        ensures { (nodes : List Node) → AreSquareBoxes nodes self.old → AreSquareBoxes nodes self.new }
    {
        if self.boxes.count() < MOST {
            return;
        }
        self.boxes = SquareMap::new(alloc);
    }
}
