//! Laws of the squares of a store, over the definitions alone.

ghost use Rattle.std.specs.Prelude.{◌≡◌, ℕ, ◌↔◌, List, Option};
ghost use Rattle.ca_quad.specs.declared.{node.Node.Node, store.extent.Extent.Extent};
ghost use Rattle.ca_quad.specs.Squares.{IsOf};
ghost use Rattle.ca_quad.specs.Sound.{IsSoundStore, Grows};
ghost use Rattle.ca_quad.specs.Boxes.{AreSquareBoxes};
ghost use Rattle.ca_quad.specs.Trees.{IsIn, AreSame, Stays};

use crate::store::Store;

/// Two squares of a store have one id exactly where level and all cells are equal.
pub fn one_id(store: &Store)
    ensures { (a b : ℕ) → IsIn store.now a → IsIn store.now b → (a ≡ b) ↔ AreSame store.now a b }
{
    let _squares = store.count();
}

/// When a store grows, every old id names the same square.
pub fn old_squares_stay()
    ensures { (old new : List Node) → IsSoundStore old → Grows old new → (id level : ℕ) → IsOf old id level
        → Stays old new id level }
{}

/// When a store grows, the boxes of its squares that are known stay true.
pub fn square_boxes_stay()
    ensures { (old new : List Node) → IsSoundStore old → Grows old new → (boxes : List (ℕ × Option Extent))
        → AreSquareBoxes old boxes → AreSquareBoxes new boxes }
{}
