//! Whether the live cells of a tree are in range.

ghost use Rattle.std.specs.Prelude.{◌≡◌, ◌⊎◌, ◌↔◌, ◌≤ℤ◌, ◌<ℤ◌, ℤ, pos, neg_ℤ, IsTrue, IfOk, OnOk, IfErr};
ghost use Rattle.ca_plane.specs.Prelude.{range};
ghost use Rattle.ca_quad.specs.Prelude.{Grows, IsTree, cell, IsTrimmed};
ghost use Rattle.ca_macro.specs.declared.fault.MacroFault.TheVariants.{Range, Memory};
ghost use Rattle.ca_macro.specs.Pattern.{AreInRange};

use crate::fault::MacroFault;
use ca_plane::limits::RANGE;
use ca_quad::{Store, Tree, WideBounds};
use std::alloc::Global;

/// The level of the largest tree that reaches no further.
const LEVEL_OF_RANGE: u8 = 61;

fn is_in_range(cells: WideBounds) -> bool
    ensures { IsTrue result ↔ ((neg_ℤ (pos range) ≤ℤ cells.x0) × (cells.x1 <ℤ pos range)
        × (neg_ℤ (pos range) ≤ℤ cells.y0) × (cells.y1 <ℤ pos range)) }
{
    -RANGE <= cells.x0 && cells.x1 < RANGE && -RANGE <= cells.y0 && cells.y1 < RANGE
}

/// Judges whether each live cell of the tree is in range.
///
/// # Errors
///
/// `Range` where a live cell isn't, and `Memory` where an allocation fails.
fn check_range(alloc: Global, store: &Store, tree: &Tree) -> Result<(), MacroFault>
    requires { IsTree store.now tree.now }
    ensures good { OnOk result (AreInRange (cell store.now tree.now)) }
    ensures fault { IfErr result (λ f. (f ≡ Memory)
        ⊎ ((f ≡ Range) × (AreInRange (cell store.now tree.now) → ⊥))) }
{
    if store.level(tree.root) <= LEVEL_OF_RANGE {
        return Ok(());
    }
    let Some(cells) = store.bounds(alloc, *tree)? else {
        return Ok(());
    };
    if !is_in_range(cells) {
        return Err(MacroFault::Range);
    }
    Ok(())
}

/// The tree of the smallest level with the same cells, where they are in range.
///
/// # Errors
///
/// `Range` where a live cell is out of range, and `Memory` where an allocation fails.
pub(crate) fn trim_in_range(
    alloc: Global,
    store: &mut Store,
    tree: Tree,
) -> Result<Tree, MacroFault>
    requires { IsTree store.old tree }
    ensures tree { IfOk result (IsTree store.new) }
    ensures cells { IfOk result (λ t. (x y : ℤ) → cell store.new t x y ≡ cell store.old tree x y) }
    ensures trimmed { IfOk result (IsTrimmed store.new) }
    ensures range { OnOk result (AreInRange (cell store.old tree)) }
    ensures fault { IfErr result (λ f. (f ≡ Memory)
        ⊎ ((f ≡ Range) × (AreInRange (cell store.old tree) → ⊥))) }
    ensures grows { Grows store.old store.new }
{
    let trimmed = store.trim(tree)?;
    check_range(alloc, store, &trimmed)?;
    Ok(trimmed)
}
