//! What is judged of cells, and the forms that they have.

ghost use Rattle.std.specs.Prelude.{◌≡◌, ◌≤◌, ℕ, ℤ, IsTrue, IsFalse, Ok, IfOk, MatchOption};
ghost use Rattle.ca_pattern.specs.declared.pattern.Cells.TheVariants.{Squares};
ghost use Rattle.ca_pattern.specs.declared.pattern.StoredTree.{StoredTree};
ghost use Rattle.ca_pattern.specs.PatternCells.{AreCells, IsTreeOf};
ghost use Rattle.ca_rle.specs.Prelude.{packed_cell};
ghost use Rattle.ca_quad.specs.Prelude.{Grows, IsTrimmed, IsTree, cell};
ghost use Rattle.ca_plane.specs.Prelude.{Picture, IsLive, cell as plane_cell, IsLeastBox, HasFewCells, HasTooManyCells};
ghost use Rattle.ca_pattern.specs.PatternTrees.{IsLowTree};
ghost use Rattle.ca_pattern.specs.inner.Summed.{AreNearBounds, IsExtentOf};
ghost use Rattle.ca_macro.specs.Prelude.{AreInRange};
ghost use Rattle.ca_pattern.specs.Written.{HasCellOutOfRange};
ghost use Rattle.ca_pattern.specs.Patterns.{ShowsLarge, ShowsSmall};
ghost use Rattle.ca_pattern.specs.inner.Cells.{IsBoxInRange, IsBoxOutOfRange, IsPlaneOf};

use crate::pattern::{Cells, StoredTree};
use crate::ruled::RuledPattern;
use ca_plane::limits::{MOST_CELLS, RANGE};
use ca_plane::{Automaton, Bounds, Memory, Plane};
use ca_quad::{QuadFault, Store, Tree, WideBounds};
use ca_rle::{PackedCells, draw_text};
use std::alloc::Global;

/// How many cells are live, and the smallest box round them, where there are any.
pub(crate) struct Extent {
    pub(crate) cells: u128,
    pub(crate) bounds: Option<Bounds>,
}

impl Cells<'_> {
    /// The tree of these cells, and the store of its squares.
    ///
    /// # Errors
    ///
    /// Fails where there is no memory for the squares of a text's cells. Those of a tree are there.
    pub fn into_squares(self, alloc: Global) -> Result<StoredTree, Memory>
        requires { (cells : ℤ → ℤ → ℕ) × AreCells self cells }
        ensures tree { (cells : ℤ → ℤ → ℕ) → AreCells self.entry cells → IfOk result (IsTreeOf cells) }
        ensures squares { (stored : StoredTree) → self.entry ≡ Squares stored → result ≡ Ok stored }
    {
        match self {
            Cells::Text(text) => {
                let mut store = Store::new(alloc);
                let packed = draw_text(alloc, text)?;
                let tree = tree_of(&mut store, packed)?;
                Ok(StoredTree { store, tree })
            }
            Cells::Squares(stored) => Ok(stored),
        }
    }

    /// How many cells are live, and the smallest box round them.
    pub(crate) fn extent(&self, alloc: Global) -> Result<Extent, Memory>
        requires { (cells : ℤ → ℤ → ℕ) × AreCells self.now cells }
        ensures { (cells : ℤ → ℤ → ℕ) → AreCells self.now cells → IfOk result (IsExtentOf cells) }
    {
        match self {
            Cells::Text(text) => Ok(Extent {
                cells: u128::from(text.cells),
                bounds: text.bounds,
            }),
            Cells::Squares(StoredTree { store, tree }) => Ok(Extent {
                cells: store.population(alloc, *tree)?,
                bounds: bounds_of(alloc, store, *tree)?,
            }),
        }
    }
}

/// The tree of packed cells.
pub(crate) fn tree_of(store: &mut Store, cells: PackedCells) -> Result<Tree, Memory>
    ensures tree { IfOk result (IsTree store.new) }
    ensures cells { IfOk result (λ t. (x y : ℤ) → cell store.new t x y ≡ packed_cell cells x y) }
    ensures trimmed { IfOk result (IsTrimmed store.new) }
    ensures grows { Grows store.old store.new }
{
    match cells {
        PackedCells::Words(plane) => store.from_bits(plane),
        PackedCells::States(plane) => store.from_plane(&plane),
    }
}

/// The smallest box round the live cells of a tree, where there are any.
///
/// # Errors
///
/// Fails where there is no memory to measure it.
pub fn bounds_of(alloc: Global, store: &Store, tree: Tree) -> Result<Option<Bounds>, Memory>
    requires { IsLowTree store.now tree }
    ensures { (cells : Picture) → ((x y : ℤ) → cell store.now tree x y ≡ plane_cell cells x y)
        → IfOk result (λ found. MatchOption found (IsLive cells → ⊥) (IsLeastBox cells)) }
{
    // Says what holds of every store.
    let _ = store.count();
    match store.bounds(alloc, tree)? {
        Some(bounds) => Ok(Some(bounds_of_wide(bounds))),
        None => Ok(None),
    }
}

/// A box that lies near the middle of the plane.
fn bounds_of_wide(bounds: WideBounds) -> Bounds
    requires { AreNearBounds bounds }
    ensures x0 { result.x0 ≡ bounds.x0 }
    ensures y0 { result.y0 ≡ bounds.y0 }
    ensures x1 { result.x1 ≡ bounds.x1 }
    ensures y1 { result.y1 ≡ bounds.y1 }
{
    Bounds {
        x0: bounds.x0 as i64,
        y0: bounds.y0 as i64,
        x1: bounds.x1 as i64,
        y1: bounds.y1 as i64,
    }
}

/// Whether some cell of the pattern has a state that its rule doesn't have.
///
/// # Errors
///
/// Fails where there is no memory to look for it.
pub fn has_large_state(
    alloc: Global,
    store: &Store,
    ruled: &RuledPattern<'_>,
) -> Result<bool, Memory>
    requires { IsTree store.now ruled.now.pattern.tree }
    ensures large { IfOk result (λ large. IsTrue large → ShowsLarge store.now ruled.now) }
    ensures small { IfOk result (λ large. IsFalse large → ShowsSmall store.now ruled.now) }
{
    let greatest = store.greatest_state(alloc, ruled.pattern.tree)?;
    Ok(u16::from(greatest) >= ruled.rule.states())
}

/// Whether more cells of the tree, whose level is at most 63, are live than are handled one by one.
///
/// # Errors
///
/// Fails where there is no memory to count them.
pub fn has_too_many_cells(alloc: Global, store: &Store, tree: Tree) -> Result<bool, Memory>
    requires tree { IsTree store.now tree }
    requires level { tree.level ≤ 63 }
    ensures many { IfOk result (λ many. IsTrue many → HasTooManyCells (cell store.now tree)) }
    ensures few { IfOk result (λ many. IsFalse many → HasFewCells (cell store.now tree)) }
{
    let count = store.population(alloc, tree)?;
    Ok(count > u128::from(MOST_CELLS))
}

/// Whether every live cell of the tree is where a file may have it.
pub(crate) fn are_in_range(alloc: Global, store: &Store, tree: &Tree) -> Result<bool, Memory>
    requires { IsTree store.now tree.now }
    ensures within { IfOk result (λ within. IsTrue within → AreInRange (cell store.now tree.now)) }
    ensures out { IfOk result (λ within. IsFalse within → HasCellOutOfRange (cell store.now tree.now)) }
{
    match store.bounds(alloc, *tree)? {
        Some(bounds) => Ok(is_in_range(bounds)),
        None => Ok(true),
    }
}

/// Whether a box is where a file may have live cells.
fn is_in_range(bounds: WideBounds) -> bool
    ensures within { IsTrue result → IsBoxInRange bounds }
    ensures out { IsFalse result → IsBoxOutOfRange bounds }
{
    -RANGE <= bounds.x0 && bounds.x1 < RANGE && -RANGE <= bounds.y0 && bounds.y1 < RANGE
}

/// The plane with the cells of the tree. None where it has too many.
pub(crate) fn plane_of(alloc: Global, store: &Store, tree: Tree) -> Result<Option<Plane>, Memory>
    requires tree { IsTree store.now tree }
    requires range { AreInRange (cell store.now tree) }
    ensures { IfOk result
        (λ found. MatchOption found (HasTooManyCells (cell store.now tree)) (IsPlaneOf store.now tree)) }
{
    match store.to_plane(alloc, tree) {
        Ok(cells) => Ok(Some(cells)),
        Err(QuadFault::Memory) => Err(Memory),
        Err(QuadFault::TooManyCells) => Ok(None),
        Err(QuadFault::Range) => unreachable!(),
    }
}
