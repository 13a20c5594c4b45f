//! The smallest box round the live cells of a phase.

ghost use Rattle.std.specs.Prelude.{◌≡◌, ◌≤◌, pos, ◌+ℤ◌, ◌≤ℤ◌, IfOk, OnOk, MatchOption};
ghost use Rattle.ca_quad.specs.Prelude.{AreSquareBoxes, cell};
ghost use Rattle.ca_apgcode.specs.Prelude.{IsBoxRound};
ghost use Rattle.ca_pattern.specs.Prelude.{IsNearTree, IsWide, ShowsTree, IsWideBox};
ghost use Rattle.ca_apgcode_search.specs.inner.Drawn.{HasNoText, IsLarge, IsWindowOf};

use crate::drawing::{Window, draw};
use ca_apgcode::{Grid, MOST_SIDE};
use ca_plane::{Memory, Plane};
use ca_quad::{SquareBoxes, Store, Tree, WideBounds};
use std::alloc::Global;

/// The smallest box round the live cells of a tree, where it fits into 40 by 40 cells. The boxes are those of squares
/// that were measured before, and then of these too.
pub(crate) fn box_round(
    alloc: Global,
    store: &Store,
    tree: &Tree,
    boxes: &mut SquareBoxes,
) -> Result<Option<Grid>, Memory>
    requires tree { IsNearTree store.now tree.now }
    requires boxes { AreSquareBoxes store.now boxes.old }
    ensures grid { IfOk result (λ found. MatchOption found (HasNoText (cell store.now tree.now))
        (IsBoxRound (cell store.now tree.now))) }
    ensures boxes { OnOk result (AreSquareBoxes store.now boxes.new) }
{
    let Some(bounds) = store.bounds_with(alloc, *tree, boxes)? else {
        return Ok(None);
    };
    let Some(window) = window_of(&bounds) else {
        return Ok(None);
    };
    let plane = plane_of(alloc, store, tree)?;
    let grid = draw(alloc, &plane, &window)?;
    Ok(Some(grid))
}

/// The window of a box, where that has at most 40 columns and rows.
pub(crate) fn window_of(bounds: &WideBounds) -> Option<Window>
    requires wide { IsWideBox bounds.now }
    requires x { bounds.now.x0 ≤ℤ bounds.now.x1 }
    requires y { bounds.now.y0 ≤ℤ bounds.now.y1 }
    ensures { MatchOption result (IsLarge bounds.now) (IsWindowOf bounds.now) }
{
    let Some(width) = count(bounds.x0, bounds.x1) else {
        return None;
    };
    let Some(height) = count(bounds.y0, bounds.y1) else {
        return None;
    };
    Some(Window {
        x0: bounds.x0,
        y0: bounds.y0,
        width,
        height,
    })
}

// How many coordinates there are from one to another, both included, where they are at most 40.
fn count(first: i128, last: i128) -> Option<u8>
    requires first { IsWide first }
    requires last { IsWide last }
    requires order { first ≤ℤ last }
    ensures { MatchOption result ((first +ℤ pos 40) ≤ℤ last)
        (λ n. (last +ℤ pos 1 ≡ first +ℤ pos n) × (n ≤ MOST_SIDE)) }
{
    let count = last - first + 1;
    if count > i128::from(MOST_SIDE) {
        return None;
    }
    Some(count as u8)
}

// The plane with the cells of a tree whose box is small. There is no other fault than out of memory, since so few cells are
// never too many.
fn plane_of(alloc: Global, store: &Store, tree: &Tree) -> Result<Plane, Memory>
    requires { IsNearTree store.now tree.now }
    ensures { IfOk result (ShowsTree store.now tree.now) }
{
    match store.to_plane(alloc, *tree) {
        Ok(plane) => Ok(plane),
        Err(_) => Err(Memory),
    }
}
