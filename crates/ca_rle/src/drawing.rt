//! The cells of items, drawn one after another.

ghost use Rattle.std.specs.Prelude.{◌≡◌, ◌≢◌, ℕ, ℤ, ◌<◌, ◌≤◌, ⊤, List, Some, MatchOption, OnOk, IfOk};
ghost use Rattle.ca_plane.specs.Prelude.{bit_cell, IsPicture, cell, IsSparse, IsInRange};
ghost use Rattle.ca_rle.specs.declared.{item.Item.Item, fault.RleFault.RleFault};
ghost use Rattle.ca_rle.specs.Items.{IsEnd, Items};
ghost use Rattle.ca_rle.specs.Faults.{item_fault};
ghost use Rattle.ca_rle.specs.Shown.{tag_state, greatest_state, run_of, picture_of_items};
ghost use Rattle.ca_rle.specs.Limits.{IsRleWithinRange};
ghost use Rattle.ca_rle.specs.inner.BodyFaults.{IsItemAtFront, bare_file};
ghost use Rattle.ca_rle.specs.inner.Extent.{point_from, HasRoomRight, cells_from, drawn_over};

use crate::extent::Offset;
use crate::item::Item;
use crate::unit::next_item;
use ca_plane::{BitPlane, Memory, Plane, Point};
use std::alloc::Global;

/// What the cells of items are drawn on.
pub(crate) trait Canvas: Drop {
    /// The state of each cell.
    ghost shown: { Self → ℤ → ℤ → ℕ };
    /// What holds of each plane that was drawn.
    ghost is_kept: { Self → Type 0 };
    /// The greatest state that a cell may have.
    ghost most: { ℕ };

    /// The plane without a live cell.
    fn empty(alloc: Global) -> Self
        ensures cells { (x y : ℤ) → shown result x y ≡ 0 }
        ensures kept { is_kept result };

    /// Gives `count` cells a state, from a point to the right.
    fn draw_run(&mut self, at: Point, count: u64, state: u8) -> Result<(), Memory>
        requires room { HasRoomRight at count }
        requires least { 1 ≤ state }
        requires most { state ≤ most }
        ensures cells { OnOk result ((x y : ℤ) → shown self.new x y
            ≡ drawn_over (run_of state at count) (shown self.old) x y) }
        ensures kept { OnOk result (is_kept self.old → is_kept self.new) };
}

impl Canvas for Plane {
    ghost shown = { cell };

    ghost is_kept = { IsSparse };

    ghost most = { 255 };

    fn empty(alloc: Global) -> Plane {
        Plane::new(alloc)
    }

    fn draw_run(&mut self, at: Point, count: u64, state: u8) -> Result<(), Memory> {
        'cells: for step in 0..count {
            let point = Point {
                y: at.y,
                x: at.x + step as i64,
            };
            self.set(point, state)?;
        }
        Ok(())
    }
}

impl Canvas for BitPlane {
    ghost shown = { bit_cell };

    ghost is_kept = { λ plane. ⊤ };

    ghost most = { 1 };

    fn empty(alloc: Global) -> BitPlane {
        BitPlane::new(alloc)
    }

    fn draw_run(&mut self, at: Point, count: u64, state: u8) -> Result<(), Memory> {
        let _ = state;
        self.add_run(at, count)?;
        Ok(())
    }
}

/// Draws the cells of an item that begins at an offset from the corner.
fn draw_item<C: Canvas>(canvas: &mut C, corner: Point, at: Offset, item: Item) -> Result<(), Memory>
    requires corner { IsInRange corner }
    requires room { tag_state item.tag ≢ 0 → HasRoomRight (point_from corner at) item.count }
    requires most { tag_state item.tag ≤ C.most }
    ensures cells { OnOk result ((x y : ℤ) → C.shown canvas.new x y
        ≡ drawn_over (cells_from (point_from corner at) item) (C.shown canvas.old) x y) }
    ensures kept { OnOk result (C.is_kept canvas.old → C.is_kept canvas.new) }
{
    let state = item.tag.state();
    if state == 0 {
        return Ok(());
    }
    canvas.draw_run(at.point(corner), item.count, state)
}

/// The item at the front of bytes that were judged to be good, and the bytes after it, or nothing where the
/// pattern ends.
pub(crate) fn good_item(bytes: &[u8]) -> Option<(Item, &[u8])>
    requires { (f : RleFault) → item_fault bytes.now ≡ Some f → ⊥ }
    ensures { MatchOption result (IsEnd bytes.now) (λ r. IsItemAtFront bytes.now r.0 r.1.now) }
{
    let Ok(found) = next_item(bytes) else {
        return None;
    };
    found
}

/// The plane that the items of a body show, whose first cell is at the corner.
///
/// # Errors
///
/// Fails where there is no memory for it.
pub(crate) fn draw<C: Canvas>(alloc: Global, body: &[u8], corner: Point) -> Result<C, Memory>
    requires { (items : List Item) × Items body.now items × IsRleWithinRange (bare_file corner items)
        × (greatest_state items ≤ C.most) }
    ensures shown { IfOk result (λ c. (items : List Item) → Items body.now items
        → ((x y : ℤ) → C.shown c x y ≡ cell (picture_of_items corner items) x y)
        × IsPicture (picture_of_items corner items)) }
    ensures kept { IfOk result C.is_kept }
{
    let mut canvas = C::empty(alloc);
    let mut at = Offset::start();
    let mut rest = body;
    'items: while let Some((item, more)) = good_item(rest) {
        draw_item(&mut canvas, corner, at, item)?;
        at = at.after_item(item);
        rest = more;
    }
    Ok(canvas)
}
