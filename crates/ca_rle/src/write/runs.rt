//! The tidy items of a plane, run by run.

ghost use Rattle.std.specs.Prelude.{◌≡◌, ◌≢◌, ℕ, ℤ, ◌<◌, ◌≤ℤ◌, ◌+ℤ◌, pos, ◌++◌, List, OnOk, IfOk, IsTrue, IsFalse};
ghost use Rattle.std.specs.List.{All};
ghost use Rattle.ca_rle.specs.declared.item.Item.{Item};
ghost use Rattle.ca_rle.specs.declared.item.Tag.TheVariants.{Cell};
ghost use Rattle.ca_rle.specs.Shown.{picture_of_items};
ghost use Rattle.ca_rle.specs.Tidy.{AreTidy, HaveStates};
ghost use Rattle.ca_rle.specs.inner.Written.{some_of, IsItemGap};
ghost use Rattle.ca_plane.specs.Prelude.{cell, reach};

use super::frame::distance;
use crate::item::{Item, Tag};
use ca_plane::{Memory, Plane, Point};
use std::alloc::Global;

/// The run of cells that was met last: where it begins, the x after it, and the state of its cells.
#[derive(Clone, Copy)]
pub(super) struct Run {
    pub(super) from: Point,
    pub(super) past: i64,
    pub(super) state: u8,
}

impl Run {
    /// The run of one cell.
    fn of(point: Point, state: u8) -> Run
        requires { point.x ≤ℤ reach }
        ensures from { result.from ≡ point }
        ensures past { result.past ≡ point.x +ℤ pos 1 }
        ensures state { result.state ≡ state }
    {
        Run {
            from: point,
            past: point.x + 1,
            state,
        }
    }

    /// The place after the run.
    pub(super) fn end(self) -> Point
        ensures y { result.y ≡ self.from.y }
        ensures x { result.x ≡ self.past }
    {
        Point {
            y: self.from.y,
            x: self.past,
        }
    }

    /// Whether the cell goes on with the run.
    pub(super) fn goes_on(self, point: Point, state: u8) -> bool
        ensures yes { IsTrue result → (point.y ≡ self.from.y) × (point.x ≡ self.past) × (state ≡ self.state) }
        ensures no { IsFalse result → point.y ≡ self.from.y → point.x ≡ self.past → state ≢ self.state }
    {
        point == self.end() && state == self.state
    }

    /// The item of the run.
    pub(super) fn item(self) -> Item
        requires { self.from.x ≤ℤ self.past }
        ensures count { self.past ≡ self.from.x +ℤ pos result.count }
        ensures tag { result.tag ≡ Cell self.state }
    {
        Item {
            count: distance(self.from.x, self.past),
            tag: Tag::Cell(self.state),
        }
    }
}

/// Puts `count` of a tag after the items as one item, and nothing where `count` is 0.
fn push_some(items: &mut Vec<Item>, tag: Tag, count: u64) -> Result<(), Memory>
    ensures { OnOk result (items.new.items ≡ items.old.items ++ some_of tag count) }
{
    if count > 0 {
        items.push(Item { count, tag })?;
    }
    Ok(())
}

/// Puts what leads from one place to a later one after the items: row ends, and then dead cells.
fn push_gap(items: &mut Vec<Item>, left: i64, from: Point, to: Point) -> Result<(), Memory>
    requires below { from.y ≤ℤ to.y }
    requires right { to.y ≡ from.y → from.x ≤ℤ to.x }
    requires left { left ≤ℤ to.x }
    ensures { OnOk result ((gap : List Item) × IsItemGap left from to gap
        × (items.new.items ≡ items.old.items ++ gap)) }
{
    let rows = distance(from.y, to.y);
    if rows == 0 {
        return push_some(items, Tag::Cell(0), distance(from.x, to.x));
    }
    push_some(items, Tag::RowEnd, rows)?;
    push_some(items, Tag::Cell(0), distance(left, to.x))
}

/// The tidy items of the plane, whose first cell is at the corner.
pub(super) fn items(alloc: Global, cells: &Plane, corner: Point) -> Result<Vec<Item>, Memory>
    requires { (x y : ℤ) → cell cells.now x y ≢ 0 → (corner.x ≤ℤ x) × (corner.y ≤ℤ y) }
    ensures shown { IfOk result (λ v. picture_of_items corner v.items ≡ cells.now) }
    ensures tidy { IfOk result (λ v. AreTidy v.items) }
    ensures states { (n : ℕ) → All (λ e. e.1 < n) cells.now → IfOk result (λ v. HaveStates n v.items) }
{
    let mut items = Vec::new(alloc);
    let mut left = cells.cells();
    let Some((first, state)) = left.next() else {
        return Ok(items);
    };
    push_gap(&mut items, corner.x, corner, first)?;
    let mut run = Run::of(first, state);
    'cells: for (point, state) in left {
        if run.goes_on(point, state) {
            run.past = point.x + 1;
            continue;
        }
        items.push(run.item())?;
        push_gap(&mut items, corner.x, run.end(), point)?;
        run = Run::of(point, state);
    }
    items.push(run.item())?;
    Ok(items)
}
