//! Parts that are taken from the cells of a plane, one after another.

ghost use Rattle.std.specs.Prelude.{◌<◌, length, slice_index_or, OnOk, IfOk};
ghost use Rattle.std.specs.List.{All, HoldsAt};
ghost use Rattle.ca_plane.specs.Prelude.{IsInPlane};
ghost use Rattle.ca_parts.specs.inner.Rows.{IsRising};
ghost use Rattle.ca_parts.specs.inner.Taking.{IsDarkBefore, IsInRoom, IsInStretch, IsLiveAt, IsNear};
ghost use Rattle.ca_parts.specs.inner.Taking.{TakesAll, TakesCell, TakesPart, TakesReached};

use crate::rows::first_from;
use ca_plane::{Memory, Plane, Point};
use std::alloc::Global;

/// Takes the cell at the place, and all that is reached from there by steps of at most `reach` in both
/// directions, over live cells. All cells before it have to be taken already.
pub(crate) fn take_part(
    alloc: Global,
    left: &mut Vec<(Point, u8)>,
    place: usize,
    at: Point,
    reach: u8,
) -> Result<Plane, Memory>
    requires rising { IsRising left.old.items }
    requires near { All (λ e. IsInPlane e.0) left.old.items }
    requires within { place < length left.old.items }
    requires live { HoldsAt (IsLiveAt at) left.old.items place }
    requires first { IsDarkBefore left.old.items place }
    ensures { IfOk result (TakesPart reach at left.old.items left.new.items) }
{
    let taken = take_reached(alloc, left, place, at, reach)?;
    Plane::from_cells(alloc, taken)
}

// Takes the cell at the place, and what is reached from there.
fn take_reached(
    alloc: Global,
    left: &mut Vec<(Point, u8)>,
    place: usize,
    at: Point,
    reach: u8,
) -> Result<Vec<(Point, u8)>, Memory>
    requires rising { IsRising left.old.items }
    requires near { All (λ e. IsInPlane e.0) left.old.items }
    requires within { place < length left.old.items }
    requires live { HoldsAt (IsLiveAt at) left.old.items place }
    ensures reached { IfOk result (λ v. TakesReached reach at left.old.items left.new.items v.items) }
    ensures near { IfOk result (λ v. All (λ e. IsInPlane e.0) v.items) }
{
    let mut taken = Vec::new(alloc);
    take(left, &mut taken, place)?;
    let mut next = 0;
    'steps: while next < taken.len() {
        let (near, _) = taken[next];
        take_near(left, &mut taken, near, reach)?;
        next += 1;
    }
    Ok(taken)
}

// Takes the cells within reach of the point.
fn take_near(
    left: &mut Vec<(Point, u8)>,
    taken: &mut Vec<(Point, u8)>,
    at: Point,
    reach: u8,
) -> Result<(), Memory>
    requires rising { IsRising left.old.items }
    ensures { OnOk result (TakesAll (IsNear reach at)
        left.old.items taken.old.items left.new.items taken.new.items) }
{
    let (x, y, distance) = (i128::from(at.x), i128::from(at.y), i128::from(reach));
    'rows: for row in y - distance..y + distance + 1 {
        take_stretch(left, taken, x - distance, x + distance, row)?;
    }
    Ok(())
}

// Takes the cells of a row from one column to another, both included.
fn take_stretch(
    left: &mut Vec<(Point, u8)>,
    taken: &mut Vec<(Point, u8)>,
    west: i128,
    east: i128,
    row: i128,
) -> Result<(), Memory>
    requires rising { IsRising left.old.items }
    requires room { IsInRoom east }
    ensures { OnOk result (TakesAll (IsInStretch west east row)
        left.old.items taken.old.items left.new.items taken.new.items) }
{
    let first = first_from(left.as_slice(), west, row);
    let end = first_from(left.as_slice(), east + 1, row);
    'cells: for place in first..end {
        take(left, taken, place)?;
    }
    Ok(())
}

// Takes the cell at the place, where it isn't 0.
fn take(
    left: &mut Vec<(Point, u8)>,
    taken: &mut Vec<(Point, u8)>,
    place: usize,
) -> Result<(), Memory>
    requires { place < length left.old.items }
    ensures { OnOk result (HoldsAt
        (TakesCell place left.old.items taken.old.items left.new.items taken.new.items)
        left.old.items place) }
{
    let (at, state) = left[place];
    if state == 0 {
        return Ok(());
    }
    taken.push((at, state))?;
    left[place] = (at, 0);
    Ok(())
}
