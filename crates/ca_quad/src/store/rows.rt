//! Rows of a plane's cells, and those of their cells that lie in smaller squares.

ghost use Rattle.std.specs.Prelude.{◌≡◌, ℕ, ◌+◌, ◌-◌, ◌<◌, ◌≤◌, ◌⊎◌, ◌≤ℤ◌, ◌<ℤ◌, length, IsTrue, IsFalse, IfOk, OnOk};
ghost use Rattle.ca_plane.specs.Prelude.{Picture, IsSparse};
ghost use Rattle.ca_quad.specs.inner.Rows.{point_at, ComesBefore, IsInRow, IsPictureRow, AreRows, HaveRowAt, IsPartOfRows};
ghost use Rattle.ca_quad.specs.inner.Rows.{AreParts, IsWest, IsEast, IsNorth, IsSouth};

use super::quarters::Quarters;
use crate::tree::Spot;
use ca_plane::limits::REACH;
use ca_plane::{Memory, Point};
use std::alloc::Global;

// A column east of every cell of a plane.
const BEYOND: i128 = REACH + 1;

// So few cells are searched one after the other.
const FEW: usize = 16;

// Cells of one y, by their places in the list of a plane's cells.
#[derive(Clone, Copy, Drop)]
pub(crate) struct Row {
    pub y: i64,
    pub first: usize,
    pub end: usize,
}

// The rows of a plane's cells.
pub(super) fn rows_of(alloc: Global, cells: &[(Point, u8)]) -> Result<Vec<Row>, Memory>
    requires sparse { IsSparse cells.now }
    ensures rows { IfOk result (λ v. AreRows cells.now v.items) }
    ensures all { IfOk result (λ v. (i : ℕ) → i < length cells.now → HaveRowAt v.items i) }
{
    let mut rows = Vec::new(alloc);
    let mut next = 0;
    'rows: while next < cells.len() {
        let row = row_from(cells, next);
        next = row.end;
        rows.push(row)?;
    }
    Ok(rows)
}

// The row that begins at this place.
fn row_from(cells: &[(Point, u8)], first: usize) -> Row
    requires sparse { IsSparse cells.now }
    requires first { first < length cells.now }
    ensures row { IsPictureRow cells.now result }
    ensures first { result.first ≡ first }
    ensures some { first < result.end }
{
    let (point, _) = cells[first];
    let end = search(cells, first + 1, cells.len(), end_of(point));
    row_of(point, first, end)
}

// The spot after the cells of a point's row.
fn end_of(point: Point) -> Spot
    ensures { result.y ≡ point.y }
{
    Spot {
        x: BEYOND,
        y: i128::from(point.y),
    }
}

// These places of a point's row.
fn row_of(point: Point, first: usize, end: usize) -> Row
    ensures y { result.y ≡ point.y }
    ensures first { result.first ≡ first }
    ensures end { result.end ≡ end }
{
    Row {
        y: point.y,
        first,
        end,
    }
}

// The first of these places, or their end, whose cell doesn't come before the spot.
fn search(cells: &[(Point, u8)], first: usize, end: usize, at: Spot) -> usize
    requires sparse { IsSparse cells.now }
    requires order { first ≤ end }
    requires range { end ≤ length cells.now }
    ensures least { first ≤ result }
    ensures most { result ≤ end }
    ensures before { (i : ℕ) → first ≤ i → i < result → ComesBefore (point_at cells.now i) at }
    ensures after { (i : ℕ) → result ≤ i → i < end → ComesBefore (point_at cells.now i) at → ⊥ }
{
    if first == end {
        return first;
    }
    let middle = place_between(first, end);
    if comes_before(cells[middle].0, at) {
        return search(cells, middle + 1, end, at);
    }
    search(cells, first, middle, at)
}

// The place at which a search looks: the first of few, else the middle one.
fn place_between(first: usize, end: usize) -> usize
    requires { first < end }
    ensures least { first ≤ result }
    ensures most { result < end }
{
    if end - first <= FEW {
        return first;
    }
    first + (end - first) / 2
}

// Whether the point comes before the spot, row by row.
fn comes_before(point: Point, at: Spot) -> bool
    ensures yes { IsTrue result → ComesBefore point at }
    ensures no { IsFalse result → ComesBefore point at → ⊥ }
{
    let y = i128::from(point.y);
    if y < at.y {
        return true;
    }
    if y > at.y {
        return false;
    }
    i128::from(point.x) < at.x
}

// The place in a row at which the cells from a spot's column onwards begin.
fn split(cells: &[(Point, u8)], row: Row, at: Spot) -> usize
    requires sparse { IsSparse cells.now }
    requires row { IsPictureRow cells.now row }
    ensures least { row.first ≤ result }
    ensures most { result ≤ row.end }
    ensures west { (i : ℕ) → IsInRow row i → IsWest at.x (point_at cells.now i) → i < result }
    ensures east { (i : ℕ) → IsInRow row i → IsEast at.x (point_at cells.now i) → result ≤ i }
{
    let place = Spot {
        x: at.x,
        y: i128::from(row.y),
    };
    search(cells, row.first, row.end, place)
}

// The cells of rows, by the square of four round a spot in which they lie.
pub(super) fn parts_round(
    alloc: Global,
    cells: &[(Point, u8)],
    rows: &[Row],
    at: Spot,
) -> Result<Quarters<Row>, Memory>
    requires sparse { IsSparse cells.now }
    requires rows { AreRows cells.now rows.now }
    ensures { IfOk result (AreParts cells.now rows.now at) }
{
    let (west, east) = halves(alloc, cells, rows, at)?;
    let (nw, sw) = bands(alloc, &west, at)?;
    let (ne, se) = bands(alloc, &east, at)?;
    Ok(Quarters { nw, ne, sw, se })
}

// The cells of rows that lie west of a spot, and those in its column and east of it.
fn halves(
    alloc: Global,
    cells: &[(Point, u8)],
    rows: &[Row],
    at: Spot,
) -> Result<(Vec<Row>, Vec<Row>), Memory>
    requires sparse { IsSparse cells.now }
    requires rows { AreRows cells.now rows.now }
    ensures west { IfOk result (λ h. IsPartOfRows cells.now rows.now (IsWest at.x) h.0.items) }
    ensures east { IfOk result (λ h. IsPartOfRows cells.now rows.now (IsEast at.x) h.1.items) }
{
    let mut west = Vec::new(alloc);
    let mut east = Vec::new(alloc);
    'rows: for &row in rows {
        let place = split(cells, row, at);
        let mut west_row = row;
        west_row.end = place;
        let mut east_row = row;
        east_row.first = place;
        push_row(west_row, &mut west)?;
        push_row(east_row, &mut east)?;
    }
    Ok((west, east))
}

// The rows north of a spot, and its own row and those south of it.
fn bands(alloc: Global, rows: &[Row], at: Spot) -> Result<(Vec<Row>, Vec<Row>), Memory>
    ensures north { (p : Picture) → AreRows p rows.now
        → IfOk result (λ b. IsPartOfRows p rows.now (IsNorth at.y) b.0.items) }
    ensures south { (p : Picture) → AreRows p rows.now
        → IfOk result (λ b. IsPartOfRows p rows.now (IsSouth at.y) b.1.items) }
{
    let mut north = Vec::new(alloc);
    let mut south = Vec::new(alloc);
    'rows: for &row in rows {
        if is_north(row, at) {
            north.push(row)?;
        } else {
            south.push(row)?;
        }
    }
    Ok((north, south))
}

// Whether the row lies north of a spot.
fn is_north(row: Row, at: Spot) -> bool
    ensures yes { IsTrue result → row.y <ℤ at.y }
    ensures no { IsFalse result → at.y ≤ℤ row.y }
{
    i128::from(row.y) < at.y
}

// Adds a row, where it has a cell.
fn push_row(row: Row, rows: &mut Vec<Row>) -> Result<(), Memory>
    ensures holds { OnOk result ((i : ℕ) → HaveRowAt rows.old.items i ⊎ IsInRow row i
        → HaveRowAt rows.new.items i) }
    ensures rows { OnOk result ((p : Picture) → AreRows p rows.old.items → IsPictureRow p row
        → AreRows p rows.new.items) }
{
    if row.first == row.end {
        return Ok(());
    }
    rows.push(row)?;
    Ok(())
}
