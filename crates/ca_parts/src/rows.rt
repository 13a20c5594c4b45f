//! Cells of a plane that are found by their rows.

ghost use Rattle.std.specs.Prelude.{◌≡◌, ◌≢◌, ℤ, ◌≤ℤ◌, IsTrue, IsFalse};
ghost use Rattle.ca_plane.specs.Prelude.{cell, IsSparse};
ghost use Rattle.ca_parts.specs.inner.Rows.{comes_before, lies_in_row, IsFirstFrom, IsRising};

use ca_plane::Point;

/// The place of the first cell that isn't read before (x, y), or how many cells there are.
pub(crate) fn first_from(cells: &[(Point, u8)], x: i128, y: i128) -> usize
    requires { IsRising cells.now }
    ensures { IsFirstFrom cells.now x y result }
{
    cells.partition_point(|&(at, _)| is_before(at, x, y))
}

// Whether the point is read before (x, y): row by row from the top, and in a row by rising x.
fn is_before(at: Point, x: i128, y: i128) -> bool
    ensures { result ≡ comes_before at x y }
{
    let (column, row) = (i128::from(at.x), i128::from(at.y));
    row < y || (row == y && column < x)
}

// Whether the point lies in the row, and no further east than the column.
fn is_in_row(at: Point, east: i128, row: i128) -> bool
    ensures { result ≡ lies_in_row at east row }
{
    let (column, line) = (i128::from(at.x), i128::from(at.y));
    line == row && column <= east
}

/// Whether a cell of the row is live from one column to another, both included.
pub(crate) fn is_live_between(cells: &[(Point, u8)], west: i128, east: i128, row: i128) -> bool
    requires { IsSparse cells.now }
    ensures live { IsTrue result → (x : ℤ) × (west ≤ℤ x) × (x ≤ℤ east) × (cell cells.now x row ≢ 0) }
    ensures dead { IsFalse result → (x : ℤ) → west ≤ℤ x → x ≤ℤ east → cell cells.now x row ≡ 0 }
{
    let place = first_from(cells, west, row);
    if place == cells.len() {
        return false;
    }
    is_in_row(cells[place].0, east, row)
}
