//! Lengths of a grid's representations in its eight orientations, computed without turning it.

ghost use Rattle.std.specs.Prelude.{◌≡◌, ℕ, ℤ, List, ◌+◌, ◌*◌, ◌<◌, ◌≤◌, ◌^◌, ◌==◌, length, IsFalse, if◌then◌else◌};
ghost use Rattle.ca_apgcode.specs.Grids.{GridCells as Cells, cell};
ghost use Rattle.ca_apgcode.specs.Objects.{IsBoxRound, IsTurnedText};
ghost use Rattle.ca_apgcode.specs.Representation.{IsRepresentation};
ghost use Rattle.ca_apgcode.specs.inner.Sides.{IsSeenFrom, seen_width, seen_height, IsStripMask, IsTextLength, HasLongTexts};
ghost use Rattle.ca_apgcode.specs.inner.Turned.{IsMirrored};

use crate::grid::Grid;
use crate::masks::{live_columns, live_rows, mask_length, mirrored_length};

/// The side of a grid from which its strips are counted.
#[derive(Clone, Copy)]
pub(crate) enum Side {
    /// Strips are rows from the north: the grid as it is.
    North,
    /// Strips are rows from the south: north and south are exchanged.
    South,
    /// Strips are columns from the west: columns are rows.
    West,
    /// Strips are columns from the east: east and west are exchanged, and then columns are rows.
    East,
}

/// How long the representation of a grid's cells is, in bytes.
pub(crate) fn representation_length(grid: &Grid) -> usize
    ensures { (text : List ℕ) → IsRepresentation (cell grid.now) grid.now.height text → result ≡ length text }
{
    lengths_from(grid, Side::North).seen
}

/// False only where the representation of a grid, which is the smallest box round the live cells of a plane, has more
/// than `most` bytes in each of its eight orientations.
pub(crate) fn has_short_text(grid: &Grid, most: usize) -> bool
    ensures { (cells : ℤ → ℤ → ℕ) → IsBoxRound cells grid.now → IsFalse result
        → (text : List ℕ) → IsTurnedText cells text → most < length text }
{
    is_short_from(grid, Side::West, most)
        || is_short_from(grid, Side::East, most)
        || is_short_from(grid, Side::North, most)
        || is_short_from(grid, Side::South, most)
}

// The same of a grid as it is seen from a side, and of that with east and west exchanged.
fn is_short_from(grid: &Grid, side: Side, most: usize) -> bool
    ensures seen { IsFalse result → (seen : Cells) → IsSeenFrom side grid.now seen → HasLongTexts most seen }
    ensures mirrored { IsFalse result → (seen mirrored : Cells) → IsSeenFrom side grid.now seen
        → IsMirrored seen mirrored → HasLongTexts most mirrored }
{
    let lengths = lengths_from(grid, side);
    lengths.seen <= most || lengths.mirrored <= most
}

// How long the representation of a grid is as it is seen from a side, and of that with east and west exchanged.
#[derive(Clone, Copy)]
struct Lengths {
    seen: usize,
    mirrored: usize,
}

// The lengths for a side.
fn lengths_from(grid: &Grid, side: Side) -> Lengths
    ensures seen { (seen : Cells) → IsSeenFrom side grid.now seen → IsTextLength result.seen seen }
    ensures mirrored { (seen mirrored : Cells) → IsSeenFrom side grid.now seen → IsMirrored seen mirrored
        → IsTextLength result.mirrored mirrored }
{
    let width = seen_width(grid, side);
    let count = seen_height(grid, side).div_ceil(5);
    let mut seen = 0;
    let mut mirrored = 0;
    'strips: for strip in 0..count {
        let joint = joint_length(strip);
        let mask = strip_mask(grid, side, strip);
        seen += joint + mask_length(mask);
        mirrored += joint + mirrored_length(mask, width);
    }
    Lengths { seen, mirrored }
}

// How long what is before a strip is.
fn joint_length(strip: u8) -> usize
    ensures { result ≡ (if strip == 0 then 0 else 1) }
{
    if strip == 0 { 0 } else { 1 }
}

// How many columns a grid has as it is seen from a side.
fn seen_width(grid: &Grid, side: Side) -> u8
    ensures width { result ≡ seen_width side grid.now }
    ensures most { result ≤ 40 }
{
    match side {
        Side::North | Side::South => grid.width(),
        Side::West | Side::East => grid.height(),
    }
}

// How many rows it has then.
fn seen_height(grid: &Grid, side: Side) -> u8
    ensures height { result ≡ seen_height side grid.now }
    ensures most { result ≤ 40 }
{
    match side {
        Side::North | Side::South => grid.height(),
        Side::West | Side::East => grid.width(),
    }
}

// Which columns of a strip have a live cell, where the grid is seen from a side.
fn strip_mask(grid: &Grid, side: Side, strip: u8) -> u64
    requires few { strip < 8 }
    requires within { 5 * strip < seen_height side grid.now }
    ensures mask { (seen : Cells) → IsSeenFrom side grid.now seen → IsStripMask (cell seen) (5 * strip) result }
    ensures low { result < 2 ^ seen_width side grid.now }
{
    match side {
        Side::North => live_columns(grid, 5 * strip + 5),
        Side::South => live_columns(grid, grid.height() - 5 * strip),
        Side::West => live_rows(grid, 5 * strip + 5),
        Side::East => live_rows(grid, grid.width() - 5 * strip),
    }
}
