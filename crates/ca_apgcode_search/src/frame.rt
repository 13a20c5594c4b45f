//! Small boxes in a frame of bricks, where their cells are advanced by one generation.

ghost use Rattle.std.specs.Prelude.{◌≡◌, ◌+◌, ◌*◌, ◌/◌, ◌%◌, ◌<◌, ◌≤◌, [], ℕ, length, slice_index, get_or, IfOk};
ghost use Rattle.ca_bricks.specs.Prelude.{HasBlankEdge, HasNeighbours, IsNextBrick};
ghost use Rattle.ca_bricks.specs.declared.cell_rule.CellRule.TheVariants.{ByCounting};
ghost use Rattle.ca_apgcode_search.specs.inner.Frames.{IsDarkBeside, IsFrameOf, frame_row};

use ca_apgcode::Grid;
use ca_bricks::{CellRule, Queue, blank_bricks, generation};
use ca_plane::{Counting, Memory};
use std::alloc::Global;

// How many bricks a row of a frame has.
const ACROSS: usize = 3;

// How many a frame has: those at its edge are blank, and three in the middle, one below the other, have the cells.
const BRICKS: usize = 15;

// The bricks in the middle, which are stepped. The others see no live cell.
const MIDDLE: [usize; 3] = [4, 7, 10];

/// What a generation would count as work: as many bricks as have others on all sides, where the last brick of a row lies beside the
/// first one of the next row, as in ca_bricks.
pub(crate) const WORK: u64 = 7;

/// How many rows the bricks in the middle have.
pub(crate) const ROWS: usize = 48;

/// A frame with the cells of a box, each column as a row, from the second row and the second bit on.
pub(crate) fn frame_of(alloc: Global, grid: &Grid) -> Result<Vec<[u64; 16]>, Memory>
    ensures { IfOk result (λ bricks. IsFrameOf grid.now bricks.items) }
{
    let mut bricks = blank_bricks(alloc, BRICKS)?;
    bricks[4] = brick_rows(grid, 0);
    bricks[7] = brick_rows(grid, 16);
    bricks[10] = brick_rows(grid, 32);
    Ok(bricks)
}

// Sixteen rows from row `first` onwards.
fn brick_rows(grid: &Grid, first: u8) -> [u64; 16]
    requires { first ≤ 32 }
    ensures { (y : ℕ) → y < 16 → slice_index result y ≡ frame_row grid.now (first + y) }
{
    let mut rows = [0; 16];
    'rows: for y in 0..16u8 {
        rows[usize::from(y)] = frame_row(grid, first + y);
    }
    rows
}

// A row of the frame: the first one is blank, then come the columns of the box.
fn frame_row(grid: &Grid, row: u8) -> u64
    ensures { result ≡ frame_row grid.now row }
{
    if row == 0 || grid.width() < row {
        return 0;
    }
    grid.column(row - 1) << 1
}

/// A frame one generation later, where no cell is born that has no live neighbour. The bricks that aren't stepped are
/// blank then.
pub(crate) fn next_frame(
    alloc: Global,
    mut bricks: Vec<[u64; 16]>,
    counting: Counting,
) -> Result<Vec<[u64; 16]>, Memory>
    requires size { length bricks.items ≡ 15 }
    requires dark { IsDarkBeside bricks.items }
    requires quiet { counting.birth % 2 ≡ 0 }
    ensures size { IfOk result (λ later. length later.items ≡ 15) }
    ensures edge { IfOk result (λ later. HasBlankEdge 3 later.items) }
    ensures next { IfOk result (λ later. (t : ℕ) → HasNeighbours 3 15 t
        → IsNextBrick (ByCounting counting) 3 bricks.items later.items t) }
{
    let mut queue = Queue::new(alloc, BRICKS)?;
    let mut before = blank_bricks(alloc, BRICKS)?;
    generation(
        ACROSS,
        &mut bricks,
        &mut before,
        &MIDDLE,
        &mut queue,
        &CellRule::ByCounting(counting),
    )?;
    Ok(bricks)
}

/// The rows in the middle of a frame, from the top.
pub(crate) fn middle_rows(bricks: &[[u64; 16]]) -> [u64; ROWS]
    requires { length bricks.now ≡ 15 }
    ensures { (r : ℕ) → r < 48 → slice_index result r ≡ slice_index (get_or bricks.now (4 + 3 * (r / 16)) []) (r % 16) }
{
    let mut rows = [0; ROWS];
    'rows: for r in 0..ROWS {
        rows[r] = bricks[4 + ACROSS * (r / 16)][r % 16];
    }
    rows
}
