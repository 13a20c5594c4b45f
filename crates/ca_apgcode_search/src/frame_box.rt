//! The smallest box round the live cells of a frame.

ghost use Rattle.std.specs.Prelude.{◌≡◌, ◌+◌, ◌<◌, ◌≤◌, ℕ, ℤ, slice_index, IfOk, IfSome, IsTrue};
ghost use Rattle.std.specs.Int.{bit_at};
ghost use Rattle.ca_apgcode.specs.Prelude.{IsBoxRound};
ghost use Rattle.ca_apgcode_search.specs.inner.Frames.{AreColumnsOf};

use crate::frame::ROWS;
use ca_apgcode::{Grid, MOST_SIDE};
use ca_plane::Memory;
use std::alloc::Global;

/// The smallest box round the live cells of a plane whose columns are these rows. Where it has more than 40 columns or
/// rows, or no cell is live, there is none.
pub(crate) fn box_of_rows(alloc: Global, rows: &[u64; ROWS]) -> Result<Option<Grid>, Memory>
    ensures { (cells : ℤ → ℤ → ℕ) (left top : ℤ) → AreColumnsOf rows.now cells left top
        → IfOk result (λ found. IfSome found (IsBoxRound cells)) }
{
    let first = first_row(rows);
    let end = (first + usize::from(MOST_SIDE)).min(ROWS);
    let low = first_bit(union(rows));
    if !are_blank_from(rows, end) {
        return Ok(None);
    }
    let mut columns = Vec::with_capacity(alloc, usize::from(MOST_SIDE))?;
    'columns: for r in first..end {
        let column = rows[r] >> low;
        if column >> MOST_SIDE != 0 {
            return Ok(None);
        }
        columns.push(column)?;
    }
    Ok(Grid::from_columns(columns))
}

// The first row that isn't 0, if one before the last isn't.
fn first_row(rows: &[u64; ROWS]) -> usize
    ensures before { (r : ℕ) → r < result → slice_index rows.now r ≡ 0 }
    ensures most { result < 48 }
{
    'rows: for r in 0..ROWS - 1 {
        if rows[r] != 0 {
            return r;
        }
    }
    ROWS - 1
}

// The bits that some row has.
fn union(rows: &[u64; ROWS]) -> u64
    ensures { (r i : ℕ) → r < 48 → bit_at result i ≡ 0 → bit_at (slice_index rows.now r) i ≡ 0 }
{
    let mut all = 0;
    'rows: for r in 0..ROWS {
        all |= rows[r];
    }
    all
}

// The place of the lowest bit, or the last place where there is none.
fn first_bit(word: u64) -> u32
    ensures before { (i : ℕ) → i < result → bit_at word i ≡ 0 }
    ensures most { result < 64 }
{
    word.trailing_zeros().min(63)
}

// True only where all rows from row `first` onwards are 0.
fn are_blank_from(rows: &[u64; ROWS], first: usize) -> bool
    ensures { IsTrue result → (r : ℕ) → first ≤ r → r < 48 → slice_index rows.now r ≡ 0 }
{
    'rows: for r in first..ROWS {
        if rows[r] != 0 {
            return false;
        }
    }
    true
}
