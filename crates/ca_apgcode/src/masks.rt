//! Strips of a grid as numbers, whose bits say which columns have live cells.

ghost use Rattle.std.specs.Prelude.{◌≡◌, ℕ, ◌+◌, ◌-◌, ◌*◌, ◌<◌, ◌≤◌, ◌^◌, ◌↔◌, length, IsTrue};
ghost use Rattle.std.specs.Int.{bit_at};
ghost use Rattle.ca_apgcode.specs.Grids.{GridCells as Cells, cell};
ghost use Rattle.ca_apgcode.specs.inner.Lengths.{IsStripLength};
ghost use Rattle.ca_apgcode.specs.inner.Sides.{IsOfFiveBefore, AreLiveBefore, IsStripMask};
ghost use Rattle.ca_apgcode.specs.inner.Sides.{west_bit, east_bit, bits_without, text_length};
ghost use Rattle.ca_apgcode.specs.inner.Turned.{IsMirrored};

use crate::grid::Grid;

/// Which columns have a live cell in the five rows before one. Bit 0 is that of the western column.
pub(crate) fn live_columns(grid: &Grid, end: u8) -> u64
    requires { end ≤ 40 }
    ensures live { AreLiveBefore (cell grid.now) end result }
    ensures low { result < 2 ^ length grid.now.columns }
{
    let rows = five_bits_before(end);
    let columns = grid.columns();
    let mut mask = 0;
    'columns: for n in 0..columns.len() {
        let column = columns[columns.len() - 1 - n];
        mask = 2 * mask + u64::from(share_a_bit(column, rows));
    }
    mask
}

// The five bits before a place, or those of them that there are.
fn five_bits_before(end: u8) -> u64
    requires { end ≤ 40 }
    ensures { (y : ℕ) → (bit_at result y ≡ 1) ↔ IsOfFiveBefore end y }
{
    (31 << end) >> 5
}

// Whether two numbers have a bit in the same place.
fn share_a_bit(one: u64, other: u64) -> bool
    ensures { IsTrue result ↔ ((y : ℕ) × (bit_at one y ≡ 1) × (bit_at other y ≡ 1)) }
{
    one & other != 0
}

/// Which rows have a live cell in the five columns before one. Bit 0 is that of the northern row.
pub(crate) fn live_rows(grid: &Grid, end: u8) -> u64
    requires { end ≤ 40 }
    ensures live { AreLiveBefore (λ y x. cell grid.now x y) end result }
    ensures low { result < 2 ^ grid.now.height }
{
    let mut mask = 0;
    'columns: for x in end.saturating_sub(5)..end.min(grid.width()) {
        mask |= grid.column(x);
    }
    mask
}

/// How long the text of a strip is, of which the bits say which columns have live cells: a byte for each of these, one more
/// where a column without live cells is before it, and another one where four of them are.
pub(crate) fn mask_length(mask: u64) -> usize
    requires { mask < 2 ^ 40 }
    ensures length { (grid : Cells) (y : ℕ) → IsStripMask (cell grid) y mask → IsStripLength (cell grid) y result }
    ensures most { result ≤ 192 }
{
    let one = west_bits(mask);
    let two = west_bits(one);
    let three = west_bits(two);
    text_length(mask, one, two, three, west_bits(three))
}

/// The same of a strip of `width` columns where east and west are exchanged.
pub(crate) fn mirrored_length(mask: u64, width: u8) -> usize
    requires low { mask < 2 ^ width }
    requires most { width ≤ 40 }
    ensures length { (grid mirrored : Cells) (y : ℕ) → IsMirrored grid mirrored → length grid.columns ≡ width
        → IsStripMask (cell grid) y mask → IsStripLength (cell mirrored) y result }
    ensures most { result ≤ 192 }
{
    let one = east_bits(mask, width);
    let two = east_bits(one, width);
    let three = east_bits(two, width);
    text_length(mask, one, two, three, east_bits(three, width))
}

// How long the text of a strip is, where the bits of four numbers tell of the four columns before each one.
fn text_length(mask: u64, one: u64, two: u64, three: u64, four: u64) -> usize
    ensures length { result ≡ text_length mask one two three four }
    ensures most { result ≤ 192 }
{
    let gaps = and_not(mask, one);
    let long_gaps = and_not(mask, one | two | three | four);
    (mask.count_ones() + gaps.count_ones() + long_gaps.count_ones()) as usize
}

// At each place the bit before it. Before the first one it is 1.
fn west_bits(mask: u64) -> u64
    ensures { (x : ℕ) → x < 64 → bit_at result x ≡ west_bit mask x }
{
    mask << 1 | 1
}

// At each place the bit after it, of `width` bits. After the last one it is 1.
fn east_bits(mask: u64, width: u8) -> u64
    requires { width ≤ 40 }
    ensures { (x : ℕ) → x < width → bit_at result x ≡ east_bit width mask x }
{
    mask >> 1 | 1 << width >> 1
}

// The bits of one number that the other one doesn't have.
fn and_not(one: u64, other: u64) -> u64
    ensures { result ≡ bits_without one other }
{
    one ^ (one & other)
}
