//! One generation of a tile of 16 by 16 cells, all cells at once.

mod bits;
mod count;

ghost use Rattle.std.specs.Prelude.{◌≡◌, ◌+◌, ◌<◌, ◌≤◌, ◌^◌, ◌==◌, ℕ, ℤ, min, max, length};
ghost use Rattle.std.specs.List.{All};
ghost use Rattle.std.specs.Int.{bit_at};
ghost use Rattle.ca_plane.specs.Prelude.{row_cells};
ghost use Rattle.ca_bricks.specs.Lanes.{tile_cell, IsWithinEdge, IsNextTile};
ghost use Rattle.ca_bricks.specs.CellRules.{IsTileNext};
ghost use Rattle.ca_bricks.specs.declared.cell_rule.CellRule.TheVariants.{ByCounting};
ghost use Rattle.ca_bricks.specs.Tiles.{lives_next, next_by_count, number};

use crate::count::Count;
use crate::neighbours::EightNeighbours;
pub use bits::Bits;
use ca_plane::{Counting, Neighbourhood};
pub use count::CountInTile;
use std::simd::prelude::*;

// All cells but those on the edge.
const INNER: [u16; 16] = [
    0, 0x7ffe, 0x7ffe, 0x7ffe, 0x7ffe, 0x7ffe, 0x7ffe, 0x7ffe, 0x7ffe, 0x7ffe, 0x7ffe, 0x7ffe,
    0x7ffe, 0x7ffe, 0x7ffe, 0,
];

/// The mask of all numbers of live cells but 2 and 3.
pub(crate) const FEW_OR_MANY: u16 = 0b1_1111_0011;

/// The next generation of a tile, under the rule that goes by these masks (`Automaton::masks`). Bit x of a
/// row is its cell at x. The cells on the edge have neighbours outside the tile, so they are 0 in the result.
pub fn kernel16(rows: &[u16; 16], birth: u16, survive: u16) -> [u16; 16]
    ensures rows { length result ≡ 16 }
    ensures words { All (λ row. row < 2 ^ 16) result }
    ensures within { IsNextTile birth survive rows.now result }
    ensures edge { (x y : ℤ) → (IsWithinEdge x y → ⊥) → tile_cell result x y ≡ 0 }
{
    let counting = Counting {
        neighbourhood: Neighbourhood::Moore,
        birth,
        survival: survive,
    };
    let next = next_tile::<EightNeighbours>(Bits::of(rows), counting);
    next.and(Bits::of(&INNER)).rows.to_array()
}

/// The next generation of those cells of a tile that aren't on its edge.
#[inline(always)]
pub fn next_tile<C: CountInTile>(alive: Bits, counting: Counting) -> Bits
    requires { C.counted ≡ counting.neighbourhood }
    ensures { IsTileNext (ByCounting counting) alive.rows result.rows }
{
    next_bits::<C>(alive, C::count(alive), counting.birth, counting.survival)
}

// The next state of each cell, from the number of live cells among its counted neighbours. It is made for each
// way to count, as that is called from one place alone, and so stands in its loop.
#[inline(always)]
fn next_bits<C: CountInTile>(alive: Bits, count: Count<Bits>, birth: u16, survive: u16) -> Bits
    ensures { (x y : ℕ) → x < 16 → y < 16 → number count x y ≤ 8 → row_cells result.rows x y
        ≡ next_by_count birth survive (row_cells alive.rows x y) (number count x y) }
{
    let Count {
        ones,
        twos,
        fours,
        eights,
    } = count;
    let none = Bits::all(false);
    let two_or_three = twos.and_not(fours);
    let next = with_pair(none, alive, ones, two_or_three, birth, survive, 2);
    if (birth | survive) & FEW_OR_MANY == 0 {
        return next;
    }
    let none_or_one = Bits::all(true).and_not(twos.or(fours).or(eights));
    let next = with_pair(next, alive, ones, none_or_one, birth, survive, 0);
    let four_or_five = fours.and_not(twos);
    let next = with_pair(next, alive, ones, four_or_five, birth, survive, 4);
    let six_or_seven = fours.and(twos);
    let next = with_pair(next, alive, ones, six_or_seven, birth, survive, 6);
    with_count(next, alive, eights, is_in(birth, 8), is_in(survive, 8))
}

// These bits, and the next states of those cells which have `least` live cells round them, or one more where
// `ones` tells it.
#[inline(always)]
fn with_pair(
    next: Bits,
    alive: Bits,
    ones: Bits,
    which: Bits,
    birth: u16,
    survive: u16,
    least: u8,
) -> Bits
    requires { least < 8 }
    ensures { (x y : ℕ) → row_cells result.rows x y
        ≡ max (row_cells next.rows x y)
        (min (row_cells which.rows x y)
        (next_by_count birth survive (row_cells alive.rows x y) (least + row_cells ones.rows x y))) }
{
    let born = is_in(birth, least);
    let stays = is_in(survive, least);
    let born_by_more = is_in(birth, least + 1);
    let stays_by_more = is_in(survive, least + 1);
    if !born && !stays && !born_by_more && !stays_by_more {
        return next;
    }
    let next = with_count(next, alive, which.and_not(ones), born, stays);
    with_count(next, alive, which.and(ones), born_by_more, stays_by_more)
}

// These bits, and those of `which` for the cells that are born or stay.
#[inline(always)]
fn with_count(next: Bits, alive: Bits, which: Bits, born: bool, stays: bool) -> Bits
    ensures { (x y : ℕ) → row_cells result.rows x y
        ≡ max (row_cells next.rows x y)
        (min (row_cells which.rows x y) (lives_next born stays (row_cells alive.rows x y))) }
{
    let next = if born {
        next.or(which.and_not(alive))
    } else {
        next
    };
    if stays {
        next.or(which.and(alive))
    } else {
        next
    }
}

// Whether n is in the mask.
#[inline(always)]
pub(crate) fn is_in(mask: u16, n: u8) -> bool
    requires { n < 16 }
    ensures { result ≡ (bit_at mask n == 1) }
{
    mask >> n & 1 == 1
}
