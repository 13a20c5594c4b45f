//! Squares of 8 by 8 cells of two states that are cut out of four, as words.

ghost use Rattle.std.specs.Prelude.{◌≡◌, ℕ, ◌+◌, ◌-◌, ◌*◌, ◌/◌, ◌<◌, ◌≤◌, ◌^◌, IsSome, IfSome};
ghost use Rattle.ca_plane.specs.Prelude.{word_cells};
ghost use Rattle.ca_quad.specs.inner.Cut.{AreNeighbours, cells_of_four, IsCutWord};

use super::Store;
use super::cut::Offset;
use crate::neighbours::Neighbours;

impl Store {
    // The cells of the square that is cut out of four at this place from their corner. They are given where
    // the squares have level 3 and no cell has a state above 1.
    pub(super) fn cut_word(&self, level: u8, four: Neighbours, place: Offset) -> Option<u64>
        requires four { AreNeighbours self.now level four }
        requires x { place.x < 2 ^ level }
        requires y { place.y < 2 ^ level }
        ensures word { IfSome result (IsCutWord self.now level four place) }
        ensures states { IsSome result → (x y : ℕ) → cells_of_four self.now 3 four x y ≤ 1 }
    {
        if level != 3 {
            return None;
        }
        let nw = self.word(four.nw)?;
        let ne = self.word(four.ne)?;
        let sw = self.word(four.sw)?;
        let se = self.word(four.se)?;
        let west = rows_from(nw, sw, place.y as u32);
        let east = rows_from(ne, se, place.y as u32);
        Some(columns_from(west, east, place.x as u32))
    }
}

// The eight rows from `row` onwards of two words that lie one over the other.
fn rows_from(north: u64, south: u64, row: u32) -> u64
    requires { row < 8 }
    ensures north { (x y : ℕ) → x < 8 → row + y < 8 → word_cells result x y ≡ word_cells north x (row + y) }
    ensures south { (x y : ℕ) → x < 8 → y < 8 → 8 ≤ row + y
        → word_cells result x y ≡ word_cells south x (row + y - 8) }
{
    let both = u128::from(north) + 18446744073709551616 * u128::from(south);
    ((both >> (8 * row)) % 18446744073709551616) as u64
}

// The eight columns from `column` onwards of two words that lie side by side.
fn columns_from(west: u64, east: u64, column: u32) -> u64
    requires { column < 8 }
    ensures west { (x y : ℕ) → column + x < 8 → y < 8
        → word_cells result x y ≡ word_cells west (column + x) y }
    ensures east { (x y : ℕ) → x < 8 → y < 8 → 8 ≤ column + x
        → word_cells result x y ≡ word_cells east (column + x - 8) y }
{
    let kept = low_columns(column);
    ((west >> column) & kept) | ((east << (8 - column)) & (u64::MAX - kept))
}

// A word whose columns are ones, all but the last `fewer`.
fn low_columns(fewer: u32) -> u64
    requires { fewer < 8 }
    ensures { result ≡ 72340172838076673 * (255 / 2 ^ fewer) }
{
    72340172838076673 * u64::from(255u8 >> fewer)
}
