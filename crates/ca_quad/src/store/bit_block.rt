//! Squares of 64 by 64 cells of two states, which are read at once from words.

ghost use Rattle.std.specs.Prelude.{◌≡◌, ℕ, ◌+◌, ◌*◌, ◌<◌, ◌≤◌, ◌^◌, pos, neg_ℤ, ◌+ℤ◌, ◌<ℤ◌, IfOk, MatchOption};
ghost use Rattle.std.proofs.Common.{arith};
ghost use Rattle.std.specs.Int.{bit_at};
ghost use Rattle.ca_plane.specs.Prelude.{bit_cell, reach, row_cells};
ghost use Rattle.ca_quad.specs.Sound.{Grows};
ghost use Rattle.ca_quad.specs.inner.BitParts.{AddsCells, AreShiftedBits};
ghost use Rattle.ca_quad.specs.inner.Filled.{cells_from, LiesNear};
ghost use Rattle.ca_quad.specs.inner.Window.{ShowsFrom};

use super::Store;
use super::gather::Block;
use crate::id::Id;
use crate::tree::Spot;
use ca_plane::limits::REACH;
use ca_plane::{CellWord, Memory};

impl Store {
    // The square of level 6 whose corner lies there and which shows the cells of the words.
    pub(super) fn fill_rows(&mut self, words: &[CellWord], at: Spot) -> Result<Id, Memory>
        requires near { LiesNear 0 at }
        ensures shows { IfOk result (λ id. ShowsFrom self.new id 6 (cells_from (bit_cell words.now) at) 0 0) }
        ensures grows { Grows self.old self.new }
    {
        let rows = rows_of(words, at);
        self.gather(&rows, 6, 0, 0)
    }
}

impl Block for [u64; 64] {
    const LEAST: u8 = 3;

    ghost LEAST = { 3 };

    ghost side = { 64 };

    ghost cells = { row_cells };

    fn least_square(&self, store: &mut Store, x: usize, y: usize) -> Result<Id, Memory> {
        store.from_leaf8(&[
            eight_cells(self, x, y),
            eight_cells(self, x, y + 1),
            eight_cells(self, x, y + 2),
            eight_cells(self, x, y + 3),
            eight_cells(self, x, y + 4),
            eight_cells(self, x, y + 5),
            eight_cells(self, x, y + 6),
            eight_cells(self, x, y + 7),
        ])
    }

    ghost some = { omega arith };

    ghost small = { omega arith };
}

// Eight cells of row `y`, from column `x` onwards.
fn eight_cells(rows: &[u64; 64], x: usize, y: usize) -> u8
    requires x { x ≤ 56 }
    requires y { y ≤ 63 }
    ensures { (i : ℕ) → i < 8 → bit_at result i ≡ row_cells rows.now (x + i) y }
{
    ((rows[y] >> x) % 256) as u8
}

// The rows of the square whose corner lies there, with the cells of the words.
fn rows_of(words: &[CellWord], at: Spot) -> [u64; 64]
    requires near { LiesNear 0 at }
    ensures { (x y : ℕ) → x < 64 → y < 64 → row_cells result x y ≡ cells_from (bit_cell words.now) at x y }
{
    let mut rows = [0; 64];
    'words: for &word in words {
        put_word(&mut rows, word, at);
    }
    rows
}

// Makes the cells of a word live, of those that lie in the square.
fn put_word(rows: &mut [u64; 64], word: CellWord, at: Spot)
    requires near { LiesNear 0 at }
    ensures { AddsCells word at rows.old rows.new }
{
    if let Some(row) = row_at(way_south(word, at)) {
        rows[row] |= moved(word.bits, way_east(word, at));
    }
}

// The row so far from the first of a square, where there is one.
fn row_at(way: i128) -> Option<usize>
    ensures { MatchOption result ((n : ℕ) → n < 64 → way ≡ pos n → ⊥) (λ n. (n < 64) × (way ≡ pos n)) }
{
    if way < 0 {
        return None;
    }
    if way >= 64 {
        return None;
    }
    Some(way as usize)
}

// Bits that are moved so far to the east, as far as they stay in the word.
fn moved(bits: u64, way: i128) -> u64
    ensures { AreShiftedBits bits way result }
{
    if way <= -64 {
        return 0;
    }
    if way >= 64 {
        return 0;
    }
    bits_from(bits, zeros_before(way))
}

// How many of 64 zeros before bits that are moved so far to the east are left of the word.
fn zeros_before(way: i128) -> u32
    requires west { neg_ℤ (pos 64) <ℤ way }
    requires east { way <ℤ pos 64 }
    ensures { (pos result) +ℤ way ≡ pos 64 }
{
    (64 - way) as u32
}

// The 64 bits from bit `first` onwards of 64 zeros and then these bits.
fn bits_from(bits: u64, first: u32) -> u64
    requires { first < 128 }
    ensures { (i : ℕ) → i < 64 → bit_at result i ≡ bit_at (bits * 2 ^ 64) (first + i) }
{
    let wide = 18446744073709551616 * u128::from(bits);
    ((wide >> first) % 18446744073709551616) as u64
}

// How far a word's first cell is to the east of a spot.
fn way_east(word: CellWord, at: Spot) -> i128
    requires near { LiesNear 0 at }
    ensures { (result +ℤ at.x) +ℤ reach ≡ pos (64 * word.column) }
{
    first_x(word) - at.x
}

// How far a word is to the south of a spot.
fn way_south(word: CellWord, at: Spot) -> i128
    requires near { LiesNear 0 at }
    ensures { (result +ℤ at.y) +ℤ reach ≡ pos word.row }
{
    first_y(word) - at.y
}

// The column of a word's first cell.
pub(super) fn first_x(word: CellWord) -> i128
    ensures { result +ℤ reach ≡ pos (64 * word.column) }
{
    64 * i128::from(word.column) - REACH
}

// The row of a word.
pub(super) fn first_y(word: CellWord) -> i128
    ensures { result +ℤ reach ≡ pos word.row }
{
    i128::from(word.row) - REACH
}
