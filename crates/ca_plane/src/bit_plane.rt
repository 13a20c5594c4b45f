//! Planes of two states as words of 64 cells.

ghost use Rattle.std.specs.Prelude.{◌≡◌, ℕ, ◌+◌, ◌<◌, ◌≤◌, ◌/◌, ◌^◌, pos, neg_ℤ, ◌+ℤ◌, ◌≤ℤ◌, [], IsTrue, IfSome, OnOk, OnErr};
ghost use Rattle.ca_plane.specs.BitPlane.{AddsRun, AddsPartOfRun, AreNearWords, IsNearWord, plane_side};
ghost use Rattle.ca_plane.specs.Limits.{reach};
ghost use Rattle.ca_plane.specs.inner.BitRuns.{AddsWord, AreBitsOf, HaveSameCells, IsPlaceOf, IsWordOfRun};

use crate::limits::REACH;
use crate::memory::Memory;
use crate::point::Point;
use std::alloc::Global;
use std::marker::Model;

// How many cells a word has.
const SIDE: u64 = 64;

/// 64 cells in a row, each of state 0 or 1.
///
/// Rows and columns are counted from (-2^62, -2^62), which is the corner of the square in which planes keep
/// their cells: the word has the cells of the row `row` in the columns from `64 * column` onwards, and bit 0 is
/// the western-most of them.
#[derive(Clone, Copy, Debug, PartialEq, Eq)]
pub struct CellWord {
    pub row: u64,
    pub column: u64,
    pub bits: u64,
}

impl CellWord {
    // Whether both are words of the same cells.
    fn is_of_cells_of(self, other: CellWord) -> bool
        ensures { IsTrue result → HaveSameCells self other }
    {
        self.row == other.row && self.column == other.column
    }
}

/// A plane of the states 0 and 1 that is put together from runs of live cells. It takes some bytes for each
/// word, where a sparse plane takes as many for each cell.
#[derive(Drop)]
pub struct BitPlane {
    words: Vec<CellWord>,
}

impl Model for BitPlane {
    ghost use Rattle.std.specs.Prelude.{List};
    ghost use Rattle.ca_plane.specs.declared.bit_plane.CellWord.{CellWord as Word};
    ghost use Rattle.ca_plane.specs.BitPlane.{AreNearWords};

    ghost Value = { List Word };

    ghost view = { λ p. p.words.items };

    ghost invariant = { λ p. AreNearWords p.words.items };
}

impl BitPlane {
    /// The plane without a live cell.
    pub fn new(alloc: Global) -> BitPlane
        ensures { result ≡ [] }
    {
        BitPlane {
            words: Vec::new(alloc),
        }
    }

    /// Makes the cells of a run live, from a point to the east.
    ///
    /// # Errors
    ///
    /// Fails where there is no memory for it, and then some first cells of the run may be made live, but not all
    /// of them. Every other cell is as it was.
    pub fn add_run(&mut self, first: Point, length: u64) -> Result<(), Memory>
        requires west { neg_ℤ reach ≤ℤ first.x }
        requires east { (first.x +ℤ pos length) ≤ℤ reach }
        requires north { neg_ℤ reach ≤ℤ first.y }
        requires south { first.y ≤ℤ reach }
        ensures ok { OnOk result (AddsRun first length self.old self.new) }
        ensures err { OnErr result (AddsPartOfRun first length self.old self.new) }
    {
        let row = from_corner(first.y);
        let mut next = from_corner(first.x);
        let end = next + length;
        'words: while next < end {
            let stop = end_of_word(next, end);
            self.add_word(word_of_run(row, next, stop))?;
            next = stop;
        }
        Ok(())
    }

    // Adds the cells of a word.
    fn add_word(&mut self, word: CellWord) -> Result<(), Memory>
        requires { IsNearWord word }
        ensures ok { OnOk result (AddsWord word self.old self.new) }
        ensures err { OnErr result (self.new ≡ self.old) }
    {
        let Some(place) = self.place_of(word) else {
            self.words.push(word)?;
            return Ok(());
        };
        self.words[place].bits |= word.bits;
        Ok(())
    }

    // The place of the last word, where it is one of the same cells.
    fn place_of(&self, word: CellWord) -> Option<usize>
        ensures { IfSome result (IsPlaceOf word self.now) }
    {
        let place = self.words.len().checked_sub(1)?;
        if !self.words[place].is_of_cells_of(word) {
            return None;
        }
        Some(place)
    }

    /// The words of the plane: a cell is live where the word of its row and its column has its bit.
    pub fn into_words(self) -> Vec<CellWord>
        ensures words { result.items ≡ self }
        ensures near { AreNearWords self }
    {
        self.words
    }
}

// How far a coordinate is from the corner.
fn from_corner(coordinate: i64) -> u64
    requires low { neg_ℤ reach ≤ℤ coordinate }
    requires high { coordinate ≤ℤ reach }
    ensures { pos result ≡ coordinate +ℤ reach }
{
    (i128::from(coordinate) + REACH) as u64
}

// Where a run that goes on to the end ends in the word of this column.
fn end_of_word(first: u64, end: u64) -> u64
    requires some { first < end }
    requires most { end ≤ plane_side }
    ensures more { first < result }
    ensures most { result ≤ end }
    ensures word { (column : ℕ) → first ≤ column → column < result → column / 64 ≡ first / 64 }
{
    end.min(SIDE * (first / SIDE + 1))
}

// The word of the cells of a row from column `first` onwards, below the end, which lie in one word.
fn word_of_run(row: u64, first: u64, end: u64) -> CellWord
    requires row { row ≤ plane_side }
    requires some { first < end }
    requires most { end ≤ plane_side }
    requires word { (column : ℕ) → first ≤ column → column < end → column / 64 ≡ first / 64 }
    ensures near { IsNearWord result }
    ensures run { IsWordOfRun result row first end }
{
    let column = first / SIDE;
    CellWord {
        row,
        column,
        bits: ones(first - SIDE * column, end - SIDE * column),
    }
}

// Ones from bit `first` onwards, below the end.
fn ones(first: u64, end: u64) -> u64
    requires order { first ≤ end }
    requires most { end ≤ 64 }
    ensures { AreBitsOf result first end }
{
    (power_of_two(end) - power_of_two(first)) as u64
}

// The number whose only bit is this one.
fn power_of_two(bit: u64) -> u128
    requires { bit ≤ 64 }
    ensures { result ≡ 2 ^ bit }
{
    1 << bit
}
