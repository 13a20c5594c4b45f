//! Cells of two states in a small box.

ghost use Rattle.std.specs.Prelude.{◌≡◌, ℕ, ◌+◌, ◌-◌, ◌%◌, ◌^◌, ◌<◌, ◌≤◌, ◌↔◌, length, slice_index};
ghost use Rattle.std.specs.Prelude.{IsTrue, IfOk, IfSome, IfNone, MatchOption, SomeIndex, EachIndex};
ghost use Rattle.std.specs.Int.{bit_at};
ghost use Rattle.ca_apgcode.specs.Grids.{GridCells as Cells, IsGrid, IsLeastOf, cell, MakesLive};
ghost use Rattle.ca_apgcode.specs.Representation.{five_cells};

mod turning;

use ca_plane::Memory;
use std::alloc::Global;
use std::marker::Model;
/// The most columns of a grid, and the most rows.
pub const MOST_SIDE: u8 = 40;

/// Cells of two states in a box of at most `MOST_SIDE` by `MOST_SIDE`. Columns are counted from the west, and
/// rows from the north. Outside the box every cell is dead.
#[derive(Drop)]
pub struct Grid {
    height: u8,
    // Each column is a binary number with the northern cell as 1.
    columns: Vec<u64>,
}

impl Model for Grid {
    ghost use Rattle.ca_apgcode.specs.Grids.{GridCells, IsGrid};

    ghost Value = { GridCells };

    ghost view = { λ g. record { height = g.height; columns = g.columns.items } };

    ghost invariant = { λ g. IsGrid (record { height = g.height; columns = g.columns.items }) };
}

impl Grid {
    /// A box without live cells.
    ///
    /// # Errors
    ///
    /// Fails where there is no memory for it.
    pub fn new(alloc: Global, width: u8, height: u8) -> Result<Grid, Memory>
        requires width { width ≤ MOST_SIDE }
        requires height { height ≤ MOST_SIDE }
        ensures width { IfOk result (λ g. length g.columns ≡ width) }
        ensures height { IfOk result (λ g. g.height ≡ height) }
        ensures dead { IfOk result (λ g. (x y : ℕ) → cell g x y ≡ 0) }
    {
        let columns = vec![in alloc; 0u64; usize::from(width)]?;
        Ok(Grid { height, columns })
    }

    /// How many columns the box has.
    pub fn width(&self) -> u8
        ensures width { result ≡ length self.now.columns }
        ensures grid { IsGrid self.now }
        ensures most { result ≤ MOST_SIDE }
    {
        self.columns.len() as u8
    }

    /// How many rows the box has.
    pub fn height(&self) -> u8
        ensures height { result ≡ self.now.height }
        ensures most { result ≤ MOST_SIDE }
    {
        self.height
    }

    /// Whether a cell is live.
    pub fn is_live(&self, x: u8, y: u8) -> bool
        requires x { x < length self.now.columns }
        requires y { y < self.now.height }
        ensures { IsTrue result ↔ (cell self.now x y ≡ 1) }
    {
        (self.columns[usize::from(x)] >> y) % 2 == 1
    }

    /// Makes a cell live.
    pub fn make_live(&mut self, x: u8, y: u8)
        requires x { x < length self.old.columns }
        requires y { y < self.old.height }
        ensures { MakesLive self.old self.new x y }
    {
        let column = self.columns[usize::from(x)];
        self.columns[usize::from(x)] = column | (1 << y);
    }

    /// The cells of a column, as a binary number with the northern cell as 1.
    pub fn column(&self, x: u8) -> u64
        requires { x < length self.now.columns }
        ensures column { result ≡ slice_index self.now.columns x }
        ensures low { result < 2 ^ self.now.height }
        ensures grid { IsGrid self.now }
    {
        self.columns[usize::from(x)]
    }

    /// The columns from the west, each as a binary number with the northern cell as 1.
    pub(crate) fn columns(&self) -> &[u64]
        ensures columns { result.now ≡ self.now.columns }
        ensures most { length result.now ≤ 40 }
    {
        &self.columns
    }

    /// The smallest box round the cells of at most 40 columns, from the west, each of them a binary number below 2^40
    /// with the northern cell as 1. None where no cell is live in the first column, or none in the first row.
    pub fn from_columns(columns: Vec<u64>) -> Option<Grid>
        requires width { length columns.items ≤ 40 }
        requires height { (x : ℕ) → slice_index columns.items x < 2 ^ 40 }
        ensures some { IfSome result (IsLeastOf columns.items) }
        ensures none { IfNone result ((g : Cells) → IsLeastOf columns.items g → ⊥) }
    {
        let columns = without_last_dead(columns);
        if !begin_box(&columns) {
            return None;
        }
        let height = height_of(&columns);
        Some(Grid { height, columns })
    }

    /// The cells of a column in the five rows from row `y` onwards, as a binary number with the northern cell as 1.
    pub(crate) fn five_cells(&self, x: u8, y: u8) -> u8
        requires x { x < length self.now.columns }
        requires y { y < 40 }
        ensures cells { result ≡ five_cells (cell self.now) x y }
        ensures most { result ≤ 31 }
    {
        ((self.columns[usize::from(x)] >> y) % 32) as u8
    }
}

// The columns without those at the end that have no cells.
fn without_last_dead(mut columns: Vec<u64>) -> Vec<u64>
    ensures same { (x : ℕ) → slice_index result.items x ≡ slice_index columns.items x }
    ensures last { (n : ℕ) → length result.items ≡ n + 1 → 0 < slice_index result.items n }
    ensures width { length result.items ≤ length columns.items }
{
    'columns: while let Some(&last) = columns.last() {
        if last != 0 {
            break;
        }
        columns.pop();
    }
    columns
}

// Whether a cell is live in the first column, and one in the first row.
fn begin_box(columns: &[u64]) -> bool
    ensures { IsTrue result ↔ ((0 < slice_index columns.now 0)
        × SomeIndex columns.now (λ x. slice_index columns.now x % 2 ≡ 1)) }
{
    !columns.is_empty() && columns[0] != 0 && columns.iter().any(|column| *column % 2 == 1)
}

// How many rows have a live cell or one below them.
fn height_of(columns: &[u64]) -> u8
    requires { (x : ℕ) → slice_index columns.now x < 2 ^ 40 }
    ensures most { result ≤ 40 }
    ensures all { (x : ℕ) → slice_index columns.now x < 2 ^ result }
    ensures last { 0 < result → (x : ℕ) × (bit_at (slice_index columns.now x) (result - 1) ≡ 1) }
{
    match greatest(columns) {
        Some(greatest) => (64 - greatest.leading_zeros()) as u8,
        None => 0,
    }
}

// The greatest of some columns.
fn greatest(columns: &[u64]) -> Option<u64>
    ensures { MatchOption result (length columns.now ≡ 0)
        (λ m. SomeIndex columns.now (λ x. slice_index columns.now x ≡ m)
        × EachIndex columns.now (λ x. slice_index columns.now x ≤ m)) }
{
    columns.iter().copied().max()
}
