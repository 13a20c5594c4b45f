//! Squares of 16 by 16 cells of two states, row by row.

ghost use Rattle.std.specs.Prelude.{◌≡◌, ℕ, ◌/◌, ◌%◌, ◌<◌, ℤ, pos, ◌+ℤ◌, List, length, slice_index, IfOk};
ghost use Rattle.ca_plane.specs.Prelude.{cells_after};
ghost use Rattle.ca_bricks.specs.WordSquares.{WordSquareShows, TileShows, word_bytes_at};
ghost use Rattle.ca_bricks.specs.Words.{WordShows};
ghost use Rattle.ca_bricks.specs.CellRules.{GoesByCells};
ghost use Rattle.ca_bricks.specs.declared.cell_rule.CellRule.TheVariants.{ByCounting, ByDiagram};

use crate::cell_rule::CellRule;
use crate::diagram::Diagram;
use crate::kernel::{Bits, CountInTile, next_tile};
use crate::neighbours::{EightNeighbours, FourNeighbours, SixNeighbours};
use crate::word_square::WordSquare;
use ca_plane::{Counting, Memory, Neighbourhood};
use std::simd::prelude::*;

/// The tile of a square.
#[inline(always)]
pub(crate) fn tile_of(words: &WordSquare) -> Bits
    ensures { (p : ℤ → ℤ → ℕ) (a b : ℤ) → WordSquareShows words.now p a b → TileShows result.rows 0 p a b }
{
    let west = bytes_of(words.nw, words.sw);
    let east = bytes_of(words.ne, words.se);
    Bits {
        rows: west | east << u16x16::splat(8),
    }
}

// The bytes of two words, the lowest first.
#[inline(always)]
fn bytes_of(north: u64, south: u64) -> u16x16
    ensures length { length result ≡ 16 }
    ensures bytes { (y : ℕ) → y < 16 → slice_index result y ≡ word_bytes_at north south y }
{
    u64x2::from_array([north, south]).to_le_bytes().cast()
}

/// The tile n generations later, but for n rows and columns at each of its sides. What `scratch` holds is lost.
#[inline(always)]
pub(crate) fn later_tile(
    tile: Bits,
    rule: &CellRule,
    n: u8,
    scratch: &mut Vec<Bits>,
) -> Result<Bits, Memory>
    ensures { (next : List ℕ → ℕ) (p : ℤ → ℤ → ℕ) (a b : ℤ) → GoesByCells next rule.now
        → TileShows tile.rows 0 p a b
        → IfOk result (λ later. TileShows later.rows n (cells_after next p n) a b) }
{
    match rule {
        CellRule::ByCounting(counting) => Ok(later_by_counting(tile, *counting, n)),
        CellRule::ByDiagram(diagram) => later_by_diagram(tile, diagram, n, scratch),
    }
}

// The same, by a decision diagram.
fn later_by_diagram(
    tile: Bits,
    diagram: &Diagram,
    n: u8,
    scratch: &mut Vec<Bits>,
) -> Result<Bits, Memory>
    ensures { (next : List ℕ → ℕ) (p : ℤ → ℤ → ℕ) (a b : ℤ) → GoesByCells next (ByDiagram diagram.now)
        → TileShows tile.rows 0 p a b
        → IfOk result (λ later. TileShows later.rows n (cells_after next p n) a b) }
{
    let mut now = tile;
    'generations: for _ in 0..n {
        now = diagram.next_tile(now, scratch)?;
    }
    Ok(now)
}

// The same, by a counting.
#[inline(always)]
fn later_by_counting(tile: Bits, counting: Counting, n: u8) -> Bits
    ensures { (next : List ℕ → ℕ) (p : ℤ → ℤ → ℕ) (a b : ℤ) → GoesByCells next (ByCounting counting)
        → TileShows tile.rows 0 p a b → TileShows result.rows n (cells_after next p n) a b }
{
    match counting.neighbourhood {
        Neighbourhood::Moore => later_counted::<EightNeighbours>(tile, counting, n),
        Neighbourhood::VonNeumann => later_counted::<FourNeighbours>(tile, counting, n),
        Neighbourhood::Hexagonal => later_counted::<SixNeighbours>(tile, counting, n),
    }
}

// The same, where the neighbours that are counted are those of the type.
#[inline(always)]
fn later_counted<C: CountInTile>(tile: Bits, counting: Counting, n: u8) -> Bits
    requires { C.counted ≡ counting.neighbourhood }
    ensures { (next : List ℕ → ℕ) (p : ℤ → ℤ → ℕ) (a b : ℤ) → GoesByCells next (ByCounting counting)
        → TileShows tile.rows 0 p a b → TileShows result.rows n (cells_after next p n) a b }
{
    let mut now = tile;
    'generations: for _ in 0..n {
        now = next_tile::<C>(now, counting);
    }
    now
}

/// The 8 by 8 cells in the middle of a tile.
pub(crate) fn middle(rows: &[u16; 16]) -> u64
    ensures { (p : ℤ → ℤ → ℕ) (a b : ℤ) → TileShows rows.now 4 p a b
        → WordShows result p (a +ℤ pos 4) (b +ℤ pos 4) }
{
    u64::from_le_bytes([
        inner_byte(rows[4]),
        inner_byte(rows[5]),
        inner_byte(rows[6]),
        inner_byte(rows[7]),
        inner_byte(rows[8]),
        inner_byte(rows[9]),
        inner_byte(rows[10]),
        inner_byte(rows[11]),
    ])
}

// The eight cells in the middle of a row.
fn inner_byte(row: u16) -> u8
    ensures { result ≡ row / 16 % 256 }
{
    (row / 16 % 256) as u8
}
