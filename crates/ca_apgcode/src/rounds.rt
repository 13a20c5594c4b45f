//! The least representation of a grid in its eight orientations.

ghost use Rattle.std.specs.Prelude.{◌≡◌, ℕ, ℤ, IfOk};
ghost use Rattle.ca_apgcode.specs.Objects.{IsBoxRound, IsTurnedText, IsLeastAmong};
ghost use Rattle.ca_apgcode.specs.Orientations.{turned};
ghost use Rattle.ca_apgcode.specs.declared.orientation.Orientation.TheVariants.{EastWest, NorthSouth, Diagonal};
ghost use Rattle.ca_apgcode.specs.inner.Least.{lesser};
ghost use Rattle.ca_apgcode.specs.inner.Rounds.{IsLesserWith, IsNextTurn, IsLeastWith};

use crate::grid::Grid;
use crate::order::compare;
use crate::sides::representation_length;
use crate::writing::representation;
use ca_plane::Memory;
use std::alloc::Global;

/// The least of the representations of a grid in its eight orientations (LifeWiki, "Apgcode"), where it is the smallest
/// box round the live cells of a plane.
///
/// # Errors
///
/// Fails where there is no memory for the texts.
pub fn least_representation(alloc: Global, grid: &Grid) -> Result<Vec<u8>, Memory>
    ensures { (cells : ℤ → ℤ → ℕ) → IsBoxRound cells grid.now
        → IfOk result (λ least. IsLeastAmong (IsTurnedText cells) least.items) }
{
    let upright = representation(alloc, grid)?;
    least_of_turns(alloc, upright, grid)
}

/// The least of a text and the representations of a grid in its eight orientations.
pub(crate) fn least_of_turns(alloc: Global, least: Vec<u8>, grid: &Grid) -> Result<Vec<u8>, Memory>
    ensures { (cells : ℤ → ℤ → ℕ) → IsBoxRound cells grid.now
        → IfOk result (λ now. IsLeastWith (IsTurnedText cells) least.items now.items) }
{
    let upright = lesser_with(alloc, least, grid)?;
    let mirrored = grid.mirrored(alloc)?;
    let east_west = Turn::to(alloc, upright, mirrored)?;
    let half = east_west.flipped(alloc)?;
    let north_south = half.mirrored(alloc)?;
    let quarter = north_south.transposed(alloc)?;
    let diagonal = quarter.mirrored(alloc)?;
    let three_quarters = diagonal.flipped(alloc)?;
    let antidiagonal = three_quarters.mirrored(alloc)?;
    Ok(antidiagonal.least)
}

// A grid in one of its orientations, and the least text of those up to it.
#[derive(Drop)]
struct Turn {
    grid: Grid,
    least: Vec<u8>,
}

impl Turn {
    // The turn to this orientation of the grid, where the text was the least before.
    fn to(alloc: Global, least: Vec<u8>, grid: Grid) -> Result<Turn, Memory>
        ensures { (cells : ℤ → ℤ → ℕ) → IsBoxRound cells grid → IfOk result (IsNextTurn cells least.items) }
    {
        let now = lesser_with(alloc, least, &grid)?;
        Ok(Turn { grid, least: now })
    }

    // The next turn: east and west are exchanged.
    fn mirrored(self, alloc: Global) -> Result<Turn, Memory>
        ensures { (cells : ℤ → ℤ → ℕ) → IsBoxRound cells self.grid
            → IfOk result (IsNextTurn (turned EastWest cells) self.least.items) }
    {
        let grid = self.grid.mirrored(alloc)?;
        Turn::to(alloc, self.least, grid)
    }

    // The next turn: north and south are exchanged.
    fn flipped(self, alloc: Global) -> Result<Turn, Memory>
        ensures { (cells : ℤ → ℤ → ℕ) → IsBoxRound cells self.grid
            → IfOk result (IsNextTurn (turned NorthSouth cells) self.least.items) }
    {
        let grid = self.grid.flipped(alloc)?;
        Turn::to(alloc, self.least, grid)
    }

    // The next turn: columns are rows now.
    fn transposed(self, alloc: Global) -> Result<Turn, Memory>
        ensures { (cells : ℤ → ℤ → ℕ) → IsBoxRound cells self.grid
            → IfOk result (IsNextTurn (turned Diagonal cells) self.least.items) }
    {
        let grid = self.grid.transposed(alloc)?;
        Turn::to(alloc, self.least, grid)
    }
}

// The first of a text and that of a grid, which is written only where it isn't longer.
fn lesser_with(alloc: Global, least: Vec<u8>, grid: &Grid) -> Result<Vec<u8>, Memory>
    ensures { (cells : ℤ → ℤ → ℕ) → IsBoxRound cells grid.now
        → IfOk result (λ now. IsLesserWith cells least.items now.items) }
{
    if least.len() < representation_length(grid) {
        return Ok(least);
    }
    let text = representation(alloc, grid)?;
    Ok(lesser_text(text, least))
}

// The first of two texts.
fn lesser_text(one: Vec<u8>, other: Vec<u8>) -> Vec<u8>
    ensures { result.items ≡ lesser one.items other.items }
{
    if compare(&one, &other).is_lt() {
        one
    } else {
        other
    }
}
