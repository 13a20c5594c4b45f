//! The least text of an object's phases.

ghost use Rattle.std.specs.Prelude.{ℕ, ◌+◌, ℤ, IfOk, Some, option_map};
ghost use Rattle.ca_apgcode.specs.Objects.{IsBoxRound, IsLeastOfPhases, IsTurnedText};
ghost use Rattle.ca_apgcode.specs.inner.Rounds.{IsLeastWith};

use crate::grid::Grid;
use crate::rounds::{least_of_turns, least_representation};
use crate::sides::has_short_text;
use ca_plane::Memory;
use std::alloc::Global;

/// The least text of an object's phases up to one whose smallest box is this grid, from that of the phases before it,
/// if one of them has any.
///
/// # Errors
///
/// Fails where there is no memory for the texts.
pub fn least_with(alloc: Global, least: Option<Vec<u8>>, grid: &Grid) -> Result<Vec<u8>, Memory>
    ensures { (phases : ℕ → ℤ → ℤ → ℕ) (n : ℕ) → IsBoxRound (phases n) grid.now
        → IsLeastOfPhases phases n (option_map (λ text. text.items) least)
        → IfOk result (λ now. IsLeastOfPhases phases (n + 1) (Some now.items)) }
{
    match least {
        Some(least) => least_with_turns(alloc, least, grid),
        None => least_representation(alloc, grid),
    }
}

// The least of a text and the representations of a grid in its eight orientations. The grid is only turned where one of them isn't
// longer than the text.
fn least_with_turns(alloc: Global, least: Vec<u8>, grid: &Grid) -> Result<Vec<u8>, Memory>
    ensures { (cells : ℤ → ℤ → ℕ) → IsBoxRound cells grid.now
        → IfOk result (λ now. IsLeastWith (IsTurnedText cells) least.items now.items) }
{
    if !has_short_text(grid, least.len()) {
        return Ok(least);
    }
    least_of_turns(alloc, least, grid)
}
