//! Phases that fit into 40 by 40 cells, which are stepped in a frame of bricks and not as trees.

ghost use Rattle.std.specs.Prelude.{◌≡◌, ◌≤◌, ◌+◌, ◌-◌, ◌*◌, ◌%◌, ℕ, ℤ, List, replicate, IfOk, IfSome, Some};
ghost use Rattle.ca_plane.specs.Prelude.{cells_after};
ghost use Rattle.ca_bricks.specs.Prelude.{GoesBy};
ghost use Rattle.ca_quad.specs.Prelude.{AreSquareBoxes, cell};
ghost use Rattle.ca_apgcode.specs.Prelude.{IsBoxRound, IsLeastOfPhases};
ghost use Rattle.ca_pattern.specs.Prelude.{IsNearTree};
ghost use Rattle.ca_apgcode_search.specs.Countings.{HasTwoStates};

use crate::boxes::box_round;
use crate::frame::{WORK, frame_of, middle_rows, next_frame};
use crate::frame_box::box_of_rows;
use ca_apgcode::{Grid, least_with};
use ca_plane::{Automaton, Counting, Memory};
use ca_quad::{SquareBoxes, Tree};
use ca_run::Leaper;
use std::alloc::Global;

/// The least text of the first `count` phases, where all of them fit into 40 by 40 cells and the rule goes by this
/// counting. None says nothing. They aren't results of the leaper, and aren't counted as work, but are stepped only where as
/// many units of work are left as their bricks would be.
pub(crate) fn least_of_small<A: Automaton>(
    alloc: Global,
    leaper: &Leaper<A>,
    tree: &Tree,
    boxes: &mut SquareBoxes,
    count: u64,
    counting: Counting,
) -> Result<Option<Vec<u8>>, Memory>
    requires tree { IsNearTree leaper.now.nodes tree.now }
    requires boxes { AreSquareBoxes leaper.now.nodes boxes.old }
    requires some { 1 ≤ count }
    ensures least { (next : List ℕ → ℕ) → GoesBy next counting → next (replicate 9 0) ≡ 0
        → HasTwoStates (cell leaper.now.nodes tree.now) → IfOk result (λ found. IfSome found
        (λ least. IsLeastOfPhases (cells_after next (cell leaper.now.nodes tree.now)) count (Some least.items))) }
    ensures left { IfOk result (λ found. IfSome found
        (λ _. leaper.now.spent.used + 7 * (count - 1) ≤ leaper.now.spent.limit)) }
{
    let left = leaper.work_limit() - leaper.used();
    if left / WORK < count - 1 {
        return Ok(None);
    }
    let Some(first) = box_round(alloc, leaper.store(), tree, boxes)? else {
        return Ok(None);
    };
    if counting.birth % 2 != 0 {
        return Ok(None);
    }
    let mut least = least_with(alloc, None, &first)?;
    let mut now = first;
    'phases: for n in 0..count - 1 {
        let Some(later) = next_box(alloc, &now, counting)? else {
            return Ok(None);
        };
        now = later;
        least = least_with(alloc, Some(least), &now)?;
        let _ = n;
    }
    Ok(Some(least))
}

// The smallest box round the live cells of a plane one generation later, where it fits into 40 by 40 cells.
fn next_box(alloc: Global, grid: &Grid, counting: Counting) -> Result<Option<Grid>, Memory>
    requires { counting.birth % 2 ≡ 0 }
    ensures { (next : List ℕ → ℕ) (cells : ℤ → ℤ → ℕ) → GoesBy next counting → next (replicate 9 0) ≡ 0
        → HasTwoStates cells → IsBoxRound cells grid.now
        → IfOk result (λ found. IfSome found (IsBoxRound (cells_after next cells 1))) }
{
    // Says what holds of every grid.
    let _ = grid.width();
    let bricks = frame_of(alloc, grid)?;
    let later = next_frame(alloc, bricks, counting)?;
    box_of_rows(alloc, &middle_rows(&later))
}
