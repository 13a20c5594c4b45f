//! What a pattern's plane shows after some generations.

ghost use Rattle.std.specs.Prelude.{◌≡◌, ℕ, ℤ, IfOk, IsFalse, OnOk, MatchOption};
ghost use Rattle.ca_quad.specs.Prelude.{IsLeastWideBox, AreSquareBoxes, IsTree, cell};
ghost use Rattle.ca_run.specs.Prelude.{LeaperGrows};
ghost use Rattle.ca_budget.specs.Prelude.{EndsAtLimit};
ghost use Rattle.ca_pattern.specs.Prelude.{IsNearTree, IsWideBox};
ghost use Rattle.ca_identify.specs.inner.Stages.{IsFirst, IsFirstBox, IsStage, ending_of, AreMovedNowhere, AreMovedOnlyBy};

use super::ending::{Ending, Recurrence};
use ca_evolution::{distance, vector_if_back};
use ca_plane::{Automaton, Memory};
use ca_quad::{SquareBoxes, Store, Tree, WideBounds};
use ca_run::{LeapFault, Leaper};
use std::alloc::Global;

/// The tree of a live plane, and the smallest box round its cells.
#[derive(Drop)]
pub(super) struct First {
    pub(super) tree: Tree,
    pub(super) bounds: WideBounds,
}

/// What a live pattern's plane shows after some generations.
#[derive(Clone, Copy)]
pub(super) enum Stage {
    /// No cell is live.
    Empty,
    /// The pattern is there again, moved by this vector.
    Back { dx: i64, dy: i64 },
    /// Some cell is live, and the pattern is there under no vector.
    Other,
}

impl Stage {
    /// How a pattern ends whose plane shows this after `generations` generations, where it was neither dead nor back
    /// before.
    pub(super) fn ending(self, generations: u64) -> Option<Ending>
        ensures { result ≡ ending_of self generations }
    {
        match self {
            Stage::Empty => Some(Ending::Death { generations }),
            Stage::Back { dx, dy } => Some(Ending::Return(Recurrence {
                generations,
                dx,
                dy,
            })),
            Stage::Other => None,
        }
    }
}

/// What a tree shows of a live pattern. Nothing is moved or compared where the boxes have different sizes.
/// The boxes are those of squares that were measured before, and then of these too.
pub(super) fn stage_of<A: Automaton>(
    alloc: Global,
    leaper: &mut Leaper<A>,
    first: &First,
    now: &Tree,
    boxes: &mut SquareBoxes,
) -> Result<Stage, LeapFault>
    requires first { IsFirst leaper.old.nodes first.now }
    requires now { IsNearTree leaper.old.nodes now.now }
    requires boxes { AreSquareBoxes leaper.old.nodes boxes.old }
    ensures stage { IfOk result
        (IsStage (cell leaper.old.nodes first.now.tree) (cell leaper.old.nodes now.now)) }
    ensures boxes { OnOk result (AreSquareBoxes leaper.new.nodes boxes.new) }
    ensures goes_on { LeaperGrows A leaper.old leaper.new }
    ensures spent { leaper.new.spent ≡ leaper.old.spent }
    ensures work { EndsAtLimit leaper.new.spent result }
{
    let Some(bounds) = leaper.store().bounds_with(alloc, *now, boxes)? else {
        return Ok(Stage::Empty);
    };
    let Some((dx, dy)) = vector_between(&first.bounds, &bounds) else {
        return Ok(Stage::Other);
    };
    if (dx != 0 || dy != 0) && !may_be_moved(alloc, leaper.store(), &first.tree, now)? {
        return Ok(Stage::Other);
    }
    match vector_if_back(leaper, *now, first.tree, dx, dy)? {
        Some((dx, dy)) => Ok(Stage::Back { dx, dy }),
        None => Ok(Stage::Other),
    }
}

// Whether two trees have as many live cells, as they have if one is the other, moved. That costs less than to move one. It
// isn't counted for the largest trees.
fn may_be_moved(alloc: Global, store: &Store, one: &Tree, other: &Tree) -> Result<bool, Memory>
    requires one { IsTree store.now one.now }
    requires other { IsTree store.now other.now }
    ensures { IfOk result (λ may. IsFalse may
        → AreMovedNowhere (cell store.now one.now) (cell store.now other.now)) }
{
    if one.level > 63 || other.level > 63 {
        return Ok(true);
    }
    let cells = store.population(alloc, *one)?;
    Ok(store.population(alloc, *other)? == cells)
}

// The vector from the corner of one box to that of another one, where they have the same size: no other can
// move cells with the one smallest box onto cells with the other.
fn vector_between(from: &WideBounds, to: &WideBounds) -> Option<(i64, i64)>
    requires from { IsFirstBox from.now }
    requires to { IsWideBox to.now }
    ensures { (p q : ℤ → ℤ → ℕ) → IsLeastWideBox p from.now → IsLeastWideBox q to.now
        → MatchOption result (AreMovedNowhere p q) (AreMovedOnlyBy p q) }
{
    if to.x1 - from.x1 != to.x0 - from.x0 {
        return None;
    }
    if to.y1 - from.y1 != to.y0 - from.y0 {
        return None;
    }
    Some((distance(from.x0, to.x0), distance(from.y0, to.y0)))
}
