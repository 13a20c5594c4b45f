//! Generations of a grid.

ghost use Rattle.std.specs.Prelude.{◌≡◌, ◌+◌, ◌<◌, ◌≤◌, ◌^◌, ⊤, length, min, IsOk, IfOk, OnOk};
ghost use Rattle.std.proofs.Common.{lit≤};
ghost use Rattle.ca_bricks.specs.Prelude.{GoesByCells};
ghost use Rattle.ca_budget.specs.Prelude.{EndsAtLimit};
ghost use Rattle.ca_run.specs.inner.AtCost.{SpendsAtMost};

use super::{Frame, GridRule};
use crate::leaper::{Leaper, Milestone, TwoStates};
use crate::watch::Watch;
use ca_bricks::{BrickGrid, CellRule, Queue, blank_bricks, first_bricks, generation, wake_next};
use ca_budget::{LeapFault, Work};
use ca_plane::{Automaton, Memory};
use ca_quad::Tree;
use std::alloc::Global;

// Counts the bricks of a list before they are stepped, but no more than there are.
pub(super) fn count_steps(work: &mut Work, awake: &[usize], count: usize) -> Result<u64, LeapFault>
    ensures enough { work.old.used + min (length awake.now) count ≤ work.old.limit → IsOk result }
    ensures steps { IfOk result (λ steps. steps ≡ min (length awake.now) count) }
    ensures counts { OnOk result (work.new.used ≡ work.old.used + min (length awake.now) count) }
    ensures charged { SpendsAtMost work.old work.new count }
    ensures fits { work.new.used < 2 ^ 64 }
    ensures work { EndsAtLimit work.new result }
{
    let steps = awake.len().min(count) as u64;
    work.charge(steps)?;
    Ok(steps)
}

impl GridRule for CellRule {
    type Grid = BrickGrid;

    ghost goes_by = { λ rule next. GoesByCells next rule };

    ghost suits = { λ _ _. ⊤ };

    ghost MOST_GROWTH = { 6 };

    const MOST_GROWTH: u8 = 6;

    ghost is_cheap = { λ _. lit≤ tt };

    fn grid_of<A: Automaton>(
        &self,
        leaper: &Leaper<A>,
        alloc: Global,
        tree: &Tree,
        frame: &Frame,
    ) -> Result<Option<BrickGrid>, Memory> {
        leaper.grid_of(alloc, TwoStates, tree, frame)
    }

    #[tactic(auto, using(crate::proofs::Costs::charged_within))]
    fn grid_after<A: Automaton, W: Watch>(
        &self,
        mut grid: BrickGrid,
        alloc: Global,
        n: u64,
        leaper: &Leaper<A>,
        first: &Tree,
        reached: u64,
        work: &mut Work,
        watch: &mut W,
    ) -> Result<BrickGrid, LeapFault> {
        let count = grid.bricks.len();
        let mut queue = Queue::new(alloc, count)?;
        let mut awake = first_bricks(alloc, grid.across, &grid.bricks, &mut queue)?;
        let mut before = blank_bricks(alloc, count)?;
        'generations: for k in 0..n {
            let steps = count_steps(work, &awake, count)?;
            grid.work = grid.work.saturating_add(steps);
            generation(
                grid.across,
                &mut grid.bricks,
                &mut before,
                &awake,
                &mut queue,
                self,
            )?;
            wake_next(k == 0, grid.across, count, &mut queue, &mut awake)?;
            watch.reached(Milestone::with_grid(leaper, first, &grid, reached + k + 1));
        }
        Ok(grid)
    }
}
