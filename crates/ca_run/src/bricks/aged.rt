//! Generations of a grid of cells that age.

ghost use Rattle.std.specs.Prelude.{◌≡◌};
ghost use Rattle.std.proofs.Common.{lit≤};
ghost use Rattle.ca_run.specs.inner.Dense.{AgesBy};

use super::run::count_steps;
use super::{Frame, GridRule};
use crate::leaper::{AgedPlane, Leaper, Milestone};
use crate::watch::Watch;
use ca_bricks::{AgedGrid, Queue, aged_generation, digit_count, wake_next};
use ca_budget::{LeapFault, Work};
use ca_plane::{Ageing, Automaton, Memory};
use ca_quad::Tree;
use std::alloc::Global;

impl GridRule for Ageing {
    type Grid = AgedGrid;

    ghost goes_by = { λ ageing next. AgesBy next ageing };

    ghost suits = { λ ageing grid. grid.states ≡ ageing.states };

    ghost MOST_GROWTH = { 5 };

    const MOST_GROWTH: u8 = 5;

    ghost is_cheap = { λ _. lit≤ tt };

    // A grid for the live cells, and one for each digit of the numbers of the dying ones.
    fn grid_of<A: Automaton>(
        &self,
        leaper: &Leaper<A>,
        alloc: Global,
        tree: &Tree,
        frame: &Frame,
    ) -> Result<Option<AgedGrid>, Memory> {
        let states = self.states;
        if u16::from(leaper.store().greatest_state(alloc, *tree)?) >= states {
            return Ok(None);
        }
        let Some(live) = leaper.grid_of(alloc, AgedPlane::Live, tree, frame)? else {
            return Ok(None);
        };
        let mut dying = Vec::new(alloc);
        'digits: for digit in 0..digit_count(states) {
            let plane = AgedPlane::Dying { states, digit };
            let Some(grid) = leaper.grid_of(alloc, plane, tree, frame)? else {
                return Ok(None);
            };
            dying.push(grid)?;
        }
        Ok(Some(AgedGrid {
            live,
            dying,
            states,
        }))
    }

    #[tactic(auto, using(crate::proofs::Costs::charged_within))]
    fn grid_after<A: Automaton, W: Watch>(
        &self,
        mut grid: AgedGrid,
        alloc: Global,
        n: u64,
        leaper: &Leaper<A>,
        first: &Tree,
        reached: u64,
        work: &mut Work,
        watch: &mut W,
    ) -> Result<AgedGrid, LeapFault> {
        let across = grid.live.across;
        let count = grid.live.bricks.len();
        let mut queue = Queue::new(alloc, count)?;
        let mut awake = grid.first_bricks(alloc, &mut queue)?;
        let mut before = grid.blank_planes(alloc)?;
        let mut stepped = 0u64;
        'generations: for k in 0..n {
            let steps = count_steps(work, &awake, count)?;
            stepped = stepped.saturating_add(steps);
            aged_generation(&mut grid, &mut before, &awake, &mut queue, *self)?;
            wake_next(k == 0, across, count, &mut queue, &mut awake)?;
            watch.reached(Milestone::with_grid(leaper, first, &grid, reached + k + 1));
        }
        grid.live.work = stepped;
        Ok(grid)
    }
}
