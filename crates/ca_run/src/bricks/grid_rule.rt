//! Rules by which the bricks of grids are stepped.

ghost use Rattle.std.specs.Prelude.{◌≡◌, ℕ, ◌+◌, ◌*◌, ◌≤◌, ◌^◌, List, length, replicate, IfOk, IfSome};
ghost use Rattle.ca_plane.specs.Prelude.{cells_after, most_generations};
ghost use Rattle.ca_quad.specs.Prelude.{cell};
ghost use Rattle.ca_bricks.specs.Prelude.{IsBeside};
ghost use Rattle.ca_budget.specs.Prelude.{EndsAtLimit};
ghost use Rattle.ca_run.specs.inner.AtCost.{SpendsAtMost};
ghost use Rattle.ca_run.specs.inner.Frames.{IsReadByBricks, IsGridFrame, IsFramed, IsNewGrid};

use super::Frame;
use crate::leaper::{Leaper, SquareGrid};
use crate::watch::Watch;
use ca_budget::{LeapFault, Work};
use ca_plane::{Automaton, Memory};
use ca_quad::Tree;
use std::alloc::Global;

/// How trees become grids, and how these are stepped.
pub(crate) trait GridRule {
    type Grid: SquareGrid + Drop;

    // Cells with these next states go by the rule.
    ghost goes_by: { Self → (List ℕ → ℕ) → Type 0 };
    // The grid is one for the rule's states.
    ghost suits: { Self → Self.Grid → Type 0 };

    ghost MOST_GROWTH: { ℕ };

    /// How many levels more than the first tree the tree of a grid has at most, as a reach.
    const MOST_GROWTH: u8;

    /// The grid of a frame round the cells of a tree that aren't dead, where they have none but the rule's states.
    fn grid_of<A: Automaton>(
        &self,
        leaper: &Leaper<A>,
        alloc: Global,
        tree: &Tree,
        frame: &Frame,
    ) -> Result<Option<Self::Grid>, Memory>
        requires rule { goes_by self.now (A.next_of leaper.now.rule) }
        requires tree { IsReadByBricks leaper.now.nodes tree.now }
        requires frame { IsGridFrame frame.now }
        ensures shows { (m : ℕ) → IsFramed m frame.now (cell leaper.now.nodes tree.now)
            → IfOk result (λ found. IfSome found
            (λ grid. Self.Grid.shows_plane grid m (cell leaper.now.nodes tree.now))) }
        ensures suits { IfOk result (λ found. IfSome found (suits self.now)) }
        ensures fresh { IfOk result (λ found. IfSome found (λ grid. IsNewGrid (Self.Grid.live_grid grid))) };

    /// The grid n generations later. The run began with `first`, `reached` generations before the given grid.
    /// Each brick that is stepped is counted before: no more in a generation than there are.
    fn grid_after<A: Automaton, W: Watch>(
        &self,
        grid: Self::Grid,
        alloc: Global,
        n: u64,
        leaper: &Leaper<A>,
        first: &Tree,
        reached: u64,
        work: &mut Work,
        watch: &mut W,
    ) -> Result<Self::Grid, LeapFault>
        requires rule { goes_by self.now (A.next_of leaper.now.rule) }
        requires quiet { A.next_of leaper.now.rule (replicate 9 0) ≡ 0 }
        requires shows { Self.Grid.shows_plane grid n
            (cells_after (A.next_of leaper.now.rule) (cell leaper.now.nodes first.now) reached) }
        requires suits { suits self.now grid }
        requires fresh { IsNewGrid (Self.Grid.live_grid grid) }
        requires time { reached + n ≤ most_generations }
        ensures shows { IfOk result (λ later. Self.Grid.shows_plane later 0
            (cells_after (A.next_of leaper.now.rule) (cell leaper.now.nodes first.now) (reached + n))) }
        ensures place { IfOk result (λ later. IsBeside (Self.Grid.live_grid grid) (Self.Grid.live_grid later)) }
        ensures counts { IfOk result (λ later. work.new.used
            ≡ work.old.used + (Self.Grid.live_grid later).work) }
        ensures charged { SpendsAtMost work.old work.new
            (n * length (Self.Grid.live_grid grid).bricks.items) }
        ensures work { EndsAtLimit work.new result };

    // a tree that is made of a grid costs little beside a leap
    ghost is_cheap: { (grid : Self.Grid) → (1 + Self.Grid.units grid) * 14 ^ MOST_GROWTH ≤ 21 * 14 ^ 5 };
}
