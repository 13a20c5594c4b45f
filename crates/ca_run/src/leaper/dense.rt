//! Planes that are stepped brick by brick: those of squares that hardly repeat.

ghost use Rattle.std.specs.Prelude.{◌≡◌, ◌+◌, ◌*◌, ◌≤◌, ◌^◌, ◌⊎◌, Ok, None, IfOk, IsOk, IfSome};
ghost use Rattle.ca_plane.specs.Prelude.{cells_after, most_generations};
ghost use Rattle.ca_quad.specs.Prelude.{IsTree, cell};
ghost use Rattle.ca_run.specs.Leaping.{LeaperGrows};
ghost use Rattle.ca_budget.specs.Prelude.{EndsAtLimit};
ghost use Rattle.ca_run.specs.inner.AtCost.{GoesOnAtCost};
ghost use Rattle.ca_bricks.specs.Prelude.{IsBeside};
ghost use Rattle.ca_run.specs.inner.Dense.{HasReached, IsIdle, IsDense};
ghost use Rattle.ca_run.specs.inner.Frames.{IsReadByBricks, IsGridFrame, IsFramed, IsNewGrid};

use super::Leaper;
use super::from_grid::SquareGrid;
use crate::bricks::{Frame, GridRule, frame_of};
use crate::watch::Watch;
use ca_bricks::CellRule;
use ca_budget::LeapFault;
use ca_plane::{Automaton, Memory};
use ca_quad::{Tree, WideBounds};
use std::alloc::Global;

// The fewest generations for which it pays to read all bricks.
const FEWEST: u64 = 32;

// The fewest squares of a tree whose bricks are stepped.
const FEWEST_SQUARES: usize = 16;

// The levels of trees of which bricks are read.
const LEAST: u8 = 7;

const GREATEST: u8 = 62;

// For how many generations a grid has a margin.
const AT_A_TIME: u64 = 1024;

// How many grids are made at most, one after the other.
const MOST_GRIDS: u64 = 8;

// How many bricks a grid has at most for each that is stepped in a generation.
const MOST_RESTING: u64 = 320;

/// A tree that a run has reached, and after how many generations.
#[derive(Clone, Copy)]
pub(super) struct ReachedTree {
    pub(super) tree: Tree,
    pub(super) generations: u64,
}

// What is reached by one grid, how many bricks it has, and how many of them were stepped in a generation.
#[derive(Clone, Copy)]
pub(super) struct Stretch {
    pub(super) reached: ReachedTree,
    pub(super) bricks: u64,
    pub(super) work: u64,
}

impl<A: Automaton> Leaper<A> {
    // What is reached of n generations by stepping bricks, as far as that likely takes less time than to
    // leap.
    pub(super) fn step_dense<W: Watch>(
        &mut self,
        tree: &Tree,
        n: u64,
        watch: &mut W,
    ) -> Result<ReachedTree, LeapFault>
        requires tree { IsTree self.old.nodes tree.now }
        requires level { tree.now.level ≤ 64 }
        requires time { n ≤ most_generations }
        ensures reached { IfOk result (HasReached (A.next_of self.old.rule)
            self.old.nodes tree.now n self.new.nodes) }
        ensures none { n ≡ 0 → IfOk result (λ reached. reached.tree ≡ tree.now) }
        ensures calm { n ≡ 0 → IsOk result }
        ensures goes_on { LeaperGrows A self.old self.new }
        ensures costs { IsIdle A self.old self.new result ⊎ IsDense A self.old tree.now n self.new }
        ensures work { EndsAtLimit self.new.spent result }
    {
        let _ = &self.store;
        let reached = ReachedTree {
            tree: *tree,
            generations: 0,
        };
        if n < FEWEST || tree.level < LEAST || !self.memo.is_empty() || !self.may_step() {
            return Ok(reached);
        }
        if !self.is_dense(tree)? {
            return Ok(reached);
        }
        // Says how many any rule has.
        let _states = self.rule.states();
        if let Some(ageing) = self.rule.ageing() {
            return self.step_grids(&ageing, tree, reached, n, watch);
        }
        let Some(rule) = CellRule::of(self.recent_centres.allocator(), &self.rule)? else {
            return Ok(reached);
        };
        self.step_grids(&rule, tree, reached, n, watch)
    }

    // What is reached by one grid after another, until few of the bricks of one are stepped.
    #[tactic(auto, using(crate::proofs::DenseRuns::grids_end))]
    fn step_grids<R: GridRule, W: Watch>(
        &mut self,
        rule: &R,
        first: &Tree,
        mut reached: ReachedTree,
        n: u64,
        watch: &mut W,
    ) -> Result<ReachedTree, LeapFault>
        requires first { IsTree self.old.nodes first.now }
        requires least { 7 ≤ first.now.level }
        requires most { first.now.level ≤ 64 }
        requires many { 32 ≤ n }
        requires time { n ≤ most_generations }
        requires rule { R.goes_by rule.now (A.next_of self.old.rule) }
        requires reached { HasReached (A.next_of self.old.rule)
            self.old.nodes first.now n self.old.nodes reached }
        ensures reached { IfOk result (HasReached (A.next_of self.old.rule)
            self.old.nodes first.now n self.new.nodes) }
        ensures goes_on { LeaperGrows A self.old self.new }
        ensures costs { IsDense A self.old first.now n self.new }
        ensures work { EndsAtLimit self.new.spent result }
    {
        let _ = &self.store;
        let mut most = 0;
        'grids: for _ in 0..MOST_GRIDS {
            let Some(stretch) = self.step_grid(rule, first, &reached, n, watch)? else {
                return Ok(reached);
            };
            let Stretch {
                reached: next,
                bricks,
                work,
            } = stretch;
            reached = next;
            most = work.max(most);
            let least = (most / 4).max(bricks / MOST_RESTING);
            if work < least || self.are_alike(&reached.tree, work)? {
                return Ok(reached);
            }
        }
        Ok(reached)
    }

    // Whether the `bricks` bricks of a tree's plane that were stepped in a generation are likely copies of few: where
    // each is unlike the others, the tree has several squares for each.
    fn are_alike(&self, tree: &Tree, bricks: u64) -> Result<bool, Memory>
        requires { IsTree self.now.nodes tree.now }
    {
        let alloc = self.recent_centres.allocator();
        let squares = self.store.looked_at(alloc, *tree)?;
        Ok((squares as u64) < bricks)
    }

    // Whether the squares of a tree hardly repeat: in a box of squares of 16 by 16 cells that are all unlike
    // there are a third as many larger ones.
    fn is_dense(&self, tree: &Tree) -> Result<bool, Memory>
        requires { IsTree self.now.nodes tree.now }
    {
        let alloc = self.recent_centres.allocator();
        let squares = self.store.looked_at(alloc, *tree)?;
        if squares < FEWEST_SQUARES {
            return Ok(false);
        }
        let Some(bounds) = self.store.bounds(alloc, *tree)? else {
            return Ok(false);
        };
        let room = room_in(bounds);
        Ok(squares as i128 >= room.saturating_add(room / 5))
    }

    // Whether there may be a way to step bricks by the rule.
    fn may_step(&self) -> bool {
        self.rule.states() == 2 || self.rule.ageing().is_some()
    }

    // What is reached by one grid more, where the plane is not too large.
    fn step_grid<R: GridRule, W: Watch>(
        &mut self,
        rule: &R,
        first: &Tree,
        reached: &ReachedTree,
        n: u64,
        watch: &mut W,
    ) -> Result<Option<Stretch>, LeapFault>
        requires first { IsTree self.old.nodes first.now }
        requires least { 7 ≤ first.now.level }
        requires most { first.now.level ≤ 64 }
        requires time { n ≤ most_generations }
        requires rule { R.goes_by rule.now (A.next_of self.old.rule) }
        requires reached { HasReached (A.next_of self.old.rule)
            self.old.nodes first.now n self.old.nodes reached.now }
        ensures reached { IfOk result (λ found. IfSome found (λ stretch. HasReached (A.next_of self.old.rule)
            self.old.nodes first.now n self.new.nodes stretch.reached)) }
        ensures none { reached.now.generations ≡ n → IfOk result (λ found. found ≡ None) }
        ensures at_cost { GoesOnAtCost A self.old self.new (2 * 14 ^ (first.now.level + 4)) 255 }
        ensures work { EndsAtLimit self.new.spent result }
    {
        let alloc = self.recent_centres.allocator();
        let left = (n - reached.generations).min(AT_A_TIME);
        let Some(grid) = self.dense_grid(alloc, rule, &reached.tree, left)? else {
            return Ok(None);
        };
        let reach = grid.live().reach();
        if reach > first.level + R::MOST_GROWTH {
            return Ok(None);
        }
        let later = self.later_grid(grid, rule, left, first, reached.generations, watch)?;
        let tree = self.tree_of(&later, reach)?;
        let tree = self.trim(tree)?;
        let live = later.live();
        Ok(Some(Stretch {
            reached: ReachedTree {
                tree,
                generations: reached.generations + left,
            },
            bricks: live.bricks.len() as u64,
            work: live.work / left,
        }))
    }

    // The grid `generations` generations later. The run began with `first`, `reached` generations before the
    // given grid. The bricks that are stepped are counted.
    fn later_grid<R: GridRule, W: Watch>(
        &mut self,
        grid: R::Grid,
        rule: &R,
        generations: u64,
        first: &Tree,
        reached: u64,
        watch: &mut W,
    ) -> Result<R::Grid, LeapFault>
        requires rule { R.goes_by rule.now (A.next_of self.old.rule) }
        requires shows { R.Grid.shows_plane grid generations
            (cells_after (A.next_of self.old.rule) (cell self.old.nodes first.now) reached) }
        requires suits { R.suits rule.now grid }
        requires fresh { IsNewGrid (R.Grid.live_grid grid) }
        requires margin { generations ≤ 1024 }
        requires time { reached + generations ≤ most_generations }
        ensures shows { IfOk result (λ later. R.Grid.shows_plane later 0 (cells_after (A.next_of self.old.rule)
            (cell self.old.nodes first.now) (reached + generations))) }
        ensures place { IfOk result (λ later. IsBeside (R.Grid.live_grid grid) (R.Grid.live_grid later)) }
        ensures same { self.new.nodes ≡ self.old.nodes }
        ensures counts { IfOk result (λ later. self.new.spent.used
            ≡ self.old.spent.used + (R.Grid.live_grid later).work) }
        ensures at_cost { GoesOnAtCost A self.old self.new (2 ^ 28) 0 }
        ensures work { EndsAtLimit self.new.spent result }
    {
        let alloc = self.recent_centres.allocator();
        let mut spent = self.work;
        let later = rule.grid_after(
            grid,
            alloc,
            generations,
            self,
            first,
            reached,
            &mut spent,
            watch,
        );
        self.work = spent;
        later
    }

    // The grid of a tree with a margin of `margin` cells, where it is not too large.
    fn dense_grid<R: GridRule>(
        &self,
        alloc: Global,
        rule: &R,
        tree: &Tree,
        margin: u64,
    ) -> Result<Option<R::Grid>, Memory>
        requires rule { R.goes_by rule.now (A.next_of self.now.rule) }
        requires tree { IsTree self.now.nodes tree.now }
        requires margin { margin ≤ most_generations }
        ensures shows { IfOk result (λ found. IfSome found
            (λ grid. R.Grid.shows_plane grid margin (cell self.now.nodes tree.now))) }
        ensures suits { IfOk result (λ found. IfSome found (R.suits rule.now)) }
        ensures fresh { IfOk result (λ found. IfSome found (λ grid. IsNewGrid (R.Grid.live_grid grid))) }
        ensures some { margin ≡ 0 → result ≡ Ok None }
    {
        let Some(frame) = self.dense_frame(alloc, tree, margin)? else {
            return Ok(None);
        };
        rule.grid_of(self, alloc, tree, &frame)
    }

    // The frame of a tree with a margin of `margin` cells, where it is not too large.
    fn dense_frame(&self, alloc: Global, tree: &Tree, margin: u64) -> Result<Option<Frame>, Memory>
        requires tree { IsTree self.now.nodes tree.now }
        requires margin { margin ≤ most_generations }
        ensures read { IfOk result (λ found. IfSome found (λ _. IsReadByBricks self.now.nodes tree.now)) }
        ensures frame { IfOk result (λ found. IfSome found IsGridFrame) }
        ensures framed { IfOk result (λ found. IfSome found
            (λ frame. IsFramed margin frame (cell self.now.nodes tree.now))) }
        ensures some { margin ≡ 0 → result ≡ Ok None }
    {
        if margin == 0 || tree.level < LEAST || tree.level > GREATEST {
            return Ok(None);
        }
        let Some(bounds) = self.store.bounds(alloc, *tree)? else {
            return Ok(None);
        };
        Ok(frame_of(bounds, margin as usize))
    }
}

// For how many squares of 16 by 16 cells there is room in a box.
fn room_in(bounds: WideBounds) -> i128 {
    let columns = bounds.x1.saturating_sub(bounds.x0) / 16;
    let rows = bounds.y1.saturating_sub(bounds.y0) / 16;
    columns
        .saturating_add(1)
        .saturating_mul(rows.saturating_add(1))
}
