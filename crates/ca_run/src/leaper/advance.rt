//! Trees after n generations.

ghost use Rattle.std.specs.Prelude.{◌≡◌, ℤ, ◌+◌, ◌<◌, ◌≤◌, ◌^◌, max, Ok, IsOk, IfOk, OnOk, ◌*◌, ◌-◌, ◌⊎◌};
ghost use Rattle.ca_quad.specs.Prelude.{IsSoundStore, IsTree, cell, IsTrimmed};
ghost use Rattle.ca_run.specs.Advanced.{CanAdvance, IsAdvanced, Advances, AdvancesWithin};
ghost use Rattle.ca_run.specs.Leaping.{LeaperGrows};
ghost use Rattle.ca_budget.specs.Prelude.{EndsAtLimit};
ghost use Rattle.ca_run.specs.inner.AtCost.{GoesOnAtCost};
ghost use Rattle.ca_run.specs.inner.Dense.{HasReached, HasLeapt, HasParted};
ghost use Rattle.ca_run.specs.inner.Padded.{IsPadded};

use super::dense::ReachedTree;
use super::{Leaper, Milestone};
use crate::watch::{Unwatched, Watch};
use ca_budget::{LeapFault, is_long, room_beside};
use ca_plane::{Automaton, Memory};
use ca_quad::Tree;

impl<A: Automaton> Leaper<A> {
    /// The tree after n generations. The level of `tree` is at most 64, and n at most 2^60.
    ///
    /// # Errors
    ///
    /// `Memory` where there is no memory for more squares or results, and `Work` where as many units of work
    /// are used up as may be. Every tree stays as it was, and later calls go on with what was computed so far.
    pub fn advance(&mut self, tree: Tree, n: u64) -> Result<Tree, LeapFault>
        requires { CanAdvance self.old.nodes tree n }
        ensures { Advances A (A.next_of self.old.rule) self.old tree n self.new result }
    {
        self.advance_watched(tree, n, &mut Unwatched)
    }

    /// The same, while someone watches, who sees after each leap how many generations are reached, and where
    /// the plane is stepped, after each generation.
    ///
    /// # Errors
    ///
    /// As for `advance`.
    pub fn advance_watched<W: Watch>(
        &mut self,
        tree: Tree,
        n: u64,
        watch: &mut W,
    ) -> Result<Tree, LeapFault>
        requires { CanAdvance self.old.nodes tree n }
        ensures { Advances A (A.next_of self.old.rule) self.old tree n self.new result }
    {
        self.learn_cell_rule(n)?;
        self.advance_known(tree, n, watch)
    }

    /// The same where that takes no more units of work than until `most` are used up in all, or as many as are used up
    /// already, where these are more. None where it takes more: then these are used up.
    ///
    /// # Errors
    ///
    /// As for `advance`: `Work` where as many units are used up as may be, and not where `most` are.
    pub fn advance_within<W: Watch>(
        &mut self,
        tree: Tree,
        n: u64,
        most: u64,
        watch: &mut W,
    ) -> Result<Option<Tree>, LeapFault>
        requires { CanAdvance self.old.nodes tree n }
        ensures { AdvancesWithin A (A.next_of self.old.rule) self.old tree n most self.new result }
    {
        let limit = self.work_limit();
        self.set_work_limit(most.min(limit));
        let found = self.advance_watched(tree, n, watch);
        let used = self.used();
        self.set_work_limit(limit);
        match found {
            Ok(later) => Ok(Some(later)),
            Err(LeapFault::Memory) => Err(LeapFault::Memory),
            Err(LeapFault::Work) => {
                if used < limit {
                    return Ok(None);
                }
                Err(LeapFault::Work)
            }
        }
    }

    // The same, with what is known of the rule.
    fn advance_known<W: Watch>(
        &mut self,
        tree: Tree,
        n: u64,
        watch: &mut W,
    ) -> Result<Tree, LeapFault>
        requires { CanAdvance self.old.nodes tree n }
        ensures { Advances A (A.next_of self.old.rule) self.old tree n self.new result }
    {
        let _ = &self.store;
        let reached = self.step_dense(&tree, n, watch)?;
        self.go_on(&tree, reached, n, watch)
    }

    // The tree n generations after `first`, by leaps from one that was reached on the way. Where a run is long
    // and makes too many squares, it goes on in a store of its own.
    fn go_on<W: Watch>(
        &mut self,
        first: &Tree,
        reached: ReachedTree,
        n: u64,
        watch: &mut W,
    ) -> Result<Tree, LeapFault>
        requires first { CanAdvance self.old.nodes first.now n }
        requires reached { HasReached (A.next_of self.old.rule)
            self.old.nodes first.now n self.old.nodes reached }
        ensures advanced { IfOk result (IsAdvanced (A.next_of self.old.rule)
            self.old.nodes first.now n self.new.nodes) }
        ensures none { n ≡ 0 → result ≡ Ok reached.tree }
        ensures goes_on { LeaperGrows A self.old self.new }
        ensures costs { HasLeapt A self.old first.now reached.generations n 61 self.new
            ⊎ HasParted A self.old first.now n self.new }
        ensures work { EndsAtLimit self.new.spent result }
    {
        let mut reached = reached;
        let long = is_long(first.level, n);
        let squares = self.store.count();
        let room = room_beside(squares, watch.most_squares());
        self.set_room(if long { room } else { usize::MAX });
        match self.leap_on(first, &mut reached, n, watch) {
            Ok(()) => Ok(reached.tree),
            Err(LeapFault::Memory) if long && self.store.count() > squares => {
                let end = self.leap_in_own_store(first, reached, squares, n, watch);
                // No more than can be counted.
                let _used = self.used();
                end
            }
            Err(fault) => Err(fault),
        }
    }

    // Goes on from what was reached of n generations, by a leap for each binary digit of those that are left.
    // Each tree is trimmed, so that its level is no more than what n generations may need.
    pub(super) fn leap_on<W: Watch>(
        &mut self,
        first: &Tree,
        reached: &mut ReachedTree,
        n: u64,
        watch: &mut W,
    ) -> Result<(), LeapFault>
        requires first { CanAdvance self.old.nodes first.now n }
        requires reached { HasReached (A.next_of self.old.rule)
            self.old.nodes first.now n self.old.nodes reached.old }
        ensures reached { HasReached (A.next_of self.old.rule)
            self.old.nodes first.now n self.new.nodes reached.new }
        ensures all { OnOk result (reached.new.generations ≡ n) }
        ensures none { n ≡ 0 → IsOk result × (reached.new.tree ≡ reached.old.tree) }
        ensures goes_on { LeaperGrows A self.old self.new }
        ensures costs { HasLeapt A self.old first.now reached.old.generations n 61 self.new }
        ensures work { EndsAtLimit self.new.spent result }
    {
        let _ = &self.store;
        let begun = reached.generations;
        let left = n - begun;
        'digits: for j in 0..61 {
            if (left >> j) % 2 == 1 {
                let tree = self.leap(reached.tree, j, watch)?;
                let generations = begun + left % (2 << j);
                watch.reached(Milestone::with_tree(self, &self.store, first, &tree, generations));
                *reached = ReachedTree { tree, generations };
            }
        }
        Ok(())
    }

    // The tree after 2^j generations, of the smallest level.
    pub(super) fn leap<W: Watch>(
        &mut self,
        tree: Tree,
        j: u8,
        watch: &mut W,
    ) -> Result<Tree, LeapFault>
        requires tree { IsTree self.old.nodes tree }
        requires level { tree.level ≤ 123 }
        requires time { j ≤ 60 }
        ensures advanced { IfOk result
            (IsAdvanced (A.next_of self.old.rule) self.old.nodes tree (2 ^ j) self.new.nodes) }
        ensures trimmed { IfOk result (IsTrimmed self.new.nodes) }
        ensures at_cost { GoesOnAtCost A self.old self.new (14 ^ max tree.level (j + 1)) 16380 }
        ensures work { EndsAtLimit self.new.spent result }
    {
        // So all that is live after 2^j generations lies in the centre.
        let part_level = self.store.level(tree.root).max(j + 1);
        let wide = self.padded_tree(tree, part_level + 2)?;
        let root = self.centre(wide.root, part_level, j, watch)?;
        let later = Tree {
            root,
            level: part_level + 1,
        };
        Ok(self.trim(later)?)
    }

    // The tree of the smallest level that shows the same cells.
    pub(super) fn trim(&mut self, tree: Tree) -> Result<Tree, Memory>
        requires tree { IsTree self.old.nodes tree }
        ensures tree { IfOk result (IsTree self.new.nodes) }
        ensures level { IfOk result (λ t. t.level ≤ tree.level) }
        ensures cells { IfOk result (λ t. (x y : ℤ)
            → cell self.new.nodes t x y ≡ cell self.old.nodes tree x y) }
        ensures trimmed { IfOk result (IsTrimmed self.new.nodes) }
        ensures at_cost { GoesOnAtCost A self.old self.new 0 130 }
    {
        self.store.trim(tree)
    }

    // The tree of this level that shows the same cells.
    pub(super) fn padded_tree(&mut self, tree: Tree, level: u8) -> Result<Tree, Memory>
        requires tree { IsTree self.old.nodes tree }
        requires more { tree.level ≤ level }
        requires most { level ≤ 125 }
        ensures padded { IfOk result (IsPadded self.old.nodes tree level self.new.nodes) }
        ensures at_cost { GoesOnAtCost A self.old self.new 0 (130 * (level - tree.level)) }
        ensures spent { self.new.spent ≡ self.old.spent }
        ensures sound { IsSoundStore self.old.nodes }
    {
        let _ = &self.store;
        if tree.level == level {
            return Ok(tree);
        }
        let wide = self.pad(tree)?;
        self.padded_tree(wide, level)
    }

    // The tree of one level more that shows the same cells.
    fn pad(&mut self, tree: Tree) -> Result<Tree, Memory>
        requires tree { IsTree self.old.nodes tree }
        requires low { tree.level ≤ 124 }
        ensures padded { IfOk result (IsPadded self.old.nodes tree (tree.level + 1) self.new.nodes) }
        ensures at_cost { GoesOnAtCost A self.old self.new 0 130 }
        ensures spent { self.new.spent ≡ self.old.spent }
    {
        self.store.pad(tree)
    }
}
