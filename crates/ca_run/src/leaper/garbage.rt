//! Runs that make too many squares for the leaper's store. They go on in a store of their own, and its garbage is
//! collected from time to time: all squares are dropped but those of the tree and, where the run repeats, of
//! results in use.

ghost use Rattle.std.specs.Prelude.{◌≡◌, ◌+◌, ◌-◌, ◌*◌, ◌/◌, ◌≤◌, ◌<◌, ◌^◌, true, length, take, IfOk, IfErr, OnOk, OnErr};
ghost use Rattle.ca_quad.specs.Prelude.{Grows, IsTree};
ghost use Rattle.ca_run.specs.Advanced.{CanAdvance, IsAdvanced};
ghost use Rattle.ca_run.specs.Leaping.{LeaperGrows};
ghost use Rattle.ca_budget.specs.Prelude.{EndsAtLimit, tries};
ghost use Rattle.ca_run.specs.inner.OwnStore.{IsCopyOfTree, KeepsOn, IsNearer};
ghost use Rattle.ca_run.specs.inner.Dense.{HasReached};
ghost use Rattle.ca_run.specs.inner.InUse.{AreTrueLeaps};

use super::dense::ReachedTree;
use super::full_leap::FullLeap;
use super::{Leaper, Milestone};
use crate::watch::Watch;
use ca_budget::{LeapFault, Pace};
use ca_plane::{Automaton, Memory};
use ca_quad::{SquareMap, Store, Tree};
use std::mem;

// How many squares that are copied cost a unit of work.
const A_UNIT: usize = 4096;

// What part of the squares that there may be are those of a tree and of results that are kept, about, at most.
const KEPT: usize = 4;

impl<A: Automaton> Leaper<A> {
    // The tree n generations after `first`, by leaps from one that was reached on the way, in a store of its
    // own. Of the squares that there are, only the first `squares` stay: those that the run began with, so that a
    // caller has ids of no others.
    pub(super) fn leap_in_own_store<W: Watch>(
        &mut self,
        first: &Tree,
        reached: ReachedTree,
        squares: usize,
        n: u64,
        watch: &mut W,
    ) -> Result<Tree, LeapFault>
        requires first { CanAdvance (take squares self.old.nodes) first.now n }
        requires reached { HasReached (A.next_of self.old.rule) (take squares self.old.nodes) first.now n
            self.old.nodes reached }
        requires few { squares ≤ length self.old.nodes }
        ensures advanced { IfOk result
            (IsAdvanced (A.next_of self.old.rule) (take squares self.old.nodes) first.now n self.new.nodes) }
        ensures keeps { KeepsOn A self.old self.new }
        ensures grows { Grows (take squares self.old.nodes) self.new.nodes }
        ensures made { length self.new.nodes + 4096 * self.old.spent.used
            ≤ length self.old.nodes + 4096 * self.new.spent.used }
        ensures work { EndsAtLimit self.new.spent result }
    {
        let _ = &self.store;
        let mut pace = Pace::new(squares, watch.most_squares());
        match self.change_store_late(first, reached, squares, n, &mut pace, watch) {
            Ok((reached, origin)) => {
                let end = self.leap_until(&origin, first, reached, n, pace, watch);
                let apart = self.exchange(origin);
                self.take(&apart, end?)
            }
            Err(fault) => {
                self.keep_first(squares);
                Err(fault)
            }
        }
    }

    // Goes on in the store that there is as long as it pays, and then parts: what is reached by then, in a new store,
    // and the first squares of the one before.
    fn change_store_late<W: Watch>(
        &mut self,
        first: &Tree,
        mut reached: ReachedTree,
        squares: usize,
        n: u64,
        pace: &mut Pace,
        watch: &mut W,
    ) -> Result<(ReachedTree, Store), LeapFault>
        requires first { CanAdvance (take squares self.old.nodes) first.now n }
        requires reached { HasReached (A.next_of self.old.rule) (take squares self.old.nodes) first.now n
            self.old.nodes reached }
        requires few { squares ≤ length self.old.nodes }
        ensures reached { IfOk result (λ both. HasReached (A.next_of self.old.rule)
            (take squares self.old.nodes) first.now n self.new.nodes both.0) }
        ensures before { IfOk result (λ both. both.1 ≡ take squares self.old.nodes) }
        ensures grows { OnErr result (Grows self.old.nodes self.new.nodes) }
        ensures keeps { KeepsOn A self.old self.new }
        ensures work { EndsAtLimit self.new.spent result }
    {
        let _ = &self.store;
        self.leap_in_more_room(first, &mut reached, n, pace, watch)?;
        let leaps = self.leaps_to_keep(pace, reached.generations < n);
        let (tree, before) = self.change_store(reached.tree, squares, &leaps, pace.room() / KEPT)?;
        let generations = reached.generations;
        Ok((ReachedTree { tree, generations }, before))
    }

    // Goes on from what was reached, each time with twice the room, as long as the run repeats: nothing is forgotten, and
    // the same leap is tried again.
    fn leap_in_more_room<W: Watch>(
        &mut self,
        first: &Tree,
        reached: &mut ReachedTree,
        n: u64,
        pace: &mut Pace,
        watch: &mut W,
    ) -> Result<(), LeapFault>
        requires first { CanAdvance self.old.nodes first.now n }
        requires reached { HasReached (A.next_of self.old.rule)
            self.old.nodes first.now n self.old.nodes reached.old }
        ensures reached { HasReached (A.next_of self.old.rule)
            self.old.nodes first.now n self.new.nodes reached.new }
        ensures goes_on { LeaperGrows A self.old self.new }
        ensures work { EndsAtLimit self.new.spent result }
    {
        let _ = &self.store;
        'rooms: while self.is_full() && self.is_worth_growing(pace) {
            pace.grow();
            self.set_room(pace.room());
            match self.leap_on(first, reached, n, watch) {
                Ok(()) => return Ok(()),
                Err(LeapFault::Work) => return Err(LeapFault::Work),
                Err(LeapFault::Memory) => {}
            }
        }
        if !self.is_full() {
            pace.note_refusal(self.store.count());
        }
        Ok(())
    }

    // Whether the store had better keep its squares and have room for more.
    fn is_worth_growing(&self, pace: &Pace) -> bool
        ensures { result ≡ true → pace.now.room < 2 ^ 64 - 1 }
    {
        pace.is_worth_growing(self.store.count(), self.memo.looked_up())
    }

    // Of the squares that there are, only the first `squares` stay, and nothing is remembered.
    fn keep_first(&mut self, squares: usize)
        ensures nodes { self.new.nodes ≡ take squares self.old.nodes }
        ensures keeps { KeepsOn A self.old self.new }
        ensures spent { self.new.spent ≡ self.old.spent }
    {
        let alloc = self.recent_centres.allocator();
        let before = self.exchange(Store::new(alloc));
        self.exchange(before.first_squares(squares));
    }

    // The same tree in a new store, which takes the place of the one before, and the first squares of that
    // one. What is remembered is forgotten first, so that its memory serves for the copies. Of `leaps`, the
    // last ones are remembered for the new store's squares, until there are `most` squares or more.
    fn change_store(
        &mut self,
        tree: Tree,
        squares: usize,
        leaps: &[FullLeap],
        most: usize,
    ) -> Result<(Tree, Store), Memory>
        requires tree { IsTree self.old.nodes tree }
        requires leaps { AreTrueLeaps (A.next_of self.old.rule) self.old.nodes leaps.now }
        ensures moved { IfOk result (λ both. IsCopyOfTree self.old.nodes tree self.new.nodes both.0) }
        ensures before { IfOk result (λ both. both.1 ≡ take squares self.old.nodes) }
        ensures keeps { KeepsOn A self.old self.new }
        ensures spent { self.new.spent ≡ self.old.spent }
        ensures err { OnErr result (self.new ≡ self.old) }
    {
        let alloc = self.recent_centres.allocator();
        let before = self.exchange(Store::new(alloc));
        let mut copies = SquareMap::new(alloc);
        match self.import_tree(&before, tree, &mut copies) {
            Ok(copy) => {
                self.keep_leaps(&before, leaps, most, &mut copies);
                Ok((copy, before.first_squares(squares)))
            }
            Err(fault) => {
                self.exchange(before);
                Err(fault)
            }
        }
    }

    // Goes over to another store, of whose squares nothing is remembered yet, and gives the one before.
    fn exchange(&mut self, store: Store) -> Store
        ensures nodes { self.new.nodes ≡ store }
        ensures before { result ≡ self.old.nodes }
        ensures keeps { KeepsOn A self.old self.new }
        ensures spent { self.new.spent ≡ self.old.spent }
    {
        let _squares = store.count();
        self.memo.forget();
        self.recent_centres.forget();
        self.recent_leaps.forget();
        mem::replace(&mut self.store, store)
    }

    // The tree of another store. Before it is copied a unit is counted for each 4096 squares of that store,
    // and one besides.
    fn take(&mut self, from: &Store, tree: Tree) -> Result<Tree, LeapFault>
        requires { IsTree from.now tree }
        ensures moved { IfOk result (IsCopyOfTree from.now tree self.new.nodes) }
        ensures goes_on { LeaperGrows A self.old self.new }
        ensures made { length self.new.nodes + 4096 * self.old.spent.used
            ≤ length self.old.nodes + 4096 * self.new.spent.used }
        ensures few { self.new.spent.used ≤ self.old.spent.used + (length from.now / 4096 + 1) }
        ensures enough { self.old.spent.used + (length from.now / 4096 + 1) ≤ self.old.spent.limit
            → IfErr result (λ fault. fault ≡ LeapFault.Memory) }
        ensures work { EndsAtLimit self.new.spent result }
    {
        self.charge((from.count() / A_UNIT + 1) as u64)?;
        Ok(self.store.import(from, tree)?)
    }

    // The tree n generations after the first one, which lies in another store.
    fn leap_until<W: Watch>(
        &mut self,
        origin: &Store,
        first: &Tree,
        reached: ReachedTree,
        n: u64,
        mut pace: Pace,
        watch: &mut W,
    ) -> Result<Tree, LeapFault>
        requires first { CanAdvance origin.now first.now n }
        requires reached { HasReached (A.next_of self.old.rule)
            origin.now first.now n self.old.nodes reached }
        ensures advanced { IfOk result (IsAdvanced (A.next_of self.old.rule)
            origin.now first.now n self.new.nodes) }
        ensures keeps { KeepsOn A self.old self.new }
        ensures work { EndsAtLimit self.new.spent result }
    {
        let _known = origin.count();
        let mut reached = reached;
        pace.note_copy(self.store.count());
        'leaps: while reached.generations < n {
            reached = self.leap_once(origin, first, reached, n, &mut pace, watch)?;
            if pace.is_late(self.store.count()) {
                reached.tree = self.make_room(reached.tree, &mut pace)?;
            }
        }
        Ok(reached.tree)
    }

    // What is reached after one leap more. Where it made too many squares, it is given up, and they are
    // dropped, but those of results that are in use where the run repeats. Where memory was refused, and there would be very many leaps, nothing.
    fn leap_once<W: Watch>(
        &mut self,
        origin: &Store,
        first: &Tree,
        reached: ReachedTree,
        n: u64,
        pace: &mut Pace,
        watch: &mut W,
    ) -> Result<ReachedTree, LeapFault>
        requires first { CanAdvance origin.now first.now n }
        requires reached { HasReached (A.next_of self.old.rule)
            origin.now first.now n self.old.nodes reached }
        requires more { reached.generations < n }
        ensures reached { IfOk result (HasReached (A.next_of self.old.rule)
            origin.now first.now n self.new.nodes) }
        ensures nearer { IfOk result (λ later. IsNearer reached pace.old later pace.new) }
        ensures keeps { KeepsOn A self.old self.new }
        ensures work { EndsAtLimit self.new.spent result }
    {
        let _known = origin.count();
        let before = self.store.count();
        let left = n - reached.generations;
        if pace.is_hopeless(left) {
            return Err(LeapFault::Memory);
        }
        let digit = pace.digit(left);
        self.set_room(pace.room());
        match self.leap(reached.tree, digit, watch) {
            Ok(tree) => {
                let generations = reached.generations + (1 << digit);
                watch.reached(Milestone::with_tree(self, origin, first, &tree, generations));
                pace.note_leap(digit, self.store.count() - before);
                Ok(ReachedTree { tree, generations })
            }
            Err(LeapFault::Memory) => {
                let tree = self.make_another_try(reached.tree, pace)?;
                Ok(ReachedTree {
                    tree,
                    generations: reached.generations,
                })
            }
            Err(LeapFault::Work) => Err(LeapFault::Work),
        }
    }

    // The tree from which a leap is tried again that was given up: with more room, or where all other squares are dropped, a
    // shorter one; none where memory is refused for one generation, and there is nothing to drop.
    fn make_another_try(&mut self, tree: Tree, pace: &mut Pace) -> Result<Tree, Memory>
        requires { IsTree self.old.nodes tree }
        ensures moved { IfOk result (IsCopyOfTree self.old.nodes tree self.new.nodes) }
        ensures keeps { KeepsOn A self.old self.new }
        ensures spent { self.new.spent ≡ self.old.spent }
        ensures tries { OnOk result (tries pace.new < tries pace.old) }
    {
        let squares = self.store.count();
        if pace.is_full(squares) {
            if self.is_worth_growing(pace) {
                pace.grow();
                return Ok(tree);
            }
            if pace.may_repeat_leap(squares, self.memo.looked_up()) {
                pace.note_repeated_leap();
            } else {
                pace.note_abandoned_leap();
            }
        } else if pace.may_try_again() {
            pace.note_refused_leap(squares);
        } else {
            return Err(Memory);
        }
        self.collect_garbage(tree, pace)
    }

    // Where too few squares are likely left for the next leap: the same tree, with more room for others, or in a new
    // store.
    fn make_room(&mut self, tree: Tree, pace: &mut Pace) -> Result<Tree, Memory>
        requires { IsTree self.old.nodes tree }
        ensures moved { IfOk result (IsCopyOfTree self.old.nodes tree self.new.nodes) }
        ensures keeps { KeepsOn A self.old self.new }
        ensures spent { self.new.spent ≡ self.old.spent }
        ensures tries { tries pace.new ≤ tries pace.old }
    {
        let _ = &self.store;
        if self.is_worth_growing(pace) {
            pace.grow();
            return Ok(tree);
        }
        self.collect_garbage(tree, pace)
    }

    // The same tree in a new store: all other squares are dropped but those of results that are kept.
    fn collect_garbage(&mut self, tree: Tree, pace: &mut Pace) -> Result<Tree, Memory>
        requires { IsTree self.old.nodes tree }
        ensures moved { IfOk result (IsCopyOfTree self.old.nodes tree self.new.nodes) }
        ensures keeps { KeepsOn A self.old self.new }
        ensures spent { self.new.spent ≡ self.old.spent }
        ensures tries { tries pace.new ≤ tries pace.old }
    {
        let leaps = self.leaps_to_keep(pace, true);
        let (copy, _none) = self.change_store(tree, 0, &leaps, pace.room() / KEPT)?;
        pace.note_copy(self.store.count());
        Ok(copy)
    }
}
