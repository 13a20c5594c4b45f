//! Results that are in use, and how they are kept where a run goes over to another store.

ghost use Rattle.std.specs.Prelude.{◌≡◌, IfOk, IfSome, OnOk};
ghost use Rattle.ca_quad.specs.Prelude.{IsIn, IsTree, IsCopy, AreCopies};
ghost use Rattle.ca_run.specs.Leaping.{LeaperGrows};
ghost use Rattle.ca_run.specs.inner.OwnStore.{IsCopyOfTree};
ghost use Rattle.ca_run.specs.inner.InUse.{IsTrueLeap, AreTrueLeaps};

use super::Leaper;
use super::full_leap::FullLeap;
use ca_budget::Pace;
use ca_plane::{Automaton, Memory};
use ca_quad::{Id, SquareMap, Store, Tree};

impl<A: Automaton> Leaper<A> {
    // The results that are kept where squares are left behind: those in use where a run goes on and repeats, if there is
    // memory for a list of them, and else none.
    pub(super) fn leaps_to_keep(&self, pace: &Pace, goes_on: bool) -> Vec<FullLeap>
        ensures { AreTrueLeaps (A.next_of self.now.rule) self.now.nodes result.items }
    {
        if goes_on && pace.is_repeating(self.store.count(), self.memo.looked_up()) {
            if let Ok(leaps) = self.leaps_in_use() {
                return leaps;
            }
        }
        Vec::new(self.recent_centres.allocator())
    }

    // The results at full leap that were looked up since all was forgotten, in the order in which their squares were added.
    fn leaps_in_use(&self) -> Result<Vec<FullLeap>, Memory>
        ensures { IfOk result (λ leaps. AreTrueLeaps (A.next_of self.now.rule) self.now.nodes leaps.items) }
    {
        let mut leaps = Vec::new(self.recent_centres.allocator());
        'places: for place in 0..self.store.count() {
            self.add_leap_in_use(&mut leaps, place)?;
        }
        Ok(leaps)
    }

    // Adds that of the square at a place, if there is one.
    fn add_leap_in_use(&self, leaps: &mut Vec<FullLeap>, place: usize) -> Result<(), Memory>
        requires { AreTrueLeaps (A.next_of self.now.rule) self.now.nodes leaps.old.items }
        ensures { AreTrueLeaps (A.next_of self.now.rule) self.now.nodes leaps.new.items }
    {
        let Some(leap) = self.leap_in_use(place) else {
            return Ok(());
        };
        leaps.push(leap)?;
        Ok(())
    }

    // The result of the square at a place that was looked up.
    fn leap_in_use(&self, place: usize) -> Option<FullLeap>
        ensures { IfSome result (IsTrueLeap (A.next_of self.now.rule) self.now.nodes) }
    {
        let square = self.store.square_at(place)?;
        let centre = self.memo.leap_in_use(square)?;
        Some(FullLeap { square, centre })
    }

    // The tree of another store.
    pub(super) fn import_tree(
        &mut self,
        from: &Store,
        tree: Tree,
        copies: &mut SquareMap<Id>,
    ) -> Result<Tree, Memory>
        requires tree { IsTree from.now tree }
        requires copies { AreCopies from.now self.old.nodes copies.old }
        ensures moved { IfOk result (IsCopyOfTree from.now tree self.new.nodes) }
        ensures copies { OnOk result (AreCopies from.now self.new.nodes copies.new) }
        ensures goes_on { LeaperGrows A self.old self.new }
        ensures spent { self.new.spent ≡ self.old.spent }
    {
        let root = self.import_square(from, tree.root, copies)?;
        Ok(Tree {
            root,
            level: tree.level,
        })
    }

    // Remembers results of another store's squares for copies of these, the last ones first, until there are `most`
    // squares or more, or memory is refused.
    pub(super) fn keep_leaps(
        &mut self,
        from: &Store,
        leaps: &[FullLeap],
        most: usize,
        copies: &mut SquareMap<Id>,
    )
        requires leaps { AreTrueLeaps (A.next_of self.old.rule) from.now leaps.now }
        requires copies { AreCopies from.now self.old.nodes copies.old }
        ensures goes_on { LeaperGrows A self.old self.new }
        ensures spent { self.new.spent ≡ self.old.spent }
    {
        let _ = &self.store;
        let count = leaps.len();
        'leaps: for n in 0..count {
            if self.store.count() >= most {
                return;
            }
            let leap = leaps[count - 1 - n];
            if self.keep_leap(from, leap, copies).is_err() {
                return;
            }
        }
    }

    // Remembers one of them.
    fn keep_leap(
        &mut self,
        from: &Store,
        leap: FullLeap,
        copies: &mut SquareMap<Id>,
    ) -> Result<(), Memory>
        requires leap { IsTrueLeap (A.next_of self.old.rule) from.now leap }
        requires copies { AreCopies from.now self.old.nodes copies.old }
        ensures copies { OnOk result (AreCopies from.now self.new.nodes copies.new) }
        ensures goes_on { LeaperGrows A self.old self.new }
        ensures spent { self.new.spent ≡ self.old.spent }
    {
        let part_level = from.level(leap.square) - 2;
        let square = self.import_square(from, leap.square, copies)?;
        let centre = self.import_square(from, leap.centre, copies)?;
        self.remember(square, part_level, part_level, centre)
    }

    // The square of another store.
    fn import_square(
        &mut self,
        from: &Store,
        id: Id,
        copies: &mut SquareMap<Id>,
    ) -> Result<Id, Memory>
        requires known { IsIn from.now id }
        requires copies { AreCopies from.now self.old.nodes copies.old }
        ensures copy { IfOk result (IsCopy from.now self.new.nodes id) }
        ensures copies { OnOk result (AreCopies from.now self.new.nodes copies.new) }
        ensures goes_on { LeaperGrows A self.old self.new }
        ensures spent { self.new.spent ≡ self.old.spent }
    {
        self.store.import_square(from, id, copies)
    }
}
