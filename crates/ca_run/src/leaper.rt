//! Leaps by powers of two over shared squares (Gosper, "Exploiting regularities in large cellular spaces").

ghost use Rattle.std.specs.Prelude.{◌≡◌, ℕ, suc, ◌+◌, ◌≤◌, ◌/◌, ℤ, OnOk, IsOk, IfOk, IfErr, IfSome};
ghost use Rattle.ca_quad.specs.Prelude.{IsOf, one_cell, joined_cells, IsSoundStore, AreFour, ShowsSquare};
ghost use Rattle.ca_run.specs.Centre.{IsCentre, IsLeap};
ghost use Rattle.ca_run.specs.Leaping.{LeaperGrows};
ghost use Rattle.ca_budget.specs.Prelude.{EndsAtLimit};
ghost use Rattle.ca_run.specs.inner.AtCost.{GoesOnAtCost, limited};
ghost use Rattle.ca_bricks.specs.Prelude.{GoesByCells};
ghost use Rattle.ca_run.specs.inner.Shown.{ShowsAt, FourShow};
ghost use Rattle.ca_plane.specs.Prelude.{most_memo};

mod advance;
mod aged_plane;
mod base;
mod centres;
mod dense;
mod from_aged_grid;
mod from_grid;
mod full_leap;
mod garbage;
mod in_use;
mod lanes;
mod milestone;
mod parts;
mod planes;
mod squares;
mod to_grid;

use crate::watch::Watch;
pub(crate) use aged_plane::{AgedPlane, TwoStates};
use ca_bricks::CellRule;
use ca_budget::{LeapFault, Work};
use ca_memo::{Memo, Slots, slot_count};
use ca_plane::{Automaton, Memory};
use ca_quad::{Id, Store};
pub(crate) use from_grid::SquareGrid;
pub use milestone::Milestone;
use std::alloc::Global;
use std::marker::Model;
use std::num::NonZeroUsize;

// After how many units of work one who watches hears of it.
const TOLD: u64 = 65536;

// The fewest generations for which it is worth finding a counting or making a diagram, under a rule that tells no
// counting.
const LONG: u64 = 64;

/// A store of squares, a rule, and the centres of squares that were computed so far.
#[derive(Drop)]
pub struct Leaper<A: Automaton> {
    store: Store,
    rule: A,
    // How cells go on, many at once, as far as it is known: by a counting that the rule tells from the first, by one that
    // is found or a diagram once a run is long.
    cell_rule: Option<CellRule>,
    memo: Memo,
    // Centres of squares after 2^j generations, by the square and the j.
    recent_centres: Slots<(Id, u8)>,
    // Squares in the middle of four, as far ahead as they can be known.
    recent_leaps: Slots<(Id, Id, Id, Id)>,
    // How many entries the memo and the two tables may have together.
    capacity: usize,
    work: Work,
    // With how many squares a leap is given up.
    room: usize,
}

impl<A: Automaton> Model for Leaper<A> {
    ghost use Rattle.ca_run.specs.Leaping.{LeaperView};
    ghost use Rattle.ca_run.specs.inner.Tables.{IsLeaper};

    ghost Value = { LeaperView A };

    ghost view = { λ l. record { rule = l.rule; nodes = l.store; memo = l.capacity; spent = l.work } };

    ghost invariant = { λ l. IsLeaper (A.next_of l.rule) (A.sound l.rule) l.store l.memo l.recent_centres
        l.recent_leaps l.capacity l.cell_rule };
}

impl<A: Automaton> Leaper<A> {
    /// A leaper over the squares of a store, which has computed nothing yet. Its memo may have `memo` entries,
    /// each of one result or up to 64, and it may do `work` units of work.
    pub fn new(
        alloc: Global,
        store: Store,
        rule: A,
        memo: usize,
        work: u64,
    ) -> Result<Leaper<A>, Memory>
    where
        A: Drop,
        requires least { 1 ≤ memo }
        requires most { memo ≤ most_memo }
        ensures store { IfOk result (λ l. l.nodes ≡ store) }
        ensures rule { IfOk result (λ l. l.rule ≡ rule) }
        ensures memo { IfOk result (λ l. l.memo ≡ memo) }
        ensures used { IfOk result (λ l. l.spent.used ≡ 0) }
        ensures limit { IfOk result (λ l. l.spent.limit ≡ work) }
    {
        let has_two_states = rule.states() == 2;
        let _squares = store.count();
        let cell_rule = by_counting(&rule);
        let (centres, leaps) = table_slots(memo, has_two_states);
        let entries = NonZeroUsize::new(memo - (centres + leaps)).unwrap_or(NonZeroUsize::MIN);
        Ok(Leaper {
            store,
            rule,
            cell_rule,
            memo: Memo::new(alloc, entries)?,
            recent_centres: Slots::new(alloc, centres),
            recent_leaps: Slots::new(alloc, leaps),
            capacity: memo,
            work: Work::new(work),
            room: usize::MAX,
        })
    }

    /// How many units of work are used up: no more than may be. A unit is the centre of a square that isn't
    /// empty, after some generations, that wasn't remembered; or a brick of a plane that is stepped, one
    /// generation later; or a square that is made of such bricks again. Where a run needed a store of its own, a
    /// tree is copied out of it for a unit for each 4096 of its squares, and one besides. Units are counted
    /// before what they are for is done: where too few are left for it, these are used up all the same.
    pub fn used(&self) -> u64
        ensures value { result ≡ self.now.spent.used }
        ensures most { result ≤ self.now.spent.limit }
    {
        self.work.used()
    }

    /// How many units of work may be used up.
    pub fn work_limit(&self) -> u64
        ensures { result ≡ self.now.spent.limit }
    {
        self.work.limit()
    }

    // Lets `limit` units of work be used up in all, or as many as are used up already, where these are more.
    fn set_work_limit(&mut self, limit: u64)
        ensures lowered { self.new ≡ limited self.old limit }
        ensures most { self.old.spent.used ≤ self.old.spent.limit }
    {
        self.work.set_limit(limit);
    }

    // Counts units of work before they are done.
    fn charge(&mut self, units: u64) -> Result<(), LeapFault>
        ensures enough { self.old.spent.used + units ≤ self.old.spent.limit → IsOk result }
        ensures at_cost { GoesOnAtCost A self.old self.new units 0 }
        ensures same { self.new.nodes ≡ self.old.nodes }
        ensures counts { OnOk result (self.new.spent.used ≡ self.old.spent.used + units) }
        ensures work { EndsAtLimit self.new.spent result }
        ensures err { IfErr result (λ fault. fault ≡ LeapFault.Work) }
    {
        self.work.charge(units)
    }

    // The same for one result of a leap, which is given up where there are too many squares, while someone
    // watches, who hears of it now and then.
    fn charge_watched<W: Watch>(&mut self, watch: &mut W) -> Result<(), LeapFault>
        ensures at_cost { GoesOnAtCost A self.old self.new 1 0 }
        ensures same { self.new.nodes ≡ self.old.nodes }
        ensures counts { OnOk result (self.new.spent.used ≡ self.old.spent.used + 1) }
        ensures work { EndsAtLimit self.new.spent result }
    {
        if self.is_full() {
            return Err(LeapFault::Memory);
        }
        self.charge(1)?;
        let used = self.work.used();
        if used % TOLD == 0 {
            watch.works(used, self.store.count());
        }
        Ok(())
    }

    // Whether there are too many squares for a leap.
    fn is_full(&self) -> bool
        ensures { IsSoundStore self.now.nodes }
    {
        self.store.count() >= self.room
    }

    // Has leaps given up where there are `room` squares or more.
    fn set_room(&mut self, room: usize)
        ensures { self.new ≡ self.old }
    {
        self.room = room;
    }

    /// The store of the squares.
    pub fn store(&self) -> &Store
        ensures nodes { result.now ≡ self.now.nodes }
        ensures sound { IsSoundStore self.now.nodes }
        ensures rule { A.sound self.now.rule }
    {
        let _ = &self.memo;
        &self.store
    }

    // How cells go on, many at once, where it is known.
    fn cell_rule(&self) -> Option<&CellRule>
        ensures { IfSome result (λ rule. GoesByCells (A.next_of self.now.rule) rule.now) }
    {
        self.cell_rule.as_ref()
    }

    // Finds out how cells go on, many at once, if it isn't known and n generations are worth it.
    fn learn_cell_rule(&mut self, n: u64) -> Result<(), LeapFault>
        ensures same { self.new ≡ self.old }
        ensures calm { n ≡ 0 → IsOk result }
        ensures at_cost { GoesOnAtCost A self.old self.new 0 0 }
        ensures work { EndsAtLimit self.new.spent result }
    {
        if n < LONG || self.cell_rule.is_some() {
            return Ok(());
        }
        self.cell_rule = CellRule::of(self.recent_centres.allocator(), &self.rule)?;
        Ok(())
    }

    // What is remembered for a square.
    fn recall(&mut self, id: Id, part_level: u8, j: u8) -> Option<Id>
        requires { IsOf self.old.nodes id (suc (suc part_level)) }
        ensures centre { IfSome result (IsCentre (A.next_of self.old.rule) self.old.nodes id part_level j) }
        ensures same { self.new ≡ self.old }
    {
        if self.is_tile(part_level) {
            return None;
        }
        if j == part_level {
            return self.memo.full_leap(id);
        }
        if self.is_cheap(part_level) {
            return self.recent_centres.get((id, j));
        }
        self.memo.single(id, j)
    }

    // Remembers the centre of a square.
    fn remember(&mut self, id: Id, part_level: u8, j: u8, result_id: Id) -> Result<(), Memory>
        requires { IsCentre (A.next_of self.old.rule) self.old.nodes id part_level j result_id }
        ensures { self.new ≡ self.old }
    {
        if self.is_tile(part_level) {
            return Ok(());
        }
        if j == part_level {
            return self.memo.put_full_leap(id, result_id);
        }
        if self.is_cheap(part_level) {
            self.recent_centres.put((id, j), result_id);
            return Ok(());
        }
        self.memo.put_single(id, j, result_id)
    }

    // What is remembered for four squares.
    fn recall_leap(&self, nw: Id, ne: Id, sw: Id, se: Id) -> Option<Id>
        ensures { (k : ℕ) → AreFour self.now.nodes (suc k) nw ne sw se
            → IfSome result (IsLeap (A.next_of self.now.rule) self.now.nodes k nw ne sw se) }
    {
        self.recent_leaps.get((nw, ne, sw, se))
    }

    // Remembers the square in the middle of four.
    fn remember_leap(&mut self, nw: Id, ne: Id, sw: Id, se: Id, result_id: Id)
        requires { (k : ℕ) × IsLeap (A.next_of self.old.rule) self.old.nodes k nw ne sw se result_id }
        ensures { self.new ≡ self.old }
    {
        self.recent_leaps.put((nw, ne, sw, se), result_id);
    }

    // Whether a square is a tile, whose centre costs less to compute again than to remember.
    fn is_tile(&self, part_level: u8) -> bool {
        part_level == 2 && self.cell_rule.is_some()
    }

    // Whether the centre of a square is computed on words by a counting, which costs little.
    fn is_cheap(&self, part_level: u8) -> bool {
        part_level == 3 && matches!(self.cell_rule, Some(CellRule::ByCounting(_)))
    }

    // The 2 by 2 square of these cells.
    fn leaf(&mut self, nw: u8, ne: u8, sw: u8, se: u8) -> Result<Id, Memory>
        ensures shows { IfOk result (λ id. ShowsSquare self.new.nodes id 1
            (joined_cells 1 (one_cell nw) (one_cell ne) (one_cell sw) (one_cell se))) }
        ensures at_cost { GoesOnAtCost A self.old self.new 0 1 }
    {
        self.store.leaf(nw, ne, sw, se)
    }

    // The square of four whose own parts have the level `part_level`.
    fn join(&mut self, nw: Id, ne: Id, sw: Id, se: Id, part_level: u8) -> Result<Id, Memory>
        requires { AreFour self.old.nodes (suc part_level) nw ne sw se }
        ensures shows { (p : ℤ → ℤ → ℕ) (a b : ℤ) → FourShow self.old.nodes (suc part_level) nw ne sw se p a b
            → IfOk result (λ id. ShowsAt self.new.nodes id (suc (suc part_level)) p a b) }
        ensures square { IfOk result (λ id. IsOf self.new.nodes id (suc (suc part_level))) }
        ensures at_cost { GoesOnAtCost A self.old self.new 0 1 }
    {
        let _ = part_level;
        self.store.join(nw, ne, sw, se)
    }
}

// How cells go on by a counting, where the rule tells one.
fn by_counting<A: Automaton>(rule: &A) -> Option<CellRule>
    ensures { IfSome result (GoesByCells (A.next_of rule.now)) }
{
    Some(CellRule::ByCounting(rule.counting()?))
}

// How many of a memo's entries are slots for results that cost little, which any rule of two states gets, since a counting
// may be found later, and how many for those by the parts of squares, which spare most looks into the store.
fn table_slots(memo: usize, has_two_states: bool) -> (usize, usize)
    ensures { result.0 + result.1 ≤ memo / 2 }
{
    let centres = if has_two_states { memo / 16 } else { 0 };
    (slot_count(centres), slot_count(memo / 4))
}
