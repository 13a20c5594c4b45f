//! What leaps show of a pattern that isn't back soon: that it isn't within the limit, and how far it has grown.

ghost use Rattle.std.specs.Prelude.{◌≡◌, ◌+◌, ◌-◌, ◌*◌, ◌≤◌, max, None, IfOk, IfSome, IsTrue};
ghost use Rattle.ca_plane.specs.Prelude.{Picture, longest_period, most_generations};
ghost use Rattle.ca_quad.specs.Prelude.{cell};
ghost use Rattle.ca_run.specs.Prelude.{LeaperGrows};
ghost use Rattle.ca_steps.specs.Prelude.{IsWiderByAtMost};
ghost use Rattle.ca_answers.specs.Prelude.{IsIdentity};
ghost use Rattle.ca_answers.specs.declared.identity.Identity.TheVariants.{Unknown};
ghost use Rattle.ca_identify.specs.inner.Stages.{CanSearch, IsLater, IsFirstBox, box_of, HasNoReturn, EndsWithin};
ghost use Rattle.ca_identify.specs.inner.Stages.{EndsAfter, leap_work};
ghost use Rattle.ca_pattern.specs.Prelude.{IsWideBox, ShowsTree};

use super::growth::growth_of;
use super::share::{later_within, share_end};
use super::stage::First;
use super::walk::{Walk, look_on};
use ca_answers::Growth;
use ca_evolution::is_dead;
use ca_plane::Automaton;
use ca_quad::WideBounds;
use ca_run::{LeapFault, Leaper, Unwatched};
use std::alloc::Global;

// How many times as many generations as the limit the first leap goes, and the last one, which is so long that
// what flies off slowly is far away.
const NEAR: u64 = 4;

const FAR: u64 = 64;

// How many units of work leaps may take for each generation up to the limit, and how many at most. They take no
// more than half of what is left.
const SHARE: u64 = 1024;

const MOST_SHARE: u64 = 1 << 20;

/// How far the plane of a pattern has grown after as many generations as the limit, where leaps show that the
/// pattern is none of what can be claimed up to then, and a share of the work is enough for them, which ends where
/// `until` units are used up at the latest. It is known that the pattern isn't back within the generations that were seen.
pub(super) fn growth_by_leaps<A: Automaton>(
    alloc: Global,
    leaper: &mut Leaper<A>,
    first: &First,
    seen: u64,
    limit: u64,
    until: u64,
) -> Result<Option<Growth>, LeapFault>
    requires first { CanSearch (A.next_of leaper.old.rule) leaper.old.nodes first.now limit }
    requires some { 1 ≤ seen }
    requires within { seen ≤ limit }
    ensures growth { (cells : Picture) → ShowsTree leaper.old.nodes first.now.tree cells
        → HasNoReturn (A.next_of leaper.old.rule) cells seen → IfOk result (λ found. IfSome found
        (λ growth. IsIdentity (A.next_of leaper.old.rule) cells limit (Unknown growth))) }
    ensures goes_on { LeaperGrows A leaper.old leaper.new }
    ensures bounded { leaper.new.spent.used ≤ max leaper.old.spent.used until }
    ensures takes { leaper.new.spent.used ≤ leaper.old.spent.used + leap_work limit }
    ensures work { EndsAfter until leaper.new.spent result }
{
    if seen == limit {
        return Ok(None);
    }
    let used = leaper.used();
    let share = (limit * SHARE)
        .min(MOST_SHARE)
        .min(until.saturating_sub(used) / 2);
    let end = share_end(used, share, until);
    let grown = growth_if_not_back(alloc, leaper, first, seen, limit, end);
    match grown {
        Err(LeapFault::Work) => Ok(None),
        other => other,
    }
}

// The same, until `until` units of work are used up.
fn growth_if_not_back<A: Automaton>(
    alloc: Global,
    leaper: &mut Leaper<A>,
    first: &First,
    seen: u64,
    limit: u64,
    until: u64,
) -> Result<Option<Growth>, LeapFault>
    requires first { CanSearch (A.next_of leaper.old.rule) leaper.old.nodes first.now limit }
    requires some { 1 ≤ seen }
    requires within { seen ≤ limit }
    ensures growth { (cells : Picture) → ShowsTree leaper.old.nodes first.now.tree cells
        → HasNoReturn (A.next_of leaper.old.rule) cells seen → IfOk result (λ found. IfSome found
        (λ growth. IsIdentity (A.next_of leaper.old.rule) cells limit (Unknown growth))) }
    ensures goes_on { LeaperGrows A leaper.old leaper.new }
    ensures bounded { leaper.new.spent.used ≤ max leaper.old.spent.used until }
{
    if !has_no_return(alloc, leaper, first, seen, limit, NEAR, until)? {
        return Ok(None);
    }
    growth_after(alloc, leaper, first, limit, until)
}

/// How far the plane of a pattern that isn't back up to the limit has grown after as many generations, if it isn't
/// dead then.
pub(super) fn growth_after<A: Automaton>(
    alloc: Global,
    leaper: &mut Leaper<A>,
    first: &First,
    limit: u64,
    until: u64,
) -> Result<Option<Growth>, LeapFault>
    requires first { CanSearch (A.next_of leaper.old.rule) leaper.old.nodes first.now limit }
    ensures growth { (cells : Picture) → ShowsTree leaper.old.nodes first.now.tree cells
        → HasNoReturn (A.next_of leaper.old.rule) cells limit → IfOk result (λ found. IfSome found
        (λ growth. IsIdentity (A.next_of leaper.old.rule) cells limit (Unknown growth))) }
    ensures goes_on { LeaperGrows A leaper.old leaper.new }
    ensures bounded { leaper.new.spent.used ≤ max leaper.old.spent.used until }
{
    let last = later_within(leaper, first.tree, limit, until)?;
    if is_dead(leaper.store(), &last) {
        return Ok(None);
    }
    let growth = growth_of(alloc, leaper.store(), &last)?;
    Ok(Some(growth))
}

// Whether the plane after `times` times `limit` generations, or after more, shows that the pattern is back after
// none of the generations up to the limit: it is dead, or has grown too far, or at last is back itself within as
// many generations as were seen of the pattern, which wasn't.
fn has_no_return<A: Automaton>(
    alloc: Global,
    leaper: &mut Leaper<A>,
    first: &First,
    seen: u64,
    limit: u64,
    times: u64,
    until: u64,
) -> Result<bool, LeapFault>
    requires first { CanSearch (A.next_of leaper.old.rule) leaper.old.nodes first.now limit }
    requires some { 1 ≤ seen }
    requires within { seen ≤ limit }
    requires far { times ≤ 64 }
    requires once { 1 ≤ times }
    ensures never { (cells : Picture) → ShowsTree leaper.old.nodes first.now.tree cells
        → HasNoReturn (A.next_of leaper.old.rule) cells seen
        → IfOk result (λ never. IsTrue never → HasNoReturn (A.next_of leaper.old.rule) cells limit) }
    ensures goes_on { LeaperGrows A leaper.old leaper.new }
    ensures bounded { leaper.new.spent.used ≤ max leaper.old.spent.used until }
{
    let found = later_plane(alloc, leaper, first, seen, limit, times * limit, until)?;
    let Some(later) = found else {
        return Ok(true);
    };
    if times < FAR {
        return has_no_return(
            alloc,
            leaper,
            first,
            seen,
            limit,
            (2 * times).min(FAR),
            until,
        );
    }
    // It may lie too far from the origin to be looked at.
    if later.tree.level > 62 {
        return Ok(false);
    }
    is_back_soon(alloc, leaper, &later, seen, until)
}

// The tree of the plane after `generations` generations, and its box, unless it is dead or has grown too far.
fn later_plane<A: Automaton>(
    alloc: Global,
    leaper: &mut Leaper<A>,
    first: &First,
    seen: u64,
    limit: u64,
    generations: u64,
    until: u64,
) -> Result<Option<First>, LeapFault>
    requires first { CanSearch (A.next_of leaper.old.rule) leaper.old.nodes first.now limit }
    requires some { 1 ≤ seen }
    requires one { 1 ≤ limit }
    requires few { generations ≤ most_generations }
    ensures gone { (cells : Picture) → ShowsTree leaper.old.nodes first.now.tree cells
        → HasNoReturn (A.next_of leaper.old.rule) cells seen
        → IfOk result (λ later. later ≡ None → HasNoReturn (A.next_of leaper.old.rule) cells limit) }
    ensures later { IfOk result (λ found. IfSome found
        (IsLater (A.next_of leaper.old.rule) (cell leaper.old.nodes first.now.tree) generations
        leaper.new.nodes)) }
    ensures goes_on { LeaperGrows A leaper.old leaper.new }
    ensures bounded { leaper.new.spent.used ≤ max leaper.old.spent.used until }
{
    let _ = seen;
    let end = later_within(leaper, first.tree, generations, until)?;
    let tree = &end;
    let Some(bounds) = leaper.store().bounds(alloc, *tree)? else {
        return Ok(None);
    };
    let later = First {
        tree: *tree,
        bounds,
    };
    if has_grown_too_far(&first.bounds, &later.bounds, limit) {
        return Ok(None);
    }
    Ok(Some(later))
}

// Whether the second box is so much wider or higher than the first one that no pattern with the first box has
// the second one at any time, if it is back after a number of generations up to the limit.
fn has_grown_too_far(from: &WideBounds, to: &WideBounds, limit: u64) -> bool
    requires from { IsFirstBox from.now }
    requires to { IsWideBox to.now }
    requires some { 1 ≤ limit }
    requires most { limit ≤ longest_period }
    ensures { IsTrue result → IsWiderByAtMost (box_of from.now) (box_of to.now) (2 * (limit - 1)) → ⊥ }
{
    let most = i128::from(2 * (limit - 1));
    if (to.x1 - to.x0) - (from.x1 - from.x0) > most {
        return true;
    }
    if (to.y1 - to.y0) - (from.y1 - from.y0) > most {
        return true;
    }
    false
}

// Whether a plane is dead, or back in its place or moved, within `seen` generations.
fn is_back_soon<A: Automaton>(
    alloc: Global,
    leaper: &mut Leaper<A>,
    settled: &First,
    seen: u64,
    until: u64,
) -> Result<bool, LeapFault>
    requires settled { CanSearch (A.next_of leaper.old.rule) leaper.old.nodes settled.now seen }
    ensures back { (cells : Picture) → ShowsTree leaper.old.nodes settled.now.tree cells
        → IfOk result (λ back. IsTrue back → EndsWithin (A.next_of leaper.old.rule) cells seen) }
    ensures goes_on { LeaperGrows A leaper.old leaper.new }
    ensures bounded { leaper.new.spent.used ≤ max leaper.old.spent.used until }
{
    let mut walk = Walk::from(alloc, settled.tree);
    let ending = look_on(
        alloc,
        leaper,
        settled,
        &mut walk,
        seen,
        until,
        &mut Unwatched,
    )?;
    Ok(ending.is_some())
}
