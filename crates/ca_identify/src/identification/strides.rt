//! How a pattern's plane is looked at by strides of many generations. Where the pattern is back within one, the
//! plane at the stride's end is one of the first planes, moved, and which one tells when it is back: so one leap, or
//! two, and some comparisons stand for a look at each of its generations.

ghost use Rattle.std.specs.Prelude.{◌≡◌, ◌+◌, ◌≤◌, ◌<◌, ℕ, max, length, slice_get, Some, IfOk, IfSome, OnOk, MatchOption};
ghost use Rattle.ca_plane.specs.Prelude.{Picture, cells_after};
ghost use Rattle.ca_quad.specs.Prelude.{AreSquareBoxes, cell};
ghost use Rattle.ca_run.specs.Prelude.{LeaperGrows};
ghost use Rattle.ca_answers.specs.Prelude.{IsIdentity};
ghost use Rattle.ca_identify.specs.declared.identification.stage.First.{First};
ghost use Rattle.ca_identify.specs.inner.Stages.{CanSearch, CanLookOn, IsFirst, AreEarly, AreMovedNowhere, IsLastMovedFrom};
ghost use Rattle.ca_identify.specs.inner.Stages.{IsStage, IsStride, IsWalk, HasNoReturn, EndsAfter, leap_work};
ghost use Rattle.ca_pattern.specs.Prelude.{IsNearTree, HasLive, ShowsTree};

use super::ending::{Ending, identity_of};
use super::leaps::growth_after;
use super::share::{Reach, later_within, share_end};
use super::stage::{First, Stage, stage_of};
use super::walk::Walk;
use ca_answers::Identity;
use ca_evolution::{Observer, is_dead};
use ca_plane::Automaton;
use ca_quad::{SquareBoxes, Tree};
use ca_run::{LeapFault, Leaper};
use std::alloc::Global;

// How many units of work strides may take for each generation up to the limit.
const SHARE: u64 = 1024;

/// What a stride shows.
#[derive(Drop)]
pub(super) enum Stride {
    /// The tree at its end: after none of its generations the plane was dead, or the pattern there again.
    On(Tree),
    /// The pattern ends so within it.
    End(Ending),
    /// The pattern is there again at no time.
    Never,
    /// The plane is dead at its end.
    Dead,
}

/// Goes on from where a walk is by strides, each of as many generations as there are first planes, as far as the plane
/// isn't dead and a share of the work is enough for them, which ends where their reach does at the latest.
/// Where they show that the pattern is back, or that it never is, it gives what the pattern is.
pub(super) fn identity_by_strides<A: Automaton, O: Observer>(
    alloc: Global,
    leaper: &mut Leaper<A>,
    first: &First,
    early: &[First],
    walk: &mut Walk,
    reach: Reach,
    observer: &mut O,
) -> Result<Option<Identity>, LeapFault>
    requires early { AreEarly (A.next_of leaper.old.rule) (cell leaper.old.nodes first.now.tree)
        leaper.old.nodes early.now }
    requires walk { CanLookOn (A.next_of leaper.old.rule) leaper.old.nodes first.now walk.old reach.limit }
    ensures identity { (cells : Picture) → ShowsTree leaper.old.nodes first.now.tree cells
        → IfOk result (λ found. IfSome found (IsIdentity (A.next_of leaper.old.rule) cells reach.limit)) }
    ensures walk { IsWalk (A.next_of leaper.old.rule) (cell leaper.old.nodes first.now.tree)
        leaper.new.nodes walk.new }
    ensures begun { walk.old.generations ≤ walk.new.generations }
    ensures within { walk.new.generations ≤ reach.limit }
    ensures goes_on { LeaperGrows A leaper.old leaper.new }
    ensures bounded { leaper.new.spent.used ≤ max leaper.old.spent.used reach.until }
    ensures takes { leaper.new.spent.used ≤ leaper.old.spent.used + leap_work reach.limit }
    ensures work { EndsAfter reach.until leaper.new.spent result }
{
    let Reach { limit, until } = reach;
    let end = share_end(leaper.used(), limit * SHARE, until);
    let part = Reach { limit, until: end };
    let found = stride_on(alloc, leaper, first, early, walk, part, observer);
    match found {
        Err(LeapFault::Work) => Ok(None),
        other => other,
    }
}

// The same, until `reach.until` units of work are used up.
fn stride_on<A: Automaton, O: Observer>(
    alloc: Global,
    leaper: &mut Leaper<A>,
    first: &First,
    early: &[First],
    walk: &mut Walk,
    reach: Reach,
    observer: &mut O,
) -> Result<Option<Identity>, LeapFault>
    requires early { AreEarly (A.next_of leaper.old.rule) (cell leaper.old.nodes first.now.tree)
        leaper.old.nodes early.now }
    requires walk { CanLookOn (A.next_of leaper.old.rule) leaper.old.nodes first.now walk.old reach.limit }
    ensures identity { (cells : Picture) → ShowsTree leaper.old.nodes first.now.tree cells
        → IfOk result (λ found. IfSome found (IsIdentity (A.next_of leaper.old.rule) cells reach.limit)) }
    ensures walk { IsWalk (A.next_of leaper.old.rule) (cell leaper.old.nodes first.now.tree)
        leaper.new.nodes walk.new }
    ensures begun { walk.old.generations ≤ walk.new.generations }
    ensures within { walk.new.generations ≤ reach.limit }
    ensures goes_on { LeaperGrows A leaper.old leaper.new }
    ensures bounded { leaper.new.spent.used ≤ max leaper.old.spent.used reach.until }
{
    if early.is_empty() {
        return Ok(None);
    }
    let mut boxes = SquareBoxes::new(alloc);
    'strides: while walk.generations < reach.limit {
        let end = (walk.generations + early.len() as u64).min(reach.limit);
        observer.goes_to(end);
        let until = reach.until;
        let stride = Reach { limit: end, until };
        match stride_to(alloc, leaper, first, early, walk, stride, &mut boxes)? {
            Stride::On(tree) => {
                walk.tree = tree;
                walk.generations = end;
            }
            Stride::End(ending) => return Ok(Some(identity_of(ending))),
            Stride::Never => return unknown_after(alloc, leaper, first, reach),
            Stride::Dead => return Ok(None),
        }
    }
    Ok(None)
}

// What a pattern is that isn't back up to the limit, if its plane isn't dead then.
fn unknown_after<A: Automaton>(
    alloc: Global,
    leaper: &mut Leaper<A>,
    first: &First,
    reach: Reach,
) -> Result<Option<Identity>, LeapFault>
    requires first { CanSearch (A.next_of leaper.old.rule) leaper.old.nodes first.now reach.limit }
    ensures identity { (cells : Picture) → ShowsTree leaper.old.nodes first.now.tree cells
        → HasNoReturn (A.next_of leaper.old.rule) cells reach.limit
        → IfOk result (λ found. IfSome found (IsIdentity (A.next_of leaper.old.rule) cells reach.limit)) }
    ensures goes_on { LeaperGrows A leaper.old leaper.new }
    ensures bounded { leaper.new.spent.used ≤ max leaper.old.spent.used reach.until }
{
    let grown = growth_after(alloc, leaper, first, reach.limit, reach.until)?;
    match grown {
        Some(growth) => Ok(Some(Identity::Unknown { growth })),
        None => Ok(None),
    }
}

// What a stride from where a walk is shows, of no more generations than there are first planes.
fn stride_to<A: Automaton>(
    alloc: Global,
    leaper: &mut Leaper<A>,
    first: &First,
    early: &[First],
    walk: &Walk,
    reach: Reach,
    boxes: &mut SquareBoxes,
) -> Result<Stride, LeapFault>
    requires early { AreEarly (A.next_of leaper.old.rule) (cell leaper.old.nodes first.now.tree)
        leaper.old.nodes early.now }
    requires walk { CanLookOn (A.next_of leaper.old.rule) leaper.old.nodes first.now walk.now reach.limit }
    requires more { walk.now.generations < reach.limit }
    requires near { reach.limit ≤ walk.now.generations + length early.now }
    requires boxes { AreSquareBoxes leaper.old.nodes boxes.old }
    ensures stride { IfOk result (IsStride (A.next_of leaper.old.rule)
        (cell leaper.old.nodes first.now.tree) reach.limit leaper.new.nodes) }
    ensures boxes { OnOk result (AreSquareBoxes leaper.new.nodes boxes.new) }
    ensures goes_on { LeaperGrows A leaper.old leaper.new }
    ensures bounded { leaper.new.spent.used ≤ max leaper.old.spent.used reach.until }
{
    let Reach { limit: end, until } = reach;
    let steps = end - walk.generations;
    let later = later_within(leaper, walk.tree, steps, until)?;
    if is_dead(leaper.store(), &later) {
        return Ok(Stride::Dead);
    }
    let Some(before) = plane_before(alloc, leaper, &early[..steps as usize], &later, boxes)? else {
        return Ok(Stride::On(later));
    };
    let generations = end - before as u64;
    let stage = stage_after(alloc, leaper, first, walk, generations, until, boxes)?;
    match stage.ending(generations) {
        Some(ending) => Ok(Stride::End(ending)),
        None => Ok(Stride::Never),
    }
}

// The number of the last of some planes, counted from 0, of which a live tree's plane is that plane, moved, if it is
// one of them.
fn plane_before<A: Automaton>(
    alloc: Global,
    leaper: &mut Leaper<A>,
    early: &[First],
    later: &Tree,
    boxes: &mut SquareBoxes,
) -> Result<Option<usize>, LeapFault>
    requires early { (k : ℕ) (plane : First) → slice_get early.now k ≡ Some plane → IsFirst leaper.old.nodes plane }
    requires later { IsNearTree leaper.old.nodes later.now }
    requires live { HasLive (cell leaper.old.nodes later.now) }
    requires boxes { AreSquareBoxes leaper.old.nodes boxes.old }
    ensures before { IfOk result (λ found. MatchOption found
        ((k : ℕ) (plane : First) → slice_get early.now k ≡ Some plane
        → AreMovedNowhere (cell leaper.old.nodes plane.tree) (cell leaper.old.nodes later.now))
        (IsLastMovedFrom leaper.old.nodes early.now (cell leaper.old.nodes later.now))) }
    ensures boxes { OnOk result (AreSquareBoxes leaper.new.nodes boxes.new) }
    ensures goes_on { LeaperGrows A leaper.old leaper.new }
    ensures spent { leaper.new.spent ≡ leaper.old.spent }
{
    // Says what holds of every leaper.
    let _ = leaper.store();
    let mut left = early.len();
    'planes: while left > 0 {
        let index = left - 1;
        let stage = stage_of(alloc, leaper, &early[index], later, boxes)?;
        if let Stage::Back { .. } = stage {
            return Ok(Some(index));
        }
        left = index;
    }
    Ok(None)
}

// What the plane shows of the pattern after `generations` generations, computed from where a walk is.
fn stage_after<A: Automaton>(
    alloc: Global,
    leaper: &mut Leaper<A>,
    first: &First,
    walk: &Walk,
    generations: u64,
    until: u64,
    boxes: &mut SquareBoxes,
) -> Result<Stage, LeapFault>
    requires walk { CanLookOn (A.next_of leaper.old.rule) leaper.old.nodes first.now walk.now generations }
    requires boxes { AreSquareBoxes leaper.old.nodes boxes.old }
    ensures stage { IfOk result (IsStage (cell leaper.old.nodes first.now.tree)
        (cells_after (A.next_of leaper.old.rule) (cell leaper.old.nodes first.now.tree) generations)) }
    ensures boxes { OnOk result (AreSquareBoxes leaper.new.nodes boxes.new) }
    ensures goes_on { LeaperGrows A leaper.old leaper.new }
    ensures bounded { leaper.new.spent.used ≤ max leaper.old.spent.used until }
{
    let steps = generations - walk.generations;
    let tree = later_within(leaper, walk.tree, steps, until)?;
    let stage = stage_of(alloc, leaper, first, &tree, boxes)?;
    Ok(stage)
}
