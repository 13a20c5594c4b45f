//! What a live pattern is: the first generations are looked at one by one, then leaps are made, and where these don't
//! settle it the other generations are looked at by strides; those of a stride within which the plane dies, one by
//! one. Where it fails, it's known up to which generation the pattern was looked at.

ghost use Rattle.std.specs.Prelude.{◌≡◌, ◌+◌, ◌≤◌, min, max, IfOk, OnErr};
ghost use Rattle.ca_plane.specs.Prelude.{Picture, cells_after, longest_period};
ghost use Rattle.ca_quad.specs.Prelude.{cell};
ghost use Rattle.ca_run.specs.Prelude.{LeaperGrows};
ghost use Rattle.ca_answers.specs.Prelude.{IsIdentity};
ghost use Rattle.ca_identify.specs.inner.Stages.{CanSearch, CanLookOn, IsHalted, IsLookedAt, AreEarly, TakesEarly};
ghost use Rattle.ca_identify.specs.inner.Stages.{TakesSearchFrom, EndsAfter, early_work};
ghost use Rattle.ca_pattern.specs.Prelude.{ShowsTree};

use super::early::early_planes;
use super::ending::{Ending, identity_of};
use super::growth::growth_of;
use super::leaps::growth_by_leaps;
use super::share::{Reach, share_end};
use super::stage::First;
use super::strides::identity_by_strides;
use super::walk::{Walk, look_on};
use ca_answers::Identity;
use ca_evolution::Observer;
use ca_plane::Automaton;
use ca_quad::SquareBoxes;
use ca_run::{LeapFault, Leaper};
use std::alloc::Global;

// How many generations are looked at before the first leap: nearly all that comes back does so in fewer. Where
// the store has many squares, or they take much work, fewer.
const MOST_EARLY: u64 = 512;

const LEAST_EARLY: u64 = 32;

const EARLY_SQUARES: usize = 1 << 20;

// How many of them are looked at whatever they take, also beyond what patience allows: most of what comes back is there again
// after one or two.
const SURE: u64 = 2;

// How many units of work those after these may take for each generation up to the limit, and how many at most; and
// their planes once more.
const EARLY_SHARE: u64 = 256;

const MOST_EARLY_SHARE: u64 = 1 << 17;

/// What a live pattern is, within `reach.limit` generations, of which a walk may have seen some early ones. Up to `early`
/// they are looked at one by one; then leaps are tried, and where these settle nothing, the others are looked at too.
/// `Work` is reported where `reach.until` units of work are used up.
pub(super) fn search<A: Automaton, O: Observer>(
    alloc: Global,
    leaper: &mut Leaper<A>,
    first: &First,
    walk: &mut Walk,
    early: u64,
    reach: Reach,
    observer: &mut O,
) -> Result<Identity, LeapFault>
    requires walk { CanLookOn (A.next_of leaper.old.rule) leaper.old.nodes first.now walk.old reach.limit }
    requires begun { walk.old.generations ≤ early }
    requires some { 1 ≤ early }
    requires within { early ≤ reach.limit }
    ensures identity { (cells : Picture) → ShowsTree leaper.old.nodes first.now.tree cells
        → IfOk result (IsIdentity (A.next_of leaper.old.rule) cells reach.limit) }
    ensures halted { OnErr result (IsHalted (A.next_of leaper.old.rule)
        (cell leaper.old.nodes first.now.tree) leaper.new.nodes walk.old.generations reach.limit walk.new) }
    ensures goes_on { LeaperGrows A leaper.old leaper.new }
    ensures bounded { leaper.new.spent.used ≤ max leaper.old.spent.used reach.until }
    ensures takes { TakesSearchFrom leaper.old.spent.used leaper.new.spent.used
        (cells_after (A.next_of leaper.old.rule) (cell leaper.old.nodes first.now.tree))
        walk.old.generations reach.limit }
    ensures work { EndsAfter reach.until leaper.new.spent result }
{
    let Reach { limit, until } = reach;
    let sure = sure_generations(walk.generations, early, limit);
    let soon = early_look(alloc, leaper, first, walk, sure, early, reach, observer)?;
    if let Some(ending) = soon {
        return Ok(identity_of(ending));
    }
    let planes = planes_within_share(alloc, leaper, first, walk.generations, limit, until)?;
    let grown = growth_by_leaps(alloc, leaper, first, walk.generations, limit, until)?;
    if let Some(growth) = grown {
        return Ok(Identity::Unknown { growth });
    }
    let strided = identity_by_strides(alloc, leaper, first, &planes, walk, reach, observer)?;
    if let Some(identity) = strided {
        return Ok(identity);
    }
    let late = look_on(alloc, leaper, first, walk, limit, until, observer)?;
    if let Some(ending) = late {
        return Ok(identity_of(ending));
    }
    let growth = growth_of(alloc, leaper.store(), &walk.tree)?;
    Ok(Identity::Unknown { growth })
}

// How many generations are looked at in any case, of which some may have been: all up to the limit, where these are the early ones.
fn sure_generations(begun: u64, early: u64, limit: u64) -> u64
    requires some { 1 ≤ early }
    requires within { begun ≤ early }
    ensures some { 1 ≤ result }
    ensures within { result ≤ early }
    ensures begun { begun ≤ result }
{
    if early == limit {
        return early;
    }
    begun.max(first_generations(early))
}

/// How many of the early generations are looked at whatever they take.
pub(super) fn first_generations(early: u64) -> u64
    ensures { result ≡ min early 2 }
{
    early.min(SURE)
}

// Goes on to the generations that are looked at in any case, and then to all early ones while a share of the work lasts,
// and gives how the pattern ends by then, if it does.
fn early_look<A: Automaton, O: Observer>(
    alloc: Global,
    leaper: &mut Leaper<A>,
    first: &First,
    walk: &mut Walk,
    sure: u64,
    early: u64,
    reach: Reach,
    observer: &mut O,
) -> Result<Option<Ending>, LeapFault>
    requires walk { CanLookOn (A.next_of leaper.old.rule) leaper.old.nodes first.now walk.old reach.limit }
    requires begun { walk.old.generations ≤ sure }
    requires sure { sure ≤ early }
    requires within { early ≤ reach.limit }
    ensures found { IfOk result (IsLookedAt (A.next_of leaper.old.rule)
        (cell leaper.old.nodes first.now.tree) leaper.new.nodes sure early walk.new) }
    ensures halted { OnErr result (IsHalted (A.next_of leaper.old.rule)
        (cell leaper.old.nodes first.now.tree) leaper.new.nodes walk.old.generations early walk.new) }
    ensures goes_on { LeaperGrows A leaper.old leaper.new }
    ensures bounded { leaper.new.spent.used ≤ max leaper.old.spent.used reach.until }
    ensures takes { TakesEarly leaper.old.spent.used leaper.new.spent.used
        (cells_after (A.next_of leaper.old.rule) (cell leaper.old.nodes first.now.tree))
        walk.old.generations sure reach.limit }
    ensures work { EndsAfter reach.until leaper.new.spent result }
{
    let one = look_on(alloc, leaper, first, walk, sure, reach.until, observer)?;
    if let Some(ending) = one {
        return Ok(Some(ending));
    }
    let found = look_within_share(alloc, leaper, first, walk, early, reach, observer)?;
    Ok(found)
}

// The same from where a walk is.
fn look_within_share<A: Automaton, O: Observer>(
    alloc: Global,
    leaper: &mut Leaper<A>,
    first: &First,
    walk: &mut Walk,
    early: u64,
    reach: Reach,
    observer: &mut O,
) -> Result<Option<Ending>, LeapFault>
    requires walk { CanLookOn (A.next_of leaper.old.rule) leaper.old.nodes first.now walk.old reach.limit }
    requires begun { walk.old.generations ≤ early }
    requires within { early ≤ reach.limit }
    ensures found { IfOk result (IsLookedAt (A.next_of leaper.old.rule)
        (cell leaper.old.nodes first.now.tree) leaper.new.nodes walk.old.generations early walk.new) }
    ensures halted { OnErr result (IsHalted (A.next_of leaper.old.rule)
        (cell leaper.old.nodes first.now.tree) leaper.new.nodes walk.old.generations early walk.new) }
    ensures goes_on { LeaperGrows A leaper.old leaper.new }
    ensures bounded { leaper.new.spent.used ≤ max leaper.old.spent.used reach.until }
    ensures takes { leaper.new.spent.used ≤ leaper.old.spent.used + early_work reach.limit }
    ensures work { EndsAfter reach.until leaper.new.spent result }
{
    let end = share_end(leaper.used(), early_share(reach.limit), reach.until);
    let found = look_on(alloc, leaper, first, walk, early, end, observer);
    match found {
        Err(LeapFault::Work) => {
            walk.boxes = SquareBoxes::new(alloc);
            Ok(None)
        }
        other => other,
    }
}

// How many units of work the early generations may take, and their planes once more.
fn early_share(limit: u64) -> u64
    requires { limit ≤ longest_period }
    ensures { result ≤ early_work limit }
{
    (limit * EARLY_SHARE).min(MOST_EARLY_SHARE)
}

// The planes of the first generations with which later ones are compared: at most as many as the largest power of two
// that is no more than `generations`, since a leap by a power of two is the cheapest. Where they take more than their
// share of the work, none. They are made before any leap, while the leaper remembers them.
fn planes_within_share<A: Automaton>(
    alloc: Global,
    leaper: &mut Leaper<A>,
    first: &First,
    generations: u64,
    limit: u64,
    until: u64,
) -> Result<Vec<First>, LeapFault>
    requires first { CanSearch (A.next_of leaper.old.rule) leaper.old.nodes first.now limit }
    requires some { 1 ≤ generations }
    requires within { generations ≤ limit }
    ensures planes { IfOk result (λ planes. AreEarly (A.next_of leaper.old.rule)
        (cell leaper.old.nodes first.now.tree) leaper.new.nodes planes.items) }
    ensures goes_on { LeaperGrows A leaper.old leaper.new }
    ensures bounded { leaper.new.spent.used ≤ max leaper.old.spent.used until }
    ensures takes { leaper.new.spent.used ≤ leaper.old.spent.used + early_work limit }
    ensures work { EndsAfter until leaper.new.spent result }
{
    let end = share_end(leaper.used(), early_share(limit), until);
    let planes = early_planes(alloc, leaper, first, power_within(generations), end);
    match planes {
        Err(LeapFault::Work) => Ok(Vec::new(alloc)),
        other => other,
    }
}

// The largest power of two that is no more than a number.
fn power_within(number: u64) -> u64
    requires { 1 ≤ number }
    ensures some { 1 ≤ result }
    ensures within { result ≤ number }
{
    let mut power = 1;
    'doublings: while power <= number / 2 {
        power *= 2;
    }
    power
}

/// How many generations of a pattern in a store of `squares` squares are looked at before the first leap.
pub(super) fn early_generations(squares: usize) -> u64
    ensures { 2 ≤ result }
{
    let generations = EARLY_SQUARES / squares.max(1);
    (generations as u64).clamp(LEAST_EARLY, MOST_EARLY)
}
