//! The search for some generation after which a plane is known to be settled.

ghost use Rattle.std.specs.Prelude.{◌≡◌, ◌+◌, ◌≤◌, ◌<◌, IfOk, IfSome};
ghost use Rattle.ca_plane.specs.Prelude.{Picture, cell, longest_period, most_generations};
ghost use Rattle.ca_steps.specs.Prelude.{HasStates};
ghost use Rattle.ca_run.specs.Prelude.{LeaperGrows};
ghost use Rattle.ca_budget.specs.Prelude.{EndsAtLimit};
ghost use Rattle.ca_pattern.specs.Prelude.{ShowsTree, IsPattern};
ghost use Rattle.ca_clusters.specs.Prelude.{AreClusters};
ghost use Rattle.ca_census.specs.Files.{FitsFile};
ghost use Rattle.ca_census.specs.Settlings.{IsSettled};
ghost use Rattle.ca_census.specs.inner.Searches.{CanSearch};

use crate::later_plane::plane_after;
use crate::reach::Reach;
use crate::settling::Settling;
use ca_clusters::find_clusters;
use ca_evolution::Observer;
use ca_parts::Phases;
use ca_plane::{Automaton, Memory, Plane};
use ca_quad::Tree;
use ca_run::{LeapFault, Leaper};
use std::alloc::Global;

// How many units a try takes at most for each live cell, at the pattern itself and at a later generation.
const FIRST_SHARE: u64 = 1024;

const LATER_SHARE: u64 = 64;

/// Some generation from the start of the reach up to its limit after which the plane of a pattern's tree is settled,
/// and its clusters then, if one is found. The plane at the start is tried, those 1, 2, 4, 8 .. generations later, and
/// the last one, each with a share of the budget that goes by its cells; then the first and the last once more, each
/// with half of what is left.
pub(crate) fn find_settled<A: Automaton, O: Observer>(
    alloc: Global,
    leaper: &mut Leaper<A>,
    rule: &A,
    pattern: &Tree,
    reach: Reach,
    most: u64,
    observer: &mut O,
) -> Result<Option<Settling>, LeapFault>
    requires pattern { IsPattern leaper.old.nodes pattern.now }
    requires rule { rule.now ≡ leaper.old.rule }
    requires few { reach.start + reach.limit ≤ most_generations }
    requires budget { reach.budget < longest_period }
    ensures settled { (cells : Picture) → ShowsTree leaper.old.nodes pattern.now cells
        → IfOk result (λ found. IfSome found (IsSettled (A.next_of rule.now) cells reach)) }
    ensures fits { IfOk result (λ found. IfSome found (λ settled. FitsFile (A.state_count rule.now) settled.plane)) }
    ensures goes_on { LeaperGrows A leaper.old leaper.new }
    ensures work { EndsAtLimit leaper.new.spent result }
{
    // Says what holds of every leaper.
    let _ = leaper.store();
    let mut search = Search {
        reach,
        most,
        budget: reach.budget,
    };
    let found = try_doubling(alloc, leaper, rule, pattern, &mut search, observer)?;
    if let Some(settling) = found {
        return Ok(Some(settling));
    }
    try_ends(alloc, leaper, rule, pattern, search.half(), observer)
}

// How far it is looked, up to how much work of the leaper, and what is left of the budget.
#[derive(Clone, Copy)]
struct Search {
    reach: Reach,
    most: u64,
    budget: u64,
}

impl Search {
    // The same with half of the budget.
    fn half(self) -> Search
        ensures reach { result.reach ≡ self.reach }
        ensures budget { result.budget ≤ self.budget }
    {
        Search {
            budget: self.budget / 2,
            ..self
        }
    }
}

// What is found at the start, or 1, 2, 4, 8 .. generations later up to the limit, or at the limit.
fn try_doubling<A: Automaton, O: Observer>(
    alloc: Global,
    leaper: &mut Leaper<A>,
    rule: &A,
    pattern: &Tree,
    search: &mut Search,
    observer: &mut O,
) -> Result<Option<Settling>, LeapFault>
    requires pattern { IsPattern leaper.old.nodes pattern.now }
    requires rule { rule.now ≡ leaper.old.rule }
    requires can { CanSearch search.old }
    ensures settled { (cells : Picture) → ShowsTree leaper.old.nodes pattern.now cells
        → IfOk result (λ found. IfSome found (IsSettled (A.next_of rule.now) cells search.old.reach)) }
    ensures fits { IfOk result (λ found. IfSome found (λ settled. FitsFile (A.state_count rule.now) settled.plane)) }
    ensures reach { search.new.reach ≡ search.old.reach }
    ensures budget { search.new.budget ≤ search.old.budget }
    ensures goes_on { LeaperGrows A leaper.old leaper.new }
    ensures work { EndsAtLimit leaper.new.spent result }
{
    // Says what holds of every leaper.
    let _ = leaper.store();
    let limit = search.reach.limit;
    let mut generations = 0;
    let mut share = FIRST_SHARE;
    'generations: loop {
        observer.goes_to(generations);
        let found = try_after(
            alloc,
            leaper,
            rule,
            pattern,
            generations,
            share,
            search,
            observer,
        )?;
        if let Some(settling) = found {
            return Ok(Some(settling));
        }
        if generations >= limit {
            return Ok(None);
        }
        generations = doubled(generations, limit);
        share = LATER_SHARE;
    }
}

// Twice as many generations, or one in place of none, but no more than the limit.
fn doubled(generations: u64, limit: u64) -> u64
    requires less { generations < limit }
    requires few { limit ≤ most_generations }
    ensures more { generations < result }
    ensures within { result ≤ limit }
{
    (2 * generations).max(1).min(limit)
}

// What is found at the start or at the limit, with all of the budget at each of them.
fn try_ends<A: Automaton, O: Observer>(
    alloc: Global,
    leaper: &mut Leaper<A>,
    rule: &A,
    pattern: &Tree,
    search: Search,
    observer: &mut O,
) -> Result<Option<Settling>, LeapFault>
    requires pattern { IsPattern leaper.old.nodes pattern.now }
    requires rule { rule.now ≡ leaper.old.rule }
    requires can { CanSearch search }
    ensures settled { (cells : Picture) → ShowsTree leaper.old.nodes pattern.now cells
        → IfOk result (λ found. IfSome found (IsSettled (A.next_of rule.now) cells search.reach)) }
    ensures fits { IfOk result (λ found. IfSome found (λ settled. FitsFile (A.state_count rule.now) settled.plane)) }
    ensures goes_on { LeaperGrows A leaper.old leaper.new }
    ensures work { EndsAtLimit leaper.new.spent result }
{
    // Says what holds of every leaper.
    let _ = leaper.store();
    let Reach { limit, budget, .. } = search.reach;
    let mut first = search;
    let found = try_after(
        alloc, leaper, rule, pattern, 0, budget, &mut first, observer,
    )?;
    if let Some(settling) = found {
        return Ok(Some(settling));
    }
    let mut last = search;
    try_after(
        alloc, leaper, rule, pattern, limit, budget, &mut last, observer,
    )
}

// The clusters of the plane after `generations` generations from the start on, if they are found with `share` units of
// the budget for each live cell.
fn try_after<A: Automaton, O: Observer>(
    alloc: Global,
    leaper: &mut Leaper<A>,
    rule: &A,
    pattern: &Tree,
    generations: u64,
    share: u64,
    search: &mut Search,
    observer: &mut O,
) -> Result<Option<Settling>, LeapFault>
    requires pattern { IsPattern leaper.old.nodes pattern.now }
    requires rule { rule.now ≡ leaper.old.rule }
    requires can { CanSearch search.old }
    requires within { generations ≤ search.old.reach.limit }
    ensures settled { (cells : Picture) → ShowsTree leaper.old.nodes pattern.now cells
        → IfOk result (λ found. IfSome found (IsSettled (A.next_of rule.now) cells search.old.reach)) }
    ensures fits { IfOk result (λ found. IfSome found (λ settled. FitsFile (A.state_count rule.now) settled.plane)) }
    ensures reach { search.new.reach ≡ search.old.reach }
    ensures budget { search.new.budget ≤ search.old.budget }
    ensures goes_on { LeaperGrows A leaper.old leaper.new }
    ensures work { EndsAtLimit leaper.new.spent result }
{
    let states = rule.states();
    let Some(plane) = plane_after(
        alloc,
        leaper,
        states,
        *pattern,
        search.reach.start + generations,
        search.most,
        observer,
    )?
    else {
        return Ok(None);
    };
    let part = share
        .saturating_mul(plane.as_slice().len() as u64 + 1)
        .min(search.budget);
    let clusters = clusters_within(alloc, rule, &plane, part, &mut search.budget)?;
    match clusters {
        Some(clusters) => Ok(Some(Settling {
            generations,
            plane,
            clusters,
        })),
        None => Ok(None),
    }
}

// The clusters of a plane, if they are found with this part of a budget.
fn clusters_within<A: Automaton>(
    alloc: Global,
    rule: &A,
    plane: &Plane,
    part: u64,
    budget: &mut u64,
) -> Result<Option<Vec<Phases>>, Memory>
    requires states { HasStates (A.state_count rule.now) plane.now }
    requires part { part ≤ budget.old }
    requires most { budget.old < longest_period }
    ensures clusters { IfOk result (λ found. IfSome found
        (λ v. AreClusters (A.next_of rule.now) (cell plane.now) v.items)) }
    ensures budget { budget.new ≤ budget.old }
{
    let mut left = part;
    let found = find_clusters(alloc, rule, plane, &mut left)?;
    *budget -= part - left;
    Ok(found)
}
