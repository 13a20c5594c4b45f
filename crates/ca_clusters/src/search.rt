//! The clusters of a plane, found by its parts: those that meet are made one, until all come back and no two ever
//! meet.

ghost use Rattle.std.specs.Prelude.{◌≡◌, ◌<◌, ◌≤◌, map, replicate, IfOk, IsErrOf};
ghost use Rattle.std.specs.List.{All, Any};
ghost use Rattle.ca_plane.specs.Prelude.{cell, longest_period};
ghost use Rattle.ca_steps.specs.Prelude.{HasStates};
ghost use Rattle.ca_clusters.specs.Clusters.{AreClusters};
ghost use Rattle.ca_clusters.specs.inner.Runs.{AreRuns, IsRun, IsRunTo, LeavesAlone, origin};

use crate::budget::take;
use crate::fault::ClusterFault;
use crate::meetings::{Encounter, encounter_of};
use crate::merging::with_merged;
use crate::part::{Part, first_part, run_part};
use ca_parts::{Phases, components};
use ca_plane::{Automaton, Memory, Plane};
use std::alloc::Global;

/// The clusters of the plane, each by its course: the parts of the finest division into live parts that come back and
/// of which no two ever meet.
///
/// The plane's components are run one by one, each as if it were alone. Two that meet before any others do are one
/// part of every division. Each step takes a unit from the budget for each live cell, and one besides. Each round of
/// steps takes a sixteenth of the square of the number of parts, and one unit besides. Each time that twice as many
/// generations are looked at, it takes as many units as were looked at, and so many for each two parts of which it
/// isn't known yet whether they meet, though both come back.
///
/// # Errors
///
/// `Spent` where the budget is used up, `Spark` where a part dies that meets none before, and `Range` where some of
/// the cells, going on alone, come too near the edge of the plane for a step: whether the plane is settled isn't known
/// then. Else fails where there is no memory.
pub(crate) fn clusters_by_meetings<A: Automaton>(
    alloc: Global,
    rule: &A,
    plane: &Plane,
    budget: &mut u64,
) -> Result<Vec<Phases>, ClusterFault>
    requires states { HasStates (A.state_count rule.now) plane.now }
    requires most { budget.old < longest_period }
    ensures clusters { IfOk result (λ v. AreClusters (A.next_of rule.now) (cell plane.now) v.items) }
    ensures budget { budget.new ≤ budget.old }
    ensures spent { IsErrOf result ClusterFault.Spent → budget.new ≡ 0 }
    ensures range { IsErrOf result ClusterFault.Range → LeavesAlone (A.next_of rule.now) plane.now }
{
    // A rule that tells its states is sound: nothing is born where all is empty, and it keeps to its states.
    let _states = rule.states();
    let mut parts = first_parts(alloc, rule, plane)?;
    let mut horizon = 1;
    'rounds: while take(budget, looks_of(parts.len())) {
        let later = run_parts(alloc, rule, parts, horizon, budget)?;
        match encounter_of(&later, horizon) {
            Encounter::Meet { one, other } => {
                parts = with_merged(alloc, rule, later, one, other)?;
            }
            Encounter::Never => return Ok(courses_of(alloc, later)?),
            Encounter::NotYet { pairs } => {
                if !take(budget, horizon.saturating_mul(pairs.max(1))) {
                    return Err(ClusterFault::Spent);
                }
                if have_died(&later) {
                    return Err(ClusterFault::Spark);
                }
                horizon *= 2;
                parts = later;
            }
        }
    }
    Err(ClusterFault::Spent)
}

// The parts to begin with: the plane's components.
fn first_parts<A: Automaton>(alloc: Global, rule: &A, plane: &Plane) -> Result<Vec<Part>, Memory>
    requires quiet { A.next_of rule.now (replicate 9 0) ≡ 0 }
    requires states { HasStates (A.state_count rule.now) plane.now }
    ensures { IfOk result
        (λ v. AreRuns (A.next_of rule.now) (A.state_count rule.now) (cell plane.now) v.items) }
{
    let mut parts = Vec::new(alloc);
    'components: for component in components(alloc, plane)? {
        // A plane lists each live cell once, so that the states in the list are those of the cells.
        let _listed = component.as_slice();
        parts.push(first_part(alloc, rule, component)?)?;
    }
    Ok(parts)
}

// The parts, each run on until it is back, or `horizon` generations are known.
fn run_parts<A: Automaton>(
    alloc: Global,
    rule: &A,
    parts: Vec<Part>,
    horizon: u64,
    budget: &mut u64,
) -> Result<Vec<Part>, ClusterFault>
    requires runs { All (IsRun (A.next_of rule.now) (A.state_count rule.now)) parts.items }
    requires most { horizon < longest_period }
    ensures far { IfOk result
        (λ v. All (IsRunTo (A.next_of rule.now) (A.state_count rule.now) horizon) v.items) }
    ensures origins { IfOk result (λ v. map origin v.items ≡ map origin parts.items) }
    ensures budget { budget.new ≤ budget.old }
    ensures spent { IsErrOf result ClusterFault.Spent → budget.new ≡ 0 }
    ensures range { IsErrOf result ClusterFault.Range
        → Any (λ part. LeavesAlone (A.next_of rule.now) (origin part)) parts.items }
{
    let mut later = Vec::with_capacity(alloc, parts.len())?;
    'parts: for part in parts {
        later.push(run_part(alloc, rule, part, horizon, budget)?)?;
    }
    Ok(later)
}

// The courses of parts that come back.
fn courses_of(alloc: Global, parts: Vec<Part>) -> Result<Vec<Phases>, Memory>
    ensures { IfOk result (λ v. v.items ≡ map (λ part. part.shows) parts.items) }
{
    let mut courses = Vec::with_capacity(alloc, parts.len())?;
    'parts: for part in parts {
        courses.push(part.shows)?;
    }
    Ok(courses)
}

// How many units it takes to look at each two of so many parts: one at least.
fn looks_of(count: usize) -> u64
    ensures { 1 ≤ result }
{
    let count = count as u64;
    count.saturating_mul(count) / 16 + 1
}

// Whether a part is dead that isn't known to come back.
fn have_died(parts: &[Part]) -> bool {
    parts.iter().any(|part| is_dead(part))
}

// Whether the part is dead in the last of the generations that are known of it.
fn is_dead(part: &Part) -> bool {
    let last = part.shows.period() - 1;
    !part.is_back && part.shows.plane(last as usize).is_empty()
}
