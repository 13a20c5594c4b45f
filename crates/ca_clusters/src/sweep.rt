//! Regions of a plane: cells that lie together in what its first generations cover.

ghost use Rattle.std.specs.Prelude.{◌≡◌, ℕ, ◌≤◌, IfOk, IfSome};
ghost use Rattle.std.specs.List.{AllPairs};
ghost use Rattle.ca_plane.specs.Prelude.{cell};
ghost use Rattle.ca_steps.specs.Prelude.{HasStates};
ghost use Rattle.ca_parts.specs.Prelude.{AreApart};
ghost use Rattle.ca_clusters.specs.inner.Regions.{AreRegionsAt, AreRegionsOf, IsCommon, IsCoveredBy};

use crate::budget::take;
use ca_parts::components;
use ca_plane::{Automaton, Memory, Plane};
use ca_steps::{RunFault, step};
use std::alloc::Global;

// How many generations are gathered before their places are put to those so far.
const AT_ONCE: u64 = 16;

/// The plane's live cells by regions: two are in one where a chain of places leads from one to the other, each live at
/// some time of the first `generations` generations, and each within 2 of the place before. None where the budget isn't
/// enough for that, or a cell comes too near the edge of the plane. No contract says which cells are in one region.
pub(crate) fn regions_of<A: Automaton>(
    alloc: Global,
    rule: &A,
    plane: &Plane,
    generations: u64,
    budget: &mut u64,
) -> Result<Option<Vec<Plane>>, Memory>
    requires { HasStates (A.state_count rule.now) plane.now }
    ensures regions { IfOk result (λ found. IfSome found (λ v. AreRegionsOf plane.now v.items)) }
    ensures budget { budget.new ≤ budget.old }
{
    let Some(covered) = covered_places(alloc, rule, plane, generations, budget)? else {
        return Ok(None);
    };
    let places = components(alloc, &covered)?;
    Ok(Some(regions_at(alloc, plane, &places)?))
}

// The plane of all places that are live at some time of the first generations.
fn covered_places<A: Automaton>(
    alloc: Global,
    rule: &A,
    plane: &Plane,
    generations: u64,
    budget: &mut u64,
) -> Result<Option<Plane>, Memory>
    requires { HasStates (A.state_count rule.now) plane.now }
    ensures covered { IfOk result (λ found. IfSome found (IsCoveredBy plane.now)) }
    ensures budget { budget.new ≤ budget.old }
{
    let mut covered = plane.copy(alloc)?;
    let mut now = plane.copy(alloc)?;
    'rounds: for _ in 0..generations / AT_ONCE {
        let Some((places, later)) = next_places(alloc, rule, now, budget)? else {
            return Ok(None);
        };
        covered = both_covered(alloc, &covered, &places)?;
        now = later;
    }
    Ok(Some(covered))
}

// The places that are live at some time of the next generations, and the plane after these.
fn next_places<A: Automaton>(
    alloc: Global,
    rule: &A,
    plane: Plane,
    budget: &mut u64,
) -> Result<Option<(Plane, Plane)>, Memory>
    requires states { HasStates (A.state_count rule.now) plane }
    ensures states { IfOk result (λ found. IfSome found (λ pair. HasStates (A.state_count rule.now) pair.1)) }
    ensures budget { budget.new ≤ budget.old }
{
    let mut now = plane;
    let mut cells = Vec::new(alloc);
    'generations: for _ in 0..AT_ONCE {
        if !take(budget, now.as_slice().len() as u64 + 1) {
            return Ok(None);
        }
        now = match step(alloc, rule, &now) {
            Ok(later) => later,
            Err(RunFault::Memory) => return Err(Memory),
            Err(RunFault::Range) => return Ok(None),
        };
        cells.extend_from_slice(now.as_slice())?;
    }
    Ok(Some((Plane::from_cells(alloc, cells)?, now)))
}

// The plane of all places that are live in one of both.
fn both_covered(alloc: Global, one: &Plane, other: &Plane) -> Result<Plane, Memory>
    ensures one { IfOk result (IsCoveredBy one.now) }
    ensures other { IfOk result (IsCoveredBy other.now) }
{
    let (first, second) = (one.as_slice(), other.as_slice());
    let mut cells = Vec::with_capacity(alloc, first.len() + second.len())?;
    cells.extend_from_slice(first)?;
    cells.extend_from_slice(second)?;
    Plane::from_cells(alloc, cells)
}

// The plane's regions, each with the cells at the places that one of these is live at. Empty ones are left out.
fn regions_at(alloc: Global, plane: &Plane, places: &[Plane]) -> Result<Vec<Plane>, Memory>
    requires { AllPairs (λ p q. AreApart (cell p) (cell q)) places.now }
    ensures { IfOk result (λ v. AreRegionsAt plane.now places.now v.items) }
{
    let mut regions = Vec::new(alloc);
    'places: for place in places {
        let region = common_cells(alloc, plane, place)?;
        if !region.is_empty() {
            regions.push(region)?;
        }
    }
    Ok(regions)
}

// The cells of the plane at the live places of the other.
fn common_cells(alloc: Global, plane: &Plane, places: &Plane) -> Result<Plane, Memory>
    ensures common { IfOk result (λ q. IsCommon plane.now (cell places.now) (cell q)) }
    ensures states { (count : ℕ) → HasStates count plane.now → IfOk result (HasStates count) }
{
    let mut common = Plane::new(alloc);
    'places: for (at, _) in places.cells() {
        common.set(at, plane.get(at))?;
    }
    Ok(common)
}
