//! Regions of a plane, and their clusters.

ghost use Rattle.std.specs.Prelude.{◌≡◌, ℕ, ◌<◌, ◌≤◌, List, replicate, IfOk, IfSome};
ghost use Rattle.ca_plane.specs.Prelude.{cell, cells_after, generation_limit, longest_period};
ghost use Rattle.ca_steps.specs.Prelude.{HasStates};
ghost use Rattle.ca_clusters.specs.Clusters.{AreClusters};
ghost use Rattle.ca_clusters.specs.inner.Regions.{IsRegion};

use crate::earlier::earlier_clusters;
use crate::fault::ClusterFault;
use crate::search::clusters_by_meetings;
use ca_parts::Phases;
use ca_plane::{Automaton, Memory, Plane};
use ca_steps::{RunFault, step};
use std::alloc::Global;

/// Some cells of a plane, and their clusters when they go on alone.
#[derive(Drop)]
pub(crate) struct Region {
    pub(crate) cells: Plane,
    pub(crate) clusters: Vec<Phases>,
}

// How many generations of a region are tried: in one of them it may have parts that die alone, which come from others,
// and in a later one not.
const TRIES: u64 = 64;

/// The region with its clusters, if they are found.
pub(crate) fn settled_region<A: Automaton>(
    alloc: Global,
    rule: &A,
    cells: Plane,
    budget: &mut u64,
) -> Result<Option<Region>, Memory>
    requires states { HasStates (A.state_count rule.now) cells }
    requires most { budget.old < longest_period }
    ensures region { IfOk result (λ found. IfSome found (λ region. IsRegion (A.next_of rule.now) region)) }
    ensures cells { IfOk result (λ found. IfSome found (λ region. region.cells ≡ cells)) }
    ensures budget { budget.new ≤ budget.old }
{
    // A rule that tells its states is sound: nothing is born where all is empty.
    let _states = rule.states();
    let mut now = cells.copy(alloc)?;
    'generations: for n in 0..TRIES {
        match clusters_by_meetings(alloc, rule, &now, budget) {
            Ok(later) => return region_before(alloc, &later, n, cells),
            Err(ClusterFault::Spark) => {}
            Err(ClusterFault::Memory) => return Err(Memory),
            Err(_) => return Ok(None),
        }
        now = match step(alloc, rule, &now) {
            Ok(later) => later,
            Err(RunFault::Memory) => return Err(Memory),
            Err(RunFault::Range) => return Ok(None),
        };
    }
    Ok(None)
}

// The region whose clusters after n generations these are, if it is settled.
fn region_before(
    alloc: Global,
    later: &[Phases],
    n: u64,
    cells: Plane,
) -> Result<Option<Region>, Memory>
    requires few { n < generation_limit }
    ensures region { (next : List ℕ → ℕ) → next (replicate 9 0) ≡ 0
        → AreClusters next (cells_after next (cell cells) n) later.now
        → IfOk result (λ found. IfSome found (λ region. IsRegion next region)) }
    ensures cells { IfOk result (λ found. IfSome found (λ region. region.cells ≡ cells)) }
{
    match earlier_clusters(alloc, later, n, &cells) {
        Ok(Some(clusters)) => Ok(Some(Region { cells, clusters })),
        Err(ClusterFault::Memory) => Err(Memory),
        _ => Ok(None),
    }
}
