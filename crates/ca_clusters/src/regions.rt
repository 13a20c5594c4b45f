//! The clusters of a plane, found region by region.

ghost use Rattle.std.specs.Prelude.{◌≡◌, ◌<◌, ◌≤◌, ◌++◌, length, map, IfOk, IfSome, IsNone, IsTrue};
ghost use Rattle.std.specs.List.{All, AllPairs, flat_map};
ghost use Rattle.ca_plane.specs.Prelude.{cell, longest_period};
ghost use Rattle.ca_steps.specs.Prelude.{HasStates};
ghost use Rattle.ca_parts.specs.Prelude.{together};
ghost use Rattle.ca_clusters.specs.Clusters.{AreClusters};
ghost use Rattle.ca_clusters.specs.inner.Earlier.{AreAlwaysApart};
ghost use Rattle.ca_clusters.specs.inner.Regions.{IsRegion, AreSettledRegions, cells_of, clusters_in};
ghost use Rattle.ca_clusters.specs.inner.Regions.{IsApartFromAll, AreAllApart, KeepClear};

use crate::budget::take;
use crate::merging::union;
use crate::region::{Region, settled_region};
use crate::sweep::regions_of;
use ca_parts::{Meeting, Phases, first_meeting};
use ca_plane::{Automaton, Memory, Plane};
use std::alloc::Global;

// The generations by which regions are told apart, first fewer and then more.
const SHORT: u64 = 16;

const LONG: u64 = 128;

// The part of the budget that the first try may take, so that much is left for the other.
const FIRST_PART: u64 = 2;

// How many generations two clusters of different regions are looked at to see whether they ever meet.
const LOOKS: u64 = 4096;

/// The clusters of the plane, each by its course, if they are found: the parts of the finest division into live parts
/// that come back and of which no two ever meet. None says nothing of the plane.
///
/// The plane is taken apart into regions, the clusters of each are found by its parts, and regions of which two
/// clusters may meet are made one. Each step of a part takes a unit from the budget for each live cell, and one
/// besides; looking at pairs takes some too.
///
/// # Errors
///
/// Fails where there is no memory.
pub fn find_clusters<A: Automaton>(
    alloc: Global,
    rule: &A,
    plane: &Plane,
    budget: &mut u64,
) -> Result<Option<Vec<Phases>>, Memory>
    requires states { HasStates (A.state_count rule.now) plane.now }
    requires most { budget.old < longest_period }
    ensures clusters { IfOk result (λ found. IfSome found
        (λ v. AreClusters (A.next_of rule.now) (cell plane.now) v.items)) }
    ensures budget { budget.new ≤ budget.old }
{
    let part = *budget / FIRST_PART;
    let mut left = part;
    let found = clusters_by_regions(alloc, rule, plane, SHORT, &mut left)?;
    *budget -= part - left;
    match found {
        Some(clusters) => Ok(Some(clusters)),
        None => clusters_by_regions(alloc, rule, plane, LONG, budget),
    }
}

// The clusters of the plane, if they are found by regions that so many generations tell apart.
fn clusters_by_regions<A: Automaton>(
    alloc: Global,
    rule: &A,
    plane: &Plane,
    generations: u64,
    budget: &mut u64,
) -> Result<Option<Vec<Phases>>, Memory>
    requires states { HasStates (A.state_count rule.now) plane.now }
    requires most { budget.old < longest_period }
    ensures clusters { IfOk result (λ found. IfSome found
        (λ v. AreClusters (A.next_of rule.now) (cell plane.now) v.items)) }
    ensures budget { budget.new ≤ budget.old }
{
    // A rule that tells its states is sound: nothing is born where all is empty.
    let _states = rule.states();
    let Some(cells) = regions_of(alloc, rule, plane, generations, budget)? else {
        return Ok(None);
    };
    let Some(regions) = settled_regions(alloc, rule, cells, budget)? else {
        return Ok(None);
    };
    match parted_regions(alloc, rule, regions, budget)? {
        Some(parted) => Ok(Some(clusters_of(alloc, parted)?)),
        None => Ok(None),
    }
}

// The regions with their clusters, if those of all are found.
fn settled_regions<A: Automaton>(
    alloc: Global,
    rule: &A,
    cells: Vec<Plane>,
    budget: &mut u64,
) -> Result<Option<Vec<Region>>, Memory>
    requires states { All (HasStates (A.state_count rule.now)) cells.items }
    requires most { budget.old < longest_period }
    ensures regions { IfOk result (λ found. IfSome found (λ v. All (IsRegion (A.next_of rule.now)) v.items)) }
    ensures cells { IfOk result (λ found. IfSome found (λ v. map cells_of v.items ≡ cells.items)) }
    ensures budget { budget.new ≤ budget.old }
{
    let mut regions = Vec::with_capacity(alloc, cells.len())?;
    'regions: for region in cells {
        let Some(settled) = settled_region(alloc, rule, region, budget)? else {
            return Ok(None);
        };
        regions.push(settled)?;
    }
    Ok(Some(regions))
}

// Regions of which no two ever meet, made of these.
fn parted_regions<A: Automaton>(
    alloc: Global,
    rule: &A,
    regions: Vec<Region>,
    budget: &mut u64,
) -> Result<Option<Vec<Region>>, Memory>
    requires regions { AreSettledRegions (A.next_of rule.now) (A.state_count rule.now)
        (together (map cells_of regions.items)) regions.items }
    requires most { budget.old < longest_period }
    ensures regions { IfOk result (λ found. IfSome found
        (λ v. AreSettledRegions (A.next_of rule.now) (A.state_count rule.now)
        (together (map cells_of regions.items)) v.items)) }
    ensures clear { IfOk result (λ found. IfSome found (λ v. AllPairs KeepClear v.items)) }
    ensures budget { budget.new ≤ budget.old }
{
    let mut regions = regions;
    'pairs: while let Some((one, other)) = meeting_regions(&regions) {
        if !take(budget, regions.len() as u64) {
            return Ok(None);
        }
        let Some(joined) = with_joined(alloc, rule, regions, one, other, budget)? else {
            return Ok(None);
        };
        regions = joined;
    }
    Ok(Some(regions))
}

// The regions with two of them made one, if its clusters are found.
fn with_joined<A: Automaton>(
    alloc: Global,
    rule: &A,
    regions: Vec<Region>,
    one: usize,
    other: usize,
    budget: &mut u64,
) -> Result<Option<Vec<Region>>, Memory>
    requires order { one < other }
    requires there { other < length regions.items }
    requires regions { AreSettledRegions (A.next_of rule.now) (A.state_count rule.now)
        (together (map cells_of regions.items)) regions.items }
    requires most { budget.old < longest_period }
    ensures regions { IfOk result (λ found. IfSome found
        (λ v. AreSettledRegions (A.next_of rule.now) (A.state_count rule.now)
        (together (map cells_of regions.items)) v.items)) }
    ensures fewer { IfOk result (λ found. IfSome found (λ v. length v.items < length regions.items)) }
    ensures budget { budget.new ≤ budget.old }
{
    // A rule that tells its states has some.
    let _states = rule.states();
    let mut regions = regions;
    let second = regions.remove(other);
    let first = regions.remove(one);
    let both = union(alloc, &first.cells, &second.cells)?;
    let Some(joined) = settled_region(alloc, rule, both, budget)? else {
        return Ok(None);
    };
    regions.push(joined)?;
    Ok(Some(regions))
}

// The places of two regions, the first before the second, that may meet, if there are any.
fn meeting_regions(regions: &[Region]) -> Option<(usize, usize)>
    ensures order { IfSome result (λ pair. pair.0 < pair.1) }
    ensures there { IfSome result (λ pair. pair.1 < length regions.now) }
    ensures clear { IsNone result → AllPairs KeepClear regions.now }
{
    'regions: for other in 0..regions.len() {
        if let Some(one) = region_meeting(&regions[..other], &regions[other]) {
            return Some((one, other));
        }
    }
    None
}

// The place of one of the regions that may meet this one, if there is any.
fn region_meeting(regions: &[Region], other: &Region) -> Option<usize>
    ensures there { IfSome result (λ one. one < length regions.now) }
    ensures clear { IsNone result → All (λ one. KeepClear one other.now) regions.now }
{
    'regions: for one in 0..regions.len() {
        if !never_meet(&regions[one].clusters, &other.clusters) {
            return Some(one);
        }
    }
    None
}

// Whether it is known that none of these ever meets one of the others.
fn never_meet(clusters: &[Phases], others: &[Phases]) -> bool
    ensures { IsTrue result → AreAllApart clusters.now others.now }
{
    'clusters: for cluster in clusters {
        if !never_meets(cluster, others) {
            return false;
        }
    }
    true
}

// Whether it is known that this one never meets one of the others.
fn never_meets(cluster: &Phases, others: &[Phases]) -> bool
    ensures { IsTrue result → IsApartFromAll others.now cluster.now }
{
    'others: for other in others {
        if !never_meets_other(cluster, other) {
            return false;
        }
    }
    true
}

// Whether it is known that the two never meet.
fn never_meets_other(one: &Phases, other: &Phases) -> bool
    ensures { IsTrue result → AreAlwaysApart one.now other.now }
{
    matches!(first_meeting(one, other, LOOKS), Meeting::Never)
}

// The clusters of all regions.
fn clusters_of(alloc: Global, regions: Vec<Region>) -> Result<Vec<Phases>, Memory>
    ensures { IfOk result (λ v. v.items ≡ flat_map clusters_in regions.items) }
{
    let mut clusters = Vec::new(alloc);
    'regions: for region in regions {
        clusters = with_all(clusters, region.clusters)?;
    }
    Ok(clusters)
}

// The clusters, and others after them.
fn with_all(clusters: Vec<Phases>, others: Vec<Phases>) -> Result<Vec<Phases>, Memory>
    ensures { IfOk result (λ v. v.items ≡ clusters.items ++ others.items) }
{
    let mut clusters = clusters;
    'others: for other in others {
        clusters.push(other)?;
    }
    Ok(clusters)
}
