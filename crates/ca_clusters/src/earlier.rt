//! Clusters as they were some generations earlier.

ghost use Rattle.std.specs.Prelude.{◌≡◌, ◌<◌, ◌≤◌, ◌%◌, ◌/◌, ℕ, ℤ, List, replicate, length, map};
ghost use Rattle.std.specs.Prelude.{IfOk, IfSome, IsNone, IsErrOf, IsTrue, IsFalse, FitsSigned};
ghost use Rattle.std.specs.List.{All, AllPairs, Any};
ghost use Rattle.std.specs.Int.{w64};
ghost use Rattle.ca_plane.specs.Prelude.{cell, cells_after, generation_limit, most_generations, shifted};
ghost use Rattle.ca_plane.specs.Prelude.{IsSame, LeavesPlane};
ghost use Rattle.ca_parts.specs.Prelude.{IsSettled, AreApart, together};
ghost use Rattle.ca_clusters.specs.Clusters.{AreClusters, GoesRound, first_plane};
ghost use Rattle.ca_clusters.specs.Ranges.{WasOutside};
ghost use Rattle.ca_clusters.specs.inner.Earlier.{IsEarlierCourse, way_from, shown_from, LeavesFrom};
ghost use Rattle.ca_clusters.specs.inner.Earlier.{AreApartUpTo, AreAlwaysApart};

use crate::fault::ClusterFault;
use ca_parts::{Meeting, Phases, first_meeting};
use ca_plane::{Memory, MoveFault, Plane};
use std::alloc::Global;

/// The clusters of a plane, where those that it has `n` generations later are known. There are none where the plane
/// isn't settled.
///
/// # Errors
///
/// `Range` where a cluster, so many generations earlier or less than a period after that, doesn't lie within the square
/// of a plane. Else fails where there is no memory.
pub fn earlier_clusters(
    alloc: Global,
    clusters: &[Phases],
    n: u64,
    plane: &Plane,
) -> Result<Option<Vec<Phases>>, ClusterFault>
    requires few { n < generation_limit }
    ensures clusters { (next : List ℕ → ℕ) → next (replicate 9 0) ≡ 0
        → AreClusters next (cells_after next (cell plane.now) n) clusters.now
        → IfOk result (λ found. IfSome found (λ v. AreClusters next (cell plane.now) v.items)) }
    ensures unsettled { (next : List ℕ → ℕ) → next (replicate 9 0) ≡ 0
        → AreClusters next (cells_after next (cell plane.now) n) clusters.now
        → IfOk result (λ found. IsNone found → IsSettled next (cell plane.now) → ⊥) }
    ensures range { (next : List ℕ → ℕ) → next (replicate 9 0) ≡ 0
        → AreClusters next (cells_after next (cell plane.now) n) clusters.now → n ≤ most_generations
        → IsErrOf result ClusterFault.Range → Any (WasOutside n) clusters.now }
    ensures fault { IsErrOf result ClusterFault.Spent → ⊥ }
{
    let mut earlier = Vec::with_capacity(alloc, clusters.len())?;
    'clusters: for cluster in clusters {
        earlier.push(earlier_course(alloc, cluster, n)?)?;
    }
    if !are_apart_for(&earlier, n) {
        return Ok(None);
    }
    if !union_of(alloc, &earlier)?.same(plane) {
        return Ok(None);
    }
    Ok(Some(earlier))
}

// The course of what a cluster was n generations earlier. No cluster has a vector that is too long for a course, since
// it goes no faster than one cell a generation.
fn earlier_course(alloc: Global, cluster: &Phases, n: u64) -> Result<Phases, ClusterFault>
    requires { n < generation_limit }
    ensures course { IfOk result (IsEarlierCourse n cluster.now) }
    ensures range { (next : List ℕ → ℕ) → next (replicate 9 0) ≡ 0 → GoesRound next cluster.now
        → n ≤ most_generations → IsErrOf result ClusterFault.Range → WasOutside n cluster.now }
    ensures fault { IsErrOf result ClusterFault.Spent → ⊥ }
{
    let period = cluster.period();
    let turns = n.div_ceil(period);
    let first = turns * period - n;
    let mut planes = Vec::with_capacity(alloc, period as usize)?;
    'phases: for k in first..first + period {
        planes.push(plane_from(alloc, cluster, turns, k)?)?;
    }
    let (dx, dy) = cluster.vector();
    match Phases::new(planes, dx, dy) {
        Some(earlier) => Ok(earlier),
        None => Err(ClusterFault::Range),
    }
}

// What a cluster shows k generations after it was `turns` periods earlier.
fn plane_from(alloc: Global, cluster: &Phases, turns: u64, k: u64) -> Result<Plane, ClusterFault>
    ensures moved { IfOk result (λ q. IsSame q (shown_from cluster.now turns k)) }
    ensures range { FitsSigned w64 (way_from turns (k / length cluster.now.planes) cluster.now.dx)
        → FitsSigned w64 (way_from turns (k / length cluster.now.planes) cluster.now.dy)
        → IsErrOf result ClusterFault.Range → LeavesFrom cluster.now turns k }
    ensures fault { IsErrOf result ClusterFault.Spent → ⊥ }
{
    let period = cluster.period();
    let (dx, dy) = cluster.vector();
    let across = way_of(turns, k / period, dx);
    let down = way_of(turns, k / period, dy);
    match moved(alloc, cluster.plane((k % period) as usize), across, down) {
        Ok(plane) => Ok(plane),
        Err(MoveFault::Memory) => Err(ClusterFault::Memory),
        Err(MoveFault::Range) => Err(ClusterFault::Range),
    }
}

// The way that is gone in some periods, from a start that lies `turns` periods back.
fn way_of(turns: u64, periods: u64, step: i64) -> i128
    ensures { result ≡ way_from turns periods step }
{
    (i128::from(periods) - i128::from(turns)) * i128::from(step)
}

// The plane moved by a way of any length.
fn moved(alloc: Global, plane: &Plane, dx: i128, dy: i128) -> Result<Plane, MoveFault>
    ensures moved { IfOk result (λ q. IsSame q (shifted plane.now dx dy)) }
    ensures range { FitsSigned w64 dx → FitsSigned w64 dy → IsErrOf result MoveFault.Range
        → LeavesPlane plane.now dx dy }
{
    let Ok(dx) = i64::try_from(dx) else {
        return Err(MoveFault::Range);
    };
    let Ok(dy) = i64::try_from(dy) else {
        return Err(MoveFault::Range);
    };
    plane.translated(alloc, dx, dy)
}

// Whether no two of the courses meet within n generations, as far as it is known.
fn are_apart_for(courses: &[Phases], n: u64) -> bool
    ensures apart { IsTrue result → AllPairs (AreApartUpTo n) courses.now }
    ensures meet { IsFalse result → AllPairs AreAlwaysApart courses.now → ⊥ }
{
    'courses: for other in 0..courses.len() {
        if !is_apart_from_all(&courses[..other], &courses[other], n) {
            return false;
        }
    }
    true
}

// Whether none of the courses meets the other one within n generations.
fn is_apart_from_all(courses: &[Phases], other: &Phases, n: u64) -> bool
    ensures apart { IsTrue result → All (λ one. AreApartUpTo n one other.now) courses.now }
    ensures meet { IsFalse result → All (λ one. AreAlwaysApart one other.now) courses.now → ⊥ }
{
    'courses: for course in courses {
        if do_meet(course, other, n) {
            return false;
        }
    }
    true
}

// Whether the two courses meet within n generations.
fn do_meet(one: &Phases, other: &Phases, n: u64) -> bool
    ensures apart { IsFalse result → AreApartUpTo n one.now other.now }
    ensures meet { IsTrue result → AreAlwaysApart one.now other.now → ⊥ }
{
    matches!(first_meeting(one, other, n), Meeting::At(_))
}

// The plane with the first cells of all courses.
fn union_of(alloc: Global, courses: &[Phases]) -> Result<Plane, Memory>
    ensures { AllPairs (λ one other. AreApart (cell (first_plane one)) (cell (first_plane other))) courses.now
        → IfOk result (λ q. (x y : ℤ) → cell q x y ≡ together (map first_plane courses.now) x y) }
{
    let mut cells = Vec::new(alloc);
    'courses: for course in courses {
        cells.extend_from_slice(first_of(course).as_slice())?;
    }
    Plane::from_cells(alloc, cells)
}

// The plane that a course begins with.
fn first_of(course: &Phases) -> &Plane
    ensures { result.now ≡ first_plane course.now }
{
    let _period = course.period();
    course.plane(0)
}
