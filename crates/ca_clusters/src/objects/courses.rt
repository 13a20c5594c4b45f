//! The courses of groups that were run for one period of their cluster.

ghost use Rattle.std.specs.Prelude.{◌≡◌, ℕ, ◌+◌, ◌-◌, ◌↔◌, List, length, map, IfOk, IfSome, IsTrue};
ghost use Rattle.std.specs.List.{All};
ghost use Rattle.ca_plane.specs.Prelude.{IsLive, IsSame, shifted};
ghost use Rattle.ca_parts.specs.Prelude.{plane_at};
ghost use Rattle.ca_clusters.specs.Clusters.{first_plane, GoesRound};
ghost use Rattle.ca_clusters.specs.inner.Groups.{AreCoursesOf, AreGenerations, start_of};

use super::groups::Run;
use crate::shift::{Shift, shift_between};
use ca_parts::Phases;
use ca_plane::{Memory, Plane};
use std::alloc::Global;

/// The courses of the groups, if each of them is moved by the cluster's vector after its period.
pub(super) fn courses_of(
    alloc: Global,
    cluster: &Phases,
    runs: Vec<Run>,
) -> Result<Option<Vec<Phases>>, Memory>
    ensures { (next : List ℕ → ℕ) → All (λ run. AreGenerations next run.planes.items
        × (length run.planes.items ≡ length cluster.now.planes + 1)) runs.items
        → IfOk result (λ found. IfSome found
        (λ v. AreCoursesOf next cluster.now (map start_of runs.items) v.items)) }
{
    let mut courses = Vec::with_capacity(alloc, runs.len())?;
    'runs: for run in runs {
        if !is_back_with(cluster, &run.planes) {
            return Ok(None);
        }
        let Some(course) = course_of(run.planes) else {
            return Ok(None);
        };
        courses.push(course)?;
    }
    Ok(Some(courses))
}

// Whether the last plane is the first one, moved by the cluster's vector.
fn is_back_with(cluster: &Phases, planes: &[Plane]) -> bool
    ensures live { IsTrue result → IsLive (plane_at planes.now 0) }
    ensures back { IsTrue result → IsSame (plane_at planes.now (length planes.now - 1))
        (shifted (plane_at planes.now 0) cluster.now.dx cluster.now.dy) }
{
    let (Some(first), Some(last)) = (planes.first(), planes.last()) else {
        return false;
    };
    if first.is_empty() {
        return false;
    }
    match shift_between(first, last) {
        Some(shift) => is_vector(shift, cluster.vector()),
        None => false,
    }
}

// The course with the planes before the first one that is the one at the begin again, moved.
fn course_of(planes: Vec<Plane>) -> Option<Phases>
    requires { IsLive (plane_at planes.items 0) }
    ensures { (next : List ℕ → ℕ) → AreGenerations next planes.items
        → IfSome result (λ course. GoesRound next course × (first_plane course ≡ plane_at planes.items 0)) }
{
    let mut planes = planes;
    let mut k = 1;
    'planes: while k < planes.len() {
        if let Some(shift) = shift_between(&planes[0], &planes[k]) {
            planes.truncate(k);
            return course_with(planes, shift);
        }
        k += 1;
    }
    None
}

// The course with these planes, if the vector is no longer than that of a claim may be.
fn course_with(planes: Vec<Plane>, shift: Shift) -> Option<Phases>
    ensures { IfSome result (λ course. course ≡ record { planes = planes.items; dx = shift.dx; dy = shift.dy }) }
{
    let (Ok(dx), Ok(dy)) = (i64::try_from(shift.dx), i64::try_from(shift.dy)) else {
        return None;
    };
    Phases::new(planes, dx, dy)
}

// Whether both are the same way.
fn is_vector(shift: Shift, vector: (i64, i64)) -> bool
    ensures { IsTrue result ↔ (shift.dx ≡ vector.0) × (shift.dy ≡ vector.1) }
{
    shift.dx == i128::from(vector.0) && shift.dy == i128::from(vector.1)
}
