//! Parts of a plane, each of which is run as if it were alone.

ghost use Rattle.std.specs.Prelude.{◌≡◌, ◌≤◌, ◌<◌, length, IfOk, IsErrOf, IsTrue, IsFalse};
ghost use Rattle.ca_plane.specs.Prelude.{IsLive, longest_period};
ghost use Rattle.ca_steps.specs.Prelude.{HasStates};
ghost use Rattle.ca_parts.specs.Phases.{IsShortStep, plane_at};
ghost use Rattle.ca_clusters.specs.Clusters.{first_plane};
ghost use Rattle.ca_clusters.specs.inner.Runs.{IsBeginning, IsNextOf, IsRun, IsRunTo, LeavesAlone};

use crate::budget::take;
use crate::fault::ClusterFault;
use crate::shift::{Shift, shift_between};
use ca_parts::Phases;
use ca_plane::{Automaton, Memory, Plane};
use ca_steps::{RunFault, step};
use std::alloc::Global;

/// A part of a plane, by what it shows from the first generation on, alone: where it is known to come back, the
/// planes of one period, and else those of as many generations as it was run so far.
#[derive(Drop)]
pub(crate) struct Part {
    pub(crate) shows: Phases,
    pub(crate) is_back: bool,
}

/// A part that isn't run yet.
pub(crate) fn first_part<A: Automaton>(
    alloc: Global,
    rule: &A,
    plane: Plane,
) -> Result<Part, Memory>
    requires live { IsLive plane }
    requires states { HasStates (A.state_count rule.now) plane }
    ensures run { IfOk result (IsRun (A.next_of rule.now) (A.state_count rule.now)) }
    ensures first { IfOk result (λ part. first_plane part.shows ≡ plane) }
{
    let mut planes = Vec::new(alloc);
    planes.push(plane)?;
    Ok(open_part(planes))
}

/// The part run on until it is back, or `horizon` generations are known. Each step of a plane takes a unit from
/// the budget for each live cell, and one besides.
pub(crate) fn run_part<A: Automaton>(
    alloc: Global,
    rule: &A,
    part: Part,
    horizon: u64,
    budget: &mut u64,
) -> Result<Part, ClusterFault>
    requires run { IsRun (A.next_of rule.now) (A.state_count rule.now) part }
    requires most { horizon < longest_period }
    ensures run { IfOk result (IsRunTo (A.next_of rule.now) (A.state_count rule.now) horizon) }
    ensures first { IfOk result (λ later. first_plane later.shows ≡ first_plane part.shows) }
    ensures budget { budget.new ≤ budget.old }
    ensures spent { IsErrOf result ClusterFault.Spent → budget.new ≡ 0 }
    ensures range { IsErrOf result ClusterFault.Range
        → LeavesAlone (A.next_of rule.now) (first_plane part.shows) }
{
    if part.is_back || part.shows.period() > horizon {
        return Ok(part);
    }
    // A rule that tells its states is sound: nothing is born where all is empty, so that no part goes far.
    let _states = rule.states();
    let mut planes = part.shows.into_planes();
    'generations: while planes.len() as u64 <= horizon {
        let later = later_plane(alloc, rule, &planes, budget)?;
        if let Some(shift) = shift_between(&planes[0], &later) {
            return Ok(round_part(planes, shift));
        }
        planes.push(later)?;
    }
    Ok(open_part(planes))
}

// The plane one generation after the last one.
fn later_plane<A: Automaton>(
    alloc: Global,
    rule: &A,
    planes: &[Plane],
    budget: &mut u64,
) -> Result<Plane, ClusterFault>
    requires { IsBeginning (A.next_of rule.now) (A.state_count rule.now) planes.now }
    ensures later { IfOk result (IsNextOf (A.next_of rule.now) (A.state_count rule.now) planes.now) }
    ensures budget { budget.new ≤ budget.old }
    ensures spent { IsErrOf result ClusterFault.Spent → budget.new ≡ 0 }
    ensures range { IsErrOf result ClusterFault.Range
        → LeavesAlone (A.next_of rule.now) (plane_at planes.now 0) }
{
    let last = &planes[planes.len() - 1];
    if !take(budget, last.as_slice().len() as u64 + 1) {
        return Err(ClusterFault::Spent);
    }
    match step(alloc, rule, last) {
        Ok(later) => Ok(later),
        Err(RunFault::Memory) => Err(ClusterFault::Memory),
        Err(RunFault::Range) => Err(ClusterFault::Range),
    }
}

// The part with these planes, which isn't known to come back.
fn open_part(planes: Vec<Plane>) -> Part
    requires some { 1 ≤ length planes.items }
    requires most { length planes.items ≤ longest_period }
    ensures planes { result.shows.planes ≡ planes.items }
    ensures open { IsFalse result.is_back }
{
    match Phases::new(planes, 0, 0) {
        Some(shows) => Part {
            shows,
            is_back: false,
        },
        None => unreachable!(),
    }
}

// The part with these planes, which is back one generation after the last one, moved by the vector.
fn round_part(planes: Vec<Plane>, shift: Shift) -> Part
    requires some { 1 ≤ length planes.items }
    requires most { length planes.items ≤ longest_period }
    requires across { IsShortStep shift.dx }
    requires down { IsShortStep shift.dy }
    ensures shows { result.shows ≡ record { planes = planes.items; dx = shift.dx; dy = shift.dy } }
    ensures back { IsTrue result.is_back }
{
    match Phases::new(planes, shift.dx as i64, shift.dy as i64) {
        Some(shows) => Part {
            shows,
            is_back: true,
        },
        None => unreachable!(),
    }
}
