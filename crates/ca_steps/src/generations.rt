//! The plane after one generation, and after n.

ghost use Rattle.std.specs.Prelude.{◌-◌, ◌^◌, pos, neg_ℤ, ◌≤ℤ◌, IsTrue, IsFalse, IfOk, ◌↔◌};
ghost use Rattle.std.specs.List.{All};
ghost use Rattle.ca_plane.specs.Prelude.{IsSparse};
ghost use Rattle.ca_steps.specs.Reach.{IsInReach};
ghost use Rattle.ca_steps.specs.Stepped.{HasStates, IsStepped, Steps};
ghost use Rattle.ca_steps.specs.inner.OutOfReach.{IsOutOfReach};

use crate::fault::RunFault;
use crate::window::MovingWindow;
use ca_plane::limits::REACH;
use ca_plane::{Automaton, Memory, Plane, Point};
use std::alloc::Global;

// The greatest coordinate of a cell from which a step is taken.
const STEP_REACH: i64 = REACH as i64 - 2;

/// The plane after one generation.
///
/// # Errors
///
/// `Range` exactly where a live cell lies outside -(2^62 - 2) to 2^62 - 2, however much memory there is. Else
/// fails where there is no memory for the plane after one generation.
pub fn step<A: Automaton>(alloc: Global, rule: &A, plane: &Plane) -> Result<Plane, RunFault>
    requires { HasStates (A.state_count rule.now) plane.now }
    ensures { Steps (A.next_of rule.now) (A.state_count rule.now) plane.now 1 result }
{
    if !is_all_in_reach(plane) {
        return Err(RunFault::Range);
    }
    Ok(next_plane(alloc, rule, plane.as_slice())?)
}

// Whether each live cell is one from which a step is taken.
fn is_all_in_reach(plane: &Plane) -> bool
    ensures inside { IsTrue result → All (λ e. IsInReach e.0.x e.0.y) plane.now }
    ensures outside { IsFalse result → IsOutOfReach plane.now }
    ensures sparse { IsSparse plane.now }
{
    'cells: for (at, _) in plane.cells() {
        if !is_in_reach(at) {
            return false;
        }
    }
    true
}

fn is_in_reach(at: Point) -> bool
    ensures { IsTrue result ↔ IsInReach at.x at.y }
{
    is_coordinate_in_reach(at.x) && is_coordinate_in_reach(at.y)
}

fn is_coordinate_in_reach(coordinate: i64) -> bool
    ensures { IsTrue result ↔ (neg_ℤ (pos (2 ^ 62 - 2)) ≤ℤ coordinate) × (coordinate ≤ℤ pos (2 ^ 62 - 2)) }
{
    -STEP_REACH <= coordinate && coordinate <= STEP_REACH
}

// The plane one generation after one that shows these cells.
fn next_plane<A: Automaton>(alloc: Global, rule: &A, cells: &[(Point, u8)]) -> Result<Plane, Memory>
    requires states { HasStates (A.state_count rule.now) cells.now }
    requires sparse { IsSparse cells.now }
    requires reach { All (λ e. IsInReach e.0.x e.0.y) cells.now }
    ensures { IfOk result (IsStepped (A.next_of rule.now) (A.state_count rule.now) cells.now 1) }
{
    // A rule that tells its states is sound: nothing is born where all is empty, and it keeps to its states.
    let _states = rule.states();
    let mut window = MovingWindow::new(cells);
    let mut next = Plane::new(alloc);
    'places: while let Some(place) = window.next_place() {
        window.move_to(place);
        let state = rule.next(&window.nine());
        if state == 0 {
            continue 'places;
        }
        next.set(place, state)?;
    }
    Ok(next)
}

/// The plane after n generations.
///
/// # Errors
///
/// `Range` exactly where a live cell lies outside -(2^62 - 2) to 2^62 - 2 before one of the n steps, and the
/// steps before it had memory. Else fails where there is no memory for a plane.
pub fn steps<A: Automaton>(
    alloc: Global,
    rule: &A,
    plane: &Plane,
    n: u64,
) -> Result<Plane, RunFault>
    requires { HasStates (A.state_count rule.now) plane.now }
    ensures { Steps (A.next_of rule.now) (A.state_count rule.now) plane.now n result }
{
    if n == 0 {
        return Ok(plane.copy(alloc)?);
    }
    let mut now = step(alloc, rule, plane)?;
    'generations: for _ in 1..n {
        now = step(alloc, rule, &now)?;
    }
    Ok(now)
}
