//! Groups of islands that are run side by side with their cluster.

ghost use Rattle.std.specs.Prelude.{◌≡◌, ℕ, ◌<◌, ℤ, [], length, map, IfOk, IfSome, IsNone, IsTrue};
ghost use Rattle.std.specs.List.{All, AllZip, flat_map};
ghost use Rattle.ca_plane.specs.Prelude.{cell, IsSparse};
ghost use Rattle.ca_steps.specs.Prelude.{HasStates};
ghost use Rattle.ca_parts.specs.Prelude.{plane_at};
ghost use Rattle.ca_clusters.specs.inner.Groups.{AreGroups, IsGroupRun, IsOneLater, IsReady};
ghost use Rattle.ca_clusters.specs.inner.Groups.{IsUnionOf, latest_of, start_of};

use ca_parts::Phases;
use ca_plane::{Automaton, Memory, MoveFault, Plane, Point};
use ca_steps::{RunFault, step};
use std::alloc::Global;

/// A group, by its planes so far, generation by generation, alone.
#[derive(Drop)]
pub(super) struct Run {
    pub(super) planes: Vec<Plane>,
}

/// What groups of a cluster show that are run for one of its periods, each as if it were alone.
#[derive(Drop)]
pub(super) enum GroupRun {
    /// Together they show what the cluster does, from the first plane up to that one period later.
    Same(Vec<Run>),
    /// After some generations they differ from it for the first time.
    Differs(Difference),
    /// Two of them are live at one place where the cluster is too, or they leave the plane.
    Lost,
}

/// A place at which groups differ from their cluster, after as many generations as their last planes are.
#[derive(Drop)]
pub(super) struct Difference {
    pub(super) runs: Vec<Run>,
    pub(super) at: Point,
}

/// Runs the groups for one period of the cluster, or until they differ from it.
pub(super) fn run_groups<A: Automaton>(
    alloc: Global,
    rule: &A,
    cluster: &Phases,
    groups: Vec<Plane>,
) -> Result<GroupRun, Memory>
    requires groups { AreGroups (cell (plane_at cluster.now.planes 0)) groups.items }
    requires states { HasStates (A.state_count rule.now) (plane_at cluster.now.planes 0) }
    ensures { IfOk result (IsGroupRun (A.next_of rule.now) (A.state_count rule.now)
        cluster.now.planes groups.items) }
{
    // A rule that tells its states has some.
    let _states = rule.states();
    let mut runs = first_runs(alloc, groups)?;
    'generations: for n in 1..cluster.period() {
        let Some(later) = later_runs(alloc, rule, runs)? else {
            return Ok(GroupRun::Lost);
        };
        let whole = whole_of(alloc, &later)?;
        if let Some(at) = whole.plane.difference(cluster.plane(n as usize)) {
            return Ok(GroupRun::Differs(Difference { runs: later, at }));
        }
        if !whole.is_disjoint {
            return Ok(GroupRun::Lost);
        }
        runs = later;
    }
    let Some(last) = later_runs(alloc, rule, runs)? else {
        return Ok(GroupRun::Lost);
    };
    match last_difference(alloc, cluster, &last)? {
        Some(at) => Ok(GroupRun::Differs(Difference { runs: last, at })),
        None => Ok(GroupRun::Same(last)),
    }
}

// A place at which the groups, one period of the cluster after its first plane, differ from that plane moved by the
// cluster's vector, if one is found.
fn last_difference(alloc: Global, cluster: &Phases, last: &[Run]) -> Result<Option<Point>, Memory>
    requires { All (λ run. 0 < length run.planes.items) last.now }
{
    let whole = whole_of(alloc, last)?;
    // A course has at least one plane.
    let _period = cluster.period();
    let (dx, dy) = cluster.vector();
    match cluster.plane(0).translated(alloc, dx, dy) {
        Ok(end) => Ok(whole.plane.difference(&end)),
        Err(MoveFault::Memory) => Err(Memory),
        Err(MoveFault::Range) => Ok(None),
    }
}

// The groups, before they are run.
fn first_runs(alloc: Global, groups: Vec<Plane>) -> Result<Vec<Run>, Memory>
    ensures starts { IfOk result (λ v. map start_of v.items ≡ groups.items) }
    ensures one { IfOk result (λ v. All (λ run. length run.planes.items ≡ 1) v.items) }
    ensures sparse { IfOk result (λ _. All IsSparse groups.items) }
{
    let mut runs = Vec::with_capacity(alloc, groups.len())?;
    'groups: for group in groups {
        // A plane lists its live cells alone.
        let _ = group.as_slice();
        let mut planes = Vec::new(alloc);
        planes.push(group)?;
        runs.push(Run { planes })?;
    }
    Ok(runs)
}

// The groups one generation later, if none of them leaves the plane.
fn later_runs<A: Automaton>(
    alloc: Global,
    rule: &A,
    runs: Vec<Run>,
) -> Result<Option<Vec<Run>>, Memory>
    requires { All (IsReady (A.state_count rule.now)) runs.items }
    ensures { IfOk result (λ found. IfSome found
        (λ v. AllZip (IsOneLater (A.next_of rule.now) (A.state_count rule.now)) runs.items v.items)) }
{
    let mut later = Vec::with_capacity(alloc, runs.len())?;
    'runs: for run in runs {
        let Some(longer) = later_run(alloc, rule, run)? else {
            return Ok(None);
        };
        later.push(longer)?;
    }
    Ok(Some(later))
}

// A group one generation later, if it doesn't leave the plane.
fn later_run<A: Automaton>(alloc: Global, rule: &A, run: Run) -> Result<Option<Run>, Memory>
    requires { IsReady (A.state_count rule.now) run }
    ensures { IfOk result (λ found. IfSome found
        (IsOneLater (A.next_of rule.now) (A.state_count rule.now) run)) }
{
    let mut planes = run.planes;
    match step(alloc, rule, &planes[planes.len() - 1]) {
        Ok(later) => {
            planes.push(later)?;
            Ok(Some(Run { planes }))
        }
        Err(RunFault::Memory) => Err(Memory),
        Err(RunFault::Range) => Ok(None),
    }
}

// What all groups show last.
#[derive(Drop)]
struct Whole {
    // Its cells: of two at one place, that of the first group.
    plane: Plane,
    // Whether no two groups are live at one place.
    is_disjoint: bool,
}

// What all groups show last, as one plane.
fn whole_of(alloc: Global, runs: &[Run]) -> Result<Whole, Memory>
    requires { All (λ run. 0 < length run.planes.items) runs.now }
    ensures { IfOk result (λ whole. IsTrue whole.is_disjoint → IsUnionOf (map latest_of runs.now) whole.plane) }
{
    let cells = cells_of(alloc, runs)?;
    let count = cells.len();
    let plane = Plane::from_cells(alloc, cells)?;
    let is_disjoint = plane.len() == count;
    Ok(Whole { plane, is_disjoint })
}

// The cells of what all groups show last, one group after another.
fn cells_of(alloc: Global, runs: &[Run]) -> Result<Vec<(Point, u8)>, Memory>
    requires { All (λ run. 0 < length run.planes.items) runs.now }
    ensures cells { IfOk result (λ v. v.items ≡ flat_map latest_of runs.now) }
    ensures sparse { IfOk result (λ v. All (λ run. IsSparse (latest_of run)) runs.now) }
{
    let mut cells = Vec::new(alloc);
    'runs: for run in runs {
        cells.extend_from_slice(run.planes[run.planes.len() - 1].as_slice())?;
    }
    Ok(cells)
}

/// The groups, as they are at first, of which those are made one that the window of 3 by 3 cells round the place sees
/// one generation before they differ from the cluster.
pub(super) fn merged_near(alloc: Global, difference: Difference) -> Result<Vec<Plane>, Memory>
    ensures { (cells : ℤ → ℤ → ℕ) → AreGroups cells (map start_of difference.runs.items)
        → IfOk result (λ v. AreGroups cells v.items) }
{
    let mut seen = Vec::new(alloc);
    let mut groups = Vec::new(alloc);
    'runs: for run in difference.runs {
        let is_seen = is_near(&run, difference.at);
        let Some(group) = start(run) else {
            continue 'runs;
        };
        if is_seen {
            seen.extend_from_slice(group.as_slice())?;
        } else {
            groups.push(group)?;
        }
    }
    groups.push(Plane::from_cells(alloc, seen)?)?;
    Ok(groups)
}

// The group, as it was before it was run.
fn start(run: Run) -> Option<Plane>
    ensures some { IfSome result (λ p. p ≡ start_of run) }
    ensures none { IsNone result → start_of run ≡ [] }
{
    let mut planes = run.planes;
    planes.truncate(1);
    planes.pop()
}

// Whether a group is live in the window round a place one generation before its last plane.
fn is_near(run: &Run, at: Point) -> bool {
    if run.planes.len() < 2 {
        return false;
    }
    let before = &run.planes[run.planes.len() - 2];
    before.cells().any(|(cell, _)| is_in_window(cell, at))
}

// Whether the cell is in the window of 3 by 3 cells round the place.
fn is_in_window(cell: Point, at: Point) -> bool {
    cell.x.abs_diff(at.x) <= 1 && cell.y.abs_diff(at.y) <= 1
}
