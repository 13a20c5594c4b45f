//! Parts that are made one.

ghost use Rattle.std.specs.Prelude.{◌≡◌, ℕ, ◌+◌, ◌<◌, ℤ, length, map, replicate, IfOk};
ghost use Rattle.std.specs.List.{All, AllPairs};
ghost use Rattle.ca_plane.specs.Prelude.{cell, IsSparse};
ghost use Rattle.ca_clusters.specs.Objects.{AreDisjoint};
ghost use Rattle.ca_clusters.specs.inner.Runs.{AreRuns, IsRun, origin};
ghost use Rattle.ca_clusters.specs.inner.Encounters.{MeetFirst};

use crate::part::{Part, first_part};
use ca_plane::{Automaton, Memory, Plane};
use std::alloc::Global;

/// The parts with two of them made one, which isn't run yet.
pub(crate) fn with_merged<A: Automaton>(
    alloc: Global,
    rule: &A,
    parts: Vec<Part>,
    one: usize,
    other: usize,
) -> Result<Vec<Part>, Memory>
    requires order { one < other }
    requires there { other < length parts.items }
    requires quiet { A.next_of rule.now (replicate 9 0) ≡ 0 }
    requires runs { All (IsRun (A.next_of rule.now) (A.state_count rule.now)) parts.items }
    requires disjoint { AllPairs (λ p q. AreDisjoint (cell p) (cell q)) (map origin parts.items) }
    ensures { (cells : ℤ → ℤ → ℕ) (n : ℕ)
        → AreRuns (A.next_of rule.now) (A.state_count rule.now) cells parts.items
        → MeetFirst (A.next_of rule.now) parts.items one other n
        → IfOk result (λ v. AreRuns (A.next_of rule.now) (A.state_count rule.now) cells v.items) }
{
    let mut parts = parts;
    let second = parts.remove(other);
    let first = parts.remove(one);
    let both = union(alloc, first.shows.plane(0), second.shows.plane(0))?;
    parts.push(first_part(alloc, rule, both)?)?;
    Ok(parts)
}

/// The plane with the live cells of both, of which none are at one place.
pub(crate) fn union(alloc: Global, one: &Plane, other: &Plane) -> Result<Plane, Memory>
    ensures both { AreDisjoint (cell one.now) (cell other.now)
        → IfOk result (λ q. (x y : ℤ) → cell q x y ≡ cell one.now x y + cell other.now x y) }
    ensures sparse { IfOk result IsSparse }
{
    let (first, second) = (one.as_slice(), other.as_slice());
    let mut cells = Vec::with_capacity(alloc, first.len() + second.len())?;
    cells.extend_from_slice(first)?;
    cells.extend_from_slice(second)?;
    Plane::from_cells(alloc, cells)
}
