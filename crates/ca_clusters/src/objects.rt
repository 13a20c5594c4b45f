//! The objects of a cluster: what goes on in it side by side, each as if it were alone.

ghost use Rattle.std.specs.Prelude.{IfOk};
ghost use Rattle.ca_clusters.specs.Clusters.{first_plane, GoesRound};
ghost use Rattle.ca_clusters.specs.Objects.{AreObjects};

mod courses;
mod grouping;
mod groups;

use ca_parts::Phases;
use ca_plane::{Automaton, Memory};
use grouping::grouped;
use std::alloc::Global;

/// The objects of a cluster, each by its course: each comes back alone, no two of them touch at first, and at all times
/// they are the cluster together, no two of them in one place.
///
/// Its islands are tried first. Where islands go on otherwise together than alone, those that meet there are put into
/// one group. Where no grouping is found, the cluster is one object. Whether a finer one exists isn't promised.
///
/// # Errors
///
/// Fails where there is no memory.
pub fn objects_of<A: Automaton>(
    alloc: Global,
    rule: &A,
    cluster: Phases,
) -> Result<Vec<Phases>, Memory>
    ensures { GoesRound (A.next_of rule.now) cluster
        → IfOk result (λ v. AreObjects (A.next_of rule.now) (first_plane cluster) v.items) }
{
    let states = rule.states();
    if let Some(objects) = grouped(alloc, rule, &cluster, states)? {
        return Ok(objects);
    }
    let mut objects = Vec::new(alloc);
    objects.push(cluster)?;
    Ok(objects)
}
