//! The census of a plane that is settled.

ghost use Rattle.std.specs.Prelude.{ℕ, List, ◌++◌, IfOk, OnOk};
ghost use Rattle.std.specs.List.{All, AllZip};
ghost use Rattle.ca_plane.specs.Prelude.{IsSparse};
ghost use Rattle.ca_parts.specs.Prelude.{Course};
ghost use Rattle.ca_clusters.specs.Prelude.{GoesRound};
ghost use Rattle.ca_census.specs.Censuses.{IsCensusOf, IsEntryOf};

use crate::entry::{CensusObject, entry_of};
use crate::settling::Settling;
use ca_clusters::objects_of;
use ca_parts::Phases;
use ca_plane::{Automaton, Memory, Plane};
use std::alloc::Global;

/// After how many generations a plane is settled first, and its cells and the objects that it consists of then, cluster
/// by cluster.
#[derive(Drop)]
pub struct Census {
    pub generations: u64,
    pub plane: Plane,
    pub objects: Vec<CensusObject>,
}

/// The census of a plane that settles so.
///
/// # Errors
///
/// Fails where there is no memory for it.
pub fn census_of<A: Automaton>(
    alloc: Global,
    rule: &A,
    settling: Settling,
    coded: bool,
) -> Result<Census, Memory>
    ensures census { All (GoesRound (A.next_of rule.now)) settling.clusters.items
        → IfOk result (IsCensusOf (A.next_of rule.now) coded settling) }
    ensures sparse { IfOk result (λ census. All (λ o. IsSparse o.plane) census.objects.items) }
{
    let Settling {
        generations,
        plane,
        clusters,
    } = settling;
    let mut objects = Vec::new(alloc);
    'clusters: for cluster in clusters {
        let found = objects_of(alloc, rule, cluster)?;
        put_entries(alloc, &found, coded, &mut objects)?;
    }
    Ok(Census {
        generations,
        plane,
        objects,
    })
}

// Puts the entries on these objects after those so far.
fn put_entries(
    alloc: Global,
    objects: &[Phases],
    coded: bool,
    entries: &mut Vec<CensusObject>,
) -> Result<(), Memory>
    ensures entries { (next : List ℕ → ℕ) (before : List Course)
        → AllZip (IsEntryOf next coded) before entries.old.items → All (GoesRound next) objects.now
        → OnOk result (AllZip (IsEntryOf next coded) (before ++ objects.now) entries.new.items) }
    ensures sparse { All (λ o. IsSparse o.plane) entries.old.items
        → OnOk result (All (λ o. IsSparse o.plane) entries.new.items) }
{
    'objects: for object in objects {
        let entry = entry_of(alloc, object, coded)?;
        entries.push(entry)?;
    }
    Ok(())
}
