//! Islands of a cluster that are put into groups, until each group goes on as if it were alone.

ghost use Rattle.std.specs.Prelude.{◌≡◌, IfOk, IfSome, IsTrue, ◌↔◌};
ghost use Rattle.ca_steps.specs.Prelude.{HasStates};
ghost use Rattle.ca_clusters.specs.Clusters.{first_plane, GoesRound};
ghost use Rattle.ca_clusters.specs.Objects.{AreObjects};

use super::courses::courses_of;
use super::groups::{GroupRun, merged_near, run_groups};
use ca_parts::{Phases, islands};
use ca_plane::{Automaton, Memory, Point};
use std::alloc::Global;

/// The objects of a cluster, where more than one is found. The rule has `states` states.
pub(super) fn grouped<A: Automaton>(
    alloc: Global,
    rule: &A,
    cluster: &Phases,
    states: u16,
) -> Result<Option<Vec<Phases>>, Memory>
    requires { states ≡ A.state_count rule.now }
    ensures { GoesRound (A.next_of rule.now) cluster.now → IfOk result (λ found. IfSome found
        (λ v. AreObjects (A.next_of rule.now) (first_plane cluster.now) v.items)) }
{
    // A course has at least one plane.
    let _period = cluster.period();
    let first = cluster.plane(0);
    if !has_states(first.as_slice(), states) {
        return Ok(None);
    }
    let mut groups = islands(alloc, first)?;
    'groupings: while groups.len() > 1 {
        let count = groups.len();
        match run_groups(alloc, rule, cluster, groups)? {
            GroupRun::Same(runs) => return courses_of(alloc, cluster, runs),
            GroupRun::Differs(difference) => {
                groups = merged_near(alloc, difference)?;
                if groups.len() >= count {
                    return Ok(None);
                }
            }
            GroupRun::Lost => return Ok(None),
        }
    }
    Ok(None)
}

// Whether all states are below the number.
fn has_states(cells: &[(Point, u8)], states: u16) -> bool
    ensures { IsTrue result ↔ HasStates states cells.now }
{
    cells.iter().all(|&(_, state)| u16::from(state) < states)
}
