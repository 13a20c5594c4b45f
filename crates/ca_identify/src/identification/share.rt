//! Shares of a leaper's work: until how many units of it are used up, a part of a search goes on.

ghost use Rattle.std.specs.Prelude.{◌≡◌, ◌+◌, ◌≤◌, max, IfOk};
ghost use Rattle.ca_quad.specs.Prelude.{cell};
ghost use Rattle.ca_run.specs.Prelude.{LeaperGrows};
ghost use Rattle.ca_evolution.specs.Prelude.{CanGoOn, step_work};
ghost use Rattle.ca_pattern.specs.Prelude.{IsLaterTree};
ghost use Rattle.ca_identify.specs.inner.Stages.{EndsAfter};

use ca_evolution::later_tree_within;
use ca_plane::Automaton;
use ca_quad::Tree;
use ca_run::{LeapFault, Leaper, Unwatched};

/// How far a part of a search goes: up to which generation, and until how many units of work are used up.
#[derive(Clone, Copy)]
pub(super) struct Reach {
    pub(super) limit: u64,
    pub(super) until: u64,
}

/// Where a share ends that begins after `used` units of work, of no more than `share` units, and no later than `until`.
pub(super) fn share_end(used: u64, share: u64, until: u64) -> u64
    ensures share { result ≤ used + share }
    ensures within { result ≤ until }
{
    used.saturating_add(share).min(until)
}

/// The tree after `generations` generations, of the smallest level. `Work` is reported where `until` units are used up.
pub(super) fn later_within<A: Automaton>(
    leaper: &mut Leaper<A>,
    tree: Tree,
    generations: u64,
    until: u64,
) -> Result<Tree, LeapFault>
    requires { CanGoOn (A.next_of leaper.old.rule) leaper.old.nodes tree generations }
    ensures later { IfOk result (IsLaterTree (A.next_of leaper.old.rule)
        (cell leaper.old.nodes tree) generations leaper.new.nodes) }
    ensures goes_on { LeaperGrows A leaper.old leaper.new }
    ensures bounded { leaper.new.spent.used ≤ max leaper.old.spent.used until }
    ensures one { generations ≡ 1 → leaper.new.spent.used ≤ leaper.old.spent.used + step_work tree.level }
    ensures work { EndsAfter until leaper.new.spent result }
{
    match later_tree_within(leaper, tree, generations, until, &mut Unwatched)? {
        Some(later) => Ok(later),
        None => Err(LeapFault::Work),
    }
}
