//! The first generation after which a plane is settled.

ghost use Rattle.std.specs.Prelude.{◌≡◌, ◌+◌, ◌-◌, ◌≤◌, ◌<◌, ℕ, List, replicate, IfOk, OnOk, IfSome};
ghost use Rattle.ca_plane.specs.Prelude.{Picture, IsAfter, longest_period, most_generations};
ghost use Rattle.ca_run.specs.Prelude.{LeaperGrows};
ghost use Rattle.ca_budget.specs.Prelude.{EndsAtLimit};
ghost use Rattle.ca_pattern.specs.Prelude.{ShowsTree, IsPattern};
ghost use Rattle.ca_census.specs.Files.{FitsFile};
ghost use Rattle.ca_census.specs.Settlings.{IsSettled, IsSettling};
ghost use Rattle.ca_census.specs.inner.Searches.{IsBetween};
ghost use Rattle.ca_census.specs.declared.reach.Reach.{Reach};

use crate::later_plane::plane_after;
use crate::reach::Reach;
use crate::search::find_settled;
use ca_clusters::{ClusterFault, earlier_clusters};
use ca_evolution::Observer;
use ca_parts::Phases;
use ca_plane::{Automaton, Plane};
use ca_quad::Tree;
use ca_run::{LeapFault, Leaper};
use std::alloc::Global;

/// How many generations after the start of a reach a plane is settled, and its cells and clusters then.
#[derive(Drop)]
pub struct Settling {
    pub generations: u64,
    pub plane: Plane,
    pub clusters: Vec<Phases>,
}

/// How many generations after the start of the reach the plane of a pattern's tree is settled first, and its clusters
/// then, if that is found. None says nothing of the plane.
///
/// # Errors
///
/// Fails where there is no work or no memory left for it.
pub fn settle<A: Automaton, O: Observer>(
    alloc: Global,
    leaper: &mut Leaper<A>,
    rule: &A,
    pattern: Tree,
    reach: Reach,
    observer: &mut O,
) -> Result<Option<Settling>, LeapFault>
    requires pattern { IsPattern leaper.old.nodes pattern }
    requires rule { rule.now ≡ leaper.old.rule }
    requires few { reach.start + reach.limit ≤ most_generations }
    requires budget { reach.budget < longest_period }
    ensures settling { (cells : Picture) → ShowsTree leaper.old.nodes pattern cells
        → IfOk result (λ found. IfSome found (IsSettling (A.next_of rule.now) cells reach)) }
    ensures fits { IfOk result (λ found. IfSome found (λ settling. FitsFile (A.state_count rule.now) settling.plane)) }
    ensures goes_on { LeaperGrows A leaper.old leaper.new }
    ensures work { EndsAtLimit leaper.new.spent result }
{
    // Says what holds of every leaper.
    let _ = leaper.store();
    let most = most_work(leaper.used(), leaper.work_limit(), reach.patience);
    match find_settled(alloc, leaper, rule, &pattern, reach, most, observer)? {
        Some(settled) => first_settling(
            alloc, leaper, rule, &pattern, reach, settled, most, observer,
        ),
        None => Ok(None),
    }
}

// Up to how many units of work in all the runs of the plane go.
fn most_work(used: u64, limit: u64, patience: Option<u64>) -> u64
    ensures { result ≤ limit }
{
    match patience {
        Some(units) => used.saturating_add(units).min(limit),
        None => limit,
    }
}

// The first generation after which the plane is settled, found by halves from some such generation.
fn first_settling<A: Automaton, O: Observer>(
    alloc: Global,
    leaper: &mut Leaper<A>,
    rule: &A,
    pattern: &Tree,
    reach: Reach,
    settled: Settling,
    most: u64,
    observer: &mut O,
) -> Result<Option<Settling>, LeapFault>
    requires pattern { IsPattern leaper.old.nodes pattern.now }
    requires rule { rule.now ≡ leaper.old.rule }
    requires few { reach.start + reach.limit ≤ most_generations }
    requires within { settled.generations ≤ reach.limit }
    requires settled { (cells : Picture) → ShowsTree leaper.old.nodes pattern.now cells
        → IsSettled (A.next_of rule.now) cells reach settled }
    requires fits { FitsFile (A.state_count rule.now) settled.plane }
    ensures settling { (cells : Picture) → ShowsTree leaper.old.nodes pattern.now cells
        → IfOk result (λ found. IfSome found (IsSettling (A.next_of rule.now) cells reach)) }
    ensures fits { IfOk result (λ found. IfSome found (λ settling. FitsFile (A.state_count rule.now) settling.plane)) }
    ensures goes_on { LeaperGrows A leaper.old leaper.new }
    ensures work { EndsAtLimit leaper.new.spent result }
{
    // Says what holds of every leaper.
    let _ = leaper.store();
    let states = rule.states();
    let mut between = Between {
        settled,
        unsettled_before: 0,
    };
    'halves: while between.unsettled_before < between.settled.generations {
        let middle = between.middle();
        let generations = reach.start + middle;
        let Some(plane) = plane_after(alloc, leaper, states, *pattern, generations, most, observer)?
        else {
            return Ok(None);
        };
        match between.halve(alloc, middle, plane) {
            Ok(()) => {}
            Err(ClusterFault::Memory) => return Err(LeapFault::Memory),
            Err(_) => return Ok(None),
        }
    }
    Ok(Some(between.settled))
}

// A number of generations after which a plane is settled, and one before which it isn't.
#[derive(Drop)]
struct Between {
    settled: Settling,
    unsettled_before: u64,
}

impl Between {
    // The number in the middle.
    fn middle(&self) -> u64
        requires { self.now.unsettled_before < self.now.settled.generations }
        ensures from { self.now.unsettled_before ≤ result }
        ensures before { result < self.now.settled.generations }
    {
        self.unsettled_before + (self.settled.generations - self.unsettled_before) / 2
    }

    // Looks whether the plane is settled at a number of generations between them: this is the plane then.
    fn halve(&mut self, alloc: Global, middle: u64, plane: Plane) -> Result<(), ClusterFault>
        requires from { self.old.unsettled_before ≤ middle }
        requires before { middle < self.old.settled.generations }
        requires few { self.old.settled.generations ≤ most_generations }
        ensures between { (next : List ℕ → ℕ) (cells : Picture) (reach : Reach) → next (replicate 9 0) ≡ 0
            → IsAfter next cells (reach.start + middle) plane → IsBetween next cells reach self.old
            → OnOk result (IsBetween next cells reach self.new) }
        ensures fits { (states : ℕ) → FitsFile states self.old.settled.plane → FitsFile states plane
            → OnOk result (FitsFile states self.new.settled.plane) }
        ensures order { OnOk result (self.new.unsettled_before ≤ self.new.settled.generations) }
        ensures within { OnOk result (self.new.settled.generations ≤ self.old.settled.generations) }
        ensures nearer { OnOk result (self.new.settled.generations - self.new.unsettled_before
            < self.old.settled.generations - self.old.unsettled_before) }
    {
        let n = self.settled.generations - middle;
        match earlier_clusters(alloc, &self.settled.clusters, n, &plane)? {
            Some(clusters) => {
                self.settled = Settling {
                    generations: middle,
                    plane,
                    clusters,
                };
                Ok(())
            }
            None => {
                self.unsettled_before = middle + 1;
                Ok(())
            }
        }
    }
}
