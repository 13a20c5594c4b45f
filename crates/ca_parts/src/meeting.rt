//! When two parts meet that come back, each alone.

ghost use Rattle.std.specs.Prelude.{◌≡◌, ℕ, suc, ◌*◌, ◌≤◌, ◌↔◌, List, IsTrue, IsNone, IfSome};
ghost use Rattle.ca_plane.specs.Prelude.{Picture};
ghost use Rattle.ca_parts.specs.Phases.{ArePhases};
ghost use Rattle.ca_parts.specs.Meetings.{IsMeeting, IfNotYet, AreApartAfter, IsShownMeeting};
ghost use Rattle.ca_parts.specs.Partings.{AreParted, EndPeriods, GoOneWay, EndsRound};
ghost use Rattle.ca_parts.specs.inner.Courses.{IsWayBetween};
ghost use Rattle.ca_parts.specs.inner.Apart.{IsShortWay};

use crate::apart::{Way, are_further};
use crate::phases::Phases;
use crate::track::{go_alike, stay_clear, way_between};

/// When two parts meet, that is, aren't apart: some window of three by three cells sees live cells of both.
#[derive(Clone, Copy, Debug, PartialEq, Eq)]
pub enum Meeting {
    /// They never do.
    Never,
    /// First after that many generations.
    At(u64),
    /// Not within as many generations as were looked at. Whether they do later isn't known.
    NotYet,
}

/// When the two parts meet, where each goes on as if it were alone. No more than `most` generations are looked at:
/// that they don't meet yet is said only where none of them shows that they never do.
///
/// Parts are known at once never to meet where all that they ever cover lies apart on an axis, or moves apart there.
/// Else they are looked at generation by generation, until that is so, or until both periods end and both have gone
/// the same way.
///
/// Of planes that are given as a period of a part that isn't known to come back, it tells what they show. So the planes
/// of its first generations tell of these generations.
pub fn first_meeting(one: &Phases, other: &Phases, most: u64) -> Meeting
    ensures meeting { (next : List ℕ → ℕ) (p q : Picture) → ArePhases next p one.now → ArePhases next q other.now
        → IsMeeting next p q most result }
    ensures shown { IsShownMeeting one.now other.now most result }
    ensures parted { IfNotYet result ((n : ℕ) → n ≤ most → AreParted one.now other.now n → ⊥) }
    ensures round { IfNotYet result ((n : ℕ) → n ≤ most → EndsRound one.now other.now (suc n) → ⊥) }
{
    shown_meeting(one, other, most)
}

// The same of what the planes show.
fn shown_meeting(one: &Phases, other: &Phases, most: u64) -> Meeting
    ensures meeting { IsShownMeeting one.now other.now most result }
    ensures parted { IfNotYet result ((n : ℕ) → n ≤ most → AreParted one.now other.now n → ⊥) }
    ensures round { IfNotYet result ((n : ℕ) → n ≤ most → EndsRound one.now other.now (suc n) → ⊥) }
{
    let mut n = 0;
    'generations: loop {
        if stay_apart(one, other, n) {
            return Meeting::Never;
        }
        if !are_apart_after(one, other, n) {
            return Meeting::At(n);
        }
        if closes_round(one, other, n) {
            return Meeting::Never;
        }
        if n == most {
            return Meeting::NotYet;
        }
        n += 1;
    }
}

// Whether it is known at once that they are apart after n generations and more.
fn stay_apart(one: &Phases, other: &Phases, n: u64) -> bool
    ensures apart { IsTrue result → (k : ℕ) → n ≤ k → AreApartAfter one.now other.now k }
    ensures parted { AreParted one.now other.now n → IsTrue result }
{
    stay_clear(one.across(), other.across(), n) || stay_clear(one.down(), other.down(), n)
}

// Whether they are apart after n generations.
fn are_apart_after(one: &Phases, other: &Phases, n: u64) -> bool
    ensures { IsTrue result ↔ AreApartAfter one.now other.now n }
{
    match near_way(one, other, n) {
        Some(way) => are_further(one.plane_after(n), way, other.plane_after(n)),
        None => true,
    }
}

// The way between the two after n generations, where what they cover doesn't show that they are apart.
fn near_way(one: &Phases, other: &Phases, n: u64) -> Option<Way>
    ensures none { IsNone result → AreApartAfter one.now other.now n }
    ensures some { IfSome result (IsWayBetween one.now other.now n) }
    ensures short { IfSome result IsShortWay }
{
    let dx = way_between(one.across(), other.across(), n)?;
    let dy = way_between(one.down(), other.down(), n)?;
    Some(Way { dx, dy })
}

// Whether both periods end with the generation after n, and both go the same way.
fn closes_round(one: &Phases, other: &Phases, n: u64) -> bool
    ensures { IsTrue result ↔ EndsRound one.now other.now (suc n) }
{
    end_periods(one, other, n) && go_one_way(one, other)
}

// Whether both periods end with the generation after n.
fn end_periods(one: &Phases, other: &Phases, n: u64) -> bool
    ensures { IsTrue result ↔ EndPeriods one.now other.now (suc n) }
{
    ends_period(one.period(), n) && ends_period(other.period(), n)
}

// Whether both go the same way over the same time.
fn go_one_way(one: &Phases, other: &Phases) -> bool
    ensures { IsTrue result ↔ GoOneWay one.now other.now }
{
    go_alike(one.across(), other.across()) && go_alike(one.down(), other.down())
}

// Whether a period ends with the generation after n.
fn ends_period(period: u64, n: u64) -> bool
    requires { 1 ≤ period }
    ensures { IsTrue result ↔ (turns : ℕ) × (suc n ≡ turns * period) }
{
    n % period == period - 1
}
