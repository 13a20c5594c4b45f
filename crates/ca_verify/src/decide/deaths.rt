//! When a pattern is dead before a claim's generations are over.

ghost use Rattle.std.specs.Prelude.{◌≡◌, ◌+◌, ◌/◌, ◌≤◌, [], IfOk, MatchOption};
ghost use Rattle.ca_plane.specs.Prelude.{Picture, IsAfter};
ghost use Rattle.ca_text.specs.declared.asks.Forbidden.TheVariants.{EmptyPlane};
ghost use Rattle.ca_run.specs.Prelude.{LeaperGrows};
ghost use Rattle.ca_budget.specs.Prelude.{EndsAtLimit};
ghost use Rattle.ca_evolution.specs.Prelude.{Takes};
ghost use Rattle.ca_verify.specs.inner.Spending.{most_looks};
ghost use Rattle.ca_verify.specs.inner.Returns.{IsSparedBefore, IsFirstDeath};
ghost use Rattle.ca_pattern.specs.inner.LifeSpans.{IsLifeSpan};
ghost use Rattle.ca_pattern.specs.Prelude.{ShowsTree};
ghost use Rattle.ca_verify.specs.inner.Subjects.{ForbidsDeath};

use super::Case;
use ca_answers::Refutation;
use ca_evolution::{Observer, is_dead, tree_after};
use ca_plane::Automaton;
use ca_run::{LeapFault, Leaper};

/// The earliest time after which the plane is empty, where it is before the claim's generations are over.
pub(super) fn first_death<A: Automaton, O: Observer>(
    leaper: &mut Leaper<A>,
    case: &Case,
    observer: &mut O,
) -> Result<Option<Refutation>, LeapFault>
    requires { ForbidsDeath leaper.old.nodes case.now }
    ensures refutation { (cells : Picture) → ShowsTree leaper.old.nodes case.now.subject.pattern cells
        → IsAfter (A.next_of leaper.old.rule) cells case.now.asks.generations []
        → IfOk result (λ refutation. MatchOption refutation
        (IsSparedBefore (A.next_of leaper.old.rule) cells EmptyPlane case.now.asks.generations)
        (IsFirstDeath (A.next_of leaper.old.rule) cells case.now.asks.generations)) }
    ensures goes_on { LeaperGrows A leaper.old leaper.new }
    ensures takes { Takes leaper.old.spent.used leaper.new.spent.used
        (most_looks case.now.asks.generations) case.now.subject.pattern.level case.now.asks.generations }
    ensures work { EndsAtLimit leaper.new.spent result }
{
    let m = life_span(leaper, case, observer)?;
    if m == case.asks.generations {
        return Ok(None);
    }
    Ok(Some(Refutation::Died { m }))
}

// After how many generations a live pattern's plane is empty first, where it's empty after the claim's. An
// empty plane stays empty, so the time is found by halves.
fn life_span<A: Automaton, O: Observer>(
    leaper: &mut Leaper<A>,
    case: &Case,
    observer: &mut O,
) -> Result<u64, LeapFault>
    requires { ForbidsDeath leaper.old.nodes case.now }
    ensures some { IfOk result (λ m. 1 ≤ m) }
    ensures most { IfOk result (λ m. m ≤ case.now.asks.generations) }
    ensures span { (cells : Picture) → ShowsTree leaper.old.nodes case.now.subject.pattern cells
        → IsAfter (A.next_of leaper.old.rule) cells case.now.asks.generations []
        → IfOk result (IsLifeSpan (A.next_of leaper.old.rule) cells) }
    ensures goes_on { LeaperGrows A leaper.old leaper.new }
    ensures takes { Takes leaper.old.spent.used leaper.new.spent.used
        (most_looks case.now.asks.generations) case.now.subject.pattern.level case.now.asks.generations }
    ensures work { EndsAtLimit leaper.new.spent result }
{
    // Says what holds of every leaper.
    let _ = leaper.store();
    let mut low: u64 = 0;
    let mut high = case.asks.generations;
    'halves: while high - low > 1 {
        let middle = half_way(low, high);
        let plane = tree_after(leaper, &case.subject.pattern, middle, observer)?;
        if is_dead(leaper.store(), &plane) {
            high = middle;
        } else {
            low = middle;
        }
    }
    Ok(high)
}

// The time half-way between two, or half a generation before it.
fn half_way(low: u64, high: u64) -> u64
    requires { low ≤ high }
    ensures { result ≡ (low + high) / 2 }
{
    low + (high - low) / 2
}
