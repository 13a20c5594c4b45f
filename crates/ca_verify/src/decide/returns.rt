//! When a pattern is there again before a claim's generations are over.

ghost use Rattle.std.specs.Prelude.{◌≡◌, ◌-◌, ◌≤◌, ℤ, IfOk, MatchOption};
ghost use Rattle.ca_plane.specs.Prelude.{Picture, shifted, IsAfter, most_generations};
ghost use Rattle.ca_quad.specs.Prelude.{cell};
ghost use Rattle.ca_run.specs.Prelude.{LeaperGrows};
ghost use Rattle.ca_budget.specs.Prelude.{EndsAtLimit};
ghost use Rattle.ca_evolution.specs.Prelude.{Takes};
ghost use Rattle.ca_text.specs.Prelude.{MayReturnBy, ShowsNothingForbidden};
ghost use Rattle.ca_verify.specs.inner.Returns.{IsSparedBefore, IsFirstReturn};
ghost use Rattle.ca_pattern.specs.Prelude.{ShowsTree, IsNearTree, IsPattern, HasLive, IsMove, IsNoMove, IsOnlyMove};
ghost use Rattle.ca_verify.specs.inner.Subjects.{ForbidsReturn, IsBackBy};

use super::Case;
use super::primes::{prime_factor, without_prime};
use ca_answers::Refutation;
use ca_evolution::{Observer, distance, tree_after, vector_if_back};
use ca_plane::{Automaton, Memory};
use ca_quad::{Store, Tree};
use ca_run::{LeapFault, Leaper};
use ca_text::Forbidden;
use std::alloc::Global;

/// The first return of the pattern before the claim's generations are over. Where the pattern is back then,
/// moved by a vector that is forbidden, and for no prime that divides their number after the number divided by
/// it, it is back at no earlier time. Where it is for one, that is a smaller number of the same kind.
pub(super) fn first_return<A: Automaton, O: Observer>(
    leaper: &mut Leaper<A>,
    case: &Case,
    observer: &mut O,
) -> Result<Option<Refutation>, LeapFault>
    requires { ForbidsReturn leaper.old.nodes case.now }
    ensures refutation { (cells : Picture) → ShowsTree leaper.old.nodes case.now.subject.pattern cells
        → (u v : ℤ) → MayReturnBy case.now.asks.forbidden u v
        → IsAfter (A.next_of leaper.old.rule) cells case.now.asks.generations (shifted cells u v)
        → IfOk result (λ refutation. MatchOption refutation
        (IsSparedBefore (A.next_of leaper.old.rule) cells case.now.asks.forbidden case.now.asks.generations)
        (IsFirstReturn (A.next_of leaper.old.rule) cells case.now.asks.forbidden case.now.asks.generations)) }
    ensures goes_on { LeaperGrows A leaper.old leaper.new }
    ensures takes { Takes leaper.old.spent.used leaper.new.spent.used
        (case.now.asks.generations - 1) case.now.subject.pattern.level case.now.asks.generations }
    ensures work { EndsAtLimit leaper.new.spent result }
{
    let mut time = case.asks.generations;
    let mut left = time;
    let mut found = None;
    'primes: while left > 1 {
        let prime = prime_factor(left);
        match return_at(leaper, case, time / prime, observer)? {
            Some(vector) => {
                found = Some(vector);
                time /= prime;
                left /= prime;
            }
            None => left = without_prime(left, prime),
        }
    }
    let Some((dx, dy)) = found else {
        return Ok(None);
    };
    Ok(Some(Refutation::Earlier { m: time, dx, dy }))
}

// The vector by which the pattern is there again after m generations, if it is and that is forbidden.
fn return_at<A: Automaton, O: Observer>(
    leaper: &mut Leaper<A>,
    case: &Case,
    m: u64,
    observer: &mut O,
) -> Result<Option<(i64, i64)>, LeapFault>
    requires case { ForbidsReturn leaper.old.nodes case.now }
    requires few { m ≤ most_generations }
    ensures back { (cells : Picture) → ShowsTree leaper.old.nodes case.now.subject.pattern cells
        → IfOk result (λ back. MatchOption back
        (ShowsNothingForbidden (A.next_of leaper.old.rule) cells case.now.asks.forbidden m)
        (IsBackBy (A.next_of leaper.old.rule) cells case.now.asks.forbidden m)) }
    ensures goes_on { LeaperGrows A leaper.old leaper.new }
    ensures takes { Takes leaper.old.spent.used leaper.new.spent.used 1 case.now.subject.pattern.level m }
    ensures work { EndsAtLimit leaper.new.spent result }
{
    let end = tree_after(leaper, &case.subject.pattern, m, observer)?;
    let pattern = &case.subject.pattern;
    match case.asks.forbidden {
        Forbidden::Anywhere => return_anywhere(case.alloc, leaper, &end, pattern),
        _ => match leaper.difference(end, *pattern)? {
            None => Ok(Some((0, 0))),
            Some(_) => Ok(None),
        },
    }
}

// The vector by which a tree shows a live pattern's cells moved, if there is one.
fn return_anywhere<A: Automaton>(
    alloc: Global,
    leaper: &mut Leaper<A>,
    end: &Tree,
    pattern: &Tree,
) -> Result<Option<(i64, i64)>, LeapFault>
    requires end { IsNearTree leaper.old.nodes end.now }
    requires pattern { IsPattern leaper.old.nodes pattern.now }
    requires live { HasLive (cell leaper.old.nodes pattern.now) }
    ensures back { IfOk result (λ back. MatchOption back (IsNoMove leaper.old.nodes end.now pattern.now)
        (λ v. IsMove leaper.old.nodes end.now pattern.now v.0 v.1)) }
    ensures goes_on { LeaperGrows A leaper.old leaper.new }
    ensures spent { leaper.new.spent ≡ leaper.old.spent }
    ensures work { EndsAtLimit leaper.new.spent result }
{
    let store = leaper.store();
    let Some((dx, dy)) = corner_vector(alloc, store, *end, *pattern)? else {
        return Ok(None);
    };
    vector_if_back(leaper, *end, *pattern, dx, dy)
}

// The vector from the corner of a live pattern's smallest box to that of a tree's, where the tree isn't empty:
// no other can move the pattern onto the tree.
fn corner_vector(
    alloc: Global,
    store: &Store,
    end: Tree,
    pattern: Tree,
) -> Result<Option<(i64, i64)>, Memory>
    requires end { IsNearTree store.now end }
    requires pattern { IsPattern store.now pattern }
    requires live { HasLive (cell store.now pattern) }
    ensures { IfOk result
        (λ vector. MatchOption vector (IsNoMove store.now end pattern) (IsOnlyMove store.now end pattern)) }
{
    let Some(from) = store.bounds(alloc, pattern)? else {
        unreachable!();
    };
    let Some(to) = store.bounds(alloc, end)? else {
        return Ok(None);
    };
    Ok(Some((distance(from.x0, to.x0), distance(from.y0, to.y0))))
}
