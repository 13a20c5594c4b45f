//! Whether a claim is true of patterns that stand in a leaper's store, by leaps.

ghost use Rattle.std.specs.Prelude.{◌≡◌, ◌≢◌, ◌⊎◌, ℤ, None, IfOk, IfSome, IsTrue, IsFalse, MatchOption};
ghost use Rattle.ca_plane.specs.Prelude.{Picture, cell as plane_cell, after, IsAfter};
ghost use Rattle.ca_quad.specs.Prelude.{IsDead, IsSoundStore, cell};
ghost use Rattle.ca_run.specs.Prelude.{LeaperGrows};
ghost use Rattle.ca_budget.specs.Prelude.{EndsAtLimit};
ghost use Rattle.ca_budget.specs.declared.fault.LeapFault.TheVariants as leap_fault;
ghost use Rattle.ca_answers.specs.Prelude.{most_runs, IsNoMoreThan, IsReason};
ghost use Rattle.ca_text.specs.Prelude.{IsShift, claimed_cells, IsTrueClaim};
ghost use Rattle.ca_answers.specs.declared.cause.Cause.TheVariants.{Work, Memory as NoMemory};
ghost use Rattle.ca_answers.specs.declared.verdict.Verdict.TheVariants.{Refused};
ghost use Rattle.ca_evolution.specs.Prelude.{Takes};
ghost use Rattle.ca_verify.specs.inner.Decided.{IsDecided};
ghost use Rattle.ca_pattern.specs.Prelude.{ShowsTree, IsPattern, IsNearTree, HasLive, IsMoved};
ghost use Rattle.ca_verify.specs.inner.Subjects.{IsCase, AreShown, IsDifference};

mod deaths;
mod primes;
mod returns;

use ca_answers::{Cause, Refutation, Verdict};
use ca_evolution::{Observer, is_dead, moved_inside, tree_after};
use ca_plane::{Automaton, Memory, Plane};
use ca_quad::{Spot, Store, Tree};
use ca_run::{LeapFault, Leaper};
use ca_text::{Asks, Expected, Forbidden};
use deaths::first_death;
use returns::first_return;
use std::alloc::Global;

/// The trees that a claim is judged on.
#[derive(Drop)]
pub(crate) struct ClaimTrees {
    /// That of the claim's pattern.
    pub(crate) pattern: Tree,
    /// That of the other pattern that a claim may name; else the same one.
    pub(crate) other: Tree,
}

/// What is judged: the trees of a claim's patterns, and what the claim asks.
#[derive(Drop)]
pub(crate) struct Case {
    pub(crate) alloc: Global,
    pub(crate) subject: ClaimTrees,
    pub(crate) asks: Asks,
}

/// Whether the claim is true of the patterns under the leaper's rule. It is out of work only where all that
/// the leaper may use is used up.
pub(crate) fn decide<A: Automaton, O: Observer>(
    leaper: &mut Leaper<A>,
    case: &Case,
    observer: &mut O,
) -> Verdict
    requires { IsCase leaper.old.nodes case.now }
    ensures decided { (cells other : Picture) → AreShown leaper.old.nodes case.now.subject cells other
        → IsDecided (A.next_of leaper.old.rule) cells other case.now.asks result }
    ensures work { leaper.old.spent.used ≡ 0 → result ≡ Refused Work
        → IsNoMoreThan leaper.old.spent.limit case.now.asks case.now.subject.pattern.level }
{
    match refutation_of(leaper, case, observer) {
        Ok(None) => Verdict::Yes,
        Ok(Some(refutation)) => Verdict::No(refutation),
        Err(fault) => Verdict::Refused(cause_of_leap_fault(fault)),
    }
}

// The cause of a refusal where leaps came to no end.
fn cause_of_leap_fault(fault: LeapFault) -> Cause
    ensures cause { (result ≡ Work) ⊎ (result ≡ NoMemory) }
    ensures work { result ≡ Work → fault ≡ leap_fault.Work }
{
    match fault {
        LeapFault::Memory => Cause::Memory,
        LeapFault::Work => Cause::Work,
    }
}

// Why the claim is false, if it is.
fn refutation_of<A: Automaton, O: Observer>(
    leaper: &mut Leaper<A>,
    case: &Case,
    observer: &mut O,
) -> Result<Option<Refutation>, LeapFault>
    requires { IsCase leaper.old.nodes case.now }
    ensures refutation { (cells other : Picture) → AreShown leaper.old.nodes case.now.subject cells other
        → IfOk result (λ refutation. MatchOption refutation
        (IsTrueClaim (A.next_of leaper.old.rule) cells other case.now.asks)
        (IsReason (A.next_of leaper.old.rule) cells other case.now.asks)) }
    ensures goes_on { LeaperGrows A leaper.old leaper.new }
    ensures takes { Takes leaper.old.spent.used leaper.new.spent.used
        (most_runs case.now.asks.forbidden case.now.asks.generations)
        case.now.subject.pattern.level case.now.asks.generations }
    ensures work { EndsAtLimit leaper.new.spent result }
{
    if is_wrongly_dead(leaper, case) {
        return Ok(Some(Refutation::Empty));
    }
    if let Some(refutation) = find_wrong_cell(leaper, case, observer)? {
        return Ok(Some(refutation));
    }
    match case.asks.forbidden {
        Forbidden::Nothing => Ok(None),
        Forbidden::EmptyPlane => first_death(leaper, case, observer),
        _ => first_return(leaper, case, observer),
    }
}

// Whether no cell of a claim's pattern is live, and one must be.
fn is_wrongly_dead<A: Automaton>(leaper: &Leaper<A>, case: &Case) -> bool
    requires { IsCase leaper.now.nodes case.now }
    ensures dead { IsTrue result → IsTrue case.now.asks.live
        × IsDead (cell leaper.now.nodes case.now.subject.pattern) }
    ensures live { IsFalse result → IsTrue case.now.asks.live
        → HasLive (cell leaper.now.nodes case.now.subject.pattern) }
{
    case.asks.live && is_dead(leaper.store(), &case.subject.pattern)
}

// Where the cells after the claim's generations aren't the claimed ones, if they aren't.
fn find_wrong_cell<A: Automaton, O: Observer>(
    leaper: &mut Leaper<A>,
    case: &Case,
    observer: &mut O,
) -> Result<Option<Refutation>, LeapFault>
    requires { IsCase leaper.old.nodes case.now }
    ensures wrong { (cells other : Picture) → AreShown leaper.old.nodes case.now.subject cells other
        → IfOk result (λ refutation. MatchOption refutation
        (IsAfter (A.next_of leaper.old.rule) cells case.now.asks.generations
        (claimed_cells case.now.asks cells other))
        (IsDifference (after (A.next_of leaper.old.rule) cells case.now.asks.generations)
        (plane_cell (claimed_cells case.now.asks cells other)) case.now.asks.generations)) }
    ensures goes_on { LeaperGrows A leaper.old leaper.new }
    ensures takes { Takes leaper.old.spent.used leaper.new.spent.used 1 case.now.subject.pattern.level
        case.now.asks.generations }
    ensures work { EndsAtLimit leaper.new.spent result }
{
    let generations = case.asks.generations;
    let end = tree_after(leaper, &case.subject.pattern, generations, observer)?;
    let expected = claimed_tree(leaper, case)?;
    find_difference(leaper, &end, &expected, generations)
}

// The tree of the claimed cells.
fn claimed_tree<A: Automaton>(leaper: &mut Leaper<A>, case: &Case) -> Result<Tree, Memory>
    requires { IsCase leaper.old.nodes case.now }
    ensures near { IfOk result (IsNearTree leaper.new.nodes) }
    ensures shows { (cells other : Picture) → AreShown leaper.old.nodes case.now.subject cells other
        → IfOk result (λ tree. ShowsTree leaper.new.nodes tree (claimed_cells case.now.asks cells other)) }
    ensures goes_on { LeaperGrows A leaper.old leaper.new }
    ensures spent { leaper.new.spent ≡ leaper.old.spent }
{
    let asks = case.asks;
    match asks.expected {
        Expected::Own => moved_tree(leaper, case.subject.pattern, asks.dx, asks.dy),
        Expected::Other => moved_tree(leaper, case.subject.other, asks.dx, asks.dy),
        Expected::NoCells => empty_tree(case.alloc, leaper),
    }
}

// The tree of a pattern, moved by a shift.
fn moved_tree<A: Automaton>(
    leaper: &mut Leaper<A>,
    pattern: Tree,
    dx: i64,
    dy: i64,
) -> Result<Tree, Memory>
    requires pattern { IsPattern leaper.old.nodes pattern }
    requires right { IsShift dx }
    requires down { IsShift dy }
    ensures moved { IfOk result (IsMoved leaper.old.nodes pattern dx dy leaper.new.nodes) }
    ensures goes_on { LeaperGrows A leaper.old leaper.new }
    ensures spent { leaper.new.spent ≡ leaper.old.spent }
{
    let Some(moved) = moved_inside(leaper, pattern, dx, dy)? else {
        unreachable!();
    };
    Ok(moved)
}

// The tree of an empty plane.
fn empty_tree<A: Automaton>(alloc: Global, leaper: &mut Leaper<A>) -> Result<Tree, Memory>
    ensures near { IfOk result (IsNearTree leaper.new.nodes) }
    ensures dead { IfOk result (λ tree. IsDead (cell leaper.new.nodes tree)) }
    ensures goes_on { LeaperGrows A leaper.old leaper.new }
    ensures spent { leaper.new.spent ≡ leaper.old.spent }
{
    leaper.load_plane(&Plane::new(alloc))
}

// Where one tree isn't as another one, if it isn't.
fn find_difference<A: Automaton>(
    leaper: &mut Leaper<A>,
    end: &Tree,
    expected: &Tree,
    gens: u64,
) -> Result<Option<Refutation>, LeapFault>
    requires sound { IsSoundStore leaper.old.nodes }
    requires end { IsNearTree leaper.old.nodes end.now }
    requires expected { IsNearTree leaper.old.nodes expected.now }
    ensures difference { IfOk result (λ refutation. MatchOption refutation
        ((x y : ℤ) → cell leaper.old.nodes end.now x y ≡ cell leaper.old.nodes expected.now x y)
        (IsDifference (cell leaper.old.nodes end.now) (cell leaper.old.nodes expected.now) gens)) }
    ensures goes_on { LeaperGrows A leaper.old leaper.new }
    ensures spent { leaper.new.spent ≡ leaper.old.spent }
    ensures work { EndsAtLimit leaper.new.spent result }
{
    let found = leaper.difference(*end, *expected)?;
    Ok(difference_of(leaper.store(), *end, *expected, found, gens))
}

// What is reported of a place where two trees differ.
fn difference_of(
    store: &Store,
    end: Tree,
    expected: Tree,
    found: Option<Spot>,
    gens: u64,
) -> Option<Refutation>
    requires end { IsNearTree store.now end }
    requires expected { IsNearTree store.now expected }
    requires other { IfSome found (λ at. cell store.now end at.x at.y ≢ cell store.now expected at.x at.y) }
    ensures { MatchOption result (found ≡ None)
        (IsDifference (cell store.now end) (cell store.now expected) gens) }
{
    let at = found?;
    Some(difference_at(store, end, expected, at, gens))
}

// The cells of two trees at a place where they differ.
fn difference_at(store: &Store, end: Tree, expected: Tree, at: Spot, gens: u64) -> Refutation
    requires end { IsNearTree store.now end }
    requires expected { IsNearTree store.now expected }
    requires other { cell store.now end at.x at.y ≢ cell store.now expected at.x at.y }
    ensures { IsDifference (cell store.now end) (cell store.now expected) gens result }
{
    let found = store.cell(end, at);
    let claimed = store.cell(expected, at);
    let Ok(x) = i64::try_from(at.x) else {
        unreachable!();
    };
    let Ok(y) = i64::try_from(at.y) else {
        unreachable!();
    };
    Refutation::Differs {
        x,
        y,
        found,
        claimed,
        gens,
    }
}
