//! What a live pattern is, as far as patience goes: the first two generations are looked at in any case, and the others while
//! the units of work that are allowed for them last.

ghost use Rattle.std.specs.Prelude.{◌≡◌, ◌+◌, ◌≤◌, ℕ, None, IfOk, IfSome};
ghost use Rattle.ca_plane.specs.Prelude.{Picture, cells_after};
ghost use Rattle.ca_quad.specs.Prelude.{cell};
ghost use Rattle.ca_run.specs.Prelude.{LeaperGrows};
ghost use Rattle.ca_budget.specs.Prelude.{EndsAtLimit};
ghost use Rattle.ca_answers.specs.Prelude.{IsIdentity, IsLook};
ghost use Rattle.ca_identify.specs.inner.Stages.{CanSearch, CanLookOn, IsHalted, TakesSearch, TakesSearchFrom};
ghost use Rattle.ca_pattern.specs.Prelude.{ShowsTree};

use super::ending::identity_of;
use super::growth::growth_of;
use super::search::{early_generations, first_generations, search};
use super::share::Reach;
use super::stage::First;
use super::walk::{Walk, look_on};
use ca_answers::{Identity, Look, Scope};
use ca_evolution::Observer;
use ca_plane::Automaton;
use ca_run::{LeapFault, Leaper};
use std::alloc::Global;

/// What a live pattern is, as far as the scope says, and the work that it takes to find that out.
pub(super) fn look<A: Automaton, O: Observer>(
    alloc: Global,
    leaper: &mut Leaper<A>,
    first: First,
    scope: Scope,
    observer: &mut O,
) -> Result<Look, LeapFault>
    requires first { CanSearch (A.next_of leaper.old.rule) leaper.old.nodes first scope.limit }
    requires some { 1 ≤ scope.limit }
    ensures look { (cells : Picture) → ShowsTree leaper.old.nodes first.tree cells
        → IfOk result (IsLook (A.next_of leaper.old.rule) cells scope) }
    ensures goes_on { LeaperGrows A leaper.old leaper.new }
    ensures takes { TakesSearch leaper.old.spent.used leaper.new.spent.used
        (cells_after (A.next_of leaper.old.rule) (cell leaper.old.nodes first.tree)) scope.limit }
    ensures counted { IfOk result (λ look. leaper.old.spent.used + look.work ≡ leaper.new.spent.used) }
    ensures work { EndsAtLimit leaper.new.spent result }
{
    let begun = leaper.used();
    let found = find(alloc, leaper, first, scope, observer)?;
    let used = leaper.used();
    Ok(Look {
        identity: found.identity,
        limit: found.limit,
        work: used - begun,
    })
}

// What a live pattern is, and the generations within which it is that.
#[derive(Clone, Copy)]
struct Found {
    identity: Identity,
    limit: u64,
}

// That of a live pattern, as far as the scope says.
fn find<A: Automaton, O: Observer>(
    alloc: Global,
    leaper: &mut Leaper<A>,
    first: First,
    scope: Scope,
    observer: &mut O,
) -> Result<Found, LeapFault>
    requires first { CanSearch (A.next_of leaper.old.rule) leaper.old.nodes first scope.limit }
    requires some { 1 ≤ scope.limit }
    ensures look { (cells : Picture) (work : ℕ) → ShowsTree leaper.old.nodes first.tree cells
        → leaper.old.spent.used + work ≡ leaper.new.spent.used
        → IfOk result (λ found. IsLook (A.next_of leaper.old.rule) cells scope
        (record { identity = found.identity; limit = found.limit; work = work })) }
    ensures goes_on { LeaperGrows A leaper.old leaper.new }
    ensures takes { TakesSearch leaper.old.spent.used leaper.new.spent.used
        (cells_after (A.next_of leaper.old.rule) (cell leaper.old.nodes first.tree)) scope.limit }
    ensures work { EndsAtLimit leaper.new.spent result }
{
    let Scope { limit, patience } = scope;
    let until = leaper.work_limit();
    // No more than that.
    let _used = leaper.used();
    let early = early_generations(leaper.store().count()).min(limit);
    let mut walk = Walk::from(alloc, first.tree);
    let Some(units) = patience else {
        let reach = Reach { limit, until };
        let identity = search(alloc, leaper, &first, &mut walk, early, reach, observer)?;
        return Ok(Found { identity, limit });
    };
    let sure = first_generations(early);
    let soon = look_on(alloc, leaper, &first, &mut walk, sure, until, observer)?;
    if let Some(ending) = soon {
        let identity = identity_of(ending);
        return Ok(Found { identity, limit });
    }
    let span = Span {
        early,
        limit,
        units,
    };
    let found = patient_search(alloc, leaper, &first, &mut walk, span, observer)?;
    if let Some(identity) = found {
        return Ok(Found { identity, limit });
    }
    let growth = growth_of(alloc, leaper.store(), &walk.tree)?;
    Ok(Found {
        identity: Identity::Unknown { growth },
        limit: walk.generations,
    })
}

// How far a search with patience goes: how many generations are looked at one by one, how many are at all, and for how
// many units of work.
#[derive(Clone, Copy)]
struct Span {
    early: u64,
    limit: u64,
    units: u64,
}

// What a live pattern is, if no more than `span.units` units of work are needed to find it out. Else the walk is at the
// last generation that was looked at.
fn patient_search<A: Automaton, O: Observer>(
    alloc: Global,
    leaper: &mut Leaper<A>,
    first: &First,
    walk: &mut Walk,
    span: Span,
    observer: &mut O,
) -> Result<Option<Identity>, LeapFault>
    requires walk { CanLookOn (A.next_of leaper.old.rule) leaper.old.nodes first.now walk.old span.limit }
    requires begun { walk.old.generations ≤ span.early }
    requires some { 1 ≤ span.early }
    requires within { span.early ≤ span.limit }
    ensures identity { (cells : Picture) → ShowsTree leaper.old.nodes first.now.tree cells
        → IfOk result (λ found. IfSome found (IsIdentity (A.next_of leaper.old.rule) cells span.limit)) }
    ensures halted { IfOk result (λ found. found ≡ None → IsHalted (A.next_of leaper.old.rule)
        (cell leaper.old.nodes first.now.tree) leaper.new.nodes walk.old.generations span.limit walk.new) }
    ensures used { IfOk result
        (λ found. found ≡ None → leaper.old.spent.used + span.units ≤ leaper.new.spent.used) }
    ensures goes_on { LeaperGrows A leaper.old leaper.new }
    ensures takes { TakesSearchFrom leaper.old.spent.used leaper.new.spent.used
        (cells_after (A.next_of leaper.old.rule) (cell leaper.old.nodes first.now.tree))
        walk.old.generations span.limit }
    ensures work { EndsAtLimit leaper.new.spent result }
{
    let Span {
        early,
        limit,
        units,
    } = span;
    let most = leaper.work_limit();
    let used = leaper.used();
    if units >= most - used {
        let whole = Reach { limit, until: most };
        let identity = search(alloc, leaper, first, walk, early, whole, observer)?;
        return Ok(Some(identity));
    }
    let until = used + units;
    let reach = Reach { limit, until };
    let found = search(alloc, leaper, first, walk, early, reach, observer);
    match found {
        Ok(identity) => Ok(Some(identity)),
        Err(LeapFault::Work) => Ok(None),
        Err(LeapFault::Memory) => Err(LeapFault::Memory),
    }
}
