//! Trees after some generations.

ghost use Rattle.std.specs.Prelude.{◌≡◌, ◌+◌, ◌≤◌, max, IfOk, IfSome};
ghost use Rattle.ca_quad.specs.Prelude.{cell};
ghost use Rattle.ca_run.specs.Prelude.{LeaperGrows, GivesUpAt};
ghost use Rattle.ca_budget.specs.Prelude.{EndsAtLimit};
ghost use Rattle.ca_evolution.specs.Steps.{CanGoOn, TakesRun, step_work};
ghost use Rattle.ca_pattern.specs.Prelude.{IsLaterTree};

use ca_plane::{Automaton, MoveFault};
use ca_quad::Tree;
use ca_run::{LeapFault, Leaper, Watch};

/// The tree after `generations` generations, of the smallest level. After none it is the same tree.
///
/// # Errors
///
/// Fails where there is no work or no memory left for the run.
pub fn later_tree<A: Automaton, W: Watch>(
    leaper: &mut Leaper<A>,
    tree: Tree,
    generations: u64,
    watch: &mut W,
) -> Result<Tree, LeapFault>
    requires { CanGoOn (A.next_of leaper.old.rule) leaper.old.nodes tree generations }
    ensures later { IfOk result (IsLaterTree (A.next_of leaper.old.rule)
        (cell leaper.old.nodes tree) generations leaper.new.nodes) }
    ensures goes_on { LeaperGrows A leaper.old leaper.new }
    ensures takes { TakesRun leaper.old.spent.used leaper.new.spent.used tree.level generations }
    ensures one { generations ≡ 1 → leaper.new.spent.used ≤ leaper.old.spent.used + step_work tree.level }
    ensures work { EndsAtLimit leaper.new.spent result }
{
    let most = leaper.work_limit();
    match later_tree_within(leaper, tree, generations, most, watch)? {
        Some(later) => Ok(later),
        None => unreachable!(),
    }
}

/// The same where that takes no more units of work than until `most` are used up in all, or as many as are used up
/// already, where these are more. None where it takes more: then these are used up.
///
/// # Errors
///
/// Fails where there is no work or no memory left for the run.
pub fn later_tree_within<A: Automaton, W: Watch>(
    leaper: &mut Leaper<A>,
    tree: Tree,
    generations: u64,
    most: u64,
    watch: &mut W,
) -> Result<Option<Tree>, LeapFault>
    requires { CanGoOn (A.next_of leaper.old.rule) leaper.old.nodes tree generations }
    ensures later { IfOk result (λ found. IfSome found (IsLaterTree (A.next_of leaper.old.rule)
        (cell leaper.old.nodes tree) generations leaper.new.nodes)) }
    ensures goes_on { LeaperGrows A leaper.old leaper.new }
    ensures within { leaper.new.spent.used ≤ max leaper.old.spent.used most }
    ensures gives_up { GivesUpAt most leaper.new.spent result }
    ensures takes { TakesRun leaper.old.spent.used leaper.new.spent.used tree.level generations }
    ensures one { generations ≡ 1 → leaper.new.spent.used ≤ leaper.old.spent.used + step_work tree.level }
    ensures work { EndsAtLimit leaper.new.spent result }
{
    // Says what holds of every leaper.
    let _ = leaper.store();
    if generations == 0 {
        return Ok(Some(tree));
    }
    let Some(later) = leaper.advance_within(tree, generations, most, watch)? else {
        return Ok(None);
    };
    match leaper.shifted(later, 0, 0) {
        Ok(trimmed) => Ok(Some(trimmed)),
        Err(MoveFault::Memory) => Err(LeapFault::Memory),
        Err(MoveFault::Range) => unreachable!(),
    }
}
