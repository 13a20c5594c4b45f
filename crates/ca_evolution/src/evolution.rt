//! Patterns that are advanced by some generations.

ghost use Rattle.std.specs.Prelude.{◌≡◌, ◌≤◌, ◌<◌, ◌+◌, ℕ, ℤ, Ok, IfOk, IfErr, MatchOption};
ghost use Rattle.ca_plane.specs.Prelude.{generation_limit, most_generations};
ghost use Rattle.ca_quad.specs.Prelude.{cell};
ghost use Rattle.ca_macro.specs.Prelude.{AreInRange};
ghost use Rattle.ca_run.specs.Prelude.{LeaperGrows};
ghost use Rattle.ca_budget.specs.Prelude.{EndsAtLimit};
ghost use Rattle.ca_budget.specs.declared.fault.LeapFault.TheVariants.{Work};
ghost use Rattle.ca_pattern.specs.Prelude.{IsPatternAfter, IsReachFault, AreGoodLimits, IsPatternOf, IsLaterTree, IsRun};
ghost use Rattle.ca_evolution.specs.Later.{IsEvolvedFrom, IsUnreachedFor};
ghost use Rattle.ca_evolution.specs.Spending.{HasLimits, Takes};

use crate::leaper::leaper_of;
use crate::observer::{Observer, RunSubject};
use crate::trees::tree_after;
use ca_pattern::{Cells, Limits, LocatedFault, Pattern, StoredTree, open_pattern};
use ca_plane::Automaton;
use ca_plane::limits::GENERATION_LIMIT;
use ca_quad::{Store, Tree};
use ca_rule::Table;
use ca_run::{LeapFault, Leaper};
use std::alloc::Global;

/// The pattern after `generations` generations, at most 1152921504606846976: the same one where there are
/// none. Its cells may then lie anywhere. The observer sees how far the run is.
///
/// # Errors
///
/// `GenTooLarge` where no file may name the generation; else `Work` where as much work was done as may be, or
/// `Memory`. Where there are no generations, there is no error.
pub fn evolve<'a, 't, O: Observer>(
    alloc: Global,
    pattern: Pattern<'a, 't>,
    generations: u64,
    limits: Limits,
    observer: &mut O,
) -> Result<Pattern<'a, 't>, LocatedFault>
    requires limits { AreGoodLimits limits }
    requires few { generations ≤ most_generations }
    requires begins { (cells : ℤ → ℤ → ℕ) × IsPatternOf cells pattern × AreInRange cells }
    ensures evolved { (cells : ℤ → ℤ → ℕ) → IsPatternOf cells pattern.entry
        → IfOk result (IsEvolvedFrom pattern.entry cells generations) }
    ensures none { generations ≡ 0 → result ≡ Ok pattern.entry }
    ensures fault { (cells : ℤ → ℤ → ℕ) → IsPatternOf cells pattern.entry
        → IfErr result (IsUnreachedFor pattern.entry cells generations limits.work) }
{
    if generations == 0 {
        return Ok(pattern);
    }
    let Pattern {
        cells,
        kind,
        rule,
        generation,
    } = pattern;
    let Some(generation) = later_generation(generation, generations) else {
        return Err(LocatedFault::GenTooLarge);
    };
    let Ok(StoredTree { store, tree }) = cells.into_squares(alloc) else {
        return Err(LocatedFault::Memory);
    };
    let Ok(mut leaper) = leaper_of(alloc, store, rule, limits) else {
        return Err(LocatedFault::Memory);
    };
    match end_of(alloc, &mut leaper, limits, tree, generations, observer) {
        Ok(end) => Ok(Pattern {
            cells: Cells::Squares(end),
            kind,
            rule,
            generation,
        }),
        Err(LeapFault::Memory) => Err(LocatedFault::Memory),
        Err(LeapFault::Work) => Err(LocatedFault::Work),
    }
}

/// The pattern of a file after `generations` generations, at most 1152921504606846976: that of the file where
/// there are none. The observer sees how far the run is.
///
/// # Errors
///
/// As for `ca_pattern::open_pattern` and `evolve`.
pub fn open_evolved<'a, 't, O: Observer>(
    alloc: Global,
    bytes: &'a [u8],
    tables: &'t [Table],
    generations: u64,
    limits: Limits,
    observer: &mut O,
) -> Result<Pattern<'a, 't>, LocatedFault>
    requires limits { AreGoodLimits limits }
    requires few { generations ≤ most_generations }
    ensures reached { IfOk result (IsPatternAfter bytes.now tables.now generations) }
    ensures fault { IfErr result (IsReachFault bytes.now tables.now generations limits.work) }
{
    let pattern = open_pattern(alloc, bytes, tables)?;
    evolve(alloc, pattern, generations, limits, observer)
}

// The generation that is `generations` generations after this one, where a file may name it.
fn later_generation(generation: u64, generations: u64) -> Option<u64>
    ensures { MatchOption result (generation_limit ≤ generation + generations)
        (λ later. (later ≡ generation + generations) × (later < generation_limit)) }
{
    let later = generation.checked_add(generations)?;
    if later >= GENERATION_LIMIT {
        return None;
    }
    Some(later)
}

// The tree after `generations` generations, of the smallest level, in a store of its own.
fn end_of<A: Automaton, O: Observer>(
    alloc: Global,
    leaper: &mut Leaper<A>,
    limits: Limits,
    pattern: Tree,
    generations: u64,
    observer: &mut O,
) -> Result<StoredTree, LeapFault>
    requires run { IsRun leaper.old.nodes pattern generations }
    requires limits { HasLimits limits leaper.old }
    ensures end { IfOk result (λ end. IsLaterTree (A.next_of leaper.old.rule)
        (cell leaper.old.nodes pattern) generations end.store end.tree × (end.tree.level ≤ 62)) }
    ensures small { ((x y : ℤ) → cell leaper.old.nodes pattern x y < A.state_count leaper.old.rule)
        → IfOk result (λ end. (x y : ℤ) → cell end.store end.tree x y < A.state_count leaper.old.rule) }
    ensures goes_on { LeaperGrows A leaper.old leaper.new }
    ensures takes { Takes leaper.old.spent.used leaper.new.spent.used 1 pattern.level generations }
    ensures work { EndsAtLimit leaper.new.spent result }
    ensures some { IfErr result (λ fault. fault ≡ Work → 1 ≤ generations) }
{
    // Says what holds of every leaper.
    let _ = leaper.store();
    let _ = limits;
    observer.begins(RunSubject::Pattern);
    let run = tree_after(leaper, &pattern, generations, observer);
    observer.ends();
    let end = run?;
    let mut store = Store::new(alloc);
    let copy = store.import(leaper.store(), end)?;
    let tree = store.trim(copy)?;
    Ok(StoredTree { store, tree })
}
