//! What the pattern of a file is, and its code.

ghost use Rattle.std.specs.Prelude.{◌≤◌, IfOk, IfErr, option_map};
ghost use Rattle.ca_plane.specs.Prelude.{cells_after, longest_period, most_generations, Picture};
ghost use Rattle.ca_quad.specs.Prelude.{cell};
ghost use Rattle.ca_run.specs.Prelude.{LeaperGrows};
ghost use Rattle.ca_budget.specs.Prelude.{EndsAtLimit};
ghost use Rattle.ca_answers.specs.Prelude.{IsLookAt, IsCodeOfFile, IsUncodedAfter};
ghost use Rattle.ca_pattern.specs.Prelude.{AreGoodLimits, ShowsTree, IsPattern};
ghost use Rattle.ca_identify_runs.specs.inner.CodedLooks.{IsCodedLook};
ghost use Rattle.ca_apgcode_search.specs.Countings.{MayGoBy};
ghost use Rattle.ca_identify_runs.specs.inner.Spent.{TakesRunAndTwice};

use ca_answers::{CodedLook, Scope};
use ca_apgcode_search::{code_of_tree, has_codes, quick_code};
use ca_evolution::{Observer, leaper_of};
use ca_identify::look_at_plane;
use ca_pattern::{Limits, LocatedFault, StoredTree, open_pattern};
use ca_plane::{Automaton, Counting};
use ca_quad::Tree;
use ca_rule::Table;
use ca_run::{LeapFault, Leaper};
use std::alloc::Global;

/// What the plane of a file's pattern is after `generations` generations, as `ca_identify::identify` finds it, and its
/// code (LifeWiki, "Apgcode"). There is no code of what is no still life, oscillator or spaceship, nor under a rule
/// that is no B/S rule or counts other neighbours than all eight or four.
///
/// The limit of the scope is from 1 to 4294967295. What is found is then taken through its period, one generation after the
/// other, unless its box has more than 40 + 2 * (period - 1) columns or rows, so that no phase fits into 40 by 40 cells. The
/// observer sees nothing of that.
///
/// # Errors
///
/// As for `ca_identify::identify`. The work of the generations through the period counts too.
#[tactic(auto, using(ca_identify::proofs::IdentifiedFiles::opened_may_want))]
pub fn identify_with_code<O: Observer>(
    alloc: Global,
    bytes: &[u8],
    tables: &[Table],
    generations: u64,
    limits: Limits,
    scope: Scope,
    observer: &mut O,
) -> Result<CodedLook, LocatedFault>
    requires limits { AreGoodLimits limits }
    requires few { generations ≤ most_generations }
    requires some { 1 ≤ scope.limit }
    requires most { scope.limit ≤ longest_period }
    ensures look { IfOk result (λ found. IsLookAt bytes.now tables.now generations scope found.look) }
    ensures code { IfOk result (λ found. IsCodeOfFile bytes.now tables.now generations found.look.identity
        (option_map (λ code. code.items) found.code)) }
    ensures uncoded { IfErr result (IsUncodedAfter bytes.now tables.now limits.work generations scope.limit) }
{
    let pattern = open_pattern(alloc, bytes, tables)?;
    let coded = has_codes(&pattern.rule);
    let counting = pattern.rule.counting();
    let Ok(StoredTree { store, tree }) = pattern.cells.into_squares(alloc) else {
        return Err(LocatedFault::Memory);
    };
    let Ok(mut leaper) = leaper_of(alloc, store, pattern.rule, limits) else {
        return Err(LocatedFault::Memory);
    };
    match look_and_code(
        alloc,
        &mut leaper,
        tree,
        generations,
        scope,
        coded,
        counting,
        observer,
    ) {
        Ok(found) => Ok(found),
        Err(LeapFault::Memory) => Err(LocatedFault::Memory),
        Err(LeapFault::Work) => Err(LocatedFault::Work),
    }
}

// What the plane of a pattern's tree is after `generations` generations, and its code, where objects have codes.
fn look_and_code<A: Automaton, O: Observer>(
    alloc: Global,
    leaper: &mut Leaper<A>,
    pattern: Tree,
    generations: u64,
    scope: Scope,
    coded: bool,
    counting: Option<Counting>,
    observer: &mut O,
) -> Result<CodedLook, LeapFault>
    requires pattern { IsPattern leaper.old.nodes pattern }
    requires few { generations ≤ most_generations }
    requires some { 1 ≤ scope.limit }
    requires most { scope.limit ≤ longest_period }
    requires counting { MayGoBy (A.next_of leaper.old.rule) (cell leaper.old.nodes pattern) counting }
    ensures found { (cells : Picture) → ShowsTree leaper.old.nodes pattern cells → IfOk result
        (IsCodedLook (A.next_of leaper.old.rule) cells generations scope coded) }
    ensures goes_on { LeaperGrows A leaper.old leaper.new }
    ensures takes { TakesRunAndTwice leaper.old.spent.used leaper.new.spent.used pattern.level generations
        (cells_after (A.next_of leaper.old.rule) (cell leaper.old.nodes pattern)) scope.limit }
    ensures work { EndsAtLimit leaper.new.spent result }
{
    // Says what holds of every leaper.
    let _ = leaper.store();
    let found = look_at_plane(alloc, leaper, pattern, generations, scope, observer)?;
    let look = found.look;
    if !coded {
        return Ok(CodedLook { look, code: None });
    }
    if let Some(quick) = quick_code(alloc, leaper, &found.tree, look.identity, counting)? {
        return Ok(CodedLook {
            look,
            code: Some(quick),
        });
    }
    let code = code_of_tree(alloc, leaper, &found.tree, look.identity)?;
    Ok(CodedLook { look, code })
}
