//! The census of a pattern file.

ghost use Rattle.std.specs.Prelude.{◌≡◌, ◌+◌, ◌≤◌, ◌<◌, IfOk, IfErr, IfSome};
ghost use Rattle.std.specs.List.{All};
ghost use Rattle.ca_plane.specs.Prelude.{Picture, IsWord, longest_period, most_generations};
ghost use Rattle.ca_pattern.specs.Prelude.{AreGoodLimits, ShowsTree, IsPattern};
ghost use Rattle.ca_rule.specs.Prelude.{rule_value};
ghost use Rattle.ca_census.specs.Files.{IsOrigin, IsCensusAt, FitsFile, IsFileable, IsUncountedFor};
ghost use Rattle.ca_census.specs.declared.settling.Settling.{Settling};
ghost use Rattle.ca_census.specs.Prelude.{IsSettling, IsCensusOf};

use crate::census::{Census, census_of};
use crate::reach::Reach;
use crate::settling::settle;
use ca_apgcode_search::has_codes;
use ca_evolution::{Observer, later_tree, leaper_of};
use ca_pattern::{Limits, LocatedFault, StoredTree, open_pattern};
use ca_plane::{Automaton, Memory};
use ca_quad::Tree;
use ca_rule::{Rule, Table};
use ca_run::{LeapFault, Leaper};
use std::alloc::Global;

/// The census of a pattern file, and what a file with some of its cells says besides them.
#[derive(Drop)]
pub struct FileCensus {
    pub census: Census,
    pub origin: Origin,
}

/// What a pattern file says besides its cells.
#[derive(Drop)]
pub struct Origin {
    /// Its rule, in the printed form.
    pub rule_text: Vec<u8>,
    /// How many states the rule has.
    pub states: u16,
    /// The generation of its pattern.
    pub generation: u64,
}

/// How many generations after the start of the reach the plane of a file's pattern is settled first, and the objects
/// that it consists of then, under the rule that its rule text names, in its own notation or among the tables. None
/// where that isn't found within the reach; this says nothing of the plane. Objects have codes under the rules under
/// which there are any.
///
/// # Errors
///
/// As for `open_pattern`; and `Work` where as much work was done as may be.
#[tactic(auto, using(crate::proofs::CensusFiles::opened_may_want))]
pub fn census_of_file<O: Observer>(
    alloc: Global,
    bytes: &[u8],
    tables: &[Table],
    limits: Limits,
    reach: Reach,
    observer: &mut O,
) -> Result<Option<FileCensus>, LocatedFault>
    requires limits { AreGoodLimits limits }
    requires few { reach.start + reach.limit ≤ most_generations }
    requires budget { reach.budget < longest_period }
    ensures census { IfOk result (λ found. IfSome found (IsCensusAt bytes.now tables.now reach)) }
    ensures fileable { IfOk result (λ found. IfSome found (λ file. IsFileable file.origin file.census)) }
    ensures uncounted { IfErr result (IsUncountedFor bytes.now tables.now) }
{
    let pattern = open_pattern(alloc, bytes, tables)?;
    let rule = pattern.rule;
    let generation = pattern.generation;
    let coded = has_codes(&rule);
    let Ok(StoredTree { store, tree }) = pattern.cells.into_squares(alloc) else {
        return Err(LocatedFault::Memory);
    };
    let Ok(mut leaper) = leaper_of(alloc, store, rule, limits) else {
        return Err(LocatedFault::Memory);
    };
    let census = match census_of_tree(alloc, &mut leaper, &rule, tree, reach, coded, observer) {
        Ok(Some(census)) => census,
        Ok(None) => return Ok(None),
        Err(LeapFault::Memory) => return Err(LocatedFault::Memory),
        Err(LeapFault::Work) => return Err(LocatedFault::Work),
    };
    let Ok(origin) = origin_of(alloc, &rule, generation) else {
        return Err(LocatedFault::Memory);
    };
    Ok(Some(FileCensus { census, origin }))
}

// What a file of this rule and generation says besides its cells.
fn origin_of(alloc: Global, rule: &Rule<'_>, generation: u64) -> Result<Origin, Memory>
    ensures origin { IfOk result (IsOrigin (rule_value rule.now) generation) }
    ensures word { IfOk result (λ origin. IsWord origin.rule_text.items) }
{
    let Ok(rule_text) = rule.text(alloc) else {
        return Err(Memory);
    };
    Ok(Origin {
        rule_text,
        states: rule.states(),
        generation,
    })
}

// The census of the plane of a pattern's tree.
fn census_of_tree<A: Automaton, O: Observer>(
    alloc: Global,
    leaper: &mut Leaper<A>,
    rule: &A,
    pattern: Tree,
    reach: Reach,
    coded: bool,
    observer: &mut O,
) -> Result<Option<Census>, LeapFault>
    requires pattern { IsPattern leaper.old.nodes pattern }
    requires rule { rule.now ≡ leaper.old.rule }
    requires few { reach.start + reach.limit ≤ most_generations }
    requires budget { reach.budget < longest_period }
    ensures census { (cells : Picture) → ShowsTree leaper.old.nodes pattern cells → IfOk result
        (λ found. IfSome found (λ census. (settled : Settling)
        × IsSettling (A.next_of rule.now) cells reach settled
        × IsCensusOf (A.next_of rule.now) coded settled census)) }
    ensures fits { IfOk result (λ found. IfSome found (λ census. FitsFile (A.state_count rule.now) census.plane)) }
    ensures objects { IfOk result (λ found. IfSome found
        (λ census. All (λ o. FitsFile (A.state_count rule.now) o.plane) census.objects.items)) }
{
    let Some(settling) = settle(alloc, leaper, rule, pattern, reach, observer)? else {
        return Ok(None);
    };
    let census = census_of(alloc, rule, settling, coded)?;
    Ok(Some(census))
}
