//! What a claim is judged on, or why it isn't judged.

ghost use Rattle.std.specs.Prelude.{◌≡◌, ℕ, ◌<◌, List, map, length, get_or, Some, None, IfOk, IsTrue, MatchResult};
ghost use Rattle.std.specs.Option.{option_copied};
ghost use Rattle.ca_text.specs.Prelude.{path_at, map_both, HoldsOfBoth, ZipBoth};
ghost use Rattle.ca_answers.specs.Prelude.{SuppliedFiles, bytes_at, AreTables};
ghost use Rattle.ca_pattern.specs.Prelude.{AreGoodLimits};
ghost use Rattle.ca_verify.specs.declared.refusal.About.TheVariants as abouts;
ghost use Rattle.ca_answers.specs.declared.cause.Cause.TheVariants as causes;
ghost use Rattle.ca_verify.specs.inner.Found.{IsFound};
ghost use Rattle.ca_text.specs.declared.both.Both.{Both as BothOf};
ghost use Rattle.ca_verify.specs.inner.Patterns.{FirstBadAt};
ghost use Rattle.ca_verify.specs.inner.PreparedClaim.{IsPrepared, IsFit, reading_refusal, disagreement_refusal};
ghost use Rattle.ca_verify.specs.inner.Refusals.{IsRefusal};
ghost use Rattle.ca_verify.specs.NeededFiles.{AreRead};

use super::agreement::{Disagreement, agreed_rule};
use super::counts::{OUT_OF_MEMORY, check_count, subject_of};
use super::pattern_cache::PatternCache;
use super::patterns::{BadPart, read_each, with_rules};
use super::tables::Tables;
use crate::decide::ClaimTrees;
use crate::refusal::{About, Refusal, WhichPattern};
use ca_answers::Cause;
use ca_evolution::leaper_of;
use ca_pattern::{BadPattern, Limits, PatternFault, UnnamedRule};
use ca_quad::Store;
use ca_rule::{Rule, Table};
use ca_run::Leaper;
use ca_text::{Asks, Both};
use std::alloc::Global;

/// A leaper over the squares of a claim's patterns, under their one rule, and their trees.
#[derive(Drop)]
pub(crate) struct PreparedClaim<'t> {
    pub(crate) leaper: Leaper<Rule<'t>>,
    pub(crate) subject: ClaimTrees,
}

/// What a claim that asks this of the patterns at these places is judged on, or why it isn't judged.
pub(crate) fn prepare<'a, 't>(
    alloc: Global,
    cache: &mut PatternCache<'a>,
    places: &Both<usize>,
    asks: Asks,
    found: &[Option<&'a [u8]>],
    tables: &'t Tables,
    limits: Limits,
) -> Result<PreparedClaim<'t>, Refusal>
    requires limits { AreGoodLimits limits }
    requires within { HoldsOfBoth (λ i. i < length found.now) places.now }
    ensures prepared { (files : SuppliedFiles) (paths rules : List (List ℕ))
        → map option_copied found.now ≡ map (bytes_at files) paths → AreRead files paths rules tables.now
        → MatchResult result (IsPrepared files rules asks (map_both (path_at paths) places.now))
        (IsRefusal files paths rules asks (map_both (path_at paths) places.now)) }
    ensures fit { IfOk result (IsFit limits) }
{
    let files = match files_at(places, found) {
        Ok(files) => files,
        Err(part) => return Err(of_pattern(Cause::NoFile, part, None)),
    };
    let tables = tables.all()?;
    let are_one = places.first == places.second;
    prepare_by(alloc, cache, &files, are_one, asks, tables, limits)
}

/// What a claim about the patterns whose files have these bytes is judged on, or why it isn't judged under
/// the text's tables. Both may be one file.
fn prepare_by<'a, 't>(
    alloc: Global,
    cache: &mut PatternCache<'a>,
    there: &Both<&'a [u8]>,
    are_one: bool,
    asks: Asks,
    tables: &'t [Table],
    limits: Limits,
) -> Result<PreparedClaim<'t>, Refusal>
    requires limits { AreGoodLimits limits }
    requires one { IsTrue are_one → there.now.second ≡ there.now.first }
    ensures prepared { (files : SuppliedFiles) (paths rules : List (List ℕ)) (each : BothOf (List ℕ))
        → ZipBoth (λ path b. bytes_at files path ≡ Some b.now) each there.now
        → AreTables files rules tables.now
        → MatchResult result (IsPrepared files rules asks each) (IsRefusal files paths rules asks each) }
    ensures fit { IfOk result (IsFit limits) }
{
    let mut store = Store::new(alloc);
    let patterns = match read_each(alloc, cache, &mut store, there, are_one) {
        Ok(patterns) => patterns,
        Err(unread) => return Err(reading_refusal(unread)),
    };
    let patterns = match with_rules(patterns, tables) {
        Ok(patterns) => patterns,
        Err(unnamed) => return Err(naming_refusal(unnamed)),
    };
    let rule = match agreed_rule(alloc, &store, &patterns) {
        Ok(rule) => rule,
        Err(disagreement) => return Err(disagreement_refusal(disagreement)),
    };
    let subject = subject_of(&patterns);
    check_count(alloc, &store, &subject, asks, are_one)?;
    let Ok(leaper) = leaper_of(alloc, store, rule, limits) else {
        return Err(OUT_OF_MEMORY);
    };
    Ok(PreparedClaim { leaper, subject })
}

/// A refusal for one of the claim's patterns.
fn of_pattern(cause: Cause, part: WhichPattern, line: Option<u64>) -> Refusal
    ensures { result ≡ record { cause = cause; about = abouts.Pattern part line None } }
{
    Refusal {
        cause,
        about: About::Pattern {
            part,
            line,
            rule_text: None,
        },
    }
}

/// The refusal of a claim with a pattern whose rule text names no rule.
fn naming_refusal(unnamed: BadPart<UnnamedRule>) -> Refusal
    ensures { result ≡ record {
      cause = causes.BadRule unnamed.why.fault;
      about = abouts.Pattern unnamed.part None (Some unnamed.why.rule_text);
    } }
{
    Refusal {
        cause: Cause::BadRule(unnamed.why.fault),
        about: About::Pattern {
            part: unnamed.part,
            line: None,
            rule_text: Some(unnamed.why.rule_text),
        },
    }
}

/// The refusal of a claim with a pattern that isn't read.
fn reading_refusal(unread: BadPart<BadPattern>) -> Refusal
    ensures { result ≡ reading_refusal unread }
{
    match unread.why.fault {
        PatternFault::Memory => OUT_OF_MEMORY,
        fault => of_pattern(Cause::BadPattern(fault), unread.part, unread.why.line),
    }
}

/// The refusal of a claim whose patterns have no one rule under which their states are small.
fn disagreement_refusal(disagreement: Disagreement) -> Refusal
    ensures { result ≡ disagreement_refusal disagreement }
{
    match disagreement {
        Disagreement::Large(part) => of_pattern(Cause::StateTooLarge, part, None),
        Disagreement::Mixed => Refusal {
            cause: Cause::MixedRules,
            about: About::Claim,
        },
        Disagreement::Memory => OUT_OF_MEMORY,
    }
}

/// The bytes at these indices, or the first of the two at which there are none.
fn files_at<'a>(
    places: &Both<usize>,
    found: &[Option<&'a [u8]>],
) -> Result<Both<&'a [u8]>, WhichPattern>
    requires { HoldsOfBoth (λ i. i < length found.now) places.now }
    ensures { MatchResult result
        (ZipBoth (λ i b. get_or found.now i None ≡ Some b) places.now)
        (λ part. FirstBadAt part places.now (IsFound found.now) (λ i. get_or found.now i None ≡ None)) }
{
    match (found[places.first], found[places.second]) {
        (Some(first), Some(second)) => Ok(Both { first, second }),
        (None, _) => Err(WhichPattern::First),
        (Some(_), None) => Err(WhichPattern::Second),
    }
}
