//! The one rule of a claim's patterns, under which their states are small.

ghost use Rattle.std.specs.Prelude.{◌≡◌, IfOk, IfErr, IsTrue, IsFalse, MatchOption};
ghost use Rattle.ca_quad.specs.Prelude.{IsTree};
ghost use Rattle.ca_rule.specs.Prelude.{rule_value, states_of};
ghost use Rattle.ca_text.specs.Prelude.{HoldsOfBoth};
ghost use Rattle.ca_verify.specs.inner.Patterns.{FirstBadAt, AreOfOneRule, AreMixed, Disagree};
ghost use Rattle.ca_pattern.specs.Prelude.{rule_of, ShowsLarge, ShowsSmall};

use crate::refusal::WhichPattern;
use ca_pattern::{RuledPattern, has_large_state};
use ca_plane::{Automaton, Memory};
use ca_quad::Store;
use ca_rule::Rule;
use ca_text::Both;
use std::alloc::Global;

/// Why patterns have no one rule under which their states are small.
#[derive(Clone, Copy)]
pub(crate) enum Disagreement {
    /// This is the first that has a state which its rule doesn't have.
    Large(WhichPattern),
    /// Their rules differ.
    Mixed,
    /// An allocation failed.
    Memory,
}

/// The rule of the patterns, where each of their states is small and their rules are the same.
pub(crate) fn agreed_rule<'t>(
    alloc: Global,
    store: &Store,
    patterns: &Both<RuledPattern<'t>>,
) -> Result<Rule<'t>, Disagreement>
    requires { HoldsOfBoth (λ r. IsTree store.now r.pattern.tree) patterns.now }
    ensures small { IfOk result (λ rule. HoldsOfBoth (ShowsSmall store.now) patterns.now) }
    ensures rule { IfOk result (λ rule. AreOfOneRule patterns.now (rule_value rule)) }
    ensures disagreement { IfErr result (Disagree store.now patterns.now) }
{
    let Ok(large) = large_part(alloc, store, patterns) else {
        return Err(Disagreement::Memory);
    };
    if let Some(part) = large {
        return Err(Disagreement::Large(part));
    }
    match common_rule(patterns) {
        Some(rule) => Ok(rule),
        None => Err(Disagreement::Mixed),
    }
}

/// The first of the patterns that has a cell with a state which its rule doesn't have.
fn large_part(
    alloc: Global,
    store: &Store,
    patterns: &Both<RuledPattern<'_>>,
) -> Result<Option<WhichPattern>, Memory>
    requires { HoldsOfBoth (λ r. IsTree store.now r.pattern.tree) patterns.now }
    ensures { IfOk result
        (λ large. MatchOption large (HoldsOfBoth (ShowsSmall store.now) patterns.now)
        (λ part. FirstBadAt part patterns.now (ShowsSmall store.now) (ShowsLarge store.now))) }
{
    if has_large_state(alloc, store, &patterns.first)? {
        return Ok(Some(WhichPattern::First));
    }
    if second_is_large(alloc, store, patterns)? {
        return Ok(Some(WhichPattern::Second));
    }
    Ok(None)
}

/// Whether the second pattern has a cell with a state which its rule doesn't have, where the first has none.
/// The same cells aren't looked at again.
fn second_is_large(
    alloc: Global,
    store: &Store,
    patterns: &Both<RuledPattern<'_>>,
) -> Result<bool, Memory>
    requires tree { IsTree store.now patterns.now.second.pattern.tree }
    requires first { ShowsSmall store.now patterns.now.first }
    ensures large { IfOk result (λ large. IsTrue large → ShowsLarge store.now patterns.now.second) }
    ensures small { IfOk result (λ large. IsFalse large → ShowsSmall store.now patterns.now.second) }
{
    if shows_the_same(&patterns.first, &patterns.second) {
        return Ok(false);
    }
    has_large_state(alloc, store, &patterns.second)
}

/// Whether two patterns have one tree, and rules of as many states.
fn shows_the_same(first: &RuledPattern<'_>, second: &RuledPattern<'_>) -> bool
    ensures tree { IsTrue result → second.now.pattern.tree ≡ first.now.pattern.tree }
    ensures states { IsTrue result → states_of (rule_of second.now) ≡ states_of (rule_of first.now) }
{
    second.pattern.tree == first.pattern.tree && second.rule.states() == first.rule.states()
}

/// The rule of the patterns, or that of the first where the second's is the same.
fn common_rule<'t>(patterns: &Both<RuledPattern<'t>>) -> Option<Rule<'t>>
    ensures { MatchOption result (AreMixed patterns.now)
        (λ rule. AreOfOneRule patterns.now (rule_value rule)) }
{
    if !patterns.first.rule.same(&patterns.second.rule) {
        return None;
    }
    Some(patterns.first.rule)
}
