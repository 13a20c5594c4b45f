//! What a claim is judged on, and whether the cells that it moves are too many.

ghost use Rattle.std.specs.Prelude.{◌≡◌, OnOk, IfErr, Some};
ghost use Rattle.ca_verify.specs.inner.Patterns.{trees_of};
ghost use Rattle.ca_verify.specs.inner.PreparedClaim.{AreFewCounted, IsCountRefused, expected_part};
ghost use Rattle.ca_verify.specs.inner.PreparedClaim.{expected_tree, refusal_for_count};
ghost use Rattle.ca_pattern.specs.Prelude.{IsPattern};

use crate::decide::ClaimTrees;
use crate::refusal::{About, Refusal, WhichPattern};
use ca_answers::Cause;
use ca_pattern::{RuledPattern, has_too_many_cells};
use ca_quad::{Store, Tree};
use ca_text::{Asks, Both, Expected};
use std::alloc::Global;

/// No memory for a claim.
pub(crate) const OUT_OF_MEMORY: Refusal = Refusal {
    cause: Cause::Memory,
    about: About::Claim,
};

/// The trees of both patterns of a claim.
pub(crate) fn subject_of(patterns: &Both<RuledPattern<'_>>) -> ClaimTrees
    ensures { result ≡ trees_of patterns.now }
{
    ClaimTrees {
        pattern: patterns.first.pattern.tree,
        other: patterns.second.pattern.tree,
    }
}

/// Looks whether the cells that a claim moves are few: its pattern's, or those of the other one. Both may be
/// of one file.
pub(crate) fn check_count(
    alloc: Global,
    store: &Store,
    subject: &ClaimTrees,
    asks: Asks,
    are_one: bool,
) -> Result<(), Refusal>
    requires pattern { IsPattern store.now subject.now.pattern }
    requires other { IsPattern store.now subject.now.other }
    ensures few { OnOk result (AreFewCounted store.now asks subject.now) }
    ensures many { IfErr result (IsCountRefused store.now asks subject.now are_one) }
{
    if !asks.moved {
        return Ok(());
    }
    let Some(tree) = expected_tree(asks.expected, subject) else {
        return Ok(());
    };
    match has_too_many_cells(alloc, store, tree) {
        Ok(false) => Ok(()),
        Ok(true) => Err(refusal_for_count(expected_part(are_one, asks.expected))),
        Err(_) => Err(OUT_OF_MEMORY),
    }
}

/// The tree of the pattern whose cells are expected, where some are.
fn expected_tree(expected: Expected, subject: &ClaimTrees) -> Option<Tree>
    ensures { result ≡ expected_tree expected subject.now }
{
    match expected {
        Expected::Own => Some(Tree {
            root: subject.pattern.root,
            level: subject.pattern.level,
        }),
        Expected::Other => Some(Tree {
            root: subject.other.root,
            level: subject.other.level,
        }),
        Expected::NoCells => None,
    }
}

/// Which of a claim's patterns that is: where both are of one file, the first.
fn expected_part(are_one: bool, expected: Expected) -> WhichPattern
    ensures { result ≡ expected_part are_one expected }
{
    if are_one {
        return WhichPattern::First;
    }
    match expected {
        Expected::Own | Expected::NoCells => WhichPattern::First,
        Expected::Other => WhichPattern::Second,
    }
}

/// This pattern of a claim has too many cells.
fn refusal_for_count(part: WhichPattern) -> Refusal
    ensures { result ≡ refusal_for_count part }
{
    Refusal {
        cause: Cause::TooManyCells,
        about: About::Pattern {
            part,
            line: None,
            rule_text: None,
        },
    }
}
