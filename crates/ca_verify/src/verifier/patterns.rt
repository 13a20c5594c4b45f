//! The patterns of a claim's files, and the rules of their texts.

ghost use Rattle.std.specs.Prelude.{◌≡◌, ℕ, List, OnOk, IfOk, IfErr, IsTrue, MatchResult, Ok, Err};
ghost use Rattle.ca_quad.specs.declared.node.Node.{Node};
ghost use Rattle.ca_quad.specs.Prelude.{IsSoundStore};
ghost use Rattle.ca_pattern.specs.Prelude.{IsReadable, IsReadFrom, IsUnread, IsUnnamedFor, IsRuledAs};
ghost use Rattle.ca_text.specs.Prelude.{ZipBoth};
ghost use Rattle.ca_verify.specs.inner.Patterns.{FirstBadAt, HasName};

use super::pattern_cache::PatternCache;
use crate::refusal::WhichPattern;
use ca_pattern::{BadPattern, Loaded, OUT_OF_MEMORY, RuledPattern, UnnamedRule, with_rule};
use ca_quad::Store;
use ca_rule::Table;
use ca_text::Both;
use std::alloc::Global;

/// Which of a claim's patterns is bad, and why.
#[derive(Drop)]
pub(crate) struct BadPart<W> {
    pub(crate) part: WhichPattern,
    pub(crate) why: W,
}

/// The patterns of files with these bytes, put into the store by the cache, or the first that isn't read. Where
/// both are one file, it is read once.
pub(crate) fn read_each<'a>(
    alloc: Global,
    cache: &mut PatternCache<'a>,
    store: &mut Store,
    files: &Both<&'a [u8]>,
    are_one: bool,
) -> Result<Both<Loaded>, BadPart<BadPattern>>
    requires one { IsTrue are_one → files.now.second ≡ files.now.first }
    ensures read { IfOk result (ZipBoth (λ b p. IsReadFrom store.new b.now p) files.now) }
    ensures sound { OnOk result (IsSoundStore store.new) }
    ensures unread { IfErr result (λ bad. FirstBadAt bad.part files.now
        (λ b. IsReadable b.now) (λ b. IsUnread b.now bad.why)) }
{
    let first = at_part(
        WhichPattern::First,
        cache.pattern(alloc, store, files.first),
    )?;
    if are_one {
        let second = at_part(WhichPattern::Second, again(&first))?;
        return Ok(Both { first, second });
    }
    let second = at_part(
        WhichPattern::Second,
        cache.pattern(alloc, store, files.second),
    )?;
    Ok(Both { first, second })
}

/// A pattern that was read, again.
fn again(pattern: &Loaded) -> Result<Loaded, BadPattern>
    ensures { (nodes : List Node) (bytes : List ℕ) → IsReadFrom nodes bytes pattern.now
        → MatchResult result (IsReadFrom nodes bytes) (IsUnread bytes) }
{
    let Ok(rule_text) = pattern.rule_text.clone() else {
        return Err(OUT_OF_MEMORY);
    };
    Ok(Loaded {
        kind: pattern.kind,
        tree: pattern.tree,
        rule_text,
        generation: pattern.generation,
    })
}

/// The patterns with the rules that their rule texts name among the tables, or the first whose text names
/// none.
pub(crate) fn with_rules<'t>(
    patterns: Both<Loaded>,
    tables: &'t [Table],
) -> Result<Both<RuledPattern<'t>>, BadPart<UnnamedRule>>
    ensures named { IfOk result (ZipBoth (IsRuledAs tables.now) patterns) }
    ensures unnamed { IfErr result
        (λ bad. FirstBadAt bad.part patterns (HasName tables.now) (λ p. IsUnnamedFor tables.now p bad.why)) }
{
    let first = at_part(WhichPattern::First, with_rule(patterns.first, tables))?;
    let second = at_part(WhichPattern::Second, with_rule(patterns.second, tables))?;
    Ok(Both { first, second })
}

// What came of one of the patterns: where it is bad, which it is.
fn at_part<P, W>(part: WhichPattern, found: Result<P, W>) -> Result<P, BadPart<W>>
    ensures { MatchResult result (λ good. found ≡ Ok good)
        (λ bad. (bad.part ≡ part) × (found ≡ Err bad.why)) }
{
    match found {
        Ok(good) => Ok(good),
        Err(why) => Err(BadPart { part, why }),
    }
}
