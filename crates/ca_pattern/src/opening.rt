//! Pattern files that are opened.

ghost use Rattle.std.specs.Prelude.{◌≡◌, ℕ, ℤ, IfOk, IfErr};
ghost use Rattle.ca_macro.specs.Prelude.{AreInRange};
ghost use Rattle.ca_pattern.specs.declared.format.Format.TheVariants.{Rle};
ghost use Rattle.ca_pattern.specs.Evolved.{IsPatternAfter};
ghost use Rattle.ca_pattern.specs.LocatedFaults.{IsOpeningFault};
ghost use Rattle.ca_pattern.specs.PatternCells.{IsPatternOf};
ghost use Rattle.ca_pattern.specs.Formats.{format_of};

use crate::cells::has_large_state;
use crate::format::{Format, format_of};
use crate::located_fault::LocatedFault;
use crate::pattern::{Cells, Pattern, StoredTree};
use crate::read::{bad_rle, read_with_line};
use crate::ruled::{RuledPattern, UnnamedRule, with_rule};
use ca_plane::Automaton;
use ca_plane::text::rule_text;
use ca_quad::Store;
use ca_rle::judge_rle;
use ca_rule::{Table, resolve};
use std::alloc::Global;

/// The pattern of a file, under the rule that its rule text names, in its own notation or among the tables.
///
/// # Errors
///
/// The first of these that holds: the file doesn't read; its rule text names no rule; a state isn't below the
/// number of the rule's states. Out of memory may come before any of them, where the file needs memory.
pub fn open_pattern<'a, 't>(
    alloc: Global,
    bytes: &'a [u8],
    tables: &'t [Table],
) -> Result<Pattern<'a, 't>, LocatedFault>
    ensures opened { IfOk result (IsPatternAfter bytes.now tables.now 0) }
    ensures range { IfOk result (λ pattern.
        (cells : ℤ → ℤ → ℕ) × IsPatternOf cells pattern × AreInRange cells) }
    ensures fault { IfErr result (IsOpeningFault bytes.now tables.now) }
{
    match format_of(bytes) {
        Format::Rle => open_text(alloc, bytes, tables),
        _ => open_squares(alloc, bytes, tables),
    }
}

/// The pattern of an RLE file, which is judged without squares and without a list of its cells.
fn open_text<'a, 't>(
    alloc: Global,
    bytes: &'a [u8],
    tables: &'t [Table],
) -> Result<Pattern<'a, 't>, LocatedFault>
    requires { format_of bytes.now ≡ Rle }
    ensures opened { IfOk result (IsPatternAfter bytes.now tables.now 0) }
    ensures fault { IfErr result (IsOpeningFault bytes.now tables.now) }
{
    let text = match judge_rle(bytes) {
        Ok(text) => text,
        Err(found) => return Err(LocatedFault::of_unread(bad_rle(found))),
    };
    let Ok(rule_text) = rule_text(alloc, text.rule) else {
        return Err(LocatedFault::Memory);
    };
    let rule = match resolve(&rule_text, tables) {
        Ok(rule) => rule,
        Err(fault) => return Err(LocatedFault::UnnamedRule(UnnamedRule { fault, rule_text })),
    };
    if u16::from(text.greatest) >= rule.states() {
        return Err(LocatedFault::StateTooLarge);
    }
    Ok(Pattern {
        cells: Cells::Text(text),
        kind: Format::Rle,
        rule,
        generation: text.generation,
    })
}

/// The pattern of a file that is read into a store of squares.
fn open_squares<'a, 't>(
    alloc: Global,
    bytes: &'a [u8],
    tables: &'t [Table],
) -> Result<Pattern<'a, 't>, LocatedFault>
    ensures opened { IfOk result (IsPatternAfter bytes.now tables.now 0) }
    ensures fault { IfErr result (IsOpeningFault bytes.now tables.now) }
{
    let mut store = Store::new(alloc);
    let loaded = match read_with_line(alloc, &mut store, bytes) {
        Ok(loaded) => loaded,
        Err(bad) => return Err(LocatedFault::of_unread(bad)),
    };
    let ruled = match with_rule(loaded, tables) {
        Ok(ruled) => ruled,
        Err(unnamed) => return Err(LocatedFault::UnnamedRule(unnamed)),
    };
    match has_large_state(alloc, &store, &ruled) {
        Ok(false) => {}
        Ok(true) => return Err(LocatedFault::StateTooLarge),
        Err(_) => return Err(LocatedFault::Memory),
    }
    let RuledPattern { pattern, rule } = ruled;
    let tree = pattern.tree;
    Ok(Pattern {
        cells: Cells::Squares(StoredTree { store, tree }),
        kind: pattern.kind,
        rule,
        generation: pattern.generation,
    })
}
