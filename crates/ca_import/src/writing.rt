//! Patterns of other formats, written in one of ca_pattern's.

ghost use Rattle.std.specs.Prelude.{IfOk, IfErr};
ghost use Rattle.ca_plane.specs.Prelude.{bit_cell};
ghost use Rattle.ca_macro.specs.Prelude.{AreInRange};
ghost use Rattle.ca_pattern.specs.Prelude.{IsTidyTextOf};
ghost use Rattle.ca_import.specs.Written.{IsImportText, IsImportTextFault};
ghost use Rattle.ca_import.specs.inner.Writing.{IsWritableRule, AreUnwritten, IsPatternText, IsPatternTextFault};

use crate::import::{ImportedPattern, read_import};
use crate::rule_text::{RuleText, rule_text_for};
use crate::text_fault::ImportTextFault;
use ca_pattern::{Format, LocatedFault, text_of_tree};
use ca_plane::BitPlane;
use ca_quad::Store;
use std::alloc::Global;

/// The tidy text of the target's format with these cells.
fn text_of_cells(
    alloc: Global,
    cells: BitPlane,
    rule: &RuleText,
    target: Format,
) -> Result<Vec<u8>, ImportTextFault>
    requires range { AreInRange (bit_cell cells) }
    requires rule { IsWritableRule rule.now }
    ensures written { IfOk result (λ text.
        IsTidyTextOf target (bit_cell cells) rule.now.text.items 0 rule.now.states text.items) }
    ensures fault { IfErr result (AreUnwritten target (bit_cell cells)) }
{
    let mut store = Store::new(alloc);
    let tree = store.from_bits(cells)?;
    match text_of_tree(alloc, &mut store, tree, &rule.text, 0, rule.states, target) {
        Ok(text) => Ok(text),
        Err(LocatedFault::TooManyCells) => Err(ImportTextFault::TooManyCells),
        Err(LocatedFault::Memory) => Err(ImportTextFault::Memory),
        Err(_) => unreachable!(),
    }
}

/// What is written of a pattern, where this rule text is asked for.
fn text_of_pattern(
    alloc: Global,
    pattern: ImportedPattern,
    asked: &[u8],
    target: Format,
) -> Result<Vec<u8>, ImportTextFault>
    requires { AreInRange (bit_cell pattern.cells) }
    ensures written { IfOk result (λ text. IsPatternText pattern asked.now target text.items) }
    ensures fault { IfErr result (IsPatternTextFault pattern asked.now target) }
{
    let ImportedPattern { cells, rule } = pattern;
    let rule = rule_text_for(alloc, rule, asked)?;
    text_of_cells(alloc, cells, &rule, target)
}

/// Reads a text of another format, as `read_import` does, and writes what it holds as a tidy text: its cells,
/// the rule that it names, and generation 0. Where it names none, the rule text that is asked for is written:
/// the printed form of the B/S or Generations rule that it names, or as it is, if it is a word that names no
/// such rule; a table's name, for one. It is taken to have two states then.
///
/// # Errors
///
/// `Text` with the fault of `read_import`; else `Rule` where the rule text that is asked for is needed and has a
/// `:`, names a rule that wakes the empty plane, or names no rule and isn't a word; else `TooManyCells` where
/// more than 16777216 cells are live and an RLE is to be written; and `Memory`, which may come before these two.
pub fn import_text(
    alloc: Global,
    bytes: &[u8],
    asked: &[u8],
    target: Format,
) -> Result<Vec<u8>, ImportTextFault>
    // What is written is what the text holds.
    ensures written { IfOk result (λ text. IsImportText bytes.now asked.now target text.items) }
    // Where nothing is written, this is the reason.
    ensures fault { IfErr result (IsImportTextFault bytes.now asked.now target) }
{
    match read_import(alloc, bytes) {
        Ok(pattern) => text_of_pattern(alloc, pattern, asked, target),
        Err(fault) => Err(ImportTextFault::Text(fault)),
    }
}
