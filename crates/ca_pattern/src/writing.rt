//! Patterns that are written as the text of a format.

ghost use Rattle.std.specs.Prelude.{◌≡◌, ℕ, ℤ, List, IfOk, IfErr};
ghost use Rattle.ca_plane.specs.Prelude.{cell as plane_cell};
ghost use Rattle.ca_quad.specs.Prelude.{cell};
ghost use Rattle.ca_rle.specs.Prelude.{IsRleText, picture_of_items};
ghost use Rattle.ca_rule.specs.Prelude.{rule_value};
ghost use Rattle.ca_pattern.specs.declared.format.Format.TheVariants.{Rle};
ghost use Rattle.ca_pattern.specs.declared.located_fault.LocatedFault.TheVariants.{Memory};
ghost use Rattle.ca_pattern.specs.declared.pattern.Cells.TheVariants.{Text};
ghost use Rattle.ca_pattern.specs.PatternCells.{AreCells, IsPatternOf};
ghost use Rattle.ca_pattern.specs.States.{HasSmallStates};
ghost use Rattle.ca_pattern.specs.Written.{IsWrittenAs, AreUnwritten};
ghost use Rattle.ca_pattern.specs.inner.Ready.{IsSmallTree};

use crate::cells::are_in_range;
use crate::format::{Format, text_of_tree};
use crate::located_fault::LocatedFault;
use crate::pattern::{Cells, Pattern, StoredTree};
use ca_plane::Automaton;
use ca_rle::{RleText, rewrite_rle};
use ca_rule::Rule;
use std::alloc::Global;

impl Pattern<'_, '_> {
    /// The tidy text of the target's format that means the pattern: its cells at every x and y, the printed
    /// form of its rule, and its generation.
    ///
    /// # Errors
    ///
    /// `Range` where a live cell lies where no file may have one, which only a pattern that was advanced by
    /// some generations has; else `TooManyCells` for an RLE of more than 16777216 live cells. `Memory` may
    /// come before.
    pub fn text(self, alloc: Global, target: Format) -> Result<Vec<u8>, LocatedFault>
        requires { (cells : ℤ → ℤ → ℕ) × IsPatternOf cells self }
        ensures written { (cells : ℤ → ℤ → ℕ) → IsPatternOf cells self.entry → IfOk result (λ text.
            IsWrittenAs target cells (rule_value self.entry.rule) self.entry.generation text.items) }
        ensures fault { (cells : ℤ → ℤ → ℕ) → IsPatternOf cells self.entry
            → IfErr result (AreUnwritten target cells) }
    {
        let Pattern {
            cells,
            rule,
            generation,
            ..
        } = self;
        match (cells, target) {
            // An RLE is written as RLE from its items, without squares or a list of its cells.
            (Cells::Text(text), Format::Rle) => rle_of_text(alloc, text, &rule),
            (cells, target) => {
                let Ok(squares) = cells.into_squares(alloc) else {
                    return Err(LocatedFault::Memory);
                };
                text_of_squares(alloc, squares, &rule, generation, target)
            }
        }
    }
}

/// The tidy RLE of the cells of an RLE file, with the printed form of its rule.
fn rle_of_text(alloc: Global, text: RleText<'_>, rule: &Rule<'_>) -> Result<Vec<u8>, LocatedFault>
    requires { (cells : ℤ → ℤ → ℕ) × AreCells (Text text) cells × HasSmallStates (rule_value rule.now) cells }
    ensures written { (bytes : List ℕ) (is : IsRleText bytes text.entry) → IfOk result (λ written.
        IsWrittenAs Rle (plane_cell (picture_of_items text.entry.corner is.file.items))
        (rule_value rule.now) text.entry.generation written.items) }
    ensures fault { IfErr result (λ fault. fault ≡ Memory) }
{
    let Ok(rule_text) = rule.text(alloc) else {
        return Err(LocatedFault::Memory);
    };
    match rewrite_rle(alloc, text, &rule_text, rule.states()) {
        Ok(text) => Ok(text),
        Err(_) => Err(LocatedFault::Memory),
    }
}

/// The tidy text of the target's format with the cells of a tree, where it may have them.
fn text_of_squares(
    alloc: Global,
    squares: StoredTree,
    rule: &Rule<'_>,
    generation: u64,
    target: Format,
) -> Result<Vec<u8>, LocatedFault>
    requires { IsSmallTree squares (rule_value rule.now) generation }
    ensures written { IfOk result (λ text. IsWrittenAs target (cell squares.store squares.tree)
        (rule_value rule.now) generation text.items) }
    ensures fault { IfErr result (AreUnwritten target (cell squares.store squares.tree)) }
{
    let StoredTree { mut store, tree } = squares;
    match are_in_range(alloc, &store, &tree) {
        Ok(true) => {}
        Ok(false) => return Err(LocatedFault::Range),
        Err(_) => return Err(LocatedFault::Memory),
    }
    let Ok(rule_text) = rule.text(alloc) else {
        return Err(LocatedFault::Memory);
    };
    text_of_tree(
        alloc,
        &mut store,
        tree,
        &rule_text,
        generation,
        rule.states(),
        target,
    )
}
