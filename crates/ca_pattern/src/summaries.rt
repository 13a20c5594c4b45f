//! What a pattern file shows at a glance.

ghost use Rattle.std.specs.Prelude.{ℕ, ℤ, IfOk, IfErr};
ghost use Rattle.ca_plane.specs.Prelude.{IsWord};
ghost use Rattle.ca_rule.specs.Prelude.{rule_value};
ghost use Rattle.ca_pattern.specs.Converted.{IsSummary, IsSummaryFault};
ghost use Rattle.ca_pattern.specs.PatternCells.{IsPatternOf};
ghost use Rattle.ca_pattern.specs.Written.{IsSummaryOf};

use crate::cells::Extent;
use crate::convert_fault::ConvertFault;
use crate::opening::open_pattern;
use crate::pattern::{Pattern, Summary};
use ca_plane::Memory;
use ca_rule::Table;
use std::alloc::Global;

/// The summary of a pattern file. No cell is counted out, so that a macrocell may have any number of them.
///
/// # Errors
///
/// The first fault of `ConvertFault` that holds, but for `TooManyCells`, which no summary has.
pub fn summary(alloc: Global, bytes: &[u8], tables: &[Table]) -> Result<Summary, ConvertFault>
    ensures summary { IfOk result (IsSummary bytes.now tables.now) }
    ensures word { IfOk result (λ s. IsWord s.rule_text.items) }
    ensures fault { IfErr result (IsSummaryFault bytes.now tables.now) }
{
    let pattern = match open_pattern(alloc, bytes, tables) {
        Ok(pattern) => pattern,
        Err(refused) => return Err(refused.convert_fault()),
    };
    match pattern.summary(alloc) {
        Ok(summary) => Ok(summary),
        Err(_) => Err(ConvertFault::Memory),
    }
}

impl Pattern<'_, '_> {
    /// The summary of the pattern. An RLE file is summed up from its items, without squares or a list of its
    /// cells.
    ///
    /// # Errors
    ///
    /// Fails where there is no memory to count and measure the cells of a tree, or for the rule's text.
    pub fn summary(&self, alloc: Global) -> Result<Summary, Memory>
        requires { (cells : ℤ → ℤ → ℕ) × IsPatternOf cells self.now }
        ensures summary { (cells : ℤ → ℤ → ℕ) → IsPatternOf cells self.now → IfOk result
            (IsSummaryOf self.now.kind cells (rule_value self.now.rule) self.now.generation) }
        ensures word { IfOk result (λ s. IsWord s.rule_text.items) }
    {
        let Extent { cells, bounds } = self.cells.extent(alloc)?;
        let rule_text = self.rule.text(alloc)?;
        Ok(Summary {
            kind: self.kind,
            rule_text,
            generation: self.generation,
            cells,
            bounds,
        })
    }
}
