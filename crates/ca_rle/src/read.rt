//! The reader of extended RLE.

ghost use Rattle.std.specs.Prelude.{◌≡◌, unwrap_or, IfOk, IfErr, IsErrOf};
ghost use Rattle.std.specs.Option.{option_copied};
ghost use Rattle.ca_plane.specs.Prelude.{default_rule};
ghost use Rattle.ca_rle.specs.declared.fault.RleFault.TheVariants.{Memory};
ghost use Rattle.ca_rle.specs.Faults.{IsRleFault};
ghost use Rattle.ca_rle.specs.FaultyLine.{IsRleFaultOn};
ghost use Rattle.ca_rle.specs.Pattern.{IsReadableRle, HoldsRlePattern};

use crate::drawing::draw;
use crate::fault::{LineFault, RleFault};
use crate::fault_line::{GoodText, good_text};
use crate::pattern::Pattern;
use ca_plane::text::rule_text;
use std::alloc::Global;

/// Reads an extended RLE text (Golly Help, File Formats; docs/FORMATS.md): the pattern that it holds, its
/// first cell at the corner that `Pos` says, or at (0, 0).
///
/// The whole text is judged before anything is written: a text that is refused takes no memory, and a count
/// is never counted out before it is known to fit.
///
/// # Errors
///
/// The first fault of the text's spelling and its line; else `Range` where a count is above 2^62, or the
/// corner or a live cell isn't from -2^60 to 2^60 - 1 in both directions; else `TooManyCells` where more than
/// 16777216 cells are live; and `Memory` where there is no memory for the pattern of a text without these
/// faults.
pub fn read_rle_with_line(alloc: Global, bytes: &[u8]) -> Result<Pattern, LineFault>
    // What is read is what the text holds, and it passes no limit.
    ensures found { IfOk result (HoldsRlePattern bytes.now) }
    // A text that is refused has this fault, on this line.
    ensures fault { IfErr result (λ f. IsRleFaultOn bytes.now f.fault f.line) }
    // It runs out of memory only for a text without a fault.
    ensures memory { IfErr result (λ f. f.fault ≡ Memory → IsReadableRle bytes.now) }
{
    let text = good_text(bytes)?;
    let cells = draw(alloc, text.front.body, text.front.corner)?;
    Ok(Pattern {
        cells,
        rule_text: rule_text_of(alloc, text)?,
        generation: text.front.generation,
    })
}

/// The rule text that the header gives, or the default one.
fn rule_text_of(alloc: Global, text: GoodText<'_>) -> Result<Vec<u8>, ca_plane::Memory>
    ensures { IfOk result (λ v. v.items ≡ unwrap_or (option_copied text.entry.front.rule) default_rule) }
{
    Ok(rule_text(alloc, text.front.rule)?)
}

/// Reads an extended RLE text as `read_rle_with_line` does, where the line of a fault isn't wanted.
///
/// # Errors
///
/// Those of `read_rle_with_line`.
pub fn read_rle(alloc: Global, bytes: &[u8]) -> Result<Pattern, RleFault>
    // What is read is what the text holds, and it passes no limit.
    ensures found { IfOk result (HoldsRlePattern bytes.now) }
    // A text that is refused has this fault.
    ensures fault { IfErr result (λ f. IsRleFault bytes.now f) }
    // It runs out of memory only for a text without a fault.
    ensures memory { IsErrOf result RleFault.Memory → IsReadableRle bytes.now }
{
    match read_rle_with_line(alloc, bytes) {
        Ok(pattern) => Ok(pattern),
        Err(found) => Err(found.fault),
    }
}
