//! Pattern files that are written in another form.

ghost use Rattle.std.specs.Prelude.{IfOk, IfErr};
ghost use Rattle.ca_pattern.specs.Converted.{IsConverted, IsConvertFault};

use crate::convert_fault::ConvertFault;
use crate::format::Format;
use crate::opening::open_pattern;
use ca_rule::Table;
use std::alloc::Global;

/// The tidy text of the target's format that means what the bytes mean: the same cells at every x and y, the
/// printed form of the same rule, and the same generation. The source may be of either format, that of the
/// target too.
///
/// # Errors
///
/// The first fault of `ConvertFault` that holds.
pub fn convert(
    alloc: Global,
    bytes: &[u8],
    target: Format,
    tables: &[Table],
) -> Result<Vec<u8>, ConvertFault>
    ensures converted { IfOk result (λ text. IsConverted bytes.now tables.now target text.items) }
    ensures fault { IfErr result (IsConvertFault bytes.now tables.now target) }
{
    let pattern = match open_pattern(alloc, bytes, tables) {
        Ok(pattern) => pattern,
        Err(refused) => return Err(refused.convert_fault()),
    };
    match pattern.text(alloc, target) {
        Ok(text) => Ok(text),
        Err(refused) => Err(refused.convert_fault()),
    }
}
