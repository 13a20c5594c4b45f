//! The lines of Plaintext. Nothing here takes memory.

ghost use Rattle.std.specs.Prelude.{IfOk, IfErr};
ghost use Rattle.ca_import.specs.Plaintext.{PlaintextSays};
ghost use Rattle.ca_import.specs.inner.Lines.{IsSaid, IsAloneFault};

use crate::cell_line::Line;
use crate::fault::ImportFault;
use crate::rows::letter_row;

/// What a line of a Plaintext says.
///
/// # Errors
///
/// `Syntax` where it is neither a comment nor a row.
pub(crate) fn plaintext_line(line: &[u8]) -> Result<Line<'_>, ImportFault>
    ensures said { IfOk result (IsSaid (PlaintextSays line.now)) }
    ensures fault { IfErr result (IsAloneFault (PlaintextSays line.now)) }
{
    if line.starts_with(b"!") {
        return Ok(Line::Nothing);
    }
    match letter_row(line) {
        Some(cells) => Ok(Line::Row(cells)),
        None => Err(ImportFault::Syntax),
    }
}
