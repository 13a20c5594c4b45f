//! The lines of Life 1.06. Nothing here takes memory.

ghost use Rattle.std.specs.Prelude.{not, IfOk, IfErr};
ghost use Rattle.ca_plane.specs.Prelude.{Every, is_line_end, words_of};
ghost use Rattle.ca_import.specs.Life106.{Life106WordsSay};
ghost use Rattle.ca_import.specs.inner.Lines.{IsSaid, IsAloneFault};

use crate::cell_line::Line;
use crate::fault::ImportFault;
use crate::point::point;
use ca_plane::bytes::next_word;

/// What a line of a Life 1.06 says.
///
/// # Errors
///
/// `Syntax` where the line says nothing that the format knows; else `Range` where its cell is out of range.
pub(crate) fn life106_line(line: &[u8]) -> Result<Line<'_>, ImportFault>
    requires { Every (λ b. not (is_line_end b)) line.now }
    ensures said { IfOk result (IsSaid (Life106WordsSay (words_of line.now))) }
    ensures fault { IfErr result (IsAloneFault (Life106WordsSay (words_of line.now))) }
{
    let Some((x, rest)) = next_word(line) else {
        return Ok(Line::Nothing);
    };
    if x.starts_with(b"#") {
        return Ok(Line::Nothing);
    }
    let Some((y, rest)) = next_word(rest) else {
        return Err(ImportFault::Syntax);
    };
    match next_word(rest) {
        Some(_) => Err(ImportFault::Syntax),
        None => Ok(Line::LiveCell(point(x, y)?)),
    }
}
