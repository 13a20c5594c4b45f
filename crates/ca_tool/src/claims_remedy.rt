//! What helps where a claim text is faulty since it is a pattern file.

ghost use Rattle.std.specs.Prelude.{◌≡◌};
ghost use Rattle.ca_tool.specs.Explanations.{seems_pattern, claims_remedy_line};
ghost use Rattle.ca_report.specs.Prelude.{Sends, pieces_text};

use ca_identify_lines::is_claim_path;
use ca_pattern::File;
use ca_plane::{Dev, WriteFault};
use ca_report::{NOTHING, Piece, file_word, in_pieces, send_pieces};
use ca_text::ClaimFault;
use std::io::Write;

// Whether a text begins as a macrocell does, or as an RLE does with its header or a line about it.
fn seems_pattern(bytes: &[u8]) -> bool
    ensures { result ≡ seems_pattern bytes.now }
{
    bytes.starts_with(b"[M2]")
        || bytes.starts_with(b"x =")
        || bytes.starts_with(b"x=")
        || bytes.starts_with(b"#CXRLE")
        || bytes.starts_with(b"#C ")
        || bytes.starts_with(b"#N ")
        || bytes.starts_with(b"#O ")
}

// The line that says what helps against a fault of a claim text with these bytes, at this path.
fn claims_remedy_pieces<'a>(fault: ClaimFault, text: File<'a>) -> [Piece<'a>; 3]
    ensures { pieces_text result ≡ claims_remedy_line fault text.entry.path.now text.entry.bytes.now }
{
    let ClaimFault::Syntax { .. } = fault else {
        return [NOTHING; 3];
    };
    if !is_claim_path(text.path) || !seems_pattern(text.bytes) {
        return [NOTHING; 3];
    }
    in_pieces![text b"  try: cafile identify ", text file_word(text.path), text b"\n"]
}

/// Writes the line that says what helps against a fault of a claim text, where something does: to identify it, where
/// it seems to be a pattern file and `identify` takes its path.
///
/// It takes no memory. After a failure some first part of the line was written, but not all of it.
pub fn explain_claims<W: Write>(
    fault: ClaimFault,
    text: File<'_>,
    device: &mut Dev<W>,
) -> Result<(), WriteFault>
    ensures sends { Sends W.contents device.old device.new
        (claims_remedy_line fault text.entry.path.now text.entry.bytes.now) WriteFault.Write result }
{
    send_pieces(device, &claims_remedy_pieces(fault, text))
}
