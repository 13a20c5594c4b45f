//! The line that says why a text of another format isn't imported.

ghost use Rattle.std.specs.Prelude.{◌≡◌};
ghost use Rattle.ca_report.specs.Prelude.{pieces_text, Sends};
ghost use Rattle.cafile.specs.ImportFaults.{import_fault_name, line_fault_text, import_fault_text, import_complaint};

use ca_import::{ImportFault, ImportTextFault, LineFault};
use ca_pattern::rule_fault_text;
use ca_plane::{Dev, WriteFault};
use ca_report::{Piece, in_pieces, send_pieces};
use std::io::Write;

fn fault_name<'a>(fault: ImportFault) -> &'a [u8]
    ensures { result.now ≡ import_fault_name fault }
{
    match fault {
        ImportFault::UnknownFormat => b"unknown format",
        ImportFault::Syntax => b"syntax",
        ImportFault::NoCorner => b"no corner",
        ImportFault::Range => b"range",
        ImportFault::TooManyCells => b"too many cells",
        ImportFault::Memory => b"memory",
    }
}

fn line_pieces<'a>(fault: LineFault) -> [Piece<'a>; 4]
    ensures { pieces_text result ≡ line_fault_text fault.fault fault.line }
{
    let name: &[u8] = fault_name(fault.fault);
    match fault.line {
        Some(line) => in_pieces![text b"import line ", number line, text b": ", text name],
        None => in_pieces![4; text name],
    }
}

fn fault_pieces<'a>(fault: ImportTextFault) -> [Piece<'a>; 4]
    ensures { pieces_text result ≡ import_fault_text fault }
{
    match fault {
        ImportTextFault::Text(fault) => line_pieces(fault),
        ImportTextFault::Rule(fault) => {
            in_pieces![4; text b"bad rule: ", text rule_fault_text(fault)]
        }
        ImportTextFault::TooManyCells => in_pieces![4; text b"too many cells"],
        ImportTextFault::Memory => in_pieces![4; text b"memory"],
    }
}

fn complaint_pieces<'a>(fault: ImportTextFault) -> [Piece<'a>; 6]
    ensures { pieces_text result ≡ import_complaint fault }
{
    let [one, two, three, four] = fault_pieces(fault);
    in_pieces![text b"cafile: ", piece one, piece two, piece three, piece four, text b"\n"]
}

/// Writes the line that says why nothing is printed of a text of another format.
///
/// After a failure some first part of the line was written, but not all of it.
pub fn complain_of_import<W: Write>(
    fault: ImportTextFault,
    device: &mut Dev<W>,
) -> Result<(), WriteFault>
    ensures sends { Sends W.contents device.old device.new (import_complaint fault) WriteFault.Write result }
{
    send_pieces(device, &complaint_pieces(fault))
}
