//! The line that tells a fault.

ghost use Rattle.std.specs.Prelude.{◌≡◌};
ghost use Rattle.ca_tool.specs.Complaints.{input_fault_text, claim_fault_text, rule_file_text};
ghost use Rattle.ca_tool.specs.Complaints.{convert_fault_text, fault_text, complaint, complaint_of};
ghost use Rattle.ca_report.specs.Prelude.{Sends, pieces_text};

use crate::fault::Fault;
use ca_draw::WindowFault;
use ca_pattern::{ConvertFault, rule_fault_text, table_kind, table_line};
use ca_plane::{Dev, WriteFault};
use ca_report::{InputFault, Piece, ToolFault, in_pieces, send_pieces};
use ca_rule::TableFault;
use ca_text::ClaimFault;
use std::io::Write;

// The text of a fault in three pieces.
fn fault_pieces<'a>(fault: &Fault, path: &'a [u8]) -> [Piece<'a>; 3]
    ensures { pieces_text result ≡ fault_text fault.now path.now }
{
    match *fault {
        Fault::Input(fault) | Fault::Tool(ToolFault::Input(fault)) => input_pieces(fault, path),
        Fault::Claims(fault) => claim_pieces(fault),
        Fault::Tool(ToolFault::BadTable(fault)) => table_pieces(fault),
        Fault::Tool(ToolFault::Convert(fault)) => convert_pieces(fault),
        Fault::Tool(ToolFault::GenTooLarge) => in_pieces![3; text b"gen too large"],
        Fault::Tool(ToolFault::Work) => in_pieces![3; text b"work"],
        Fault::Tool(ToolFault::Range) => in_pieces![3; text b"range"],
        Fault::Tool(ToolFault::Window(WindowFault::Range)) =>
            in_pieces![3; text b"window out of range"],
        Fault::Tool(ToolFault::Window(WindowFault::TooLarge)) =>
            in_pieces![3; text b"window too large"],
        Fault::Tool(ToolFault::Write) => in_pieces![3; text b"write"],
        Fault::Tool(ToolFault::Memory) => in_pieces![3; text b"memory"],
        Fault::Taken => in_pieces![3; escaped path, text b" is there already"],
        Fault::Unwritten => in_pieces![3; text b"cannot write ", escaped path],
        Fault::Unnameable => in_pieces![3; text b"no claim text can name ", escaped path],
    }
}

fn input_pieces<'a>(fault: InputFault, path: &'a [u8]) -> [Piece<'a>; 3]
    ensures { pieces_text result ≡ input_fault_text fault path.now }
{
    match fault {
        InputFault::Read => in_pieces![3; text b"cannot read ", escaped path],
        InputFault::TooLong => in_pieces![3; text b"too long ", escaped path],
        InputFault::Memory => in_pieces![3; text b"memory"],
    }
}

fn claim_pieces<'a>(fault: ClaimFault) -> [Piece<'a>; 3]
    ensures { pieces_text result ≡ claim_fault_text fault }
{
    let (line, kind): (u64, &[u8]) = match fault {
        ClaimFault::Syntax { line } => (line, b": syntax"),
        ClaimFault::Number { line } => (line, b": number"),
        ClaimFault::UnknownName { line } => (line, b": unknown name"),
        ClaimFault::NameTaken { line } => (line, b": name taken"),
        ClaimFault::Memory => return in_pieces![3; text b"memory"],
    };
    in_pieces![text b"claims line ", number line, text kind]
}

fn table_pieces<'a>(fault: TableFault) -> [Piece<'a>; 3]
    ensures { pieces_text result ≡ rule_file_text fault }
{
    if let TableFault::Memory = fault {
        return in_pieces![3; text b"memory"];
    }
    in_pieces![text b"bad table: line ", number table_line(fault), text table_kind(fault)]
}

fn convert_pieces<'a>(fault: ConvertFault) -> [Piece<'a>; 3]
    ensures { pieces_text result ≡ convert_fault_text fault }
{
    match fault {
        ConvertFault::BadPattern(fault) => in_pieces![3; text fault.text()],
        ConvertFault::BadRule(fault) => {
            in_pieces![3; text b"bad rule: ", text rule_fault_text(fault)]
        }
        ConvertFault::StateTooLarge => in_pieces![3; text b"state too large"],
        ConvertFault::TooManyCells => in_pieces![3; text b"too many cells"],
        ConvertFault::Memory => in_pieces![3; text b"memory"],
    }
}

// The line that tells a fault in pieces.
fn complaint_pieces<'a>(fault: &Fault, path: &'a [u8]) -> [Piece<'a>; 5]
    ensures { pieces_text result ≡ complaint fault.now path.now }
{
    let [front, middle, back] = fault_pieces(fault, path);
    in_pieces![text b"cafile: ", piece front, piece middle, piece back, text b"\n"]
}

// The line that tells a fault after a path in pieces.
fn complaint_of_pieces<'a>(fault: &Fault, path: &'a [u8]) -> [Piece<'a>; 7]
    ensures { pieces_text result ≡ complaint_of fault.now path.now }
{
    let [front, middle, back] = fault_pieces(fault, path);
    in_pieces![
        text b"cafile: ", escaped path, text b": ", piece front, piece middle, piece back, text b"\n",
    ]
}

/// Writes the line that tells the fault, `path` being the file that was read.
///
/// It takes no memory. After a failure some first part of the line was written, but not all of it.
pub fn complain<W: Write>(fault: &Fault, path: &[u8], device: &mut Dev<W>) -> Result<(), WriteFault>
    ensures sends { Sends W.contents device.old device.new
        (complaint fault.now path.now) WriteFault.Write result }
{
    send_pieces(device, &complaint_pieces(fault, path))
}

/// Writes the line that tells the fault, after the path of the file that was read. So the line shows which of
/// several files has the fault.
///
/// It takes no memory. After a failure some first part of the line was written, but not all of it.
pub fn complain_with_path<W: Write>(
    fault: &Fault,
    path: &[u8],
    device: &mut Dev<W>,
) -> Result<(), WriteFault>
    ensures sends { Sends W.contents device.old device.new
        (complaint_of fault.now path.now) WriteFault.Write result }
{
    send_pieces(device, &complaint_of_pieces(fault, path))
}
