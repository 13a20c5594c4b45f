//! The lines that explain why nothing is made of a pattern file, and what helps.

ghost use Rattle.std.specs.Prelude.{◌≡◌};
ghost use Rattle.ca_tool.specs.Explanations.{fault_line, run_remedy_line, has_explanation, explanation};
ghost use Rattle.ca_report.specs.Prelude.{Sends, pieces_text};

use ca_pattern::File;
use ca_plane::{Dev, WriteFault};
use ca_report::{
    DetailedFault, NOTHING, Piece, ToolFault, pattern_pieces, remedy_line_pieces, rule_file_pieces,
    run_remedy, send_both,
};
use std::io::Write;

/// The files of a run: that of the pattern, and the path of the rule file, if there is one.
#[derive(Clone, Copy, Debug)]
pub struct RunFiles<'a> {
    pub pattern: File<'a>,
    pub rule_path: &'a [u8],
}

// The line that explains a fault, where there is something to tell.
fn fault_pieces<'a>(refused: &'a DetailedFault<ToolFault>, files: &RunFiles<'a>) -> [Piece<'a>; 16]
    ensures { pieces_text result ≡ fault_line refused.now files.now }
{
    match refused.fault {
        ToolFault::BadTable(fault) => rule_file_pieces(files.rule_path, fault),
        ToolFault::Convert(_)
        | ToolFault::GenTooLarge
        | ToolFault::Work
        | ToolFault::Range
        | ToolFault::Window(_) => {
            pattern_pieces(files.pattern.path, refused.line, &refused.rule_text)
        }
        _ => [NOTHING; 16],
    }
}

/// Whether there is a line that explains a fault of a run over a pattern file.
pub fn has_explanation(fault: ToolFault) -> bool
    ensures { result ≡ has_explanation fault }
{
    !matches!(
        fault,
        ToolFault::Input(_) | ToolFault::Write | ToolFault::Memory
    )
}

// The line that says what helps against a fault, where something does.
fn run_remedy_pieces<'a>(refused: &'a DetailedFault<ToolFault>, file: File<'a>) -> [Piece<'a>; 6]
    ensures { pieces_text result ≡ run_remedy_line refused.now file.entry }
{
    let remedy = run_remedy(refused.fault, file.bytes, &refused.rule_text);
    remedy_line_pieces(b"", remedy, file.path, &refused.rule_text)
}

/// Writes the line that explains a fault of a run over a pattern file, where there is something to tell: the
/// rule file with the line of its fault, or the pattern file with what is known of it. A fault that names its
/// file, or is about none, has no such line. Then it writes the line that says what helps, where something does.
///
/// It takes no memory. After a failure some first part of the lines was written, but not all of them.
pub fn explain<W: Write>(
    refused: &DetailedFault<ToolFault>,
    files: &RunFiles<'_>,
    device: &mut Dev<W>,
) -> Result<(), WriteFault>
    ensures sends { Sends W.contents device.old device.new
        (explanation refused.now files.now) WriteFault.Write result }
{
    send_both(
        device,
        &fault_pieces(refused, files),
        &run_remedy_pieces(refused, files.pattern),
    )
}
