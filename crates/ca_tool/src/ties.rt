//! The lines that tell of rule tables under which Golly may take other states.

ghost use Rattle.std.specs.Prelude.{◌≡◌};
ghost use Rattle.ca_tool.specs.Ties.{tie_line, tie_lines};
ghost use Rattle.ca_report.specs.Prelude.{Sends, pieces_text};

use ca_plane::{Dev, WriteFault};
use ca_report::{NOTHING, Piece, in_pieces, send_pieces};
use ca_rule::Table;
use std::io::Write;

// The line that tells of a table with ties.
fn tie_pieces<'a>(table: &'a Table) -> [Piece<'a>; 4]
    ensures { pieces_text result ≡ tie_line table.now }
{
    if !table.has_ties() {
        return [NOTHING; 4];
    }
    in_pieces![
        text b"  rule ",
        escaped table.name(),
        text b": may differ from Golly, where a transition with a variable for its result fits in several orders",
        text b"\n",
    ]
}

// Writes the line that tells of a table, if it has ties.
fn explain_table<'a, W: Write>(table: &'a Table, device: &mut Dev<W>) -> Result<(), WriteFault>
    ensures { Sends W.contents device.old device.new (tie_line table.now) WriteFault.Write result }
{
    send_pieces(device, &tie_pieces(table))
}

/// Writes a line for each of the tables that has ties, in order: that Golly may take other states under it.
///
/// It takes no memory. After a failure some first part of the lines was written, but not all of them.
pub fn explain_ties<W: Write>(tables: &[Table], device: &mut Dev<W>) -> Result<(), WriteFault>
    ensures sends { Sends W.contents device.old device.new (tie_lines tables.now) WriteFault.Write result }
{
    'tables: for table in tables {
        if let Err(fault) = explain_table(table, device) {
            return Err(fault);
        }
    }
    Ok(())
}
