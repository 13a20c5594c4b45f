//! The line of a leaf: rows of `.` and `*`, with `$` after each.

ghost use Rattle.std.specs.Prelude.{◌≡◌, ◌<◌, ◌≤◌, ◌^◌, List, Bool, length, map, true, IfOk, IfErr};
ghost use Rattle.ca_plane.specs.Prelude.{is_end_or};
ghost use Rattle.ca_macro.specs.Nodes.{IsLeaf, leaf_rows};
ghost use Rattle.ca_macro.specs.Faults.{is_leaf_byte};
ghost use Rattle.ca_macro.specs.inner.Leaves.{is_mark, is_live, has_room, leaf_fault, IsLeafFault, row_bits};
ghost use Rattle.ca_macro.specs.inner.Leaves.{leaf_bits, leaf_cells, IsRowSplit};

use crate::fault::MacroFault;
use ca_plane::bytes::split_at_first;

/// Whether the byte may stand in the line of a leaf.
pub(crate) fn is_leaf_byte(byte: u8) -> bool
    ensures { result ≡ is_leaf_byte byte }
{
    matches!(byte, b'.' | b'*' | b'$')
}

fn is_mark(byte: u8) -> bool
    ensures { result ≡ is_mark byte }
{
    matches!(byte, b'.' | b'*')
}

/// The fault of bytes that go on where `height` rows are left, and `width` cells of the first of them. It
/// calls itself at most once for each cell and row end of a leaf.
fn fault_from(bytes: &[u8], height: u8, width: u8) -> Option<MacroFault>
    ensures { result ≡ leaf_fault height width bytes.now }
{
    let (byte, more) = bytes.split_first()?;
    if height == 0 {
        if is_leaf_byte(*byte) {
            return Some(MacroFault::LeafSize);
        }
        return Some(MacroFault::Syntax);
    }
    if *byte == b'$' {
        return fault_from(more, height - 1, 8);
    }
    if !is_mark(*byte) {
        return Some(MacroFault::Syntax);
    }
    if width == 0 {
        return Some(MacroFault::LeafSize);
    }
    fault_from(more, height, width - 1)
}

/// The cells of a row as bits, of which bit 0 is the first cell.
fn row_bits(cells: &[u8]) -> u8
    requires { length cells.now ≤ 8 }
    ensures bits { result ≡ row_bits (map is_live cells.now) }
    ensures small { result < 2 ^ length cells.now }
{
    let Some((first, more)) = cells.split_first() else {
        return 0;
    };
    u8::from(*first == b'*') + 2 * row_bits(more)
}

/// The first row of a leaf's bytes, and the bytes after its `$`.
fn split_row(bytes: &[u8]) -> (&[u8], &[u8])
    ensures { IsRowSplit bytes.now result.0.now result.1.now }
{
    let (cells, rest) = split_at_first(bytes, b'$');
    match rest.split_first() {
        Some((_, later)) => (cells, later),
        None => (cells, rest),
    }
}

/// Sets each row to its bits, and the rows that the bytes leave out to 0.
fn fill(rows: &mut [u8], bytes: &[u8])
    requires { has_room (length rows.old) 8 (leaf_rows bytes.now) ≡ true }
    ensures { rows.new ≡ leaf_bits (length rows.old) (leaf_cells bytes.now) }
{
    let Some((first, later)) = rows.split_first_mut() else {
        return;
    };
    let (cells, more) = split_row(bytes);
    *first = row_bits(cells);
    fill(later, more);
}

/// A leaf's eight rows from the top, of which bit 0 is the west-most cell.
///
/// # Errors
///
/// The fault of the first byte with which the bytes are no leaf: `LeafSize` for a ninth cell of a row, and
/// for a cell or a row end after eight rows; `Syntax` for a byte that no leaf has.
pub(crate) fn leaf(bytes: &[u8]) -> Result<[u8; 8], MacroFault>
    requires some { 0 < length bytes.now }
    requires begins { is_end_or is_leaf_byte bytes.now ≡ true }
    ensures found { IfOk result (λ bits. (rows : List (List Bool)) × IsLeaf bytes.now rows
        × (bits ≡ leaf_bits 8 rows)) }
    ensures fault { IfErr result (λ f. IsLeafFault bytes.now f) }
{
    if let Some(fault) = fault_from(bytes, 8, 8) {
        return Err(fault);
    }
    let mut rows = [0; 8];
    fill(&mut rows, bytes);
    Ok(rows)
}
