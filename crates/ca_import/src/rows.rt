//! Rows of cells. Nothing here takes memory.

ghost use Rattle.std.specs.Prelude.{◌≡◌, ℕ, List, MatchOption, count_by};
ghost use Rattle.std.specs.List.{prefix_len, list_all};
ghost use Rattle.ca_plane.specs.Prelude.{is_blank, front, rest};
ghost use Rattle.ca_import.specs.CellLines.{is_live_byte};
ghost use Rattle.ca_import.specs.Rows.{is_star_cell, is_letter_cell, IsRow};

use ca_plane::bytes::is_blank;

/// Whether the byte is a live cell of a row.
pub(crate) fn is_live_byte(byte: u8) -> bool
    ensures { result ≡ is_live_byte byte }
{
    byte == b'O' || byte == b'*'
}

/// How many live cells a row has.
pub(crate) fn live_count(cells: &[u8]) -> u64
    ensures { result ≡ count_by is_live_byte cells.now }
{
    cells.iter().filter(|byte| is_live_byte(**byte)).count() as u64
}

/// Whether the byte is a cell of a Life 1.05 row.
fn is_star_cell(byte: u8) -> bool
    ensures { result ≡ is_star_cell byte }
{
    byte == b'.' || byte == b'*'
}

/// Whether the byte is a cell of a Plaintext row.
pub(crate) fn is_letter_cell(byte: u8) -> bool
    ensures { result ≡ is_letter_cell byte }
{
    is_star_cell(byte) || byte == b'O'
}

fn star_length(line: &[u8]) -> usize
    ensures { result ≡ prefix_len is_star_cell line.now }
{
    line.iter().take_while(|byte| is_star_cell(**byte)).count()
}

/// The Life 1.05 cells that the line begins with, and the bytes after them.
#[tactic(auto, using(crate::proofs::RowLines::fronts))]
fn split_stars(line: &[u8]) -> (&[u8], &[u8])
    ensures front { result.0.now ≡ front is_star_cell line.now }
    ensures rest { result.1.now ≡ rest is_star_cell line.now }
{
    line.split_at(star_length(line))
}

fn letter_length(line: &[u8]) -> usize
    ensures { result ≡ prefix_len is_letter_cell line.now }
{
    line.iter()
        .take_while(|byte| is_letter_cell(**byte))
        .count()
}

/// The Plaintext cells that the line begins with, and the bytes after them.
#[tactic(auto, using(crate::proofs::RowLines::fronts))]
fn split_letters(line: &[u8]) -> (&[u8], &[u8])
    ensures front { result.0.now ≡ front is_letter_cell line.now }
    ensures rest { result.1.now ≡ rest is_letter_cell line.now }
{
    line.split_at(letter_length(line))
}

fn all_blank(bytes: &[u8]) -> bool
    ensures { result ≡ list_all is_blank bytes.now }
{
    bytes.iter().all(|byte| is_blank(*byte))
}

/// The cells of a Life 1.05 row. None where the line is no such row.
pub(crate) fn star_row(line: &[u8]) -> Option<&[u8]>
    ensures { MatchOption result ((cells : List ℕ) → IsRow is_star_cell line.now cells → ⊥)
        (λ cells. IsRow is_star_cell line.now cells.now) }
{
    let (cells, rest) = split_stars(line);
    if !all_blank(rest) {
        return None;
    }
    Some(cells)
}

/// The cells of a Plaintext row. None where the line is no such row.
pub(crate) fn letter_row(line: &[u8]) -> Option<&[u8]>
    ensures { MatchOption result ((cells : List ℕ) → IsRow is_letter_cell line.now cells → ⊥)
        (λ cells. IsRow is_letter_cell line.now cells.now) }
{
    let (cells, rest) = split_letters(line);
    if !all_blank(rest) {
        return None;
    }
    Some(cells)
}
