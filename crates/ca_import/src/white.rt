//! Blanks and line ends. Nothing here takes memory.

ghost use Rattle.std.specs.Prelude.{◌≡◌, count_by};
ghost use Rattle.std.specs.List.{prefix_len, list_all};
ghost use Rattle.ca_plane.specs.Prelude.{is_line_end, front, rest};
ghost use Rattle.ca_import.specs.Import.{is_white};

use ca_plane::bytes::is_blank;

fn is_white(byte: u8) -> bool
    ensures { result ≡ is_white byte }
{
    is_blank(byte) || byte == b'\n'
}

fn white_length(bytes: &[u8]) -> usize
    ensures { result ≡ prefix_len is_white bytes.now }
{
    bytes.iter().take_while(|byte| is_white(**byte)).count()
}

/// The blanks and line ends that the bytes begin with, and the bytes after them.
#[tactic(auto, using(crate::proofs::RowLines::fronts))]
pub(crate) fn split_white(bytes: &[u8]) -> (&[u8], &[u8])
    ensures front { result.0.now ≡ front is_white bytes.now }
    ensures rest { result.1.now ≡ rest is_white bytes.now }
{
    bytes.split_at(white_length(bytes))
}

/// Whether all bytes are blanks and line ends.
pub(crate) fn all_white(bytes: &[u8]) -> bool
    ensures { result ≡ list_all is_white bytes.now }
{
    bytes.iter().all(|byte| is_white(*byte))
}

/// How many line ends the bytes have.
pub(crate) fn line_ends(bytes: &[u8]) -> usize
    ensures { result ≡ count_by is_line_end bytes.now }
{
    bytes.iter().filter(|byte| **byte == b'\n').count()
}
