//! The lines that tell which file a refusal is about, in pieces.

ghost use Rattle.std.specs.Prelude.{◌≡◌, Some};
ghost use Rattle.ca_report.specs.FileLines.{at_line, file_line, rule_file_line, rule_words, pattern_line};
ghost use Rattle.ca_report.specs.Pieces.{pieces_text};

use crate::absence::{MissingFile, missing_piece};
use crate::in_pieces;
use crate::pieces::{NOTHING, Piece};
use ca_pattern::table_line;
use ca_rule::TableFault;

/// On which line a file is faulty, where it has such a line.
pub fn at_pieces<'a>(line: Option<u64>) -> [Piece<'a>; 2]
    ensures { pieces_text result ≡ at_line line }
{
    match line {
        Some(line) => in_pieces![text b", line ", number line],
        None => [NOTHING; 2],
    }
}

/// The line about a file, with the name of what it holds.
pub fn file_pieces<'a>(
    before: &'a [u8],
    missing: &[MissingFile<'a>],
    name: &'a [u8],
    path: &'a [u8],
    line: Option<u64>,
) -> [Piece<'a>; 16]
    ensures { pieces_text result ≡ file_line before.now missing.now name.now path.now line }
{
    let [at, number] = at_pieces(line);
    in_pieces![16;
        text before, text b"  ", escaped name, text b": ", escaped path, piece missing_piece(missing, path),
        piece at, piece number, text b"\n",
    ]
}

/// The line about a rule file, with the line of its fault.
pub fn rule_file_pieces<'a>(path: &'a [u8], fault: TableFault) -> [Piece<'a>; 16]
    ensures { pieces_text result ≡ rule_file_line path.now fault }
{
    file_pieces(b"", &[], b"rule file", path, Some(table_line(fault)))
}

/// A rule text that names no rule.
pub fn rule_pieces<'a>(rule_text: &'a Option<Vec<u8>>) -> [Piece<'a>; 2]
    ensures { pieces_text result ≡ rule_words rule_text.now }
{
    match rule_text {
        Some(text) => in_pieces![text b": rule ", escaped text],
        None => [NOTHING; 2],
    }
}

/// The line about a pattern file, with what is known of its fault.
pub fn pattern_pieces<'a>(
    path: &'a [u8],
    line: Option<u64>,
    rule_text: &'a Option<Vec<u8>>,
) -> [Piece<'a>; 16]
    ensures { pieces_text result ≡ pattern_line path.now line rule_text.now }
{
    let [at, number] = at_pieces(line);
    let [word, text] = rule_pieces(rule_text);
    in_pieces![16; text b"  ", escaped path, piece at, piece number, piece word, piece text, text b"\n"]
}
