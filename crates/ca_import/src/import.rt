//! The reader of other formats.

ghost use Rattle.std.specs.Prelude.{◌≡◌, Some, IfOk, IfErr};
ghost use Rattle.ca_plane.specs.Prelude.{bit_cell};
ghost use Rattle.ca_import.specs.declared.format.ImportFormat.TheVariants.{Lines};
ghost use Rattle.ca_import.specs.Import.{line_format, import_format, has_first_line, begins_plaintext};
ghost use Rattle.ca_import.specs.Import.{IsImport, IsImportFaultOn, first_row};
ghost use Rattle.ca_import.specs.inner.Reading.{HoldsReading};

use crate::apgcode::representation_text;
use crate::code_cells::read_code;
use crate::fault::{ImportFault, LineFault};
use crate::format::{ImportFormat, LineFormat};
use crate::reading::Reading;
use crate::rows::is_letter_cell;
use crate::white::split_white;
use ca_plane::bytes::{next_line, split_line, trim_blanks};
use ca_plane::{BitPlane, Point};
use ca_rule::BsRule;
use std::alloc::Global;

/// What a text of another format holds.
#[derive(Drop)]
pub struct ImportedPattern {
    /// Its live cells.
    pub cells: BitPlane,
    /// The rule that it names, where it names one.
    pub rule: Option<BsRule>,
}

/// Whether the first line of the bytes is this text, but for blanks at its ends.
fn has_first_line(bytes: &[u8], text: &[u8]) -> bool
    ensures { result ≡ has_first_line bytes.now text.now }
{
    let (line, _) = split_line(bytes);
    trim_blanks(line) == text
}

/// Whether the first byte that is no blank and no line end begins a comment or a row of a Plaintext.
fn begins_plaintext(bytes: &[u8]) -> bool
    ensures { result ≡ begins_plaintext bytes.now }
{
    match split_white(bytes).1.first() {
        Some(byte) => *byte == b'!' || is_letter_cell(*byte),
        None => false,
    }
}

/// The format of a text of lines, where it is one that is read here.
fn line_format(bytes: &[u8]) -> Option<LineFormat>
    ensures { result ≡ line_format bytes.now }
{
    if has_first_line(bytes, b"#Life 1.06") {
        return Some(LineFormat::Life106);
    }
    if has_first_line(bytes, b"#Life 1.05") {
        return Some(LineFormat::Life105);
    }
    if begins_plaintext(bytes) {
        return Some(LineFormat::Plaintext);
    }
    None
}

/// The format of a text, where it is one that is read here. It goes by the first line: `#Life 1.06` or
/// `#Life 1.05`. A text whose first byte, but for blanks and line ends, is `!`, `.`, `O` or `*` is a Plaintext. One whose
/// only word begins with the head of an apgcode, as `xq4_`, is an apgcode.
pub fn import_format(bytes: &[u8]) -> Option<ImportFormat>
    ensures { result ≡ import_format bytes.now }
{
    if let Some(format) = line_format(bytes) {
        return Some(ImportFormat::Lines(format));
    }
    match representation_text(bytes) {
        Some(_) => Some(ImportFormat::Apgcode),
        None => None,
    }
}

/// Where the first row of a text of the format begins, if rows may come before a corner.
fn first_row(format: LineFormat) -> Option<Point>
    ensures { result ≡ first_row format }
{
    match format {
        LineFormat::Life106 | LineFormat::Life105 => None,
        LineFormat::Plaintext => Some(Point { y: 0, x: 0 }),
    }
}

/// What the lines of a text of this format say.
fn read_lines(alloc: Global, format: LineFormat, bytes: &[u8]) -> Result<Reading, LineFault>
    requires { import_format bytes.now ≡ Some (Lines format) }
    ensures found { IfOk result (HoldsReading format bytes.now) }
    ensures fault { IfErr result (λ f. IsImportFaultOn bytes.now f.fault f.line) }
{
    let mut reading = Reading::new(alloc, first_row(format));
    let mut rest = bytes;
    let mut number = 0;
    'lines: while !rest.is_empty() {
        let (line, later) = next_line(rest);
        number += 1;
        if let Err(fault) = reading.read(format, line) {
            return Err(LineFault::at_line(fault, number));
        }
        rest = later;
    }
    Ok(reading)
}

/// What a text of lines of this format holds.
fn read_pattern(
    alloc: Global,
    format: LineFormat,
    bytes: &[u8],
) -> Result<ImportedPattern, LineFault>
    requires { import_format bytes.now ≡ Some (Lines format) }
    ensures found { IfOk result (λ p. IsImport bytes.now (bit_cell p.cells) p.rule) }
    ensures fault { IfErr result (λ f. IsImportFaultOn bytes.now f.fault f.line) }
{
    let Reading { cells, rule, .. } = read_lines(alloc, format, bytes)?;
    Ok(ImportedPattern { cells, rule })
}

/// Reads a text of another format: Life 1.06, Life 1.05, Plaintext or an apgcode (docs/FORMATS.md, "Other formats").
///
/// # Errors
///
/// `UnknownFormat` where the text is in none of the formats; else the fault of the first faulty line, with its
/// number, which is `Syntax` for an apgcode whose representation is that of no cells; and `Memory` where there is no
/// memory for the cells of a good line after good lines, or for those of an apgcode.
pub fn read_import(alloc: Global, bytes: &[u8]) -> Result<ImportedPattern, LineFault>
    // What is read is what the text holds.
    ensures found { IfOk result (λ p. IsImport bytes.now (bit_cell p.cells) p.rule) }
    // A text that is refused has this fault, on this line.
    ensures fault { IfErr result (λ f. IsImportFaultOn bytes.now f.fault f.line) }
{
    if let Some(format) = line_format(bytes) {
        return read_pattern(alloc, format, bytes);
    }
    match representation_text(bytes) {
        Some(text) => read_code(alloc, bytes, text),
        None => Err(LineFault {
            fault: ImportFault::UnknownFormat,
            line: None,
        }),
    }
}
