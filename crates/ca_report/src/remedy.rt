//! What helps where a file is refused.

ghost use Rattle.std.specs.Prelude.{◌≡◌};
ghost use Rattle.std.specs.List.{list_all};
ghost use Rattle.ca_report.specs.Remedies.{unread_remedy, pattern_remedy, rule_remedy, cause_remedy, run_remedy, file_at};
ghost use Rattle.ca_report.specs.Remedies.{bytes_of, rule_name, remedy_text, remedy_line, is_plain_byte, file_word};
ghost use Rattle.ca_report.specs.Pieces.{pieces_text};

use crate::fault::ToolFault;
use crate::in_pieces;
use crate::pieces::{NOTHING, Piece};
use crate::rule_folder::is_file_name;
use ca_answers::Cause;
use ca_macro::MacroFault;
use ca_pattern::{ConvertFault, File, PatternFault};
use ca_rle::RleFault;
use ca_rule::RuleFault;

/// What helps where a file is refused.
#[derive(Clone, Copy, Debug, PartialEq, Eq)]
pub enum Remedy {
    /// Take away a byte order mark.
    DropMark,
    /// Unpack what is packed by gzip.
    Unpack,
    /// Translate a file of another format.
    Import,
    /// Put LF in place of CR.
    BreakLines,
    /// Write the header with commas and a rule.
    WriteHeader,
    /// End the items.
    WriteEnd,
    /// Look for a byte that no item has.
    FindByte,
    /// Give the rule in the header.
    MoveRule,
    /// Write a state that the rule has, or a rule that has the state.
    MendState,
    /// Name the folder of the rule file.
    NameFolder,
    /// Take away what follows the rule.
    CutRule,
    /// Have Golly save one plane alone.
    SavePlane,
    /// Claim that the pattern becomes another one.
    ClaimBecomes,
    /// Convert to macrocell.
    ToMacrocell,
    /// Allow more work.
    AllowWork,
}

// What helps against an RLE whose header or end isn't found: it goes by the bytes of the file, and else it is
// `otherwise`.
fn unread_remedy(bytes: &[u8], otherwise: Remedy) -> Remedy
    ensures { result ≡ unread_remedy bytes.now otherwise }
{
    if bytes.starts_with(b"\xef\xbb\xbf") {
        return Remedy::DropMark;
    }
    if bytes.starts_with(b"\x1f\x8b") {
        return Remedy::Unpack;
    }
    if bytes.starts_with(b"#Life 1.0") || bytes.starts_with(b"!") {
        return Remedy::Import;
    }
    if bytes.contains(&b'\r') && !bytes.contains(&b'\n') {
        return Remedy::BreakLines;
    }
    otherwise
}

// What helps against a pattern that isn't read.
fn pattern_remedy(fault: PatternFault, bytes: &[u8]) -> Option<Remedy>
    ensures { result ≡ pattern_remedy fault bytes.now }
{
    match fault {
        PatternFault::Rle(RleFault::Header) => Some(unread_remedy(bytes, Remedy::WriteHeader)),
        PatternFault::Rle(RleFault::NoEnd) => Some(unread_remedy(bytes, Remedy::WriteEnd)),
        PatternFault::Rle(RleFault::Syntax) => Some(Remedy::FindByte),
        PatternFault::Rle(RleFault::XlifeRule) => Some(Remedy::MoveRule),
        PatternFault::Macro(MacroFault::Timeline) => Some(Remedy::SavePlane),
        _ => None,
    }
}

// What helps against a rule text that names no rule.
fn rule_remedy(fault: RuleFault, rule_text: &Option<Vec<u8>>) -> Option<Remedy>
    ensures { result ≡ rule_remedy fault rule_text.now }
{
    let (RuleFault::Unknown, Some(text)) = (fault, rule_text) else {
        return None;
    };
    if is_file_name(text) {
        return Some(Remedy::NameFolder);
    }
    if text.contains(&b'/') && text.contains(&b',') {
        return Some(Remedy::CutRule);
    }
    None
}

/// What helps against a cause that is about the file of a pattern with these bytes.
pub fn cause_remedy(cause: Cause, bytes: &[u8], rule_text: &Option<Vec<u8>>) -> Option<Remedy>
    ensures { result ≡ cause_remedy cause bytes.now rule_text.now }
{
    match cause {
        Cause::BadPattern(fault) => pattern_remedy(fault, bytes),
        Cause::BadRule(fault) => rule_remedy(fault, rule_text),
        Cause::StateTooLarge => Some(Remedy::MendState),
        Cause::TooManyCells => Some(Remedy::ClaimBecomes),
        _ => None,
    }
}

/// What helps against a fault of a run over a pattern file with these bytes.
pub fn run_remedy(fault: ToolFault, bytes: &[u8], rule_text: &Option<Vec<u8>>) -> Option<Remedy>
    ensures { result ≡ run_remedy fault bytes.now rule_text.now }
{
    match fault {
        ToolFault::Convert(ConvertFault::BadPattern(fault)) => pattern_remedy(fault, bytes),
        ToolFault::Convert(ConvertFault::BadRule(fault)) => rule_remedy(fault, rule_text),
        ToolFault::Convert(ConvertFault::StateTooLarge) => Some(Remedy::MendState),
        ToolFault::Convert(ConvertFault::TooManyCells) => Some(Remedy::ToMacrocell),
        ToolFault::Work => Some(Remedy::AllowWork),
        _ => None,
    }
}

// A rule text, which may be a name.
fn rule_name<'a>(rule_text: &'a Option<Vec<u8>>) -> &'a [u8]
    ensures { result.now ≡ rule_name rule_text.now }
{
    match rule_text {
        Some(text) => text,
        None => b"",
    }
}

// Whether a shell takes a byte as it stands.
fn is_plain_byte(byte: u8) -> bool
    ensures { result ≡ is_plain_byte byte }
{
    matches!(byte, b'+'..=b':' | b'=' | b'@'..=b'Z' | b'_' | b'a'..=b'z')
}

/// A path as it may stand in a command that a reader may copy: where a shell takes each of its bytes as it stands, and
/// no command takes it for an option, which begins with `-`; else the word FILE.
pub fn file_word(path: &[u8]) -> &[u8]
    ensures { result.now ≡ file_word path.now }
{
    if !path.starts_with(b"-") && is_plain(path) {
        return path;
    }
    b"FILE"
}

fn is_plain(path: &[u8]) -> bool
    ensures { result ≡ list_all is_plain_byte path.now }
{
    path.iter().all(|byte| is_plain_byte(*byte))
}

// What helps, for the file of this path, whose rule text is this.
fn remedy_pieces<'a>(
    remedy: Remedy,
    path: &'a [u8],
    rule_text: &'a Option<Vec<u8>>,
) -> [Piece<'a>; 3]
    ensures { pieces_text result ≡ remedy_text remedy path.now rule_text.now }
{
    let text: &[u8] = match remedy {
        Remedy::DropMark => {
            return in_pieces![3; text b"sed '1s/^\\xef\\xbb\\xbf//' ", text file_word(path)];
        }
        Remedy::Unpack => return in_pieces![3; text b"gunzip -c ", text file_word(path)],
        Remedy::Import => return in_pieces![3; text b"cafile import ", text file_word(path)],
        Remedy::BreakLines => return in_pieces![3; text b"tr '\\r' '\\n' < ", text file_word(path)],
        Remedy::WriteHeader => b"write the header as x = 3, y = 3, rule = B3/S23",
        Remedy::WriteEnd => b"get the file again, or put ! at its end",
        Remedy::FindByte => { b"look for bytes other than b o . $ !, A to X, p to y and digits" }
        Remedy::MoveRule => b"write the rule into the header",
        Remedy::MendState => b"write o for a live cell, or name the right rule",
        Remedy::NameFolder => {
            return in_pieces![
                text b"name the folder of ", escaped rule_name(rule_text), text b".rule by --rules",
            ];
        }
        Remedy::CutRule => b"take away what follows the rule",
        Remedy::SavePlane => b"open it in Golly and save one of its planes",
        Remedy::ClaimBecomes => {
            b"claim that it becomes a file of its moved plane, without a shift"
        }
        Remedy::ToMacrocell => b"convert it --to mc, which takes any number of cells",
        Remedy::AllowWork => b"allow more by --work",
    };
    in_pieces![3; text text]
}

/// The line that says what helps, after a text that stands before each line, where something does.
pub fn remedy_line_pieces<'a>(
    before: &'a [u8],
    remedy: Option<Remedy>,
    path: &'a [u8],
    rule_text: &'a Option<Vec<u8>>,
) -> [Piece<'a>; 6]
    ensures { pieces_text result ≡ remedy_line before.now remedy path.now rule_text.now }
{
    let Some(remedy) = remedy else {
        return [NOTHING; 6];
    };
    let [front, middle, back] = remedy_pieces(remedy, path, rule_text);
    in_pieces![text before, text b"  try: ", piece front, piece middle, piece back, text b"\n"]
}

// The first of the files with this path.
fn file_at<'a>(files: &[File<'a>], path: &[u8]) -> Option<File<'a>>
    ensures { result ≡ file_at files.now path.now }
{
    'files: for index in 0..files.len() {
        let file = files[index];
        if file.path == path {
            return Some(file);
        }
    }
    None
}

/// The bytes of the first of the files with this path, or none.
pub fn bytes_of<'a>(files: &[File<'a>], path: &[u8]) -> &'a [u8]
    ensures { result.now ≡ bytes_of files.now path.now }
{
    match file_at(files, path) {
        Some(file) => file.bytes,
        None => b"",
    }
}
