//! What is printed for a claim: the line of its answer, a second line that explains it, and one that says what helps.

ghost use Rattle.std.specs.Prelude.{◌≡◌, ◌||◌, ◌++◌, Some, OnOk};
ghost use Rattle.ca_report.specs.Prelude.{generations_word, Sends, pieces_text};
ghost use Rattle.ca_verify_lines.specs.Verdicts.{cell_line, faulty_named, faulty_words, faulty_rule_words, noted_line};
ghost use Rattle.ca_verify_lines.specs.Verdicts.{cause_line, note_text, is_noted_refusal, noted_remedy, verdict_remedy_line};
ghost use Rattle.ca_verify_lines.specs.Verdicts.{second_line, last_line, finding_text};

use crate::printing::answer_pieces;
use ca_answers::{Answer, Cause, Note, Refutation, Verdict};
use ca_pattern::{File, table_kind, table_line};
use ca_plane::{Dev, Memory, WriteFault, send};
use ca_report::{
    FaultyRule, MissingFile, NOTHING, Piece, Remedy, at_pieces, bytes_of, cause_remedy,
    file_pieces, generations_word, in_pieces, missing_piece, push_pieces, remedy_line_pieces,
    rule_pieces, send_both, send_pieces,
};
use ca_rule::TableFault;
use std::io::Write;

/// How the answers of a text are printed.
#[derive(Clone, Copy, Debug)]
pub struct ReportStyle<'a> {
    /// What stands before each line.
    pub before: &'a [u8],
    /// Whether an answer that isn't a yes gets a second line, where there is more to tell.
    pub explained: bool,
    /// The rule files that were looked for by the names of rules, and aren't good: a second line about a
    /// pattern whose rule text is such a name tells the file too.
    pub faulty: &'a [FaultyRule<'a>],
    /// The paths whose files aren't supplied, as far as it is known why: a second line about such a file tells it.
    pub missing: &'a [MissingFile<'a>],
    /// The files by whose bytes it is reported what helps against a fault of one.
    pub files: &'a [File<'a>],
}

/// An answer, and the note on it.
#[derive(Drop)]
pub struct Finding<'a> {
    pub answer: Answer,
    pub note: Note<'a>,
}

// The line about a cell that differs, with the name of the pattern.
fn cell_pieces<'a>(before: &'a [u8], name: &'a [u8], refutation: Refutation) -> [Piece<'a>; 16]
    ensures { pieces_text result ≡ cell_line before.now name.now refutation }
{
    let Refutation::Differs {
        x,
        y,
        found,
        claimed,
        gens,
    } = refutation
    else {
        return [NOTHING; 16];
    };
    in_pieces![
        text before, text b"  ", escaped name, text b" at ", integer x, text b",", integer y,
        text b": ", number u64::from(found), text b" after ", number gens, text generations_word(gens),
        text b", claimed ", number u64::from(claimed), text b"\n", text b"",
    ]
}

// The first of the faulty rule files that was looked for by this name.
fn faulty_named<'a>(faulty: &[FaultyRule<'a>], name: &[u8]) -> Option<FaultyRule<'a>>
    ensures { result ≡ faulty_named faulty.now name.now }
{
    'files: for index in 0..faulty.len() {
        let file = faulty[index];
        if file.name == name {
            return Some(file);
        }
    }
    None
}

// A faulty rule file, with the line of its fault and what is wrong there.
fn faulty_pieces<'a>(file: FaultyRule<'a>) -> [Piece<'a>; 5]
    ensures { pieces_text result ≡ faulty_words (Some file.entry) }
{
    if let TableFault::Memory = file.fault {
        return in_pieces![5; text b": ", escaped file.path, text b": memory"];
    }
    in_pieces![
        text b": ", escaped file.path,
        text b": line ", number table_line(file.fault), text table_kind(file.fault),
    ]
}

// The faulty rule file that was looked for by a rule text, where there is one.
fn faulty_rule_pieces<'a>(faulty: &[FaultyRule<'a>], rule_text: &Option<Vec<u8>>) -> [Piece<'a>; 5]
    ensures { pieces_text result ≡ faulty_rule_words faulty.now rule_text.now }
{
    let Some(text) = rule_text else {
        return [NOTHING; 5];
    };
    match faulty_named(faulty, text) {
        Some(file) => faulty_pieces(file),
        None => [NOTHING; 5],
    }
}

// The line about the file of a pattern, with the pattern's name.
fn noted_pieces<'a>(
    style: &ReportStyle<'a>,
    name: &'a [u8],
    path: &'a [u8],
    line: Option<u64>,
    rule_text: &'a Option<Vec<u8>>,
) -> [Piece<'a>; 16]
    ensures { pieces_text result ≡ noted_line style.now.before.now style.now.faulty.now style.now.missing.now
        name.now path.now line rule_text.now }
{
    let [at, number] = at_pieces(line);
    let [word, text] = rule_pieces(rule_text);
    let [colon, file, at_fault, fault_line, kind] = faulty_rule_pieces(style.faulty, rule_text);
    in_pieces![
        text style.before, text b"  ", escaped name, text b": ", escaped path,
        piece missing_piece(style.missing, path), piece at, piece number, piece word, piece text,
        piece colon, piece file, piece at_fault, piece fault_line, piece kind, text b"\n",
    ]
}

// The faulty line of a rule line's file.
fn cause_line(cause: Cause) -> Option<u64>
    ensures { result ≡ cause_line cause }
{
    match cause {
        Cause::BadTable(fault) => Some(table_line(fault)),
        _ => None,
    }
}

// The line of a note on a verdict, where there is something to tell.
fn note_pieces<'a>(style: &ReportStyle<'a>, verdict: Verdict, note: &'a Note<'a>) -> [Piece<'a>; 16]
    ensures { pieces_text result
        ≡ note_text style.now.before.now style.now.faulty.now style.now.missing.now verdict note.now }
{
    match (verdict, note) {
        (Verdict::No(refutation), Note::Cell { name }) => cell_pieces(
            style.before,
            name,
            refutation,
        ),
        (
            Verdict::Refused(_),
            Note::Pattern {
                name,
                path,
                line,
                rule_text,
            },
        ) => noted_pieces(style, name, path, *line, rule_text),
        (Verdict::Refused(cause), Note::RuleFile { path }) => {
            file_pieces(
                style.before,
                style.missing,
                b"rule file",
                path,
                cause_line(cause),
            )
        }
        _ => [NOTHING; 16],
    }
}

// Whether a claim is refused, and there is a line of a note on that.
fn is_noted_refusal(verdict: Verdict, note: &Note<'_>) -> bool
    ensures { result ≡ is_noted_refusal verdict note.now }
{
    matches!(
        (verdict, note),
        (
            Verdict::Refused(_),
            Note::Pattern { .. } | Note::RuleFile { .. }
        )
    )
}

/// Remembers that a claim is refused for which there is a second line.
pub fn remember_note(has_note: &mut bool, finding: &Finding<'_>)
    ensures { has_note.new ≡ (has_note.old || is_noted_refusal finding.now.answer.verdict finding.now.note) }
{
    if is_noted_refusal(finding.answer.verdict, &finding.note) {
        *has_note = true;
    }
}

// The second line, where one is printed.
fn second_pieces<'a>(style: &ReportStyle<'a>, finding: &'a Finding<'a>) -> [Piece<'a>; 16]
    ensures { pieces_text result ≡ second_line style.now finding.now }
{
    if !style.explained {
        return [NOTHING; 16];
    }
    note_pieces(style, finding.answer.verdict, &finding.note)
}

// What helps against a cause that is about the file of a pattern with these bytes: nothing more where the rule file of
// its rule is one of the faulty ones.
fn noted_remedy(
    faulty: &[FaultyRule<'_>],
    cause: Cause,
    bytes: &[u8],
    rule_text: &Option<Vec<u8>>,
) -> Option<Remedy>
    ensures { result ≡ noted_remedy faulty.now cause bytes.now rule_text.now }
{
    if let Some(text) = rule_text {
        if faulty_named(faulty, text).is_some() {
            return None;
        }
    }
    cause_remedy(cause, bytes, rule_text)
}

// The line that says what helps against a refusal, where something does.
fn verdict_remedy_pieces<'a>(
    style: &ReportStyle<'a>,
    verdict: Verdict,
    note: &'a Note<'a>,
) -> [Piece<'a>; 6]
    ensures { pieces_text result ≡ verdict_remedy_line style.now.before.now style.now.faulty.now
        style.now.files.now verdict note.now }
{
    match (verdict, note) {
        (
            Verdict::Refused(cause),
            Note::Pattern {
                path,
                rule_text,
                ..
            },
        ) => {
            let bytes = bytes_of(style.files, path);
            let remedy = noted_remedy(style.faulty, cause, bytes, rule_text);
            remedy_line_pieces(style.before, remedy, path, rule_text)
        }
        _ => [NOTHING; 6],
    }
}

// The last line, where one is printed.
fn last_pieces<'a>(style: &ReportStyle<'a>, finding: &'a Finding<'a>) -> [Piece<'a>; 6]
    ensures { pieces_text result ≡ last_line style.now finding.now }
{
    if style.explained {
        return verdict_remedy_pieces(style, finding.answer.verdict, &finding.note);
    }
    [NOTHING; 6]
}

// Writes the second line and the last one, where they are printed.
fn send_explanation<W: Write>(
    device: &mut Dev<W>,
    style: &ReportStyle<'_>,
    finding: &Finding<'_>,
) -> Result<(), WriteFault>
    ensures { Sends W.contents device.old device.new
        (second_line style.now finding.now ++ last_line style.now finding.now) WriteFault.Write result }
{
    send_both(
        device,
        &second_pieces(style, finding),
        &last_pieces(style, finding),
    )
}

// Puts the lines for a claim in place of what `out` holds.
fn put_finding(
    out: &mut Vec<u8>,
    style: &ReportStyle<'_>,
    finding: &Finding<'_>,
) -> Result<(), Memory>
    ensures { OnOk result (out.new.items ≡ finding_text style.now finding.now) }
{
    out.clear();
    push_pieces(out, &answer_pieces(style.before, &finding.answer))?;
    push_pieces(out, &second_pieces(style, finding))?;
    push_pieces(out, &last_pieces(style, finding))
}

/// Writes the lines for a claim as one text, which is put together in `text`; where there is no memory for
/// that, in pieces.
///
/// After a failure some first part of them was written, but not all of them.
pub fn send_finding<W: Write>(
    device: &mut Dev<W>,
    text: &mut Vec<u8>,
    style: &ReportStyle<'_>,
    finding: &Finding<'_>,
) -> Result<(), WriteFault>
    ensures { Sends W.contents device.old device.new
        (finding_text style.now finding.now) WriteFault.Write result }
{
    if put_finding(text, style, finding).is_err() {
        if let Err(fault) = send_pieces(device, &answer_pieces(style.before, &finding.answer)) {
            return Err(fault);
        }
        return send_explanation(device, style, finding);
    }
    send(device, text)
}
