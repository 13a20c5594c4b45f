//! The lines of a claim text on the files that were to be identified.

ghost use Rattle.std.specs.Prelude.{◌≡◌, ◌+◌, ◌<◌, ◌^◌, ◌++◌, ◌∷◌, [], OnOk};
ghost use Rattle.ca_answers.specs.declared.identity.Identity.TheVariants.{Unknown};
ghost use Rattle.ca_plane.specs.Prelude.{Puts};
ghost use Rattle.ca_identify_lines.specs.Catalog.{load_line, claim_words, identity_line, refused_line, unnameable_line, later_text, later_head};
ghost use Rattle.ca_identify_lines.specs.Catalog.{later_line, found_line, code_comment, code_line, identified_lines, entry_lines};
ghost use Rattle.ca_identify_lines.specs.Catalog.{rule_line, IsWithin, objects_word, comment_head, settles_lines};
ghost use Rattle.ca_report.specs.Prelude.{pieces_text};

use crate::entry::{Entry, Outcome, Settles};
use crate::growth::push_none;
use ca_answers::{Cause, CodedLook, Growth, Identity, Look};
use ca_plane::Memory;
use ca_plane::text::push_text;
use ca_report::{
    Piece, at_pieces, generations_word, in_pieces, push_counted, push_escaped, push_pieces,
};
use ca_text::Kind;

/// Puts the line that gives a name to the file at a path.
///
/// # Errors
///
/// Fails where there is no memory for it.
pub fn push_load(out: &mut Vec<u8>, name: &[u8], path: &[u8]) -> Result<(), Memory>
    ensures { OnOk result (Puts out.old.items out.new.items (load_line name.now path.now)) }
{
    push_pieces(out, &load_pieces(name, path))
}

fn load_pieces<'a>(name: &'a [u8], path: &'a [u8]) -> [Piece<'a>; 5]
    ensures { pieces_text result ≡ load_line name.now path.now }
{
    in_pieces![text b"load ", text name, text b" ", text path, text b"\n"]
}

/// Puts the line of a claim of this kind about the pattern of a name, where the second name is that of the other pattern,
/// if it names one.
///
/// # Errors
///
/// Fails where there is no memory for it.
pub fn push_claim(out: &mut Vec<u8>, name: &[u8], second: &[u8], kind: Kind) -> Result<(), Memory>
    ensures { OnOk result (Puts out.old.items out.new.items (claim_words name.now second.now kind)) }
{
    push_text(out, kind.keyword())?;
    push_text(out, b" ")?;
    push_text(out, name)?;
    kind.push_words_after_name(out, second)?;
    push_text(out, b"\n")
}

// Puts the comment on a pattern of which no claim is true within the limit.
fn push_unknown(out: &mut Vec<u8>, limit: u64, name: &[u8], growth: Growth) -> Result<(), Memory>
    ensures { OnOk result (Puts out.old.items out.new.items (identity_line limit name.now (Unknown growth))) }
{
    push_text(out, b"# ")?;
    push_escaped(out, name)?;
    push_text(out, b": ")?;
    push_none(out, limit, limit, growth)?;
    push_text(out, b"\n")
}

// Puts the line of what a pattern is found to be.
fn push_identity(
    out: &mut Vec<u8>,
    limit: u64,
    name: &[u8],
    identity: Identity,
) -> Result<(), Memory>
    ensures { OnOk result (Puts out.old.items out.new.items (identity_line limit name.now identity)) }
{
    match identity {
        Identity::Empty => push_pieces(
            out,
            &in_pieces![text b"# ", escaped name, text b": no cell is live\n"],
        ),
        Identity::Claim(kind) => push_claim(out, name, name, kind),
        Identity::Unknown { growth } => push_unknown(out, limit, name, growth),
    }
}

// Puts what the plane of a pattern with this name is found to be after `generations` generations.
fn push_later_text(
    out: &mut Vec<u8>,
    generations: u64,
    limit: u64,
    name: &[u8],
    identity: Identity,
) -> Result<(), Memory>
    requires { generations + limit < 2 ^ 64 }
    ensures { OnOk result (Puts out.old.items out.new.items
        (later_text generations limit name.now identity)) }
{
    match identity {
        Identity::Empty => push_text(out, b"no cell is live"),
        Identity::Claim(kind) => {
            push_text(out, kind.keyword())?;
            kind.push_words_after_name(out, name)
        }
        Identity::Unknown { growth } => push_none(out, limit, generations + limit, growth),
    }
}

// Puts how a comment on the plane of a pattern after `generations` generations begins.
fn push_later_head(out: &mut Vec<u8>, generations: u64, name: &[u8]) -> Result<(), Memory>
    ensures { OnOk result (Puts out.old.items out.new.items (later_head generations name.now)) }
{
    push_text(out, b"# ")?;
    push_escaped(out, name)?;
    push_counted(out, b" after ", generations)?;
    push_text(out, generations_word(generations))?;
    push_text(out, b": ")
}

// Puts the comment on what the plane of a pattern is found to be after `generations` generations.
fn push_later(
    out: &mut Vec<u8>,
    generations: u64,
    limit: u64,
    name: &[u8],
    identity: Identity,
) -> Result<(), Memory>
    requires { generations + limit < 2 ^ 64 }
    ensures { OnOk result (Puts out.old.items out.new.items
        (later_line generations limit name.now identity)) }
{
    push_later_head(out, generations, name)?;
    push_later_text(out, generations, limit, name, identity)?;
    push_text(out, b"\n")
}

// Puts the line of what is found: of a pattern, or of its plane after some generations.
fn push_found(
    out: &mut Vec<u8>,
    generations: u64,
    limit: u64,
    name: &[u8],
    identity: Identity,
) -> Result<(), Memory>
    requires { generations + limit < 2 ^ 64 }
    ensures { OnOk result (Puts out.old.items out.new.items
        (found_line generations limit name.now identity)) }
{
    if generations == 0 {
        return push_identity(out, limit, name, identity);
    }
    push_later(out, generations, limit, name, identity)
}

// The comment with the code of a pattern in pieces.
fn code_pieces<'a>(name: &'a [u8], code: &'a [u8]) -> [Piece<'a>; 5]
    ensures { pieces_text result ≡ code_comment name.now code.now }
{
    in_pieces![text b"# ", escaped name, text b": ", text code, text b"\n"]
}

/// Puts the comment with a code: of a pattern, or of its plane after some generations.
///
/// # Errors
///
/// Fails where there is no memory for it.
pub fn push_code(
    out: &mut Vec<u8>,
    generations: u64,
    name: &[u8],
    code: &[u8],
) -> Result<(), Memory>
    ensures { OnOk result (Puts out.old.items out.new.items (code_line generations name.now code.now)) }
{
    if generations == 0 {
        return push_pieces(out, &code_pieces(name, code));
    }
    push_later_head(out, generations, name)?;
    push_text(out, code)?;
    push_text(out, b"\n")
}

// The comment on a file that is refused in pieces.
fn refused_pieces<'a>(
    name: &'a [u8],
    path: &'a [u8],
    cause: Cause,
    line: Option<u64>,
) -> [Piece<'a>; 10]
    ensures { pieces_text result ≡ refused_line name.now path.now cause line }
{
    let (first, second) = cause.words();
    let [at, number] = at_pieces(line);
    in_pieces![
        text b"# ", escaped name, text b": ", escaped path, text b": ",
        text first, text second, piece at, piece number, text b"\n",
    ]
}

// The comment on a file whose path can't be in a claim text in pieces.
fn unnameable_pieces<'a>(name: &'a [u8], path: &'a [u8]) -> [Piece<'a>; 5]
    ensures { pieces_text result ≡ unnameable_line name.now path.now }
{
    in_pieces![
        text b"# ", escaped name, text b": ", escaped path, text b": no claim text can name this path\n",
    ]
}

// Puts the lines on a file that is identified: of its pattern, or of its plane after some generations.
fn push_identified(
    out: &mut Vec<u8>,
    generations: u64,
    name: &[u8],
    path: &[u8],
    found: &CodedLook,
) -> Result<(), Memory>
    requires { generations + found.now.look.limit < 2 ^ 64 }
    ensures { OnOk result (Puts out.old.items out.new.items
        (identified_lines generations name.now path.now found.now)) }
{
    let Look {
        identity,
        limit,
        ..
    } = found.look;
    push_load(out, name, path)?;
    push_found(out, generations, limit, name, identity)?;
    match &found.code {
        Some(code) => push_code(out, generations, name, code),
        None => Ok(()),
    }
}

/// The word after a number of objects.
pub fn objects_word<'a>(count: u64) -> &'a [u8]
    ensures { result.now ≡ objects_word count }
{
    if count == 1 {
        return b" object";
    }
    b" objects"
}

/// Puts how a comment on a pattern begins, or on the plane that it is after `generations` generations.
///
/// # Errors
///
/// Fails where there is no memory for it.
pub fn push_comment_head(out: &mut Vec<u8>, generations: u64, name: &[u8]) -> Result<(), Memory>
    ensures { OnOk result (Puts out.old.items out.new.items (comment_head generations name.now)) }
{
    if generations == 0 {
        return push_pieces(out, &in_pieces![text b"# ", escaped name, text b": "]);
    }
    push_later_head(out, generations, name)
}

// Puts the comment on when a pattern settles, or its plane after some generations, where that is known.
fn push_settles(
    out: &mut Vec<u8>,
    generations: u64,
    name: &[u8],
    settles: Option<Settles>,
) -> Result<(), Memory>
    ensures { OnOk result (Puts out.old.items out.new.items (settles_lines generations name.now settles)) }
{
    let Some(settles) = settles else {
        return Ok(());
    };
    push_comment_head(out, generations, name)?;
    push_counted(out, b"settles after ", settles.generations)?;
    push_text(out, generations_word(settles.generations))?;
    push_counted(out, b" into ", settles.objects)?;
    push_text(out, objects_word(settles.objects))?;
    push_text(out, b": cafile census\n")
}

/// Puts the lines on a file after what `out` holds; it was looked at after `generations` generations.
///
/// # Errors
///
/// Fails where there is no memory for them.
pub fn push_entry(out: &mut Vec<u8>, generations: u64, entry: &Entry<'_>) -> Result<(), Memory>
    requires { IsWithin generations entry.now.outcome }
    ensures { OnOk result (Puts out.old.items out.new.items (entry_lines generations entry.now)) }
{
    match &entry.outcome {
        Outcome::Unnameable => push_pieces(out, &unnameable_pieces(&entry.name, entry.path)),
        Outcome::Refused(why) => push_pieces(
            out,
            &refused_pieces(&entry.name, entry.path, why.fault, why.line),
        ),
        Outcome::FaultyRule(rule) => push_pieces(
            out,
            &refused_pieces(&entry.name, entry.path, Cause::BadTable(rule.fault), None),
        ),
        Outcome::Identified(found, settles) => {
            push_identified(out, generations, &entry.name, entry.path, found)?;
            push_settles(out, generations, &entry.name, *settles)
        }
    }
}

/// Puts the line that gives the table of a rule file to the text.
///
/// # Errors
///
/// Fails where there is no memory for it.
pub(crate) fn push_rule(out: &mut Vec<u8>, path: &[u8]) -> Result<(), Memory>
    ensures { OnOk result (Puts out.old.items out.new.items (rule_line path.now)) }
{
    push_text(out, b"rule ")?;
    push_text(out, path)?;
    push_text(out, b"\n")
}
