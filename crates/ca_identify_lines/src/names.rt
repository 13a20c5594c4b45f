//! Names for the files of a claim text, of which no two are equal.

ghost use Rattle.std.specs.Prelude.{◌≡◌, ◌++◌, ◌∷◌, [], map, IfOk, OnOk, OnErr};
ghost use Rattle.std.specs.List.{list_all};
ghost use Rattle.ca_plane.specs.Prelude.{is_word_byte, Puts};
ghost use Rattle.ca_identify_lines.specs.Names.{is_word, is_claim_path, last_component, without_ending, name_byte};
ghost use Rattle.ca_identify_lines.specs.Names.{with_first_byte, claim_name, IsFreeName};

use crate::taken_names::TakenNames;
use ca_plane::Memory;
use ca_plane::bytes::is_word_byte;
use ca_plane::text::push_text;
use std::alloc::Global;

fn are_word_bytes(bytes: &[u8]) -> bool
    ensures { result ≡ list_all is_word_byte bytes.now }
{
    bytes.iter().all(|byte| is_word_byte(*byte))
}

// Whether these are one or more bytes, none of them a blank or LF.
fn is_word(bytes: &[u8]) -> bool
    ensures { result ≡ is_word bytes.now }
{
    match bytes.split_first() {
        Some(_) => are_word_bytes(bytes),
        None => false,
    }
}

/// Whether a claim text can name this path: it is a word (one byte or more, none of them a blank or LF), and not
/// `-`, which is standard input for the program, but a file's name in a claim text.
pub fn is_claim_path(path: &[u8]) -> bool
    ensures { result ≡ is_claim_path path.now }
{
    is_word(path) && path != b"-".as_slice()
}

// What follows the last slash of a path.
fn last_component(path: &[u8]) -> &[u8]
    ensures { result.now ≡ last_component path.now }
{
    let mut left = path;
    'bytes: while let Some((_, later)) = left.split_first() {
        if !left.contains(&b'/') {
            return left;
        }
        left = later;
    }
    left
}

// What comes before the last dot of a file's name, or all of it where it has none.
fn without_ending(name: &[u8]) -> &[u8]
    ensures { result.now ≡ without_ending name.now }
{
    let mut front = name;
    'bytes: while let Some((last, before)) = front.split_last() {
        if *last == b'.' {
            return before;
        }
        front = before;
    }
    name
}

// A byte of a word, or `_` in place of a blank or LF.
fn name_byte(byte: u8) -> u8
    ensures { result ≡ name_byte byte }
{
    if is_word_byte(byte) { byte } else { b'_' }
}

// Puts a name without its leading `#` after what `out` holds; `_` stands in its place, or for an empty name.
fn push_name(out: &mut Vec<u8>, own: &[u8]) -> Result<(), Memory>
    ensures { OnOk result (Puts out.old.items out.new.items (with_first_byte (map name_byte own.now))) }
{
    let Some((first, later)) = own.split_first() else {
        return push_text(out, b"_");
    };
    let first = name_byte(*first);
    let first = if first == b'#' { b'_' } else { first };
    out.push(first)?;
    push_name_bytes(out, later)
}

fn push_name_bytes(out: &mut Vec<u8>, bytes: &[u8]) -> Result<(), Memory>
    ensures { OnOk result (Puts out.old.items out.new.items (map name_byte bytes.now)) }
{
    'bytes: for byte in bytes {
        out.push(name_byte(*byte))?;
    }
    Ok(())
}

// The name for the file of a path: the file's own name without its ending.
fn claim_name(alloc: Global, path: &[u8]) -> Result<Vec<u8>, Memory>
    ensures { IfOk result (λ name. name.items ≡ claim_name path.now) }
{
    let mut name = Vec::new(alloc);
    push_name(&mut name, without_ending(last_component(path)))?;
    Ok(name)
}

/// A name for the file of a path that is none of these, and is put after them: the file's own name without its
/// ending, with `_` for blanks, a leading `#` or no name at all, and with `-2`, `-3` and so on where that is
/// taken.
///
/// # Errors
///
/// Fails where there is no memory for it, and then leaves the names as they were.
pub fn add_name(alloc: Global, names: &mut TakenNames, path: &[u8]) -> Result<Vec<u8>, Memory>
    ensures name { IfOk result (λ name. IsFreeName names.old (claim_name path.now) name.items) }
    ensures names { IfOk result (λ name. names.new ≡ names.old ++ name.items ∷ []) }
    ensures refused { OnErr result (names.new ≡ names.old) }
{
    names.take(alloc, claim_name(alloc, path)?)
}
