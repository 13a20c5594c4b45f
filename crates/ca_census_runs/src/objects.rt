//! What is written of an object: its label, and its line in a list.

ghost use Rattle.std.specs.Prelude.{◌≡◌, IfOk, OnOk};
ghost use Rattle.ca_plane.specs.Prelude.{Puts};
ghost use Rattle.ca_identify_lines.specs.Prelude.{cells_word};
ghost use Rattle.ca_census_runs.specs.Objects.{kind_words, size_words, label, label_of, place_words, code_words, object_line};

use ca_census::CensusObject;
use ca_plane::text::{push_integer, push_text};
use ca_plane::{Bounds, Memory};
use ca_text::Kind;
use itoa::Buffer;
use std::alloc::Global;

fn cells_word<'a>(cells: u128) -> &'a [u8]
    ensures { result.now ≡ cells_word cells }
{
    if cells == 1 {
        return b" cell";
    }
    b" cells"
}

/// Puts how many cells are live.
///
/// # Errors
///
/// Fails where there is no memory for it.
pub(crate) fn push_size(out: &mut Vec<u8>, cells: u128) -> Result<(), Memory>
    ensures { OnOk result (Puts out.old.items out.new.items (size_words cells)) }
{
    let mut digits = Buffer::new();
    push_text(out, digits.format(cells).as_bytes())?;
    push_text(out, cells_word(cells))
}

// Puts what an object is in words.
fn push_kind(out: &mut Vec<u8>, kind: Kind) -> Result<(), Memory>
    ensures { OnOk result (Puts out.old.items out.new.items (kind_words kind)) }
{
    if matches!(kind, Kind::Still) {
        return push_text(out, b"still life");
    }
    push_text(out, kind.keyword())?;
    kind.push_words_after_name(out, b"")
}

// Puts the label of objects of a kind and size that have no code.
fn push_label(out: &mut Vec<u8>, kind: Kind, cells: u64) -> Result<(), Memory>
    ensures { OnOk result (Puts out.old.items out.new.items (label_of kind cells)) }
{
    push_kind(out, kind)?;
    push_text(out, b" of ")?;
    push_size(out, u128::from(cells))
}

/// The label of an object: its code, or else what it is, and of how many cells.
///
/// # Errors
///
/// Fails where there is no memory for it.
pub(crate) fn label(alloc: Global, object: &CensusObject) -> Result<Vec<u8>, Memory>
    ensures { IfOk result (λ text. text.items ≡ label object.now) }
{
    let mut text = Vec::new(alloc);
    match &object.code {
        Some(code) => push_text(&mut text, code)?,
        None => push_label(&mut text, object.kind, object.cells)?,
    }
    Ok(text)
}

// Puts the code of an object, and a blank after it, where it has one.
fn push_code(out: &mut Vec<u8>, code: &Option<Vec<u8>>) -> Result<(), Memory>
    ensures { OnOk result (Puts out.old.items out.new.items (code_words code.now)) }
{
    match code {
        Some(code) => {
            push_text(out, code)?;
            push_text(out, b" ")
        }
        None => Ok(()),
    }
}

// Puts where the upper left corner of a box is.
fn push_place(out: &mut Vec<u8>, bounds: Bounds) -> Result<(), Memory>
    ensures { OnOk result (Puts out.old.items out.new.items (place_words bounds)) }
{
    push_text(out, b" at ")?;
    push_integer(out, bounds.x0)?;
    push_text(out, b",")?;
    push_integer(out, bounds.y0)
}

/// Puts the line of an object: its code, where it has one, what it is, where, and of how many cells.
///
/// # Errors
///
/// Fails where there is no memory for it.
pub(crate) fn push_object(out: &mut Vec<u8>, object: &CensusObject) -> Result<(), Memory>
    ensures { OnOk result (Puts out.old.items out.new.items (object_line object.now)) }
{
    push_code(out, &object.code)?;
    push_kind(out, object.kind)?;
    push_place(out, object.bounds)?;
    push_text(out, b": ")?;
    push_size(out, u128::from(object.cells))?;
    push_text(out, b"\n")
}
