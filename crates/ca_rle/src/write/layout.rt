//! The items' texts, in lines of at most 70 characters.

ghost use Rattle.std.specs.Prelude.{◌≡◌, ℕ, ◌≤◌, ◌++◌, ◌∷◌, [], List, map, length, codes, OnOk, IfOk};
ghost use Rattle.ca_plane.specs.Prelude.{Puts};
ghost use Rattle.ca_rle.specs.Tidy.{letters_of, tag_text, count_text, item_text};
ghost use Rattle.ca_rle.specs.inner.Written.{IsPlaced, PutsLines};

use crate::item::{Item, Tag};
use ca_plane::Memory;
use ca_plane::text::{push_number, push_text};

/// The most characters of a line of items.
const MOST_CHARACTERS: usize = 70;

/// Puts a state's letters after the others: 24 states have one letter, and each 24 more a prefix and a
/// letter.
fn push_letters(out: &mut Vec<u8>, state: u8) -> Result<(), Memory>
    ensures { OnOk result (Puts out.old.items out.new.items (letters_of state)) }
{
    if state == 0 {
        return push_text(out, b".");
    }
    let letter = b'A' + (state - 1) % 24;
    if state <= 24 {
        return push_text(out, &[letter]);
    }
    push_text(out, &[b'p' - 1 + (state - 1) / 24, letter])
}

fn push_tag(out: &mut Vec<u8>, states: u16, tag: Tag) -> Result<(), Memory>
    ensures { OnOk result (Puts out.old.items out.new.items (tag_text states tag)) }
{
    match tag {
        Tag::RowEnd => push_text(out, b"$"),
        Tag::Cell(state) if states != 2 => push_letters(out, state),
        Tag::Cell(0) => push_text(out, b"b"),
        Tag::Cell(_) => push_text(out, b"o"),
    }
}

fn push_count(out: &mut Vec<u8>, count: u64) -> Result<(), Memory>
    ensures puts { OnOk result (Puts out.old.items out.new.items (count_text count)) }
    ensures short { length (count_text count) ≤ 20 }
{
    if count == 1 {
        return Ok(());
    }
    push_number(out, count)
}

fn push_item(out: &mut Vec<u8>, states: u16, item: Item) -> Result<(), Memory>
    ensures puts { OnOk result (Puts out.old.items out.new.items (item_text states item)) }
    ensures short { length (item_text states item) ≤ 70 }
{
    push_count(out, item.count)?;
    push_tag(out, states, item.tag)
}

/// Begins a new line before the piece that begins at `start` and ends the text, where it passes the most
/// characters.
///
/// `filled` is how many characters the last line had before that piece; returned is how many it has now.
fn wrap(out: &mut Vec<u8>, start: usize, filled: usize) -> Result<usize, Memory>
    requires start { start ≤ length out.old.items }
    requires filled { filled ≤ 70 }
    ensures { IfOk result (λ n. (old : List ℕ) (piece : List ℕ) → out.old.items ≡ old ++ piece
        → length old ≡ start → IsPlaced old filled piece out.new.items n) }
{
    let length = out.len() - start;
    if length <= MOST_CHARACTERS - filled {
        return Ok(filled + length);
    }
    out.insert(start, b'\n')?;
    Ok(length)
}

pub(super) fn place_item(
    out: &mut Vec<u8>,
    states: u16,
    item: Item,
    filled: usize,
) -> Result<usize, Memory>
    requires { filled ≤ 70 }
    ensures placed { IfOk result (λ n.
        IsPlaced out.old.items filled (item_text states item) out.new.items n) }
    ensures short { length (item_text states item) ≤ 70 }
{
    let start = out.len();
    push_item(out, states, item)?;
    wrap(out, start, filled)
}

pub(super) fn place_end(out: &mut Vec<u8>, filled: usize) -> Result<usize, Memory>
    requires { filled ≤ 70 }
    ensures { IfOk result (λ n. IsPlaced out.old.items filled (codes "!") out.new.items n) }
{
    let start = out.len();
    push_text(out, b"!")?;
    wrap(out, start, filled)
}

/// Puts the items and `!` after the text, in lines of at most 70 characters, each ended no earlier than it
/// has to be.
pub(super) fn push_items(out: &mut Vec<u8>, states: u16, items: &[Item]) -> Result<(), Memory>
    ensures { OnOk result (PutsLines out.old.items out.new.items
        (map (item_text states) items.now ++ codes "!" ∷ [])) }
{
    let mut filled = 0;
    'items: for item in items {
        filled = place_item(out, states, *item, filled)?;
    }
    place_end(out, filled)?;
    push_text(out, b"\n")
}
