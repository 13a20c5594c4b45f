//! One item of an RLE text, read from the front of its bytes. Nothing here takes memory.

ghost use Rattle.std.specs.Prelude.{◌≡◌, ℕ, ◌<◌, ◌≤◌, ◌-◌, List, [], ◌∷◌, ◌++◌, Some, false, not};
ghost use Rattle.std.specs.Prelude.{length, MatchOption, MatchResult, IsTrue};
ghost use Rattle.ca_plane.specs.Prelude.{is_blank, is_digit, is_end_or, nearest_u64, Every, value};
ghost use Rattle.ca_rle.specs.declared.item.Item.{Item};
ghost use Rattle.ca_rle.specs.Items.{AtStart, InLine, is_prefix, tag_of, IsEnd};
ghost use Rattle.ca_rle.specs.Faults.{after_white, letter_fault, tag_fault, item_fault};
ghost use Rattle.ca_rle.specs.inner.BodyFaults.{IsItemAtFront};
ghost use Rattle.ca_rle.specs.inner.ItemParts.{IsSplit};

use crate::fault::RleFault;
use crate::item::{Item, Tag};
use ca_plane::bytes::{number, split_blanks, split_digits, split_line, strip};

/// The bytes of a line after the blanks at its start, or its end where it is a comment.
fn after_line_start(bytes: &[u8]) -> &[u8]
    ensures white { after_white AtStart bytes.now ≡ after_white InLine result.now }
    ensures no_blank { IsTrue (is_end_or (λ b. not (is_blank b)) result.now) }
    ensures shorter { length result.now ≤ length bytes.now }
{
    let (_, rest) = split_blanks(bytes);
    if !rest.starts_with(b"#") {
        return rest;
    }
    let (_, rest) = split_line(rest);
    rest
}

/// The bytes after the white space at the front.
pub(crate) fn after_white(bytes: &[u8]) -> &[u8]
    ensures { result.now ≡ after_white InLine bytes.now }
{
    let (_, mut rest) = split_blanks(bytes);
    'lines: while let Some(line) = strip(rest, b"\n") {
        rest = after_line_start(line);
    }
    rest
}

/// The cell that a prefix and the letter at the front stand for, and the bytes after it.
fn prefixed_cell(prefix: u8, bytes: &[u8]) -> Result<(Tag, &[u8]), RleFault>
    requires { IsTrue (is_prefix prefix) }
    ensures { MatchResult result (λ t. (letter : ℕ) × (tag_of (prefix ∷ letter ∷ []) ≡ Some t.0)
        × (bytes.now ≡ letter ∷ t.1.now)) (λ f. letter_fault prefix bytes.now ≡ Some f) }
{
    let Some((letter, rest)) = bytes.split_first() else {
        return Err(RleFault::NoEnd);
    };
    if !matches!(*letter, b'A'..=b'X') {
        return Err(RleFault::Syntax);
    }
    let state = u16::from(prefix - b'o') * 24 + u16::from(*letter - b'@');
    let Ok(state) = u8::try_from(state) else {
        return Err(RleFault::BadState);
    };
    Ok((Tag::Cell(state), rest))
}

/// What a tag of one byte means.
fn one_byte_tag(byte: u8) -> Option<Tag>
    ensures { result ≡ tag_of (byte ∷ []) }
{
    match byte {
        b'b' | b'.' => Some(Tag::Cell(0)),
        b'o' => Some(Tag::Cell(1)),
        b'A'..=b'X' => Some(Tag::Cell(byte - b'@')),
        b'$' => Some(Tag::RowEnd),
        _ => None,
    }
}

/// The tag at the front and the bytes after it, or nothing for `!`.
fn next_tag(bytes: &[u8]) -> Result<Option<(Tag, &[u8])>, RleFault>
    ensures { MatchResult result (λ o. MatchOption o ((ignored : List ℕ) × (bytes.now ≡ 33 ∷ ignored))
        (λ t. (letters : List ℕ) × (tag_of letters ≡ Some t.0) × (bytes.now ≡ letters ++ t.1.now)))
        (λ f. tag_fault false bytes.now ≡ Some f) }
{
    let Some((first, rest)) = bytes.split_first() else {
        return Err(RleFault::NoEnd);
    };
    if *first == b'!' {
        return Ok(None);
    }
    if let Some(tag) = one_byte_tag(*first) {
        return Ok(Some((tag, rest)));
    }
    if !matches!(*first, b'p'..=b'y') {
        return Err(RleFault::Syntax);
    }
    let (tag, rest) = prefixed_cell(*first, rest)?;
    Ok(Some((tag, rest)))
}

/// The digits after the white space at the front, and the bytes after them.
fn split_count(bytes: &[u8]) -> (&[u8], &[u8])
    ensures { IsSplit bytes.now result.0.now result.1.now }
{
    split_digits(after_white(bytes))
}

/// The count that digits write, or nothing where it is 0. At 2^64 - 1 it stays.
fn count(digits: &[u8]) -> Option<u64>
    requires { Every is_digit digits.now }
    ensures { MatchOption result (value digits.now ≡ 0)
        (λ n. (0 < value digits.now) × (n ≡ nearest_u64 (value digits.now))) }
{
    let count = number(digits);
    if count == 0 {
        return None;
    }
    Some(count)
}

/// The item that stands at the front and the bytes after it, or nothing where the pattern ends there.
pub(crate) fn next_item(bytes: &[u8]) -> Result<Option<(Item, &[u8])>, RleFault>
    ensures { MatchResult result (λ o. MatchOption o (IsEnd bytes.now)
        (λ r. IsItemAtFront bytes.now r.0 r.1.now)) (λ f. item_fault bytes.now ≡ Some f) }
{
    let (digits, later) = split_count(bytes);
    if digits.is_empty() {
        let Some((tag, rest)) = next_tag(later)? else {
            return Ok(None);
        };
        return Ok(Some((Item { count: 1, tag }, rest)));
    }
    let Some(count) = count(digits) else {
        return Err(RleFault::Syntax);
    };
    let Some((tag, rest)) = next_tag(after_white(later))? else {
        return Err(RleFault::Syntax);
    };
    Ok(Some((Item { count, tag }, rest)))
}
