//! Words that are apgcodes. Nothing here takes memory.

ghost use Rattle.std.specs.Prelude.{◌≡◌, None, Some, MatchOption};
ghost use Rattle.ca_import.specs.Apgcode.{after_mark, after_number, after_kind, after_head, is_kind_letter};
ghost use Rattle.ca_import.specs.Import.{word_alone, representation_text};

use crate::white::{all_white, split_white};
use ca_plane::bytes::{split_digits, split_word};

/// What follows the `_` at the front.
fn after_mark(bytes: &[u8]) -> Option<&[u8]>
    ensures { MatchOption result (after_mark bytes.now ≡ None) (λ text. after_mark bytes.now ≡ Some text.now) }
{
    let (mark, text) = bytes.split_first()?;
    if *mark != b'_' {
        return None;
    }
    Some(text)
}

/// What follows a number and `_`.
fn after_number(bytes: &[u8]) -> Option<&[u8]>
    ensures { MatchOption result (after_number bytes.now ≡ None)
        (λ text. after_number bytes.now ≡ Some text.now) }
{
    let (digits, rest) = split_digits(bytes);
    if digits.len() == 0 {
        return None;
    }
    after_mark(rest)
}

/// Whether the byte is the letter of a kind.
fn is_kind_letter(byte: u8) -> bool
    ensures { result ≡ is_kind_letter byte }
{
    byte == b's' || byte == b'p' || byte == b'q'
}

/// What follows the letter of a kind, a number and `_`.
fn after_kind(bytes: &[u8]) -> Option<&[u8]>
    ensures { MatchOption result (after_kind bytes.now ≡ None) (λ text. after_kind bytes.now ≡ Some text.now) }
{
    let (letter, rest) = bytes.split_first()?;
    if !is_kind_letter(*letter) {
        return None;
    }
    after_number(rest)
}

/// What follows the head of an apgcode: `x`, the letter of a kind, a number and `_`.
fn after_head(word: &[u8]) -> Option<&[u8]>
    ensures { MatchOption result (after_head word.now ≡ None) (λ text. after_head word.now ≡ Some text.now) }
{
    let (first, rest) = word.split_first()?;
    if *first != b'x' {
        return None;
    }
    after_kind(rest)
}

/// The word that the bytes begin with, where only blanks and line ends follow it.
fn word_alone(bytes: &[u8]) -> Option<&[u8]>
    ensures { MatchOption result (word_alone bytes.now ≡ None) (λ word. word_alone bytes.now ≡ Some word.now) }
{
    let (word, rest) = split_word(bytes);
    if !all_white(rest) {
        return None;
    }
    Some(word)
}

/// What follows the head of an apgcode that is the only word of a text.
pub(crate) fn representation_text(bytes: &[u8]) -> Option<&[u8]>
    ensures { MatchOption result (representation_text bytes.now ≡ None)
        (λ text. representation_text bytes.now ≡ Some text.now) }
{
    let (_, rest) = split_white(bytes);
    let word = word_alone(rest)?;
    after_head(word)
}
