//! Lists of kinds of neighbourhoods, as `2-a3ij`.

ghost use Rattle.std.specs.Prelude.{◌≡◌, ◌∷◌, ◌<◌, [], not, length, MatchOption, IfSome};
ghost use Rattle.std.specs.List.{list_all, list_any, prefix_len};
ghost use Rattle.ca_plane.specs.Prelude.{is_digit, front, rest};
ghost use Rattle.ca_rule_files.specs.Isotropic.{is_letter, lettered_kinds, has_letter, are_letters, is_part};
ghost use Rattle.ca_rule_files.specs.Isotropic.{parts, is_kind_list, is_named, picks, part_has, has_kind};

use crate::kinds::{Kind, kinds_with, letter_of, live_neighbours};
use ca_plane::Nine;

/// Whether the byte is this letter, which is given in lower case, of either case.
fn is_letter(lower: u8, byte: u8) -> bool
    ensures { result ≡ is_letter lower byte }
{
    byte == lower || u16::from(byte) + 32 == u16::from(lower)
}

/// The kinds with this many live neighbours, of which it has the letters.
fn lettered_kinds(count: u16) -> &'static [Kind]
    ensures { result.now ≡ lettered_kinds count }
{
    if count <= 4 {
        return kinds_with(count);
    }
    kinds_with(8u16.saturating_sub(count))
}

/// Whether the byte is a letter that the number of live neighbours has.
fn has_letter(count: u16, byte: u8) -> bool
    ensures { result ≡ has_letter count byte }
{
    lettered_kinds(count)
        .iter()
        .any(|kind| is_letter(kind.letter, byte))
}

/// Whether each byte is such a letter.
fn have_letters(count: u16, letters: &[u8]) -> bool
    ensures { result ≡ list_all (has_letter count) letters.now }
{
    letters.iter().all(|byte| has_letter(count, *byte))
}

/// Whether the bytes may follow the digit of this number of live neighbours.
fn are_letters(count: u16, letters: &[u8]) -> bool
    ensures { result ≡ are_letters count letters.now }
{
    let Some((first, others)) = letters.split_first() else {
        return true;
    };
    if *first == b'-' {
        return !others.is_empty() && have_letters(count, others);
    }
    have_letters(count, letters)
}

/// Whether the digit and the bytes after it are a part of a list of kinds.
fn is_part(digit: u8, letters: &[u8]) -> bool
    ensures { result ≡ is_part (digit ∷ letters.now) }
{
    if digit < b'0' || digit > b'8' {
        return false;
    }
    are_letters(u16::from(digit - b'0'), letters)
}

fn length_to_digit(bytes: &[u8]) -> usize
    ensures { result ≡ prefix_len (λ b. not (is_digit b)) bytes.now }
{
    bytes
        .iter()
        .take_while(|byte| !byte.is_ascii_digit())
        .count()
}

/// The bytes before the first digit, and the bytes from it onwards.
#[tactic(auto, using(ca_plane::proofs::Lengths::fronts))]
fn split_before_digit(bytes: &[u8]) -> (&[u8], &[u8])
    ensures front { result.0.now ≡ front (λ b. not (is_digit b)) bytes.now }
    ensures rest { result.1.now ≡ rest (λ b. not (is_digit b)) bytes.now }
{
    bytes.split_at(length_to_digit(bytes))
}

/// The first byte of the first part of a list, the bytes after it in that part, and the other parts.
#[tactic(auto, using(crate::proofs::Parts::first_part, crate::proofs::Parts::rest_no_longer))]
fn next_part(list: &[u8]) -> Option<(u8, &[u8], &[u8])>
    ensures parts { MatchOption result (list.now ≡ [])
        (λ p. parts list.now ≡ (p.0 ∷ p.1.now) ∷ parts p.2.now) }
    ensures shorter { IfSome result (λ p. length p.2.now < length list.now) }
{
    let (first, tail) = list.split_first()?;
    let (letters, later) = split_before_digit(tail);
    Some((*first, letters, later))
}

/// Whether the bytes are a list of kinds.
pub(crate) fn is_kind_list(list: &[u8]) -> bool
    ensures { result ≡ is_kind_list list.now }
{
    let mut left = list;
    'parts: while let Some((digit, letters, later)) = next_part(left) {
        if !is_part(digit, letters) {
            return false;
        }
        left = later;
    }
    true
}

/// Whether the letter is among these.
fn is_named(letters: &[u8], kind: Option<u8>) -> bool
    ensures { result ≡ is_named letters.now kind }
{
    match kind {
        None => false,
        Some(lower) => is_among(letters, lower),
    }
}

/// Whether one of the bytes is this letter, which is given in lower case.
fn is_among(letters: &[u8], lower: u8) -> bool
    ensures { result ≡ list_any (is_letter lower) letters.now }
{
    letters.iter().any(|byte| is_letter(lower, *byte))
}

/// Whether what follows a digit picks the kind of this letter.
fn picks(letters: &[u8], kind: Option<u8>) -> bool
    ensures { result ≡ picks letters.now kind }
{
    let Some((first, others)) = letters.split_first() else {
        return true;
    };
    if *first == b'-' {
        return !is_named(others, kind);
    }
    is_named(letters, kind)
}

/// Whether the list has the kind of the neighbourhood.
pub(crate) fn has_kind(list: &[u8], nine: &Nine) -> bool
    ensures { result ≡ has_kind list.now nine.now }
{
    let live = live_neighbours(nine);
    let kind = letter_of(nine);
    let mut left = list;
    'parts: while let Some((digit, letters, later)) = next_part(left) {
        if part_has(live, kind, digit, letters) {
            return true;
        }
        left = later;
    }
    false
}

/// Whether the part has the kind with this many live neighbours and this letter.
fn part_has(live: u16, kind: Option<u8>, digit: u8, letters: &[u8]) -> bool
    requires { live < 10000 }
    ensures { result ≡ part_has live kind (digit ∷ letters.now) }
{
    u16::from(digit) == 48 + live && picks(letters, kind)
}
