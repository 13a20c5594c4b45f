//! The words of a line of a claim text.

ghost use Rattle.std.specs.Prelude.{◌≡◌, ◌≢◌, ◌-◌, ◌^◌, min, List, ℕ, [], ◌∷◌, not, codes, MatchOption};
ghost use Rattle.ca_plane.specs.Prelude.{Every, is_line_end, words_of, AreDigits, value};

use ca_plane::bytes::{next_word, whole_number};

/// The word of a line's bytes, where they have one and no other.
pub(crate) fn one_word(bytes: &[u8]) -> Option<&[u8]>
    requires { Every (λ b. not (is_line_end b)) bytes.now }
    ensures { MatchOption result ((a : List ℕ) → words_of bytes.now ≢ a ∷ [])
        (λ a. words_of bytes.now ≡ a.now ∷ []) }
{
    let (word, rest) = next_word(bytes)?;
    match next_word(rest) {
        None => Some(word),
        Some(_) => None,
    }
}

/// The two words of a line's bytes, where they have two and no other.
pub(crate) fn two_words(bytes: &[u8]) -> Option<(&[u8], &[u8])>
    requires { Every (λ b. not (is_line_end b)) bytes.now }
    ensures { MatchOption result ((a b : List ℕ) → words_of bytes.now ≢ a ∷ b ∷ [])
        (λ w. words_of bytes.now ≡ w.0.now ∷ w.1.now ∷ []) }
{
    let (first, rest) = next_word(bytes)?;
    let second = one_word(rest)?;
    Some((first, second))
}

/// The three words of a line's bytes, where they have three and no other.
pub(crate) fn three_words(bytes: &[u8]) -> Option<(&[u8], &[u8], &[u8])>
    requires { Every (λ b. not (is_line_end b)) bytes.now }
    ensures { MatchOption result ((a b c : List ℕ) → words_of bytes.now ≢ a ∷ b ∷ c ∷ [])
        (λ w. words_of bytes.now ≡ w.0.now ∷ w.1.now ∷ w.2.now ∷ []) }
{
    let (first, rest) = next_word(bytes)?;
    let (second, third) = two_words(rest)?;
    Some((first, second, third))
}

/// The four words of a line's bytes, where they have four and no other.
pub(crate) fn four_words(bytes: &[u8]) -> Option<(&[u8], &[u8], &[u8], &[u8])>
    requires { Every (λ b. not (is_line_end b)) bytes.now }
    ensures { MatchOption result ((a b c d : List ℕ) → words_of bytes.now ≢ a ∷ b ∷ c ∷ d ∷ [])
        (λ w. words_of bytes.now ≡ w.0.now ∷ w.1.now ∷ w.2.now ∷ w.3.now ∷ []) }
{
    let (first, rest) = next_word(bytes)?;
    let (second, third, fourth) = three_words(rest)?;
    Some((first, second, third, fourth))
}

/// The two words after `shift`, where a line's bytes have these three words and no other.
fn words_of_shift(bytes: &[u8]) -> Option<(&[u8], &[u8])>
    requires { Every (λ b. not (is_line_end b)) bytes.now }
    ensures { MatchOption result ((x y : List ℕ) → words_of bytes.now ≢ codes "shift" ∷ x ∷ y ∷ [])
        (λ w. words_of bytes.now ≡ codes "shift" ∷ w.0.now ∷ w.1.now ∷ []) }
{
    let (keyword, dx, dy) = three_words(bytes)?;
    if keyword != b"shift".as_slice() {
        return None;
    }
    Some((dx, dy))
}

/// The first three words of a line's bytes and the two after `shift`, where no other words are there.
pub(crate) fn three_words_and_shift(bytes: &[u8]) -> Option<((&[u8], &[u8], &[u8]), (&[u8], &[u8]))>
    requires { Every (λ b. not (is_line_end b)) bytes.now }
    ensures { MatchOption result
        ((a b c x y : List ℕ) → words_of bytes.now ≢ a ∷ b ∷ c ∷ codes "shift" ∷ x ∷ y ∷ [])
        (λ w. words_of bytes.now
        ≡ w.0.0.now ∷ w.0.1.now ∷ w.0.2.now ∷ codes "shift" ∷ w.1.0.now ∷ w.1.1.now ∷ []) }
{
    let (first, rest) = next_word(bytes)?;
    let (second, rest) = next_word(rest)?;
    let (third, rest) = next_word(rest)?;
    let shift = words_of_shift(rest)?;
    Some(((first, second, third), shift))
}

/// The word and the number that a line's bytes are, where they are these two and no more.
pub(crate) fn name_and_number(bytes: &[u8]) -> Option<(&[u8], u64)>
    requires { Every (λ b. not (is_line_end b)) bytes.now }
    ensures { MatchOption result ((a n : List ℕ) → words_of bytes.now ≡ a ∷ n ∷ [] → AreDigits n → ⊥)
        (λ w. (n : List ℕ) × (words_of bytes.now ≡ w.0.now ∷ n ∷ []) × AreDigits n
        × (w.1 ≡ min (value n) (2 ^ 64 - 1))) }
{
    let (name, digits) = two_words(bytes)?;
    let number = whole_number(digits)?;
    Some((name, number))
}
