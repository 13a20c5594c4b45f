//! What a line of a claim text says, by its words.

ghost use Rattle.std.specs.Prelude.{◌≡◌, ◌<◌, List, [], ◌∷◌, not, length, codes};
ghost use Rattle.ca_plane.specs.Prelude.{Every, is_line_end, words_of};
ghost use Rattle.ca_text.specs.Text.{ClaimTextLine, is_skipped};
ghost use Rattle.ca_text.specs.inner.Reading.{IsKind, IsVersionAfter};

use crate::kind::claim;
use crate::line::Claim;
use crate::version::TextVersion;
use crate::words::{one_word, two_words};
use ca_plane::bytes::next_word;

/// What a line says, by its words and what is known of the text's version.
#[derive(Clone, Copy)]
pub(crate) enum LineKind<'a> {
    /// No words, or a first word that begins with `#`.
    Skipped,
    /// `claims 2`, before all others.
    Version,
    /// `rule PATH`.
    Rule { path: &'a [u8] },
    /// `load NAME PATH`.
    Load { name: &'a [u8], path: &'a [u8] },
    /// A claim, whose numbers are within their limits.
    Claim(Claim<&'a [u8]>),
    /// A claim with a number outside its limits.
    OutsideLimits,
    /// Anything else.
    Misspelled,
}

/// Whether a line whose first word this is says nothing.
fn begins_comment(word: &[u8]) -> bool
    requires { 0 < length word.now }
    ensures { result ≡ is_skipped (word.now ∷ []) }
{
    word.starts_with(b"#")
}

/// What the line says, in a text of whose version this is known.
pub(crate) fn line_kind(line: &[u8], version: TextVersion) -> LineKind<'_>
    requires { Every (λ b. not (is_line_end b)) line.now }
    ensures { (earlier : List ClaimTextLine) → IsVersionAfter earlier version
        → IsKind earlier (words_of line.now) result }
{
    let Some((keyword, rest)) = next_word(line) else {
        return LineKind::Skipped;
    };
    if begins_comment(keyword) {
        return LineKind::Skipped;
    }
    if keyword == b"claims".as_slice() {
        return claims(rest, version);
    }
    if keyword == b"rule".as_slice() {
        return rule(rest);
    }
    if keyword == b"load".as_slice() {
        return load(rest);
    }
    let Some(claim) = claim(keyword, rest) else {
        return LineKind::Misspelled;
    };
    if !version.allows(claim.kind) {
        return LineKind::Misspelled;
    }
    if !claim.kind.has_good_numbers() {
        return LineKind::OutsideLimits;
    }
    LineKind::Claim(claim)
}

/// What a line says whose keyword is `claims`, by the words after it.
fn claims(words: &[u8], version: TextVersion) -> LineKind<'_>
    requires { Every (λ b. not (is_line_end b)) words.now }
    ensures { (earlier : List ClaimTextLine) → IsVersionAfter earlier version
        → IsKind earlier (codes "claims" ∷ words_of words.now) result }
{
    let Some(number) = one_word(words) else {
        return LineKind::Misspelled;
    };
    if !version.is_open() {
        return LineKind::Misspelled;
    }
    if number != b"2".as_slice() {
        return LineKind::Misspelled;
    }
    LineKind::Version
}

/// What a line says whose keyword is `rule`, by the words after it.
fn rule(words: &[u8]) -> LineKind<'_>
    requires { Every (λ b. not (is_line_end b)) words.now }
    ensures { (earlier : List ClaimTextLine) → IsKind earlier (codes "rule" ∷ words_of words.now) result }
{
    match one_word(words) {
        Some(path) => LineKind::Rule { path },
        None => LineKind::Misspelled,
    }
}

/// What a line says whose keyword is `load`, by the words after it.
fn load(words: &[u8]) -> LineKind<'_>
    requires { Every (λ b. not (is_line_end b)) words.now }
    ensures { (earlier : List ClaimTextLine) → IsKind earlier (codes "load" ∷ words_of words.now) result }
{
    match two_words(words) {
        Some((name, path)) => LineKind::Load { name, path },
        None => LineKind::Misspelled,
    }
}
