//! How a rule is spelled in B/S notation.

ghost use Rattle.std.specs.Prelude.{◌≡◌, ◌≤◌, None, Some, MatchOption};
ghost use Rattle.std.specs.List.{prefix_len};
ghost use Rattle.ca_plane.specs.Prelude.{front, rest};
ghost use Rattle.ca_rule.specs.Counts.{are_digits_up_to};
ghost use Rattle.ca_rule.specs.inner.TextParts.{hood_of, body_of};
ghost use Rattle.ca_rule.specs.Spelling.{SpellsBsRule};
ghost use Rattle.ca_rule.specs.TextLists.{is_rule_letter, stands_in_list, without_slash, tail_after_letter};
ghost use Rattle.ca_rule.specs.TextLists.{tail_after_slash, lists_around, lists_around_slash, lists_of};

use crate::bs_rule::BsRule;
use crate::hood::Hood;
use crate::notation::Notation;

/// Whether the byte is this letter, which is given in upper case, of either case.
fn is_letter(byte: u8, upper: u8) -> bool
    requires low { 65 ≤ upper }
    requires high { upper ≤ 90 }
    ensures { result ≡ is_rule_letter upper byte }
{
    byte == upper || byte == upper + 32
}

/// The text before its suffix, and the neighbourhood that the suffix stands for.
fn split_suffix(text: &[u8]) -> (&[u8], Hood)
    ensures body { result.0.now ≡ body_of text.now }
    ensures hood { result.1 ≡ hood_of text.now }
{
    let Some((last, before)) = text.split_last() else {
        return (text, Hood::Moore);
    };
    if is_letter(*last, b'V') {
        return (before, Hood::VonNeumann);
    }
    if is_letter(*last, b'H') {
        return (before, Hood::Hex);
    }
    (text, Hood::Moore)
}

/// Whether the byte may stand in a list: it is no `/`, and none of the letters B and S.
fn stands_in_list(byte: u8) -> bool
    ensures { result ≡ stands_in_list byte }
{
    byte != b'/' && !is_letter(byte, b'B') && !is_letter(byte, b'S')
}

fn list_length(bytes: &[u8]) -> usize
    ensures { result ≡ prefix_len stands_in_list bytes.now }
{
    bytes
        .iter()
        .take_while(|byte| stands_in_list(**byte))
        .count()
}

/// The list that the bytes begin with, and the bytes after it.
#[tactic(auto, using(ca_plane::proofs::Lengths::fronts))]
fn split_list(bytes: &[u8]) -> (&[u8], &[u8])
    ensures front { result.0.now ≡ front stands_in_list bytes.now }
    ensures rest { result.1.now ≡ rest stands_in_list bytes.now }
{
    bytes.split_at(list_length(bytes))
}

/// The bytes without a `/` at their start.
fn without_slash(bytes: &[u8]) -> &[u8]
    ensures { result.now ≡ without_slash bytes.now }
{
    bytes.strip_prefix(b"/").unwrap_or(bytes)
}

/// The bytes after the letter with which they begin.
fn tail_after_letter(bytes: &[u8], upper: u8) -> Option<&[u8]>
    requires low { 65 ≤ upper }
    requires high { upper ≤ 90 }
    ensures { MatchOption result (tail_after_letter upper bytes.now ≡ None)
        (λ r. tail_after_letter upper bytes.now ≡ Some r.now) }
{
    let (first, rest) = bytes.split_first()?;
    if !is_letter(*first, upper) {
        return None;
    }
    Some(rest)
}

/// The bytes after the `/` with which they begin.
fn tail_after_slash(bytes: &[u8]) -> Option<&[u8]>
    ensures { MatchOption result (tail_after_slash bytes.now ≡ None)
        (λ r. tail_after_slash bytes.now ≡ Some r.now) }
{
    bytes.strip_prefix(b"/")
}

/// The list at the start, and what comes after the letter that follows it, with an optional `/` before it.
fn lists_around(bytes: &[u8], upper: u8) -> Option<(&[u8], &[u8])>
    requires low { 65 ≤ upper }
    requires high { upper ≤ 90 }
    ensures { MatchOption result (lists_around upper bytes.now ≡ None)
        (λ r. lists_around upper bytes.now ≡ Some (r.0.now, r.1.now)) }
{
    let (list, rest) = split_list(bytes);
    let later = tail_after_letter(without_slash(rest), upper)?;
    Some((list, later))
}

/// The list at the start, and what comes after the `/` that follows it.
pub(crate) fn lists_around_slash(bytes: &[u8]) -> Option<(&[u8], &[u8])>
    ensures { MatchOption result (lists_around_slash bytes.now ≡ None)
        (λ r. lists_around_slash bytes.now ≡ Some (r.0.now, r.1.now)) }
{
    let (list, rest) = split_list(bytes);
    let later = tail_after_slash(rest)?;
    Some((list, later))
}

/// The birth list and the survival list of a text, as `3` and `23` of `B3/S23`, `s23b3` and `23/3`, whatever their
/// bytes are, but that a `/` or one of the letters B and S ends the first. The text has no suffix: one would stay
/// in the second list.
pub fn lists_of(body: &[u8]) -> Option<(&[u8], &[u8])>
    ensures { MatchOption result (lists_of body.now ≡ None)
        (λ r. lists_of body.now ≡ Some (r.0.now, r.1.now)) }
{
    let (first, rest) = body.split_first()?;
    if is_letter(*first, b'B') {
        return lists_around(rest, b'S');
    }
    if is_letter(*first, b'S') {
        let (survival, birth) = lists_around(rest, b'B')?;
        return Some((birth, survival));
    }
    let (survival, birth) = lists_around_slash(body)?;
    Some((birth, survival))
}

/// Whether each byte is a digit from `0` to that of `most`.
pub(crate) fn are_digits_up_to(most: u8, digits: &[u8]) -> bool
    requires { most ≤ 8 }
    ensures { result ≡ are_digits_up_to most digits.now }
{
    digits
        .iter()
        .all(|digit| b'0' <= *digit && *digit <= b'0' + most)
}

impl Notation for BsRule {
    type More = Hood;

    ghost spells = { SpellsBsRule };

    /// The digits and the neighbourhood that the text spells.
    fn spelling_of(text: &[u8]) -> Option<(&[u8], &[u8], Hood)> {
        let (body, hood) = split_suffix(text);
        let (birth, survival) = lists_of(body)?;
        let most = hood.most();
        if !are_digits_up_to(most, birth) || !are_digits_up_to(most, survival) {
            return None;
        }
        Some((birth, survival, hood))
    }
}
