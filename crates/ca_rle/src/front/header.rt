//! The header line.

ghost use Rattle.std.specs.Prelude.{◌≡◌, ℕ, List, [], ◌∷◌, codes, not, Option, None, Some, MatchOption};
ghost use Rattle.std.specs.Option.{option_copied};
ghost use Rattle.ca_plane.specs.Prelude.{Every, is_line_end};
ghost use Rattle.ca_rle.specs.Header.{Exactly, Number, size_parts, rule_parts, IsHeader};
ghost use Rattle.ca_rle.specs.inner.HeaderParts.{parts_left};

use ca_plane::bytes::{split_blanks, split_digits, split_word, strip};

/// A header that was read.
#[derive(Clone, Copy)]
pub(crate) struct Header<'a> {
    /// Its rule text, where it has one.
    pub(crate) rule: Option<&'a [u8]>,
}

/// The bytes after the text, blanks on both sides of it left out.
fn after_text<'a>(bytes: &'a [u8], text: &[u8]) -> Option<&'a [u8]>
    ensures { MatchOption result (parts_left (Exactly text.now ∷ []) bytes.now ≡ None)
        (λ r. parts_left (Exactly text.now ∷ []) bytes.now ≡ Some r.now) }
{
    let (_, bytes) = split_blanks(bytes);
    let rest = strip(bytes, text)?;
    let (_, rest) = split_blanks(rest);
    Some(rest)
}

/// The bytes after a number, blanks on both sides of it left out.
fn after_number(bytes: &[u8]) -> Option<&[u8]>
    ensures { MatchOption result (parts_left (Number ∷ []) bytes.now ≡ None)
        (λ r. parts_left (Number ∷ []) bytes.now ≡ Some r.now) }
{
    let (_, bytes) = split_blanks(bytes);
    let (digits, rest) = split_digits(bytes);
    if digits.is_empty() {
        return None;
    }
    let (_, rest) = split_blanks(rest);
    Some(rest)
}

/// The bytes after a name, `=` and a number.
fn after_size<'a>(bytes: &'a [u8], name: &[u8]) -> Option<&'a [u8]>
    ensures { MatchOption result (parts_left
        (Exactly name.now ∷ Exactly (codes "=") ∷ Number ∷ []) bytes.now ≡ None)
        (λ r. parts_left (Exactly name.now ∷ Exactly (codes "=") ∷ Number ∷ []) bytes.now ≡ Some r.now) }
{
    let bytes = after_text(bytes, name)?;
    let bytes = after_text(bytes, b"=")?;
    let rest = after_number(bytes)?;
    Some(rest)
}

/// The bytes after `x`, `=`, a number, `,`, `y`, `=` and a number.
fn after_sizes(line: &[u8]) -> Option<&[u8]>
    ensures { MatchOption result (parts_left (size_parts []) line.now ≡ None)
        (λ r. parts_left (size_parts []) line.now ≡ Some r.now) }
{
    let bytes = after_size(line, b"x")?;
    let bytes = after_text(bytes, b",")?;
    let rest = after_size(bytes, b"y")?;
    Some(rest)
}

/// The bytes after `,`, `rule` and `=`.
fn after_rule_name(bytes: &[u8]) -> Option<&[u8]>
    ensures { MatchOption result (parts_left rule_parts bytes.now ≡ None)
        (λ r. parts_left rule_parts bytes.now ≡ Some r.now) }
{
    let bytes = after_text(bytes, b",")?;
    let bytes = after_text(bytes, b"rule")?;
    let rest = after_text(bytes, b"=")?;
    Some(rest)
}

/// The header that the line is.
pub(crate) fn read_header(line: &[u8]) -> Option<Header<'_>>
    requires { Every (λ b. not (is_line_end b)) line.now }
    ensures { MatchOption result ((rule : Option (List ℕ)) → IsHeader line.now rule → ⊥)
        (λ h. IsHeader line.now (option_copied h.rule)) }
{
    let rest = after_sizes(line)?;
    if rest.is_empty() {
        return Some(Header { rule: None });
    }
    let text = after_rule_name(rest)?;
    let (rule, _) = split_word(text);
    if rule.is_empty() {
        return Some(Header { rule: None });
    }
    Some(Header { rule: Some(rule) })
}
