//! The fields of a rule table's lines.

ghost use Rattle.std.specs.Prelude.{◌≡◌, ◌==◌, ℕ, ◌∷◌, [], length, MatchOption};
ghost use Rattle.std.specs.List.{list_all, list_any};
ghost use Rattle.ca_rule.specs.TableLines.{is_field, fields_between, fields_of};

use crate::digits::are_digits;
use crate::table::lines::is_name;
use ca_plane::bytes::{split_at_first, trim_blanks};

/// The fields of a line that are left.
#[derive(Clone, Copy)]
pub(crate) enum FieldsLeft<'a> {
    /// Those between commas.
    Between(&'a [u8]),
    /// One for each byte.
    Bytes(&'a [u8]),
}

impl<'a> FieldsLeft<'a> {
    ghost use Rattle.ca_rule.specs.inner.TableFields.{fields_left};

    /// The fields of bytes between braces.
    pub(crate) fn inside(bytes: &'a [u8]) -> FieldsLeft<'a>
        ensures { fields_left result ≡ fields_between bytes.now }
    {
        FieldsLeft::Between(bytes)
    }

    /// The fields of a transition: those between commas, or each byte where there is no comma.
    pub(crate) fn of_line(content: &'a [u8]) -> FieldsLeft<'a>
        ensures { (n : ℕ) → fields_left result ≡ fields_of (n, content.now) }
    {
        if has_comma(content) {
            return FieldsLeft::Between(content);
        }
        FieldsLeft::Bytes(content)
    }

    /// The first field, and those after it.
    #[tactic(auto, using(crate::proofs::Fields::parts))]
    pub(crate) fn next(&self) -> Option<(&'a [u8], FieldsLeft<'a>)>
        ensures { MatchOption result (fields_left self.now ≡ [])
            (λ r. fields_left self.now ≡ r.0.now ∷ fields_left r.1) }
    {
        match *self {
            FieldsLeft::Between(bytes) => {
                let (field, rest) = split_at_first(bytes, b',');
                match rest.split_first() {
                    Some((_, later)) => Some((trim_blanks(field), FieldsLeft::Between(later))),
                    None => Some((trim_blanks(field), FieldsLeft::Bytes(&[]))),
                }
            }
            FieldsLeft::Bytes(bytes) => {
                if bytes.is_empty() {
                    return None;
                }
                let (field, later) = bytes.split_at(1);
                Some((field, FieldsLeft::Bytes(later)))
            }
        }
    }

    /// Whether this many fields are left.
    pub(crate) fn are_as_many_as(&self, count: usize) -> bool
        ensures { result ≡ (length (fields_left self.now) == count) }
    {
        let mut wanted = count;
        let mut left = *self;
        'fields: while let Some((_, later)) = left.next() {
            if wanted == 0 {
                return false;
            }
            wanted -= 1;
            left = later;
        }
        wanted == 0
    }

    /// Whether each of them is a number or a name.
    pub(crate) fn are_spelled(&self) -> bool
        ensures { result ≡ list_all is_field (fields_left self.now) }
    {
        let mut left = *self;
        'fields: while let Some((field, later)) = left.next() {
            if !is_field(field) {
                return false;
            }
            left = later;
        }
        true
    }
}

/// Whether the bytes have a comma.
fn has_comma(bytes: &[u8]) -> bool
    ensures { result ≡ list_any (λ b. b == 44) bytes.now }
{
    bytes.iter().any(|byte| *byte == b',')
}

/// Whether the field is a number or the name of a variable.
fn is_field(field: &[u8]) -> bool
    ensures { result ≡ is_field field.now }
{
    are_digits(field) || is_name(field)
}
