//! The lines of variables.

ghost use Rattle.std.specs.Prelude.{◌≡◌, ◌≢◌, ℕ, List, ◌++◌, codes, None, Some, MatchOption};
ghost use Rattle.std.specs.List.{prefix_len};
ghost use Rattle.ca_plane.specs.Prelude.{front, rest};
ghost use Rattle.ca_rule.specs.TableLines.{is_name_byte, fields_between, IsVariableLine};
ghost use Rattle.ca_rule.specs.inner.TableFields.{after_brace, IsBraced};

use crate::table::fields::FieldsLeft;
use crate::table::lines::{begins_variable, is_name, is_name_byte, tail_after};
use ca_plane::bytes::split_blanks;

/// The line of a variable.
#[derive(Clone, Copy)]
pub(crate) struct VariableLine<'a> {
    pub(crate) name: &'a [u8],
    /// What is between the braces.
    pub(crate) inside: &'a [u8],
}

/// What follows `=` and `{`, with blanks before either.
fn after_brace(bytes: &[u8]) -> Option<&[u8]>
    ensures { MatchOption result (after_brace bytes.now ≡ None) (λ r. after_brace bytes.now ≡ Some r.now) }
{
    let (_, equals) = split_blanks(bytes);
    let (_, brace) = split_blanks(tail_after(b"=", equals)?);
    tail_after(b"{", brace)
}

/// The bytes before a `}` that comes last.
#[tactic(auto, using(crate::proofs::VariableLines::lasts))]
fn before_brace(bytes: &[u8]) -> Option<&[u8]>
    ensures { MatchOption result ((r : List ℕ) → bytes.now ≢ r ++ codes "}")
        (λ r. bytes.now ≡ r.now ++ codes "}") }
{
    let Some((last, before)) = bytes.split_last() else {
        return None;
    };
    if *last != b'}' {
        return None;
    }
    Some(before)
}

/// What is in braces after `=`.
fn text_in_braces(bytes: &[u8]) -> Option<&[u8]>
    ensures { MatchOption result ((inside : List ℕ) → IsBraced bytes.now inside → ⊥)
        (λ r. IsBraced bytes.now r.now) }
{
    before_brace(after_brace(bytes)?)
}

/// How many bytes of a name come first.
fn name_length(bytes: &[u8]) -> usize
    ensures { result ≡ prefix_len is_name_byte bytes.now }
{
    bytes.iter().take_while(|byte| is_name_byte(**byte)).count()
}

/// The bytes of a name that come first, and those after them.
#[tactic(auto, using(ca_plane::proofs::Lengths::fronts))]
fn split_name(bytes: &[u8]) -> (&[u8], &[u8])
    ensures front { result.0.now ≡ front is_name_byte bytes.now }
    ensures rest { result.1.now ≡ rest is_name_byte bytes.now }
{
    bytes.split_at(name_length(bytes))
}

/// The name and the fields of a variable, where the line is spelled as that of one.
pub(crate) fn variable_line(content: &[u8]) -> Option<VariableLine<'_>>
    ensures { (n : ℕ) → MatchOption result ((name : List ℕ) (fields : List (List ℕ))
        → IsVariableLine (n, content.now) name fields → ⊥)
        (λ v. IsVariableLine (n, content.now) v.name.now (fields_between v.inside.now)) }
{
    if !begins_variable(content) {
        return None;
    }
    let (_, named) = split_blanks(tail_after(b"var", content)?);
    let (name, later) = split_name(named);
    let inside = text_in_braces(later)?;
    if !is_name(name) {
        return None;
    }
    if !FieldsLeft::inside(inside).are_spelled() {
        return None;
    }
    Some(VariableLine { name, inside })
}
