//! Marks of paths, by their indices.

ghost use Rattle.std.specs.Prelude.{◌≡◌, ◌<◌, length, All};
ghost use Rattle.ca_text.specs.Both.{HoldsOfBoth};
ghost use Rattle.ca_text.specs.inner.Marks.{with_marks, both_marked, claims_marked};

use crate::both::Both;
use crate::line::{ClaimLine, NamePlace};

/// Sets the marks at these indices.
pub(crate) fn mark_each(marks: &mut [bool], indices: &[usize])
    requires { All (λ i. i < length marks.old) indices.now }
    ensures { marks.new ≡ with_marks marks.old indices.now }
{
    'indices: for index in indices {
        marks[*index] = true;
    }
}

/// Sets the marks of the paths of the claims' patterns.
pub(crate) fn mark_claims(marks: &mut [bool], claims: &[ClaimLine<NamePlace>])
    requires { All (λ l. HoldsOfBoth (λ p. p.path < length marks.old) l.claim.patterns) claims.now }
    ensures { marks.new ≡ claims_marked marks.old claims.now }
{
    'claims: for kept in claims {
        mark_both(marks, &kept.claim.patterns);
    }
}

/// Sets the marks of the paths of both patterns.
fn mark_both(marks: &mut [bool], patterns: &Both<NamePlace>)
    requires { HoldsOfBoth (λ p. p.path < length marks.old) patterns.now }
    ensures { marks.new ≡ both_marked marks.old patterns.now }
{
    marks[patterns.first.path] = true;
    marks[patterns.second.path] = true;
}
