//! A claim of a text, with the number of its line.

ghost use Rattle.std.specs.Prelude.{◌≡◌};
ghost use Rattle.ca_text.specs.Text.{map_patterns};

use crate::both::Both;
use crate::kind::Kind;

/// What is claimed of patterns, each of which is given by a `P`: by its name, or by the index of its path
/// among the text's paths, or by both.
#[derive(Clone, Copy)]
pub struct Claim<P> {
    /// The patterns that the claim is about. Where its line names one, both are that one.
    pub patterns: Both<P>,
    /// What is claimed of them.
    pub kind: Kind,
}

/// The index of a pattern's name among the text's names, and that of its path among the paths.
#[derive(Clone, Copy)]
pub(crate) struct NamePlace {
    pub(crate) name: usize,
    pub(crate) path: usize,
}

/// A pattern's name, and the index of its path among the text's paths.
#[derive(Clone, Copy)]
pub struct NamedPath<'a> {
    pub name: &'a [u8],
    pub path: usize,
}

impl Claim<NamePlace> {
    /// The claim about the paths alone.
    pub(crate) fn by_path(&self) -> Claim<usize>
        ensures { result ≡ map_patterns (λ p. p.path) self.now }
    {
        Claim {
            patterns: Both {
                first: self.patterns.first.path,
                second: self.patterns.second.path,
            },
            kind: self.kind,
        }
    }
}

/// A claim, and the number of its line in the text. Lines are counted from 1.
#[derive(Clone, Copy)]
pub struct ClaimLine<P> {
    pub line: u64,
    pub claim: Claim<P>,
}
