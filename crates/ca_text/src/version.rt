//! The version of the language that a claim text is of.

ghost use Rattle.std.specs.Prelude.{◌≡◌, ◌∷◌, [], ◌++◌, List, false, IsTrue, ◌↔◌};
ghost use Rattle.ca_text.specs.Text.{ClaimTextLine, is_second, IsKindAfter};
ghost use Rattle.ca_text.specs.inner.Reading.{IsVersionAfter};

use crate::kind::Kind;

/// What the lines of a text so far say of its version.
#[derive(Clone, Copy)]
pub(crate) enum TextVersion {
    /// No line has said anything yet.
    Open,
    /// The first line that said anything isn't `claims 2`.
    First,
    /// The first line that said anything is `claims 2`.
    Second,
}

impl TextVersion {
    /// Whether no line has said anything.
    pub(crate) fn is_open(self) -> bool
        ensures { (earlier : List ClaimTextLine) → IsVersionAfter earlier self
            → (IsTrue result ↔ (earlier ≡ [])) }
    {
        match self {
            TextVersion::Open => true,
            TextVersion::First | TextVersion::Second => false,
        }
    }

    /// Whether the text is of the second version.
    fn is_second(self) -> bool
        ensures { (earlier : List ClaimTextLine) → IsVersionAfter earlier self → result ≡ is_second earlier }
    {
        match self {
            TextVersion::Open | TextVersion::First => false,
            TextVersion::Second => true,
        }
    }

    /// Whether a claim of this kind may stand in the text.
    pub(crate) fn allows(self, kind: Kind) -> bool
        ensures { (earlier : List ClaimTextLine) → IsVersionAfter earlier self
            → (IsTrue result ↔ IsKindAfter earlier kind) }
    {
        !kind.is_of_second_version() || self.is_second()
    }

    /// What is known after one more line, which isn't skipped and doesn't tell the version.
    pub(crate) fn after_line(self) -> TextVersion
        ensures { (earlier : List ClaimTextLine) (line : ClaimTextLine) → IsVersionAfter earlier self
            → is_second (line ∷ []) ≡ false → IsVersionAfter (earlier ++ line ∷ []) result }
    {
        match self {
            TextVersion::Open | TextVersion::First => TextVersion::First,
            TextVersion::Second => TextVersion::Second,
        }
    }
}
