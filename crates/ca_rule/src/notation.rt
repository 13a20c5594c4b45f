//! Notations whose texts spell digits of birth and survival counts.

ghost use Rattle.std.specs.Prelude.{ℕ, List, IfOk, IfErr, IfSome, IfNone};
ghost use Rattle.ca_rule.specs.Spelling.{NamesCounts, SpellsNone, IsSpellingFault};

use crate::counts::Counts;
use crate::fault::RuleFault;

/// Rules whose texts spell birth digits, survival digits, and one thing more.
pub(crate) trait Notation {
    /// The one thing more.
    type More: Copy;

    // the text spells these birth and survival digits, and that
    ghost spells: { List ℕ → List ℕ → List ℕ → Self.More → Type 0 };

    /// The birth digits, the survival digits, and the one thing more that the text spells.
    fn spelling_of(text: &[u8]) -> Option<(&[u8], &[u8], Self::More)>
        ensures found { IfSome result (λ s. spells text.now s.0.now s.1.now s.2) }
        ensures none { IfNone result (SpellsNone (spells text.now)) };
}

/// The birth counts, the survival counts, and the one thing more of the rule that the text names.
pub(crate) fn counts_named<N: Notation>(text: &[u8]) -> Result<(Counts, Counts, N::More), RuleFault>
    ensures found { IfOk result
        (λ r. NamesCounts (λ birth survival. N.spells text.now birth survival r.2) r.0 r.1) }
    ensures fault { IfErr result (λ f. IsSpellingFault (N.spells text.now) text.now f) }
{
    if text.contains(&b':') {
        return Err(RuleFault::Bounded);
    }
    let Some((birth, survival, more)) = N::spelling_of(text) else {
        return Err(RuleFault::Unknown);
    };
    let birth = Counts::of_digits(birth);
    if birth.contains(0) {
        return Err(RuleFault::Wakes);
    }
    Ok((birth, Counts::of_digits(survival), more))
}
