//! Isotropic rules in Hensel's notation, as `B2-a/S12`.

ghost use Rattle.std.specs.Prelude.{◌≡◌, false, IfOk, IfErr, IfSome, IfNone};
ghost use Rattle.ca_rule_files.specs.Isotropic.{gives_birth_alone, SpellsIsotropicRule, SpellsNoIsotropicRule, NamesIsotropicRule};
ghost use Rattle.ca_rule_files.specs.Isotropic.{IsIsotropicRuleFault};
ghost use Rattle.std.proofs.Common.{arith, rules};
ghost use Rattle.std.proofs.lemmas.Bool.Decides.{nat_tests};

use crate::kind_list::{has_kind, is_kind_list};
use ca_plane::{Automaton, Nine};
use ca_rule::{RuleFault, lists_of};

/// An isotropic rule of two states: whether a cell is born or survives depends on the kind of its
/// neighbourhood, all turns and reflections of one being of one kind (Golly Help, QuickLife: non-totalistic
/// rules). A dead cell without live neighbours is never born.
#[derive(Clone, Copy)]
pub struct IsotropicRule<'t> {
    birth: &'t [u8],
    survival: &'t [u8],
    ghost stays_empty: { gives_birth_alone birth.now ≡ false },
}

impl<'t> IsotropicRule<'t> {
    /// The rule that the text names, as `B2-a/S12`. It borrows the text. Nothing here takes memory.
    ///
    /// # Errors
    ///
    /// Fails where the text names no such rule, with the reason.
    pub fn parse(text: &'t [u8]) -> Result<IsotropicRule<'t>, RuleFault>
        ensures found { IfOk result (λ rule. NamesIsotropicRule text.now rule.birth.now rule.survival.now) }
        ensures fault { IfErr result (λ f. IsIsotropicRuleFault text.now f) }
    {
        if text.contains(&b':') {
            return Err(RuleFault::Bounded);
        }
        let Some((birth, survival)) = spelled_lists(text) else {
            return Err(RuleFault::Unknown);
        };
        if has_kind(birth, &[0; 9]) {
            return Err(RuleFault::Wakes);
        }
        Ok(IsotropicRule { birth, survival })
    }
}

impl Automaton for IsotropicRule<'_> {
    ghost use Rattle.ca_rule_files.specs.Isotropic.{isotropic_next};

    ghost state_count = { λ _. 2 };

    ghost next_of = { λ rule nine. isotropic_next rule.birth.now rule.survival.now nine };

    ghost sound = { λ rule. gives_birth_alone rule.birth.now ≡ false };

    fn states(&self) -> u16 {
        2
    }

    fn next(&self, nine: &Nine) -> u8 {
        match nine[4] {
            0 => u8::from(has_kind(self.birth, nine)),
            1 => u8::from(has_kind(self.survival, nine)),
            _ => 0,
        }
    }

    ghost closed = { λ rule nine _ _ _. Prim.grind (arith, nat_tests) };

    ghost quiet = { λ rule sound. Prim.grind (arith, nat_tests) };
}

/// The birth kinds and the survival kinds that the text spells.
fn spelled_lists(text: &[u8]) -> Option<(&[u8], &[u8])>
    ensures found { IfSome result (λ s. SpellsIsotropicRule text.now s.0.now s.1.now) }
    ensures none { IfNone result (SpellsNoIsotropicRule text.now) }
{
    let (birth, survival) = lists_of(text)?;
    if !is_kind_list(birth) {
        return None;
    }
    if !is_kind_list(survival) {
        return None;
    }
    Some((birth, survival))
}
