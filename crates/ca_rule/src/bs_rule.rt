//! Rules in B/S notation.

ghost use Rattle.std.specs.Prelude.{◌≡◌, ◌↔◌, false, Some, IsTrue, IfOk, IfErr, IfSome};
ghost use Rattle.ca_plane.specs.Prelude.{IsWord, GoesByCounting, IsMoore};
ghost use Rattle.ca_rule.specs.Counts.{is_count, FitsHood};
ghost use Rattle.std.proofs.Common.{arith, rules};
ghost use Rattle.std.proofs.lemmas.Bool.Decides.{nat_tests};

use crate::counts::Counts;
use crate::fault::RuleFault;
use crate::hood::Hood;
use crate::notation::counts_named;
use ca_plane::{Automaton, Counting, Memory, Nine};
use std::alloc::Global;

/// A two-state rule in B/S notation (Golly Help, QuickLife): a dead cell with a birth count of live
/// neighbours is born, a live cell with a survival count survives, and every other cell is dead next. A rule
/// never gives birth at a count of 0, and has no count above the number of neighbours that it counts.
#[derive(Clone, Copy, Debug)]
pub struct BsRule {
    pub birth: Counts,
    pub survival: Counts,
    pub hood: Hood,
    ghost stays_empty: { is_count birth 0 ≡ false },
    ghost birth_fits: { FitsHood birth hood },
    ghost survival_fits: { FitsHood survival hood },
}

impl BsRule {
    ghost use Rattle.ca_rule.specs.Rule.{Bs, IsSameRule};
    ghost use Rattle.ca_rule.specs.Spelling.{NamesBsRule, IsBsRuleFault, printed_bs_rule};

    /// The rule that the text names, as `B3/S23`, `s23b3` and `23/3` name Conway's Life. Nothing here takes
    /// memory.
    pub fn parse(text: &[u8]) -> Result<BsRule, RuleFault>
        ensures found { IfOk result (λ rule. NamesBsRule text.now rule) }
        ensures fault { IfErr result (λ f. IsBsRuleFault text.now f) }
    {
        let (birth, survival, hood) = counts_named::<BsRule>(text)?;
        Ok(BsRule {
            birth,
            survival,
            hood,
        })
    }

    /// The one printed form of the rule, as `B3/S23`: each list of digits rising, then `V` or `H` where it
    /// applies.
    pub fn text(&self, alloc: Global) -> Result<Vec<u8>, Memory>
        ensures printed { IfOk result
            (λ v. v.items ≡ printed_bs_rule self.now.hood self.now.birth self.now.survival) }
        ensures word { IfOk result (λ v. IsWord v.items) }
    {
        let mut out = Vec::new(alloc);
        out.push(b'B')?;
        self.birth.push_digits(&mut out)?;
        out.extend_from_slice(b"/S")?;
        self.survival.push_digits(&mut out)?;
        self.hood.push_suffix(&mut out)?;
        Ok(out)
    }

    /// Whether the other rule is the same: it counts the same neighbours, and has the same counts for birth
    /// and for survival. Nothing here takes memory.
    #[tactic(auto, using(crate::proofs::SameCounts::same_counts))]
    pub fn same(&self, other: &BsRule) -> bool
        ensures { IsTrue result ↔ IsSameRule (Bs self.now) (Bs other.now) }
    {
        self.birth == other.birth && self.survival == other.survival && self.hood == other.hood
    }
}

impl Automaton for BsRule {
    ghost use Rattle.ca_rule.specs.Masks.{masks_by_hood, counting_by_hood};
    ghost use Rattle.ca_rule.specs.Next.{bs_next};

    ghost state_count = { λ _. 2 };

    ghost next_of = { λ rule nine. bs_next rule.hood rule.birth rule.survival nine };

    ghost sound = { λ rule. is_count rule.birth 0 ≡ false };

    fn states(&self) -> u16 {
        2
    }

    fn next(&self, nine: &Nine) -> u8 {
        let count = usize::from(self.hood.sum(nine));
        let lives = match nine[4] {
            0 => self.birth.contains(count),
            1 => self.survival.contains(count),
            _ => false,
        };
        u8::from(lives)
    }

    /// The masks of its birth and survival counts, where it counts all eight neighbours; else `None`.
    fn masks(&self) -> Option<(u16, u16)>
        ensures moore { IfSome result
            (λ masks. IsMoore 2 (bs_next self.now.hood self.now.birth self.now.survival) masks.0 masks.1) }
        ensures masks { result ≡ masks_by_hood self.now.hood self.now.birth self.now.survival }
    {
        match self.hood {
            Hood::Moore => Some((self.birth.mask(), self.survival.mask())),
            Hood::VonNeumann | Hood::Hex => None,
        }
    }

    /// Its birth and survival counts as masks, and which neighbours it counts.
    fn counting(&self) -> Option<Counting>
        ensures goes_by { IfSome result
            (GoesByCounting 2 (bs_next self.now.hood self.now.birth self.now.survival)) }
        ensures counting { result ≡ Some (counting_by_hood self.now.hood self.now.birth self.now.survival) }
    {
        Some(Counting {
            neighbourhood: self.hood.neighbourhood(),
            birth: self.birth.mask(),
            survival: self.survival.mask(),
        })
    }

    ghost closed = { λ rule nine _ _ _. Prim.grind (arith, nat_tests) };

    ghost quiet = { Prim.search rules };
}
