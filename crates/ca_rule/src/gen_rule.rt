//! Rules of the family Generations.

ghost use Rattle.std.specs.Prelude.{◌≡◌, ◌↔◌, ◌≤◌, false, Some, None, IsTrue, IfOk, IfErr, IfSome};
ghost use Rattle.ca_plane.specs.Prelude.{IsWord, liveness, older, GoesByAgeing};
ghost use Rattle.ca_rule.specs.Counts.{is_count};
ghost use Rattle.std.proofs.Common.{arith};
ghost use Rattle.std.proofs.lemmas.Bool.Decides.{nat_tests};

use crate::counts::Counts;
use crate::digits::state_count;
use crate::fault::RuleFault;
use crate::hood::Hood;
use crate::notation::{Notation, counts_named};
use crate::spelling::{are_digits_up_to, lists_around_slash};
use ca_plane::text::push_number;
use ca_plane::{Ageing, Automaton, Counting, Memory, Neighbourhood, Nine};
use std::alloc::Global;

/// A rule of the family Generations (Golly Help, Algorithms: Generations): a dead cell with a birth count of
/// live neighbours is born, and a live cell with a survival count stays live. Every other live cell begins to
/// die: it goes up by one state in each generation, and is dead after the last state. State 1 alone is live
/// and is counted. A rule never gives birth at a count of 0, and has from 2 to 256 states.
#[derive(Clone, Copy, Debug)]
pub struct GenRule {
    pub survival: Counts,
    pub birth: Counts,
    pub states: u16,
    ghost stays_empty: { is_count birth 0 ≡ false },
    ghost low: { 2 ≤ states },
    ghost high: { states ≤ 256 },
}

impl GenRule {
    ghost use Rattle.ca_rule.specs.Generations.{NamesGenerationsRule, IsGenerationsRuleFault, printed_generations_rule};
    ghost use Rattle.ca_rule.specs.Rule.{Gen, IsSameRule};

    /// The rule that the text names, as `/2/3` names Brian's Brain. Nothing here takes memory.
    ///
    /// # Errors
    ///
    /// Fails where the text names no rule, with the reason.
    pub fn parse(text: &[u8]) -> Result<GenRule, RuleFault>
        ensures found { IfOk result (λ rule. NamesGenerationsRule text.now rule) }
        ensures fault { IfErr result (λ f. IsGenerationsRuleFault text.now f) }
    {
        let (birth, survival, states) = counts_named::<GenRule>(text)?;
        Ok(GenRule {
            survival,
            birth,
            states,
        })
    }

    /// The one printed form of the rule, as `345/2/4`: the survival digits and the birth digits, each list
    /// rising, and the number of states.
    ///
    /// # Errors
    ///
    /// Fails where there is no memory for it.
    pub fn text(&self, alloc: Global) -> Result<Vec<u8>, Memory>
        ensures printed { IfOk result
            (λ v. v.items ≡ printed_generations_rule self.now.survival self.now.birth self.now.states) }
        ensures word { IfOk result (λ v. IsWord v.items) }
    {
        let mut out = Vec::new(alloc);
        self.survival.push_digits(&mut out)?;
        out.push(b'/')?;
        self.birth.push_digits(&mut out)?;
        out.push(b'/')?;
        push_number(&mut out, u64::from(self.states))?;
        Ok(out)
    }

    /// Whether the other rule is the same: it has the same counts for survival and for birth, and as many
    /// states. Nothing here takes memory.
    #[tactic(auto, using(crate::proofs::SameCounts::same_counts))]
    pub fn same(&self, other: &GenRule) -> bool
        ensures { IsTrue result ↔ IsSameRule (Gen self.now) (Gen other.now) }
    {
        self.survival == other.survival && self.birth == other.birth && self.states == other.states
    }

    /// The state after this one: the next, or 0 where that reaches the number of states.
    fn older(&self, state: u8) -> u8
        ensures { result ≡ older self.now.states state }
    {
        let next = u16::from(state) + 1;
        if next < self.states { next as u8 } else { 0 }
    }
}

impl Automaton for GenRule {
    ghost use Rattle.ca_rule.specs.Generations.{IsSoundGenerations, generations_next, ageing_by_counts};

    ghost state_count = { λ rule. rule.states };

    ghost next_of = { λ rule nine. generations_next rule.survival rule.birth rule.states nine };

    ghost sound = { λ rule. IsSoundGenerations rule.birth rule.states };

    fn states(&self) -> u16 {
        self.states
    }

    fn next(&self, nine: &Nine) -> u8 {
        let count = usize::from(Hood::Moore.sum(&nine.map(live)));
        let born = self.birth.contains(count);
        let stays = self.survival.contains(count);
        let centre = nine[4];
        if centre == 0 {
            return u8::from(born);
        }
        if centre == 1 && stays {
            return 1;
        }
        self.older(centre)
    }

    /// None: rules of this family tell no masks, those of two states neither.
    fn masks(&self) -> Option<(u16, u16)>
        ensures { result ≡ None }
    {
        None
    }

    /// Its birth and survival counts as masks, with all eight neighbours counted, and its states.
    fn ageing(&self) -> Option<Ageing>
        ensures goes_by { IfSome result (GoesByAgeing self.now.states
            (generations_next self.now.survival self.now.birth self.now.states)) }
        ensures ageing { result ≡ Some (ageing_by_counts self.now.birth self.now.survival self.now.states) }
    {
        Some(Ageing {
            counting: Counting {
                neighbourhood: Neighbourhood::Moore,
                birth: self.birth.mask(),
                survival: self.survival.mask(),
            },
            states: self.states,
        })
    }

    ghost closed = { λ rule nine sound _ _. Prim.grind (arith, nat_tests) };

    ghost quiet = { λ rule sound. Prim.grind (arith, nat_tests) };
}

impl Notation for GenRule {
    ghost use Rattle.ca_rule.specs.Generations.{SpellsGenerationsRule};

    type More = u16;

    ghost spells = { λ text birth survival. SpellsGenerationsRule text survival birth };

    /// The digits and the number of states that the text spells.
    fn spelling_of(text: &[u8]) -> Option<(&[u8], &[u8], u16)> {
        let (survival, later) = lists_around_slash(text)?;
        let (birth, number) = lists_around_slash(later)?;
        let states = state_count(number)?;
        let most = Hood::Moore.most();
        if !are_digits_up_to(most, survival) || !are_digits_up_to(most, birth) {
            return None;
        }
        Some((birth, survival, states))
    }
}

/// 1 for a live cell, 0 for one that is dead or dying.
fn live(state: u8) -> u8
    ensures { result ≡ liveness state }
{
    u8::from(state == 1)
}
