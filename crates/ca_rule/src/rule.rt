//! Rules of every kind, and the rule that a text names.

ghost use Rattle.std.specs.Prelude.{◌≡◌, ◌↔◌, None, Some, IsTrue, IfOk, IfErr, MatchOption, IfSome};
ghost use Rattle.ca_plane.specs.Prelude.{IsWord, GoesByAgeing, GoesByCounting, IsMoore};
ghost use Rattle.ca_rule.specs.declared.fault.RuleFault.TheVariants.{Unknown};
ghost use Rattle.ca_rule.specs.Rule.{rule_value, first_named, NamesRule, IsRuleFault, printed_form, IsSameRule};

use crate::bs_rule::BsRule;
use crate::fault::RuleFault;
use crate::gen_rule::GenRule;
use crate::table::Table;
use ca_plane::{Ageing, Automaton, Counting, Memory, Nine};
use std::alloc::Global;

/// A rule of any kind.
#[derive(Clone, Copy)]
pub enum Rule<'t> {
    /// A rule in B/S notation.
    Bs(BsRule),
    /// A rule of the family Generations.
    Gen(GenRule),
    /// A rule table.
    Tab(&'t Table),
}

/// The rule that the text names: a rule in B/S notation, as `B3/S23`, `s23b3` and `23/3` name Conway's Life,
/// or one of the family Generations, as `/2/3` names Brian's Brain, or else the first of the tables whose
/// name is the text, byte for byte. Nothing here takes memory.
///
/// # Errors
///
/// Fails where the text names no rule, with the reason.
pub fn resolve<'t>(text: &[u8], tables: &'t [Table]) -> Result<Rule<'t>, RuleFault>
    ensures found { IfOk result (λ rule. NamesRule text.now tables.now (rule_value rule)) }
    ensures fault { IfErr result (λ f. IsRuleFault text.now tables.now f) }
{
    match BsRule::parse(text) {
        Ok(bs) => return Ok(Rule::Bs(bs)),
        Err(RuleFault::Unknown) => {}
        Err(fault) => return Err(fault),
    }
    match GenRule::parse(text) {
        Ok(generations) => return Ok(Rule::Gen(generations)),
        Err(RuleFault::Unknown) => {}
        Err(fault) => return Err(fault),
    }
    let Some(table) = first_named(text, tables) else {
        return Err(RuleFault::Unknown);
    };
    Ok(Rule::Tab(table))
}

/// Whether the rule of the text is unknown: the text spells none, be it one that is bounded or wakes the empty
/// plane, and none of these tables has it for its name.
pub fn is_unknown_rule(text: &[u8], tables: &[Table]) -> bool
    ensures { IsTrue result ↔ IsRuleFault text.now tables.now Unknown }
{
    match resolve(text, tables) {
        Ok(_) => false,
        Err(fault) => match fault {
            RuleFault::Unknown => true,
            _ => false,
        },
    }
}

/// The first of the tables of this name.
fn first_named<'t>(name: &[u8], tables: &'t [Table]) -> Option<&'t Table>
    ensures { MatchOption result (first_named name.now tables.now ≡ None)
        (λ table. first_named name.now tables.now ≡ Some table.now) }
{
    let mut left = tables;
    'tables: while let Some((table, later)) = left.split_first() {
        if table.name() == name {
            return Some(table);
        }
        left = later;
    }
    None
}

impl Rule<'_> {
    /// The one printed form of the rule: `B3/S23`, `345/2/4` and the like, or the table's name.
    pub fn text(&self, alloc: Global) -> Result<Vec<u8>, Memory>
        ensures printed { IfOk result (λ v. v.items ≡ printed_form (rule_value self.now)) }
        ensures word { IfOk result (λ v. IsWord v.items) }
    {
        match *self {
            Rule::Bs(bs) => bs.text(alloc),
            Rule::Gen(generations) => generations.text(alloc),
            Rule::Tab(table) => {
                let mut out = Vec::new(alloc);
                out.extend_from_slice(table.name())?;
                Ok(out)
            }
        }
    }

    /// Whether the other rule is the same: both are in B/S notation, count the same neighbours, and have the
    /// same counts for birth and for survival; or both are of the family Generations, with the same counts
    /// and as many states; or both are tables of one name. Nothing here takes memory.
    pub fn same(&self, other: &Rule<'_>) -> bool
        ensures { IsTrue result ↔ IsSameRule (rule_value self.now) (rule_value other.now) }
    {
        match *self {
            Rule::Bs(bs) => match *other {
                Rule::Bs(other) => bs.same(&other),
                Rule::Gen(_) | Rule::Tab(_) => false,
            },
            Rule::Gen(generations) => match *other {
                Rule::Gen(other) => generations.same(&other),
                Rule::Bs(_) | Rule::Tab(_) => false,
            },
            Rule::Tab(table) => match *other {
                Rule::Bs(_) | Rule::Gen(_) => false,
                Rule::Tab(other) => table.name() == other.name(),
            },
        }
    }
}

impl Automaton for Rule<'_> {
    ghost use Rattle.std.proofs.Common.{arith, rules};
    ghost use Rattle.std.proofs.lemmas.Bool.Decides.{nat_tests};
    ghost use Rattle.ca_rule.specs.Rule.{rule_value, states_of, next_of, IsSoundRule, masks_of, counting_of, ageing_of};
    ghost use Rattle.ca_rule.specs.declared.rule.Rule.TheVariants.{Bs, Gen, Tab};

    ghost state_count = { λ rule. states_of (rule_value rule) };

    ghost next_of = { λ rule. next_of (rule_value rule) };

    ghost sound = { λ rule. IsSoundRule (rule_value rule) };

    fn states(&self) -> u16 {
        match *self {
            Rule::Bs(bs) => bs.states(),
            Rule::Gen(generations) => generations.states(),
            Rule::Tab(table) => table.states(),
        }
    }

    fn next(&self, nine: &Nine) -> u8 {
        match *self {
            Rule::Bs(bs) => bs.next(nine),
            Rule::Gen(generations) => generations.next(nine),
            Rule::Tab(table) => table.next(nine),
        }
    }

    /// The masks of a B/S rule that counts all eight neighbours; else `None`.
    fn masks(&self) -> Option<(u16, u16)>
        ensures moore { IfSome result
            (λ masks. IsMoore (states_of (rule_value self.now))
            (next_of (rule_value self.now)) masks.0 masks.1) }
        ensures masks { result ≡ masks_of (rule_value self.now) }
    {
        match *self {
            Rule::Bs(bs) => bs.masks(),
            Rule::Gen(generations) => generations.masks(),
            Rule::Tab(table) => table.masks(),
        }
    }

    /// The birth and survival counts of a B/S rule as masks, and which neighbours it counts; else `None`.
    fn counting(&self) -> Option<Counting>
        ensures goes_by { IfSome result
            (GoesByCounting (states_of (rule_value self.now)) (next_of (rule_value self.now))) }
        ensures counting { result ≡ counting_of (rule_value self.now) }
    {
        match *self {
            Rule::Bs(bs) => bs.counting(),
            Rule::Gen(_) | Rule::Tab(_) => None,
        }
    }

    /// The counts of a rule of the family Generations as masks, and its states; else `None`.
    fn ageing(&self) -> Option<Ageing>
        ensures goes_by { IfSome result
            (GoesByAgeing (states_of (rule_value self.now)) (next_of (rule_value self.now))) }
        ensures ageing { result ≡ ageing_of (rule_value self.now) }
    {
        match *self {
            Rule::Gen(generations) => generations.ageing(),
            Rule::Bs(_) | Rule::Tab(_) => None,
        }
    }

    ghost closed = { elim [
      | Bs bs ↦ λ nine _ _ _. Prim.grind (arith, nat_tests)
      | Gen rule ↦ λ nine sound _ _. Prim.grind (arith, nat_tests)
      | Tab table ↦ λ nine sound. sound.closed nine
    ] };

    ghost quiet = { elim [
      | Bs bs ↦ Prim.search rules
      | Gen rule ↦ λ sound. Prim.grind (arith, nat_tests)
      | Tab table ↦ λ sound. sound.quiet
    ] };
}
