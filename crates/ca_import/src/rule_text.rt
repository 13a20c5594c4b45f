//! Rule texts as they are written.

ghost use Rattle.std.specs.Prelude.{◌≡◌, ◌↔◌, [], IsTrue, IfOk, IfErr};
ghost use Rattle.std.specs.List.{list_all};
ghost use Rattle.ca_plane.specs.Prelude.{is_word_byte, IsWord};
ghost use Rattle.ca_rule.specs.Prelude.{rule_value, IsRuleFault};
ghost use Rattle.ca_rule.specs.declared.fault.RuleFault.TheVariants.{Unknown};
ghost use Rattle.ca_import.specs.inner.Writing.{IsPrinted, IsAskedText, IsAskedRefused, IsWrittenText, IsRuleRefused};

use crate::text_fault::ImportTextFault;
use ca_plane::bytes::is_word_byte;
use ca_plane::{Automaton, Memory};
use ca_rule::{BsRule, Rule, RuleFault, resolve};
use std::alloc::Global;

/// A rule text as it is written, and its number of states.
#[derive(Drop)]
pub(crate) struct RuleText {
    pub(crate) text: Vec<u8>,
    pub(crate) states: u16,
}

fn all_word_bytes(bytes: &[u8]) -> bool
    ensures { result ≡ list_all is_word_byte bytes.now }
{
    bytes.iter().all(|byte| is_word_byte(*byte))
}

/// Whether the bytes are a word.
fn is_word(bytes: &[u8]) -> bool
    ensures { IsTrue result ↔ IsWord bytes.now }
{
    match bytes.split_first() {
        Some(_) => all_word_bytes(bytes),
        None => false,
    }
}

/// The printed form of a rule.
fn printed_rule(alloc: Global, rule: Rule<'_>) -> Result<RuleText, Memory>
    ensures { IfOk result (IsPrinted (rule_value rule.entry)) }
{
    Ok(RuleText {
        text: rule.text(alloc)?,
        states: rule.states(),
    })
}

/// A text that names no B/S or Generations rule, as it is.
fn plain_rule(alloc: Global, text: &[u8]) -> Result<RuleText, ImportTextFault>
    requires { IsRuleFault text.now [] Unknown }
    ensures rule { IfOk result (IsAskedText text.now) }
    ensures fault { IfErr result (IsAskedRefused text.now) }
{
    if !is_word(text) {
        return Err(ImportTextFault::Rule(RuleFault::Unknown));
    }
    let Ok(text) = Vec::from_slice(alloc, text) else {
        return Err(ImportTextFault::Memory);
    };
    Ok(RuleText { text, states: 2 })
}

/// The rule text that is asked for.
fn asked_rule(alloc: Global, text: &[u8]) -> Result<RuleText, ImportTextFault>
    ensures rule { IfOk result (IsAskedText text.now) }
    ensures fault { IfErr result (IsAskedRefused text.now) }
{
    match resolve(text, &[]) {
        Ok(rule) => Ok(printed_rule(alloc, rule)?),
        Err(RuleFault::Unknown) => plain_rule(alloc, text),
        Err(fault) => Err(ImportTextFault::Rule(fault)),
    }
}

/// The printed form of a rule that is named, or else the rule text that is asked for.
pub(crate) fn rule_text_for(
    alloc: Global,
    rule: Option<BsRule>,
    asked: &[u8],
) -> Result<RuleText, ImportTextFault>
    ensures rule { IfOk result (IsWrittenText rule asked.now) }
    ensures fault { IfErr result (IsRuleRefused rule asked.now) }
{
    match rule {
        Some(rule) => Ok(printed_rule(alloc, Rule::Bs(rule))?),
        None => asked_rule(alloc, asked),
    }
}
