//! Patterns with their rules.

ghost use Rattle.std.specs.Prelude.{MatchResult};
ghost use Rattle.ca_pattern.specs.Patterns.{IsUnnamedFor, IsRuledAs};

use crate::pattern::Loaded;
use ca_rule::{Rule, RuleFault, Table, resolve};

/// A pattern, and the rule that its rule text names.
#[derive(Drop)]
pub struct RuledPattern<'t> {
    pub pattern: Loaded,
    pub rule: Rule<'t>,
}

/// A rule text that names no rule, and what is wrong with it.
#[derive(Debug, Drop)]
pub struct UnnamedRule {
    pub fault: RuleFault,
    pub rule_text: Vec<u8>,
}

/// The pattern with the rule that its rule text names among the tables, or what is wrong with the text.
///
/// # Errors
///
/// Fails where the text names no rule.
pub fn with_rule<'t>(pattern: Loaded, tables: &'t [Table]) -> Result<RuledPattern<'t>, UnnamedRule>
    ensures { MatchResult result (IsRuledAs tables.now pattern) (IsUnnamedFor tables.now pattern) }
{
    match resolve(&pattern.rule_text, tables) {
        Ok(rule) => Ok(RuledPattern { pattern, rule }),
        Err(fault) => Err(UnnamedRule {
            fault,
            rule_text: pattern.rule_text,
        }),
    }
}
