//! The rule file of a text that names a rule.

ghost use Rattle.std.specs.Prelude.{IfOk, IfErr};
ghost use Rattle.ca_rule_files.specs.RuleFiles.{WritesTextRule, IsRuleFileFault};

use crate::fault::RuleFileFault;
use crate::generations::generations_file;
use crate::isotropic::IsotropicRule;
use crate::map::MapRule;
use crate::writing::table_file;
use ca_rule::{BsRule, GenRule, RuleFault};
use std::alloc::Global;

/// The rule file of the rule that the text names: one in B/S notation, as `B3/S23`, an isotropic one in
/// Hensel's notation, as `B2-a/S12`, a MAP string, or a Generations rule, as `345/2/4`. The file is a rule table
/// whose name is the text, for programs that read tables.
///
/// # Errors
///
/// `Rule` where the text names no such rule, with the reason; `Memory` where there is no memory for the file.
pub fn rule_file(alloc: Global, text: &[u8]) -> Result<Vec<u8>, RuleFileFault>
    ensures found { IfOk result (λ file. WritesTextRule text.now file.items) }
    ensures fault { IfErr result (IsRuleFileFault text.now) }
{
    match BsRule::parse(text) {
        Ok(rule) => return Ok(table_file(alloc, text, &rule)?),
        Err(RuleFault::Unknown) => {}
        Err(fault) => return Err(RuleFileFault::Rule(fault)),
    }
    match IsotropicRule::parse(text) {
        Ok(rule) => return Ok(table_file(alloc, text, &rule)?),
        Err(RuleFault::Unknown) => {}
        Err(fault) => return Err(RuleFileFault::Rule(fault)),
    }
    match MapRule::parse(text) {
        Ok(rule) => return Ok(table_file(alloc, text, &rule)?),
        Err(RuleFault::Unknown) => {}
        Err(fault) => return Err(RuleFileFault::Rule(fault)),
    }
    match GenRule::parse(text) {
        Ok(rule) => Ok(generations_file(alloc, text, &rule)?),
        Err(fault) => Err(RuleFileFault::Rule(fault)),
    }
}
