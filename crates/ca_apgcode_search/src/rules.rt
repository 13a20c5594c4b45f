//! Under which rules objects have codes.

ghost use Rattle.std.specs.Prelude.{◌↔◌, IsTrue};
ghost use Rattle.ca_rule.specs.Prelude.{rule_value};
ghost use Rattle.ca_answers.specs.Prelude.{HasCodes};

use ca_rule::{Hood, Rule};

/// Whether objects have codes under a rule: a B/S rule that counts all eight or four neighbours.
pub fn has_codes(rule: &Rule<'_>) -> bool
    ensures { IsTrue result ↔ HasCodes (rule_value rule.now) }
{
    match rule {
        Rule::Bs(bs) => bs.hood != Hood::Hex,
        _ => false,
    }
}
