//! Why no rule file is written.

ghost use Rattle.std.specs.Prelude.{◌≡◌};
ghost use Rattle.ca_rule_files.specs.declared.fault.RuleFileFault.TheVariants.{Memory as MemoryFault};

use ca_plane::Memory;
use ca_rule::RuleFault;
use thiserror::Error;

/// Why no rule file is written for a text.
#[derive(Clone, Copy, Debug, PartialEq, Eq, Error)]
pub enum RuleFileFault {
    /// The text names no rule.
    #[error("{0}")]
    Rule(RuleFault),
    /// Out of memory.
    #[error("out of memory")]
    Memory,
}

impl From<Memory> for RuleFileFault {
    ghost from_gives = { λ _ f. f ≡ MemoryFault };

    fn from(_refused: Memory) -> RuleFileFault {
        RuleFileFault::Memory
    }
}
