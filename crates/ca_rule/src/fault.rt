//! Why a text names no rule.

use thiserror::Error;

/// Why a text names no rule: the first of these that holds.
#[derive(Clone, Copy, Debug, PartialEq, Eq, Error)]
pub enum RuleFault {
    /// The text has a `:`, as a bounded grid has. The plane here is unbounded.
    #[error("a rule on a bounded grid")]
    Bounded,
    /// The text spells a rule under which an empty plane doesn't stay empty.
    #[error("a rule that wakes the empty plane")]
    Wakes,
    /// The text spells no rule, and is the name of no table that was given.
    #[error("an unknown rule")]
    Unknown,
}
