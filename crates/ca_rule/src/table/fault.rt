//! What is wrong with the text of a rule table.

use thiserror::Error;

/// What is wrong with the first faulty line of a rule file. Lines are counted from 1, blank lines and
/// comments too.
#[derive(Clone, Copy, Debug, PartialEq, Eq, Error)]
pub enum TableFault {
    /// The first line that says something isn't `@RULE` and a name.
    #[error("line {line}: no @RULE line")]
    NoRuleLine { line: u64 },
    /// No section is named `@TABLE`.
    #[error("line {line}: no table")]
    NoTable { line: u64 },
    /// A setting a second time or too late, a `var` line or a transition that isn't spelled as one, or
    /// another number of fields than the neighbourhood needs.
    #[error("line {line}: syntax")]
    Syntax { line: u64 },
    /// No number of states, or one that isn't from 2 to 256, or a state that isn't below it.
    #[error("line {line}: states")]
    States { line: u64 },
    /// No neighbourhood, or an unknown one.
    #[error("line {line}: neighborhood")]
    Neighborhood { line: u64 },
    /// No symmetry, or one that the neighbourhood doesn't have.
    #[error("line {line}: symmetries")]
    Symmetries { line: u64 },
    /// The name of no earlier variable.
    #[error("line {line}: variable")]
    Variable { line: u64 },
    /// The result is a variable that is no input.
    #[error("line {line}: unbound")]
    Unbound { line: u64 },
    /// The table turns nine zeros into another state.
    #[error("line {line}: wakes")]
    Wakes { line: u64 },
    /// An allocation failed.
    #[error("out of memory")]
    Memory,
}
