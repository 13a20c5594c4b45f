//! What is wrong with a claim text.

use thiserror::Error;

/// What is wrong with the first faulty line of a claim text. Lines are counted from 1, blank lines and
/// comments too.
#[derive(Clone, Copy, Debug, PartialEq, Eq, Error)]
pub enum ClaimFault {
    /// An unknown keyword, another count of words than the keyword wants, or a word that is no number where
    /// one is wanted.
    #[error("line {line}: syntax")]
    Syntax { line: u64 },
    /// A number outside its limits.
    #[error("line {line}: number")]
    Number { line: u64 },
    /// A claim about a name that no earlier line loads.
    #[error("line {line}: unknown name")]
    UnknownName { line: u64 },
    /// A name that an earlier line loads is loaded again.
    #[error("line {line}: name taken")]
    NameTaken { line: u64 },
    /// An allocation failed, at a line without a fault after lines without one.
    #[error("out of memory")]
    Memory,
}
