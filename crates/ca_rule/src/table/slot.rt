//! What is in the lines of a rule table.

/// What is in a slot of a transition.
#[derive(Clone, Copy, Debug, PartialEq, Eq)]
pub enum Slot {
    /// One state.
    Number(u8),
    /// A variable, by the number of its `var` line, counted from 0.
    Variable(usize),
}
