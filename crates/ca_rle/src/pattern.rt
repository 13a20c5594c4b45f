//! Patterns that were read.

use ca_plane::{BitPlane, Plane};

/// A pattern that was read from a text: its live cells, its rule text, and its generation count.
#[derive(Drop)]
pub struct Pattern {
    pub cells: Plane,
    pub rule_text: Vec<u8>,
    pub generation: u64,
}

/// The live cells of a pattern in the form that takes less memory.
#[derive(Drop)]
pub enum PackedCells {
    /// Of a pattern without a state above 1, 64 cells to a word.
    Words(BitPlane),
    /// Of a pattern with more states.
    States(Plane),
}
