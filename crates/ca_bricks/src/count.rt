//! Numbers of live cells, in binary.

/// A number for each cell, up to 15: its digits are words, or the rows of a tile.
#[derive(Clone, Copy)]
pub struct Count<T> {
    pub ones: T,
    pub twos: T,
    pub fours: T,
    pub eights: T,
}
