//! What is kept of each of the four parts of a square.

/// A list for each of the four parts of a square.
#[derive(Drop)]
pub(crate) struct Quarters<T> {
    pub nw: Vec<T>,
    pub ne: Vec<T>,
    pub sw: Vec<T>,
    pub se: Vec<T>,
}
