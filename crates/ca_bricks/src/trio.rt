//! Three things side by side.

/// Three side by side: squares of one level, or words.
#[derive(Clone, Copy, Drop)]
pub struct Trio<T> {
    pub west: T,
    pub middle: T,
    pub east: T,
}

/// Nine, in three rows.
#[derive(Clone, Copy, Drop)]
pub struct Rows<T> {
    pub north: Trio<T>,
    pub middle: Trio<T>,
    pub south: Trio<T>,
}
