//! What a claim asks, in one shape for all kinds of claims.

/// Whose cells the claim expects to see.
#[derive(Clone, Copy)]
pub enum Expected {
    /// The pattern's own.
    Own,
    /// Those of the other pattern that the claim names.
    Other,
    /// No cells: the plane is to be empty.
    NoCells,
}

/// What no earlier time may show.
#[derive(Clone, Copy, PartialEq, Eq)]
pub enum Forbidden {
    /// All may be shown.
    Nothing,
    /// The pattern in its place.
    InPlace,
    /// The pattern, moved by any vector.
    Anywhere,
    /// The empty plane.
    EmptyPlane,
}

/// What a claim asks.
#[derive(Clone, Copy)]
pub struct Asks {
    /// Whether the pattern must be live.
    pub live: bool,
    /// After how many generations the plane shows the expected cells.
    pub generations: u64,
    /// Whose cells are expected.
    pub expected: Expected,
    /// How far to the right they are moved.
    pub dx: i64,
    /// How far down they are moved.
    pub dy: i64,
    /// Whether the claim moves them, by (0, 0) too. Of cells that are moved there may not be too many.
    pub moved: bool,
    /// What no earlier time, starting at 1, may show.
    pub forbidden: Forbidden,
}
