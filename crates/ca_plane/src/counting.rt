//! How rules go by the number of live cells among some neighbours of a cell.

/// Which neighbours of a cell are counted (Golly Help, QuickLife).
#[derive(Clone, Copy, Debug, PartialEq, Eq)]
pub enum Neighbourhood {
    /// All eight cells round it.
    Moore,
    /// The four cells that share a side with it: north, west, east and south.
    VonNeumann,
    /// Six cells: all but the north-east and the south-west one.
    Hexagonal,
}

/// How a rule of two states goes by the number n of live cells among these neighbours: a dead cell is born
/// where bit n of `birth` is 1, a live one survives where bit n of `survival` is 1, and every other cell is
/// dead next.
#[derive(Clone, Copy, Debug, PartialEq, Eq)]
pub struct Counting {
    pub neighbourhood: Neighbourhood,
    pub birth: u16,
    pub survival: u16,
}

/// How live cells age under a rule of `states` states (Golly Help, "Generations"): a dead cell, of state 0,
/// and a live one, of state 1, are live next where the counting says so, by the number of live neighbours.
/// Every other cell that isn't dead goes up by one state in each generation, and is dead after the last.
#[derive(Clone, Copy, Debug, PartialEq, Eq)]
pub struct Ageing {
    pub counting: Counting,
    pub states: u16,
}
