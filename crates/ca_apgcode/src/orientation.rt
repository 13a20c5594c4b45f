//! The eight turns and reflections of a plane.

/// How a plane is turned or reflected about a cell. `x` grows to the east and `y` to the south.
#[derive(Clone, Copy, Debug, PartialEq, Eq)]
pub enum Orientation {
    /// As it is.
    Upright,
    /// A quarter of a turn clockwise: north becomes east.
    QuarterTurn,
    /// Half a turn.
    HalfTurn,
    /// A quarter of a turn the other way: north becomes west.
    ThreeQuarterTurn,
    /// East and west are exchanged.
    EastWest,
    /// North and south are exchanged.
    NorthSouth,
    /// Columns become rows: east and south are exchanged, and west and north.
    Diagonal,
    /// East and north are exchanged, and west and south.
    Antidiagonal,
}
