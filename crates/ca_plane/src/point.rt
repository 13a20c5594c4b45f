//! Points, boxes of points, and the nine cells round a point.

ghost use Rattle.std.specs.Prelude.{◌≡◌};
ghost use Rattle.std.specs.Int.{int_min, int_max};

/// A point of the plane. `x` grows to the right and `y` downward.
///
/// Points are ordered by `y`, and then by `x`: row by row, from the top.
#[derive(Clone, Copy, Debug, PartialEq, Eq, PartialOrd, Ord, Hash)]
pub struct Point {
    pub y: i64,
    pub x: i64,
}

/// A box of points, both ends included.
#[derive(Clone, Copy, Debug, PartialEq, Eq, Hash)]
pub struct Bounds {
    pub x0: i64,
    pub y0: i64,
    pub x1: i64,
    pub y1: i64,
}

impl Bounds {
    // The box of one point.
    pub(crate) fn of(point: Point) -> Bounds
        ensures x0 { result.x0 ≡ point.x }
        ensures y0 { result.y0 ≡ point.y }
        ensures x1 { result.x1 ≡ point.x }
        ensures y1 { result.y1 ≡ point.y }
    {
        Bounds {
            x0: point.x,
            y0: point.y,
            x1: point.x,
            y1: point.y,
        }
    }

    // The smallest box round this one and the point.
    pub(crate) fn with_point(self, point: Point) -> Bounds
        ensures x0 { result.x0 ≡ int_min self.x0 point.x }
        ensures y0 { result.y0 ≡ int_min self.y0 point.y }
        ensures x1 { result.x1 ≡ int_max self.x1 point.x }
        ensures y1 { result.y1 ≡ int_max self.y1 point.y }
    {
        Bounds {
            x0: self.x0.min(point.x),
            y0: self.y0.min(point.y),
            x1: self.x1.max(point.x),
            y1: self.y1.max(point.y),
        }
    }
}

/// The states of a cell and its eight neighbours, row by row:
/// north-west, north, north-east, west, the cell itself, east, south-west, south, south-east.
pub type Nine = [u8; 9];
