//! Points and coordinates side by side.

ghost use Rattle.std.specs.Prelude.{◌≡◌, pos, neg_ℤ, ◌+ℤ◌, ◌-ℤ◌, ◌≤ℤ◌};
ghost use Rattle.ca_plane.specs.Prelude.{reach};
ghost use Rattle.ca_steps.specs.inner.Order.{IsEarlier};

use ca_plane::Point;

/// The earlier of two points, or the one that there is.
pub(crate) fn earlier_point(a: Option<Point>, b: Option<Point>) -> Option<Point>
    ensures { IsEarlier a b result }
{
    let Some(p) = a else {
        return b;
    };
    let Some(q) = b else {
        return a;
    };
    Some(p.min(q))
}

/// The coordinate of the row above, or of the column to the west.
pub(crate) fn one_less(coordinate: i64) -> i64
    requires { neg_ℤ reach ≤ℤ coordinate }
    ensures { result ≡ coordinate -ℤ pos 1 }
{
    coordinate - 1
}

/// The coordinate of the row below, or of the column to the east.
pub(crate) fn one_more(coordinate: i64) -> i64
    requires { coordinate ≤ℤ reach }
    ensures { result ≡ coordinate +ℤ pos 1 }
{
    coordinate + 1
}
