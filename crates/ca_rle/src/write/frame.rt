//! The corner and the size that a tidy text tells.

ghost use Rattle.std.specs.Prelude.{◌≡◌, ◌≤ℤ◌, ◌+ℤ◌, pos, IfSome};
ghost use Rattle.ca_plane.specs.Prelude.{Picture};
ghost use Rattle.ca_rle.specs.Tidy.{IsFrame};
ghost use Rattle.ca_rle.specs.inner.Boxes.{IsBoxInRange, AreBounds};

use ca_plane::{Bounds, Point};

/// The upper left corner of the smallest box round the live cells, and the box's size.
#[derive(Clone, Copy)]
pub(super) struct SizedBox {
    pub(super) corner: Point,
    pub(super) width: u64,
    pub(super) height: u64,
}

/// How far it is from a number up to another.
pub(super) fn distance(from: i64, to: i64) -> u64
    requires { from ≤ℤ to }
    ensures { to ≡ from +ℤ pos result }
{
    to.abs_diff(from)
}

/// The frame of the live cells, which have these bounds: (0, 0) and 0 by 0 where there are none.
pub(super) fn of(bounds: Option<Bounds>) -> SizedBox
    requires { IfSome bounds IsBoxInRange }
    ensures { (cells : Picture) → AreBounds cells bounds
        → IsFrame cells result.corner result.width result.height }
{
    let Some(bounds) = bounds else {
        return SizedBox {
            corner: Point { y: 0, x: 0 },
            width: 0,
            height: 0,
        };
    };
    SizedBox {
        corner: Point {
            y: bounds.y0,
            x: bounds.x0,
        },
        width: distance(bounds.x0, bounds.x1) + 1,
        height: distance(bounds.y0, bounds.y1) + 1,
    }
}
