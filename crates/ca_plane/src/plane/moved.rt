//! Planes that are moved.

ghost use Rattle.std.specs.Prelude.{◌≡◌, IsTrue, IsFalse, IsOk, IfOk, IsErrOf, ◌↔◌, ◌+ℤ◌};
ghost use Rattle.ca_plane.specs.Plane.{IsSame, shifted};
ghost use Rattle.ca_plane.specs.Box.{LeavesPlane, moved};
ghost use Rattle.ca_plane.specs.inner.Moves.{IsNear, StaysInPlane};
ghost use Rattle.ca_plane.specs.Sparse.{IsInPlane, IsSparse};

use crate::limits::REACH;
use crate::memory::{Memory, MoveFault};
use crate::plane::Plane;
use crate::point::Point;
use std::alloc::Global;

impl Plane {
    /// The plane moved by `dx` to the right and `dy` downward.
    ///
    /// # Errors
    ///
    /// `Range` exactly where a cell would lie beyond 2^62 in some direction, however much memory there is.
    /// Else fails where there is no memory for the moved plane.
    pub fn translated(&self, alloc: Global, dx: i64, dy: i64) -> Result<Plane, MoveFault>
        ensures moved { IfOk result (λ q. IsSame q (shifted self.now dx dy)) }
        ensures sparse { IfOk result IsSparse }
        ensures range { IsErrOf result MoveFault.Range ↔ LeavesPlane self.now dx dy }
        ensures within { IsOk result → LeavesPlane self.now dx dy → ⊥ }
    {
        if !self.stays(dx, dy) {
            return Err(MoveFault::Range);
        }
        let cells = self.moved_cells(alloc, dx, dy)?;
        Ok(Plane { cells })
    }

    // The cells, each moved.
    fn moved_cells(&self, alloc: Global, dx: i64, dy: i64) -> Result<Vec<(Point, u8)>, Memory>
        requires { StaysInPlane self.now dx dy }
        ensures moved { IfOk result (λ v. v.items ≡ shifted self.now dx dy) }
        ensures sparse { IsSparse self.now }
    {
        let mut moved = Vec::with_capacity(alloc, self.len())?;
        'cells: for (point, state) in self.cells() {
            moved.push((point.moved(dx, dy), state))?;
        }
        Ok(moved)
    }

    // Whether each cell stays in the square of a plane when it is moved.
    fn stays(&self, dx: i64, dy: i64) -> bool
        ensures stays { IsTrue result → StaysInPlane self.now dx dy }
        ensures leaves { IsFalse result → LeavesPlane self.now dx dy }
    {
        'cells: for (point, _) in self.cells() {
            if !point.stays(dx, dy) {
                return false;
            }
        }
        true
    }
}

impl Point {
    // Whether the point is in the square of a plane when it is moved.
    fn stays(self, dx: i64, dy: i64) -> bool
        ensures { IsTrue result ↔ IsInPlane (moved self dx dy) }
    {
        is_near(self.x, dx) && is_near(self.y, dy)
    }

    // The point moved by (dx, dy).
    fn moved(self, dx: i64, dy: i64) -> Point
        requires { IsInPlane (moved self dx dy) }
        ensures { result ≡ moved self dx dy }
    {
        Point {
            y: self.y + dy,
            x: self.x + dx,
        }
    }
}

// Whether a coordinate is one of the square of a plane when it is moved.
fn is_near(coordinate: i64, distance: i64) -> bool
    ensures { IsTrue result ↔ IsNear (coordinate +ℤ distance) }
{
    let moved = i128::from(coordinate) + i128::from(distance);
    -REACH <= moved && moved <= REACH
}
