//! What the tests expect. All else answers yes or no, since an assertion costs more proof than a comparison.

ghost use Rattle.std.specs.Prelude.{IsTrue};
ghost use Rattle.ca_plane.specs.Prelude.{IsInPlane};

use ca_plane::{Memory, Plane, Point};
use std::alloc::Global;
use std::process::Abort;
use std::test::*;

/// A cell by its y, its x and its state.
pub(crate) type Cell = (i64, i64, u8);

pub(crate) const GLIDER: &[Cell] = &[(0, 1, 1), (1, 2, 1), (2, 0, 1), (2, 1, 1), (2, 2, 1)];

/// The greatest coordinate of a plane's cells.
pub(crate) const FAR: i64 = 1 << 62;

/// It holds.
pub(crate) fn expect(rt: &impl Abort, holds: bool, what: &str)
    ensures { IsTrue holds }
{
    assert!(rt; holds, "{what}");
}

/// The point at y and x, which lie in a plane.
pub(crate) fn within(y: i64, x: i64) -> Point
    ensures { IsInPlane result }
{
    Point {
        y: y.clamp(-FAR, FAR),
        x: x.clamp(-FAR, FAR),
    }
}

/// The plane on which these cells were written one after another.
pub(crate) fn plane_of(alloc: Global, cells: &[Cell]) -> Result<Plane, Memory> {
    let mut plane = Plane::new(alloc);
    'cells: for &(y, x, state) in cells {
        plane.set(within(y, x), state)?;
    }
    Ok(plane)
}

/// Whether the plane has these cells alone, in this order, and gives each of them.
pub(crate) fn shows(plane: &Plane, cells: &[Cell]) -> bool {
    let mut found = plane.cells();
    'cells: for &(y, x, state) in cells {
        let at = Point { y, x };
        if found.next() != Some((at, state)) || plane.get(at) != state {
            return false;
        }
    }
    plane.len() == cells.len()
}
