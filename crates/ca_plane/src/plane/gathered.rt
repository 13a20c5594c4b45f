//! Planes from cells in any order.

ghost use Rattle.std.specs.Prelude.{IfOk};
ghost use Rattle.std.specs.List.{All};
ghost use Rattle.ca_plane.specs.Plane.{IsSame};
ghost use Rattle.ca_plane.specs.Sparse.{IsInPlane, IsSparse};

use crate::memory::Memory;
use crate::plane::Plane;
use crate::point::Point;
use std::alloc::Global;

impl Plane {
    /// The plane that shows the cells, which may come in any order. Of two at one point the first counts.
    ///
    /// It sorts them once, where `set` moves all that follows a cell.
    ///
    /// # Errors
    ///
    /// Fails where there is no memory for it.
    pub fn from_cells(alloc: Global, cells: Vec<(Point, u8)>) -> Result<Plane, Memory>
        requires { All (λ e. IsInPlane e.0) cells.items }
        ensures same { IfOk result (λ q. IsSame q cells.items) }
        ensures sparse { IfOk result IsSparse }
    {
        let mut falling = cells;
        falling.sort_by(|one, other| other.0.cmp(&one.0))?;
        let mut plane = Plane {
            cells: Vec::with_capacity(alloc, falling.len())?,
        };
        'cells: while let Some((point, state)) = falling.pop() {
            plane.set(point, state)?;
        }
        Ok(plane)
    }
}
