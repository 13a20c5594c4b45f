//! Live cells of a plane that are put into a grid.

ghost use Rattle.std.specs.Prelude.{◌≡◌, ◌≢◌, ◌≤◌, ℤ, pos, ◌+ℤ◌, ◌<ℤ◌, ◌≤ℤ◌, IfOk};
ghost use Rattle.ca_plane.specs.Prelude.{cell};
ghost use Rattle.ca_apgcode_search.specs.inner.Drawn.{IsInWindow, FitsWindow, PutsCell, IsDrawn};

use ca_apgcode::{Grid, MOST_SIDE};
use ca_plane::{Memory, Plane, Point};
use std::alloc::Global;

/// A part of the plane: its north-western corner, and how many columns and rows it has.
#[derive(Clone, Copy, Drop)]
pub(crate) struct Window {
    pub(crate) x0: i128,
    pub(crate) y0: i128,
    pub(crate) width: u8,
    pub(crate) height: u8,
}

/// The live cells of a plane, which all lie in a window.
pub(crate) fn draw(alloc: Global, plane: &Plane, window: &Window) -> Result<Grid, Memory>
    requires width { window.now.width ≤ MOST_SIDE }
    requires height { window.now.height ≤ MOST_SIDE }
    requires inside { (x y : ℤ) → cell plane.now x y ≢ 0 → IsInWindow window.now x y }
    ensures { IfOk result (IsDrawn plane.now window.now) }
{
    let mut grid = Grid::new(alloc, window.width, window.height)?;
    // Says what holds of every grid.
    let _ = grid.width();
    'cells: for (at, _) in plane.cells() {
        put_cell(at, window, &mut grid);
    }
    Ok(grid)
}

// Makes the cell of a place live.
fn put_cell(at: Point, window: &Window, grid: &mut Grid)
    requires inside { IsInWindow window.now at.x at.y }
    requires fits { FitsWindow window.now grid.old }
    ensures puts { PutsCell window.now at grid.old grid.new }
    ensures fits { FitsWindow window.now grid.new }
{
    let u = offset(window.x0, at.x);
    let v = offset(window.y0, at.y);
    grid.make_live(u, v);
    // Says what holds of every grid.
    let _ = grid.width();
}

// How far a coordinate is from the first one, at most 39.
fn offset(first: i128, coordinate: i64) -> u8
    requires low { first ≤ℤ coordinate }
    requires high { coordinate <ℤ (first +ℤ pos 40) }
    ensures { coordinate ≡ first +ℤ pos result }
{
    (i128::from(coordinate) - first) as u8
}
