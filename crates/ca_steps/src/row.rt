//! One row of a window, and the cells of a plane that are still to come there.

ghost use Rattle.std.specs.Prelude.{◌≡◌, ◌≢◌, pos, negsuc, ◌+ℤ◌, ◌≤ℤ◌, [], ◌∷◌, IsTrue, IsFalse, IfSome};
ghost use Rattle.ca_plane.specs.Prelude.{cell, IsInPlane, IsSparse};
ghost use Rattle.ca_steps.specs.inner.Order.{NoneBefore, IsFirstOrNone};
ghost use Rattle.ca_steps.specs.inner.CellsAhead.{IsWithout};

use ca_plane::Point;
use std::marker::Model;

// The cells of a plane that are still to come, row by row from the top.
#[derive(Drop)]
struct CellsAhead<'a> {
    left: &'a [(Point, u8)],
}

impl<'a> Model for CellsAhead<'a> {
    ghost use Rattle.ca_plane.specs.Prelude.{Picture, IsSparse};

    ghost Value = { Picture };

    ghost view = { λ a. a.left.now };

    ghost invariant = { λ a. IsSparse a.left.now };
}

impl<'a> CellsAhead<'a> {
    fn new(cells: &'a [(Point, u8)]) -> CellsAhead<'a>
        requires { IsSparse cells.now }
        ensures { result ≡ cells.now }
    {
        CellsAhead { left: cells }
    }

    // The point of the first cell.
    fn first(&self) -> Option<Point>
        ensures first { IsFirstOrNone (λ x y. cell self.now x y ≢ 0) result }
        ensures within { IfSome result (λ at. IsInPlane at) }
    {
        let ((point, _), _) = self.left.split_first()?;
        Some(*point)
    }

    // The state of the cell at the point, which has come then.
    fn take_at(&mut self, at: Point) -> u8
        requires { NoneBefore self.old at.x at.y }
        ensures state { result ≡ cell self.old at.x at.y }
        ensures over { IsWithout self.old self.new at }
    {
        let Some(((point, state), left)) = self.left.split_first() else {
            return 0;
        };
        if *point != at {
            return 0;
        }
        self.left = left;
        *state
    }
}

/// One row of a window: the states of three cells side by side, and the cells of the plane that come after
/// them.
#[derive(Drop)]
pub(crate) struct Row<'a> {
    west: u8,
    centre: u8,
    east: u8,
    ahead: CellsAhead<'a>,
}

impl<'a> Row<'a> {
    ghost use Rattle.ca_steps.specs.inner.Row.{IsQuietRow, IsLiveRow, MovesOn};

    /// A row that comes before all the cells.
    pub(crate) fn new(cells: &'a [(Point, u8)]) -> Row<'a>
        requires { IsSparse cells.now }
        ensures west { result.west ≡ 0 }
        ensures centre { result.centre ≡ 0 }
        ensures east { result.east ≡ 0 }
        ensures ahead { result.ahead ≡ cells.now }
    {
        Row {
            west: 0,
            centre: 0,
            east: 0,
            ahead: CellsAhead::new(cells),
        }
    }

    /// The states of the three cells, from west to east.
    pub(crate) fn states(&self) -> [u8; 3]
        ensures { result ≡ self.now.west ∷ self.now.centre ∷ self.now.east ∷ [] }
    {
        [self.west, self.centre, self.east]
    }

    /// Whether the two cells are 0 that stay in sight one place further on.
    pub(crate) fn is_quiet(&self) -> bool
        ensures quiet { IsTrue result → IsQuietRow self.now }
        ensures live { IsFalse result → IsLiveRow self.now }
    {
        self.centre == 0 && self.east == 0
    }

    /// The first place from which a cell ahead is seen in the east, this row being dy rows below it.
    pub(crate) fn first_place(&self, dy: i64) -> Option<Point>
        requires low { negsuc 0 ≤ℤ dy }
        requires high { dy ≤ℤ pos 1 }
        ensures { IsFirstOrNone (λ x y. cell self.now.ahead (x +ℤ pos 1) (y +ℤ dy) ≢ 0) result }
    {
        let point = self.ahead.first()?;
        Some(Point {
            y: point.y - dy,
            x: point.x - 1,
        })
    }

    /// Moves on by one column, after which the cell at the point is the eastern one.
    pub(crate) fn move_on(&mut self, east: Point)
        requires { NoneBefore self.old.ahead east.x east.y }
        ensures { MovesOn self.old self.new east }
    {
        self.west = self.centre;
        self.centre = self.east;
        self.east = self.ahead.take_at(east);
    }
}
