//! A window of three by three cells that moves over a plane, row by row from the top.

ghost use Rattle.std.specs.Prelude.{◌≡◌, pos, ◌+ℤ◌, ◌-ℤ◌, IsTrue, IsFalse};
ghost use Rattle.std.specs.List.{All};
ghost use Rattle.ca_plane.specs.Prelude.{IsInPlane, IsSparse};
ghost use Rattle.ca_steps.specs.Reach.{IsInReach};
ghost use Rattle.ca_steps.specs.inner.Order.{NoneBefore, IsFirstOrNone};

use crate::points::{earlier_point, one_less, one_more};
use crate::row::Row;
use ca_plane::{Nine, Point};

// The north-western corner of a plane, and so far from each cell in reach that none is seen from there.
const CORNER: Point = Point {
    y: -(1 << 62),
    x: -(1 << 62),
};

/// Three rows of three cells, round a place of a plane.
///
/// It moves on to one place after another, row by row from the top, and passes over places round which no
/// cell is live.
#[derive(Drop)]
pub(crate) struct MovingWindow<'a> {
    place: Point,
    north: Row<'a>,
    middle: Row<'a>,
    south: Row<'a>,
    ghost within: { IsInPlane place },
}

impl<'a> MovingWindow<'a> {
    ghost use Rattle.ca_steps.specs.inner.Window.{nine_states, ShowsWindow, IsQuiet, StaysLive, SeesAhead, IsNextPlace, MovesTo};

    /// A window that comes before all the cells.
    pub(crate) fn new(cells: &'a [(Point, u8)]) -> MovingWindow<'a>
        requires sparse { IsSparse cells.now }
        requires reach { All (λ e. IsInReach e.0.x e.0.y) cells.now }
        ensures shows { ShowsWindow cells.now result }
        ensures place { result.place ≡ CORNER }
    {
        MovingWindow {
            place: CORNER,
            north: Row::new(cells),
            middle: Row::new(cells),
            south: Row::new(cells),
        }
    }

    /// The next place round which a cell is live.
    pub(crate) fn next_place(&self) -> Option<Point>
        ensures { IsNextPlace self.now result }
    {
        if self.is_quiet() {
            return self.first_place();
        }
        Some(Point {
            y: self.place.y,
            x: one_more(self.place.x),
        })
    }

    // Whether all the cells are 0 that stay in sight one place further on.
    fn is_quiet(&self) -> bool
        ensures quiet { IsTrue result → IsQuiet self.now }
        ensures kept { IsFalse result → StaysLive self.now }
    {
        self.north.is_quiet() && self.middle.is_quiet() && self.south.is_quiet()
    }

    // The first place from which a cell ahead is seen in the east.
    fn first_place(&self) -> Option<Point>
        ensures { IsFirstOrNone (SeesAhead self.now) result }
    {
        let upper = earlier_point(self.north.first_place(-1), self.middle.first_place(0));
        earlier_point(upper, self.south.first_place(1))
    }

    /// Moves on to the next place.
    pub(crate) fn move_to(&mut self, place: Point)
        requires within { IsInPlane place }
        requires north { NoneBefore self.old.north.ahead (place.x +ℤ pos 1) (place.y -ℤ pos 1) }
        requires middle { NoneBefore self.old.middle.ahead (place.x +ℤ pos 1) place.y }
        requires south { NoneBefore self.old.south.ahead (place.x +ℤ pos 1) (place.y +ℤ pos 1) }
        ensures { MovesTo self.old self.new place }
    {
        let (north, south) = (one_less(place.y), one_more(place.y));
        let x = one_more(place.x);
        self.north.move_on(Point { y: north, x });
        self.middle.move_on(Point { y: place.y, x });
        self.south.move_on(Point { y: south, x });
        self.place = place;
    }

    /// The states of the nine cells round the place.
    pub(crate) fn nine(&self) -> Nine
        ensures { result ≡ nine_states self.now }
    {
        let [nw, n, ne] = self.north.states();
        let [w, centre, e] = self.middle.states();
        let [sw, s, se] = self.south.states();
        [nw, n, ne, w, centre, e, sw, s, se]
    }
}
