//! Windows of the plane.

ghost use Rattle.std.specs.Prelude.{◌≡◌, ℕ, ℤ, pos, neg_ℤ, ◌+ℤ◌, ◌-ℤ◌, ◌≤ℤ◌, ◌<ℤ◌, ◌^◌, ◌≤◌, ◌<◌, ◌↔◌, IsTrue, IfSome, IfNone};
ghost use Rattle.std.specs.Prelude.{IsSome};
ghost use Rattle.ca_draw.specs.Windows.{strip_of, IsInSquare, IsWindow, IsBox, IsTreeBox, ShowsBox, window_at};
ghost use Rattle.ca_draw.specs.inner.Strips.{AreStrips, AreStripsBetween};

use ca_quad::{Spot, WideBounds};

/// The most squares that a window has in a row, or in a column.
pub const MOST_SIDE: u16 = 8192;

/// The largest scale. At it, a square is a quarter of the largest tree.
pub const MOST_SCALE: u8 = 124;

// How far from 0 the columns and rows of a window may be.
const WINDOW_REACH: i128 = 1 << 124;

/// A window of the plane, which shows squares of 2^`scale` by 2^`scale` cells. The square at column c and row
/// r has the cells whose x and y, divided by 2^`scale` and rounded down, are c and r. Columns are counted to
/// the right, and rows downward.
#[derive(Clone, Copy, Debug, PartialEq, Eq)]
pub struct Window {
    /// From 0 to `MOST_SCALE`.
    pub scale: u8,
    /// The column in the west, at least -2^124.
    pub column: i128,
    /// The row in the north, at least -2^124.
    pub row: i128,
    /// How many squares are in a row, from 1 to `MOST_SIDE`. Their columns are below 2^124.
    pub width: u16,
    /// How many rows there are, from 1 to `MOST_SIDE`. They are below 2^124.
    pub height: u16,
}

// Columns or rows, one beside the other.
#[derive(Clone, Copy)]
struct Strips {
    first: i128,
    count: u16,
}

impl Window {
    /// Whether the window is within these limits.
    pub fn is_within_limits(self) -> bool
        ensures { IsTrue result ↔ IsWindow self }
    {
        self.scale <= MOST_SCALE
            && are_strips(self.column, self.width)
            && are_strips(self.row, self.height)
    }

    /// The window whose square in the north-west has this cell, where it is within the limits.
    pub fn at(corner: Spot, scale: u8, width: u16, height: u16) -> Option<Window>
        ensures window { IfSome result (λ w. (w ≡ window_at corner scale width height) × IsWindow w) }
        ensures none { IfNone result (IsWindow (window_at corner scale width height) → ⊥) }
    {
        if scale > MOST_SCALE {
            return None;
        }
        let window = Window {
            scale,
            column: strip(scale, corner.x),
            row: strip(scale, corner.y),
            width,
            height,
        };
        if !window.is_within_limits() {
            return None;
        }
        Some(window)
    }

    /// The window of the smallest scale that shows a whole box in at most `columns` columns and `rows` rows. It
    /// has no column and no row without a cell of the box. A box of a tree's cells fits into any two columns and
    /// rows (`laws::least_boxes`). One with cells on both sides of x = 0 fits into no single column.
    pub fn fitting(bounds: WideBounds, columns: u16, rows: u16) -> Option<Window>
        requires { IsBox bounds }
        // It shows every cell of the box.
        ensures shows { IfSome result (ShowsBox bounds columns rows) }
        // It begins in the north-west with the box's corner, and ends in the south-east with that.
        ensures begins { IfSome result (λ w. IsInSquare w.scale w.column w.row bounds.x0 bounds.y0) }
        ensures ends { IfSome result (λ w. IsInSquare w.scale ((w.column +ℤ pos w.width) -ℤ pos 1)
            ((w.row +ℤ pos w.height) -ℤ pos 1) bounds.x1 bounds.y1) }
        // No window of a smaller scale shows the box.
        ensures least { IfSome result (λ w. (other : Window) → ShowsBox bounds columns rows other
            → w.scale ≤ other.scale) }
        // None does at all, which can't be where two columns and rows are allowed and the box is one of a
        // tree.
        ensures none { IfNone result ((other : Window) → ShowsBox bounds columns rows other → ⊥) }
        ensures some { IsTreeBox bounds → 2 ≤ columns → 2 ≤ rows → IsSome result }
    {
        'scales: for scale in 0..MOST_SCALE + 1 {
            if let Some(window) = Window::fitting_at(bounds, columns, rows, scale) {
                return Some(window);
            }
        }
        None
    }

    /// The window of this scale that shows a whole box in at most `columns` columns and `rows` rows, where there
    /// is one. As a fitting window, it has no column and no row without a cell of the box.
    pub fn fitting_at(bounds: WideBounds, columns: u16, rows: u16, scale: u8) -> Option<Window>
        requires { IsBox bounds }
        ensures shows { IfSome result (ShowsBox bounds columns rows) }
        ensures begins { IfSome result (λ w. IsInSquare w.scale w.column w.row bounds.x0 bounds.y0) }
        ensures ends { IfSome result (λ w. IsInSquare w.scale ((w.column +ℤ pos w.width) -ℤ pos 1)
            ((w.row +ℤ pos w.height) -ℤ pos 1) bounds.x1 bounds.y1) }
        ensures scale { IfSome result (λ w. w.scale ≡ scale) }
        // No window of the scale does.
        ensures none { IfNone result ((other : Window) → other.scale ≡ scale
            → ShowsBox bounds columns rows other → ⊥) }
    {
        if scale > MOST_SCALE {
            return None;
        }
        let Some(across) = strips_between(scale, bounds.x0, bounds.x1, columns) else {
            return None;
        };
        let Some(down) = strips_between(scale, bounds.y0, bounds.y1, rows) else {
            return None;
        };
        Some(Window {
            scale,
            column: across.first,
            row: down.first,
            width: across.count,
            height: down.count,
        })
    }
}

// Whether `count` columns or rows from `first` onwards may be those of a window.
fn are_strips(first: i128, count: u16) -> bool
    ensures { IsTrue result ↔ AreStrips first count }
{
    1 <= count
        && count <= MOST_SIDE
        && -WINDOW_REACH <= first
        && first <= WINDOW_REACH - i128::from(count)
}

// The columns from that of an x to that of another, or the rows of two y, where they are at most `most`.
fn strips_between(scale: u8, from: i128, to: i128, most: u16) -> Option<Strips>
    requires scale { scale ≤ 124 }
    requires order { from ≤ℤ to }
    ensures span { IfSome result (λ s. AreStripsBetween scale from to s.first s.count × (s.count ≤ most)) }
    ensures none { IfNone result ((first : ℤ) (count : ℕ) → AreStrips first count → count ≤ most
        → first ≤ℤ strip_of scale from → strip_of scale to <ℤ (first +ℤ pos count) → ⊥) }
{
    let first = strip(scale, from);
    let last = strip(scale, to);
    if first < -WINDOW_REACH || last >= WINDOW_REACH {
        return None;
    }
    let count = count_of(first, last);
    if count > u128::from(most.min(MOST_SIDE)) {
        return None;
    }
    Some(Strips {
        first,
        count: count as u16,
    })
}

// How many columns or rows go from one to another.
fn count_of(first: i128, last: i128) -> u128
    requires order { first ≤ℤ last }
    requires first { neg_ℤ (pos (2 ^ 124)) ≤ℤ first }
    requires last { last <ℤ pos (2 ^ 124) }
    ensures { first +ℤ pos result ≡ last +ℤ pos 1 }
{
    (last - first + 1) as u128
}

// The column of an x, or the row of a y.
fn strip(scale: u8, n: i128) -> i128
    requires { scale ≤ 124 }
    ensures { result ≡ strip_of scale n }
{
    n >> scale
}
