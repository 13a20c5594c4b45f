//! Where the bricks of a box lie on the plane.

ghost use Rattle.std.specs.Prelude.{◌≡◌, ◌+◌, ◌≤◌, ◌^◌, pos, ◌-ℤ◌, false, IfSome};
ghost use Rattle.ca_plane.specs.Prelude.{most_generations};
ghost use Rattle.ca_run.specs.inner.Frames.{IsSpan, IsGridFrame, IsNearBox, Spans, piece_start};

use ca_quad::WideBounds;

// The most pieces of a grid: their bricks take 64 MiB.
const MOST_PIECES: usize = 1 << 16;

// How far the first piece of all lies before the origin.
const BEFORE: i128 = 1 << 62;

/// Pieces of 64 cells along one side of a grid. Piece k begins at 64 * k - 2^62.
#[derive(Clone, Copy)]
pub(crate) struct Span {
    /// The first piece.
    pub first: usize,
    /// How many there are.
    pub count: usize,
    /// The first and the last of those that hold a part of the box.
    pub low: usize,
    pub high: usize,
}

/// The pieces of both sides of a grid. A piece has four rows of bricks.
#[derive(Clone, Copy)]
pub(crate) struct Frame {
    pub columns: Span,
    pub rows: Span,
}

impl Span {
    /// Where it begins.
    pub(crate) fn start(&self) -> i64
        requires { IsSpan self.now }
        ensures { result ≡ piece_start self.now.first }
    {
        64 * self.first as i64 - (1 << 62)
    }

    /// Whether a piece holds a part of the box.
    pub(crate) fn holds(&self, piece: usize) -> bool
        ensures { result ≡ false → (self.now.low ≤ piece → piece ≤ self.now.high → ⊥) }
    {
        self.low <= piece && piece <= self.high
    }
}

// The pieces of a side of a box, with a margin of `margin` cells and a piece beyond it at both ends: none,
// where they are too many. Places are counted from the first piece of all.
fn span_of(low: usize, high: usize, margin: usize) -> Option<Span>
    requires least { 2 ^ 61 ≤ low }
    requires order { low ≤ high }
    requires most { high ≤ 2 ^ 62 + 2 ^ 61 }
    requires margin { margin ≤ most_generations }
    ensures span { IfSome result IsSpan }
    ensures spans { IfSome result (Spans (pos low -ℤ pos (2 ^ 62)) (pos high -ℤ pos (2 ^ 62)) margin) }
{
    let first = (low - margin - 64) / 64;
    let count = (high + margin + 64) / 64 - first + 1;
    if count > MOST_PIECES {
        return None;
    }
    Some(Span {
        first,
        count,
        low: low / 64,
        high: high / 64,
    })
}

/// Where the bricks of a box lie, with a margin of `margin` cells and a ring of bricks round it: nowhere,
/// where they are too many.
pub(crate) fn frame_of(bounds: WideBounds, margin: usize) -> Option<Frame>
    requires near { IsNearBox bounds }
    requires margin { margin ≤ most_generations }
    ensures frame { IfSome result IsGridFrame }
    ensures columns { IfSome result (λ frame. Spans bounds.x0 bounds.x1 margin frame.columns) }
    ensures rows { IfSome result (λ frame. Spans bounds.y0 bounds.y1 margin frame.rows) }
{
    let (west, east) = ((bounds.x0 + BEFORE) as usize, (bounds.x1 + BEFORE) as usize);
    let (north, south) = ((bounds.y0 + BEFORE) as usize, (bounds.y1 + BEFORE) as usize);
    let columns = span_of(west, east, margin)?;
    let rows = span_of(north, south, margin)?;
    if columns.count * rows.count > MOST_PIECES {
        return None;
    }
    Some(Frame { columns, rows })
}
