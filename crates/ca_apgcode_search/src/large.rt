//! Objects that are too large for any of their phases to fit into 40 by 40 cells.

ghost use Rattle.std.specs.Prelude.{◌≤◌, ◌+◌, ◌-◌, ◌*◌, ◌≤ℤ◌, pos, ◌+ℤ◌, IsTrue};
ghost use Rattle.ca_plane.specs.Prelude.{longest_period};
ghost use Rattle.ca_pattern.specs.Prelude.{IsWideBox, IsWide};
ghost use Rattle.ca_apgcode_search.specs.inner.Large.{IsTooLarge};

use ca_apgcode::MOST_SIDE;
use ca_quad::WideBounds;

/// True only where a box is larger than one of 40 by 40 cells can become within `period` - 1 generations: in each
/// generation a plane grows by one cell at most on each side.
pub(crate) fn is_too_large(bounds: &WideBounds, period: u64) -> bool
    requires wide { IsWideBox bounds.now }
    requires some { 1 ≤ period }
    requires most { period ≤ longest_period }
    ensures { IsTrue result → IsTooLarge bounds.now period }
{
    is_long(bounds.x0, bounds.x1, period) || is_long(bounds.y0, bounds.y1, period)
}

// Whether there are more than 40 + 2 * (period - 1) coordinates from one to another, both included.
fn is_long(first: i128, last: i128, period: u64) -> bool
    requires first { IsWide first }
    requires last { IsWide last }
    requires some { 1 ≤ period }
    requires most { period ≤ longest_period }
    ensures { IsTrue result → (first +ℤ pos (40 + 2 * (period - 1))) ≤ℤ last }
{
    let least = u64::from(MOST_SIDE) + 2 * (period - 1);
    first + i128::from(least) <= last
}
