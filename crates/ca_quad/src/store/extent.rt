//! The smallest box round the live cells of a square.

ghost use Rattle.std.specs.Prelude.{ℕ, ◌+◌, ◌-◌, ◌≤◌, ◌^◌};
ghost use Rattle.ca_quad.specs.inner.Extent.{box_of_two, transposed, IsSquareExtent};

use super::bits::rows;
use super::measure::Measure;
use super::word_extent::word_extent;

// A number from this one onwards is that of 8 by 8 cells.
const LEAST_BLOCK: u64 = 65536;

// The smallest box round the live cells of a square, counted from its corner, both ends included.
#[derive(Clone, Copy, Drop)]
pub(crate) struct Extent {
    pub left: u128,
    pub top: u128,
    pub right: u128,
    pub bottom: u128,
}

impl Measure for Option<Extent> {
    ghost is = { λ cells side found. IsSquareExtent cells side side found };

    fn of_cell(state: u8) -> Option<Extent> {
        if state == 0 {
            return None;
        }
        Some(Extent {
            left: 0,
            top: 0,
            right: 0,
            bottom: 0,
        })
    }

    fn of_four(
        side: u128,
        nw: Option<Extent>,
        ne: Option<Extent>,
        sw: Option<Extent>,
        se: Option<Extent>,
    ) -> Option<Extent> {
        let north = box_of_two(side, nw, ne);
        let south = box_of_two(side, sw, se);
        transposed(box_of_two(side, transposed(north), transposed(south)))
    }

    fn of_number(cells: u64) -> Option<Option<Extent>> {
        if cells < LEAST_BLOCK {
            return None;
        }
        Some(word_extent(rows(cells)))
    }
}

// The box of two squares that lie side by side, where the western one has this many columns.
fn box_of_two(side: u128, west: Option<Extent>, east: Option<Extent>) -> Option<Extent>
    requires { side ≤ 2 ^ 124 }
    ensures { (w e : ℕ → ℕ → ℕ) (rows : ℕ) → IsSquareExtent w side rows west → IsSquareExtent e side rows east
        → IsSquareExtent (box_of_two side w e) (side + side) rows result }
{
    let Some(east) = east else {
        return west;
    };
    // A column of a square is below 2^124, so no sum stops at the greatest u128.
    let right = east.right.saturating_add(side);
    let Some(west) = west else {
        let left = east.left.saturating_add(side);
        return Some(Extent {
            left,
            top: east.top,
            right,
            bottom: east.bottom,
        });
    };
    Some(Extent {
        left: west.left,
        top: west.top.min(east.top),
        right,
        bottom: west.bottom.max(east.bottom),
    })
}

// The box of the cells whose x and y change places.
fn transposed(found: Option<Extent>) -> Option<Extent>
    ensures { (cells : ℕ → ℕ → ℕ) (columns rows : ℕ) → IsSquareExtent cells columns rows found
        → IsSquareExtent (transposed cells) rows columns result }
{
    let Some(box_found) = found else {
        return None;
    };
    Some(Extent {
        left: box_found.top,
        top: box_found.left,
        right: box_found.bottom,
        bottom: box_found.right,
    })
}
