//! Grids that are turned and reflected.

ghost use Rattle.std.specs.Prelude.{◌≡◌, ℕ, ℤ, ◌-◌, ◌<◌, ◌≤◌, ◌^◌, length, IfOk, reverse, []};
ghost use Rattle.std.specs.Int.{bit_at};
ghost use Rattle.ca_apgcode.specs.Grids.{cell};
ghost use Rattle.ca_apgcode.specs.Objects.{IsBoxRound};
ghost use Rattle.ca_apgcode.specs.Orientations.{turned};
ghost use Rattle.ca_apgcode.specs.inner.Turned.{IsMirrored, IsFlipped, IsTransposed};

use super::Grid;
use crate::orientation::Orientation;
use ca_plane::Memory;
use std::alloc::Global;

impl Grid {
    /// The smallest box round the live cells of a plane, turned or reflected: that of the plane turned or reflected in
    /// the same way. Of a grid with no live cell in its first or last column or row nothing is promised.
    ///
    /// # Errors
    ///
    /// Fails where there is no memory for it.
    pub fn turned(&self, alloc: Global, orientation: Orientation) -> Result<Grid, Memory>
        ensures { (cells : ℤ → ℤ → ℕ) → IsBoxRound cells self.now
            → IfOk result (IsBoxRound (turned orientation cells)) }
    {
        match orientation {
            Orientation::Upright => self.mirrored(alloc)?.mirrored(alloc),
            Orientation::QuarterTurn => self.transposed(alloc)?.mirrored(alloc),
            Orientation::HalfTurn => self.mirrored(alloc)?.flipped(alloc),
            Orientation::ThreeQuarterTurn => self.mirrored(alloc)?.transposed(alloc),
            Orientation::EastWest => self.mirrored(alloc),
            Orientation::NorthSouth => self.flipped(alloc),
            Orientation::Diagonal => self.transposed(alloc),
            Orientation::Antidiagonal => self.mirrored(alloc)?.transposed(alloc)?.mirrored(alloc),
        }
    }

    // The grid with east and west exchanged.
    pub(crate) fn mirrored(&self, alloc: Global) -> Result<Grid, Memory>
        ensures { IfOk result (IsMirrored self.now) }
    {
        let mut columns = Vec::from_slice(alloc, &self.columns)?;
        columns.reverse();
        Ok(Grid {
            height: self.height,
            columns,
        })
    }

    // The grid with north and south exchanged.
    pub(crate) fn flipped(&self, alloc: Global) -> Result<Grid, Memory>
        ensures { IfOk result (IsFlipped self.now) }
    {
        let mut columns = Vec::new(alloc);
        'columns: for column in &self.columns {
            columns.push(flipped_column(*column, self.height))?;
        }
        Ok(Grid {
            height: self.height,
            columns,
        })
    }

    // The grid with columns for rows.
    pub(crate) fn transposed(&self, alloc: Global) -> Result<Grid, Memory>
        ensures { IfOk result (IsTransposed self.now) }
    {
        let mut columns = Vec::new(alloc);
        'rows: for y in 0..self.height {
            columns.push(self.row(y))?;
        }
        Ok(Grid {
            height: self.width(),
            columns,
        })
    }

    // The cells of a row, as a binary number with the western cell as 1.
    fn row(&self, y: u8) -> u64
        requires { y < self.now.height }
        ensures cells { (x : ℕ) → bit_at result x ≡ cell self.now x y }
        ensures low { result < 2 ^ length self.now.columns }
    {
        let mut row = 0;
        'columns: for x in 0..self.width() {
            row |= u64::from(self.is_live(x, y)) << x;
        }
        row
    }
}

// The cells of a column of such a height, with the southern cell as 1.
fn flipped_column(column: u64, height: u8) -> u64
    requires low { column < 2 ^ height }
    requires most { height ≤ 40 }
    ensures cells { (y : ℕ) → y < height → bit_at result y ≡ bit_at column (height - 1 - y) }
    ensures low { result < 2 ^ height }
{
    column.reverse_bits() >> (64 - height.max(1))
}
