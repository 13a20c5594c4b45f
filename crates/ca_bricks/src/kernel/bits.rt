//! A bit for each cell of a tile.

ghost use Rattle.std.specs.Prelude.{◌≡◌, ◌+◌, ◌-◌, ◌%◌, ◌<◌, ℕ, suc, min, max, length, ◌==◌, if◌then◌else◌};
ghost use Rattle.ca_plane.specs.Prelude.{row_cells};

use std::simd::prelude::*;

/// Sixteen rows of sixteen bits. Bit x of a row is the one at x.
#[derive(Clone, Copy)]
pub struct Bits {
    pub rows: u16x16,
    ghost sixteen: { length rows ≡ 16 },
}

impl Bits {
    // The bits of these rows.
    #[inline(always)]
    pub(crate) fn of(rows: &[u16; 16]) -> Bits
        ensures { result.rows ≡ rows.now }
    {
        Bits {
            rows: u16x16::from_array(*rows),
        }
    }

    // All bits are 1, or all are 0.
    #[inline(always)]
    pub(crate) fn all(set: bool) -> Bits
        ensures { (x y : ℕ) → x < 16 → y < 16 → row_cells result.rows x y ≡ (if set then 1 else 0) }
    {
        Bits {
            rows: u16x16::splat(if set { u16::MAX } else { 0 }),
        }
    }

    // The bits that are in both.
    #[inline(always)]
    pub(crate) fn and(self, other: Bits) -> Bits
        ensures { (x y : ℕ) → row_cells result.rows x y
            ≡ min (row_cells self.rows x y) (row_cells other.rows x y) }
    {
        Bits {
            rows: self.rows & other.rows,
        }
    }

    // The bits that are in one of them or in both.
    #[inline(always)]
    pub(crate) fn or(self, other: Bits) -> Bits
        ensures { (x y : ℕ) → row_cells result.rows x y
            ≡ max (row_cells self.rows x y) (row_cells other.rows x y) }
    {
        Bits {
            rows: self.rows | other.rows,
        }
    }

    // The bits that are in just one of them.
    #[inline(always)]
    pub(crate) fn xor(self, other: Bits) -> Bits
        ensures { (x y : ℕ) → row_cells result.rows x y
            ≡ (row_cells self.rows x y + row_cells other.rows x y) % 2 }
    {
        Bits {
            rows: self.rows ^ other.rows,
        }
    }

    // The bits that aren't in the other.
    #[inline(always)]
    pub(crate) fn and_not(self, other: Bits) -> Bits
        ensures { (x y : ℕ) → row_cells result.rows x y ≡ row_cells self.rows x y - row_cells other.rows x y }
    {
        self.xor(self.and(other))
    }

    // At each place the bit of `live` where this one is 1, else that of `dead`.
    #[inline(always)]
    pub(crate) fn select(self, live: Bits, dead: Bits) -> Bits
        ensures { (x y : ℕ) → row_cells result.rows x y
            ≡ (if row_cells self.rows x y == 0 then row_cells dead.rows x y else row_cells live.rows x y) }
    {
        dead.xor(self.and(live.xor(dead)))
    }

    // At each place the bit in the west of it.
    #[inline(always)]
    pub(crate) fn west(self) -> Bits
        ensures { (x y : ℕ) → x < 15 → row_cells result.rows (suc x) y ≡ row_cells self.rows x y }
    {
        Bits {
            rows: self.rows << u16x16::splat(1),
        }
    }

    // At each place the bit in the east of it.
    #[inline(always)]
    pub(crate) fn east(self) -> Bits
        ensures { (x y : ℕ) → row_cells result.rows x y ≡ row_cells self.rows (suc x) y }
    {
        Bits {
            rows: self.rows >> u16x16::splat(1),
        }
    }

    // At each place the bit in the north of it; in the first row the last row's.
    #[inline(always)]
    pub(crate) fn north(self) -> Bits
        ensures { (x y : ℕ) → y < 15 → row_cells result.rows x (suc y) ≡ row_cells self.rows x y }
    {
        Bits {
            rows: self.rows.rotate_elements_right::<1>(),
        }
    }

    // At each place the bit in the south of it; in the last row the first row's.
    #[inline(always)]
    pub(crate) fn south(self) -> Bits
        ensures { (x y : ℕ) → y < 15 → row_cells result.rows x y ≡ row_cells self.rows x (suc y) }
    {
        Bits {
            rows: self.rows.rotate_elements_left::<1>(),
        }
    }
}
