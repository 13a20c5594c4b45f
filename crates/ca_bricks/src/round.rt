//! A brick and the cells round it.

ghost use Rattle.std.specs.Prelude.{◌≡◌, ◌<◌, ℕ};
ghost use Rattle.ca_plane.specs.declared.counting.Counting.{Counting};
ghost use Rattle.ca_plane.specs.Prelude.{row_cells};
ghost use Rattle.ca_bricks.specs.Bricks.{round_cells, pair_at, counted_cell_at};
ghost use Rattle.ca_bricks.specs.Tiles.{sum_above, sum_beside, sum_below};

use crate::word::{CountInRow, NextCells, WordSums, neighbours};

// Three columns of 18 words: in the middle the rows of a brick with the one above them and the one below, and
// beside them those of the bricks in the west and in the east.
#[derive(Clone, Copy)]
pub(crate) struct Round {
    pub(crate) west: [u64; 18],
    pub(crate) here: [u64; 18],
    pub(crate) east: [u64; 18],
}

impl Round {
    // The rows of the brick one generation later.
    #[inline(always)]
    pub(crate) fn next<N: NextCells, C: CountInRow>(&self, cells: &N) -> [u64; 16]
        ensures { (counting : Counting) (x y : ℕ) → N.goes_by cells.now counting
            → C.counted ≡ counting.neighbourhood → x < 64 → y < 16
            → row_cells result x y ≡ counted_cell_at counting (round_cells self.now) x y }
    {
        let mut next = [0; 16];
        let mut north = self.sums::<C>(0);
        let mut here = self.sums::<C>(1);
        'rows: for y in 0..16 {
            let south = self.sums::<C>(y + 2);
            let count = neighbours(north.above, here.beside, south.below);
            next[y] = cells.next_word(self.here[y + 1], count);
            north = here;
            here = south;
        }
        next
    }

    // The sums of a row.
    #[inline(always)]
    fn sums<C: CountInRow>(&self, y: usize) -> WordSums
        requires { y < 18 }
        ensures above { (x : ℕ) → x < 64
            → pair_at result.above x ≡ sum_above C.counted (λ u. round_cells self.now u y) x }
        ensures beside { (x : ℕ) → x < 64
            → pair_at result.beside x ≡ sum_beside (λ u. round_cells self.now u y) x }
        ensures below { (x : ℕ) → x < 64
            → pair_at result.below x ≡ sum_below C.counted (λ u. round_cells self.now u y) x }
    {
        C::sums(self.west[y], self.here[y], self.east[y])
    }
}
