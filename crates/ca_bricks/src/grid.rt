//! Bricks side by side.

ghost use Rattle.std.specs.Prelude.{◌≡◌, true, ℕ, ◌+◌, ◌*◌, ◌<◌, ◌≤◌, ℤ, pos, ◌+ℤ◌};
ghost use Rattle.ca_bricks.specs.Bricks.{BrickShows, IsBlank, IsGrid, GridShows};
ghost use Rattle.ca_bricks.specs.Words.{WordShows, eight};

use crate::cut::brick_word;

/// Rows of bricks from the north, each of `across` bricks from the west. Beyond them all is dead.
#[derive(Drop)]
pub struct BrickGrid {
    /// Where the first brick begins.
    pub x: i64,
    pub y: i64,
    /// How many bricks each row has.
    pub across: usize,
    /// How many rows there are.
    pub down: usize,
    pub bricks: Vec<[u64; 16]>,
    /// How many bricks were stepped so far.
    pub work: u64,
}

/// A place among the words of a grid, which may lie beyond its bricks.
#[derive(Clone, Copy)]
pub struct WordPlace {
    /// How many words it lies to the east of the first.
    pub i: i64,
    /// How many words it lies to the south of the first.
    pub j: i64,
}

impl BrickGrid {
    /// The word at a place: 8 by 8 cells.
    pub fn word(&self, at: WordPlace) -> u64
        requires { IsGrid self.now }
        ensures { (m : ℕ) (p : ℤ → ℤ → ℕ) → GridShows self.now m p
            → WordShows result p (self.now.x +ℤ eight at.i) (self.now.y +ℤ eight at.j) }
    {
        if at.i < 0 || at.j < 0 {
            return 0;
        }
        let (i, j) = (at.i as usize, at.j as usize);
        if i / 8 >= self.across || j / 2 >= self.down {
            return 0;
        }
        brick_word(self.brick(i / 8, j / 2), i % 8, j % 2)
    }

    /// Whether all bricks are blank in which some word lies from one place to before another.
    pub fn is_blank_between(&self, i: (usize, usize), j: (usize, usize)) -> bool
        requires { IsGrid self.now }
        ensures { result ≡ true → (m : ℕ) (p : ℤ → ℤ → ℕ) → GridShows self.now m p
            → (x y : ℕ) → 8 * i.0 ≤ x → x < 8 * i.1 → 8 * j.0 ≤ y → y < 8 * j.1
            → p (self.now.x +ℤ pos x) (self.now.y +ℤ pos y) ≡ 0 }
    {
        let columns = (i.0 / 8, i.1.div_ceil(8).min(self.across));
        'rows: for row in j.0 / 2..j.1.div_ceil(2).min(self.down) {
            if !self.is_row_blank(row, columns) {
                return false;
            }
        }
        true
    }

    // Whether all bricks of a row are blank from one column to before another.
    fn is_row_blank(&self, row: usize, columns: (usize, usize)) -> bool
        requires grid { IsGrid self.now }
        requires row { row < self.now.down }
        requires columns { columns.1 ≤ self.now.across }
        ensures { result ≡ true → (m : ℕ) (p : ℤ → ℤ → ℕ) → GridShows self.now m p
            → (x y : ℕ) → 64 * columns.0 ≤ x → x < 64 * columns.1 → 16 * row ≤ y → y < 16 * row + 16
            → p (self.now.x +ℤ pos x) (self.now.y +ℤ pos y) ≡ 0 }
    {
        'bricks: for column in columns.0..columns.1 {
            if !is_blank_brick(self.brick(column, row)) {
                return false;
            }
        }
        true
    }

    // The brick of a column and a row.
    fn brick(&self, column: usize, row: usize) -> &[u64; 16]
        requires grid { IsGrid self.now }
        requires column { column < self.now.across }
        requires row { row < self.now.down }
        ensures { (m : ℕ) (p : ℤ → ℤ → ℕ) → GridShows self.now m p
            → BrickShows result.now p (self.now.x +ℤ pos (64 * column)) (self.now.y +ℤ pos (16 * row)) }
    {
        &self.bricks[row * self.across + column]
    }
}

// Whether no cell of a brick is live.
fn is_blank_brick(rows: &[u64; 16]) -> bool
    ensures { result ≡ true → IsBlank rows.now }
{
    *rows == [0; 16]
}
