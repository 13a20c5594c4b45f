//! The states of the cells of a grid of cells that age.

ghost use Rattle.std.specs.Prelude.{◌≡◌, true, ℕ, ◌+◌, ◌-◌, ◌*◌, ◌<◌, ◌%◌, ℤ, ◌+ℤ◌, slice_index};
ghost use Rattle.std.specs.Int.{bit_at};
ghost use Rattle.ca_plane.specs.Prelude.{liveness};
ghost use Rattle.ca_bricks.specs.Aged.{AgedGridShows, IsAgedGrid};
ghost use Rattle.ca_bricks.specs.States.{StatesShow, told_state};
ghost use Rattle.ca_bricks.specs.Words.{WordShows, eight};

use crate::aged::AgedGrid;
use crate::grid::WordPlace;

impl AgedGrid {
    /// Whether no cell of a word is dying.
    pub fn is_without_dying(&self, at: WordPlace) -> bool
        requires { IsAgedGrid self.now }
        ensures { result ≡ true → (m live : ℕ) (p : ℤ → ℤ → ℕ) → AgedGridShows self.now m p
            → WordShows live (λ x y. liveness (p x y))
            (self.now.live.x +ℤ eight at.i) (self.now.live.y +ℤ eight at.j)
            → WordShows live p (self.now.live.x +ℤ eight at.i) (self.now.live.y +ℤ eight at.j) }
    {
        'digits: for digit in &self.dying {
            if digit.word(at) != 0 {
                return false;
            }
        }
        true
    }

    /// The states of the cells of a word, row by row, of which these are live.
    pub fn states_at(&self, at: WordPlace, live: u64, greatest: u8) -> [u8; 64]
        requires grid { IsAgedGrid self.now }
        requires greatest { greatest ≡ self.now.states - 1 }
        ensures { (m : ℕ) (p : ℤ → ℤ → ℕ) → AgedGridShows self.now m p
            → WordShows live (λ x y. liveness (p x y))
            (self.now.live.x +ℤ eight at.i) (self.now.live.y +ℤ eight at.j)
            → StatesShow 8 result 0 p (self.now.live.x +ℤ eight at.i) (self.now.live.y +ℤ eight at.j) }
    {
        let mut numbers = [0; 64];
        'digits: for k in (0..self.dying.len()).rev() {
            numbers = with_digit(&numbers, self.dying[k].word(at));
        }
        states_of(&numbers, live, greatest)
    }
}

// Numbers of 64 cells with one binary digit more, the lowest.
fn with_digit(numbers: &[u8; 64], word: u64) -> [u8; 64]
    ensures { (i : ℕ) → i < 64 → slice_index result i ≡ 2 * slice_index numbers.now i % 256 + bit_at word i }
{
    let mut longer = [0; 64];
    'cells: for place in 0..64 {
        longer[place] = numbers[place] << 1 | (word >> place & 1) as u8;
    }
    longer
}

// The states of 64 cells: 1 for one that is live, and for a dying one the state that lies its number of generations
// before death.
fn states_of(numbers: &[u8; 64], live: u64, greatest: u8) -> [u8; 64]
    ensures { (i : ℕ) → i < 64
        → slice_index result i ≡ told_state greatest (bit_at live i) (slice_index numbers.now i) }
{
    let mut cells = [0; 64];
    'cells: for place in 0..64 {
        cells[place] = state_of(live >> place & 1, numbers[place], greatest);
    }
    cells
}

// The state of a cell, from whether it is live and after how many generations it is dead, if it is dying.
fn state_of(live: u64, number: u8, greatest: u8) -> u8
    ensures { result ≡ told_state greatest live number }
{
    if live == 1 {
        return 1;
    }
    if number == 0 {
        return 0;
    }
    greatest.saturating_sub(number - 1)
}
