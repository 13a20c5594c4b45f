//! Words of 64 cells side by side: sums of their bits, and the next state of each cell.

ghost use Rattle.std.specs.Prelude.{◌≡◌, ◌↔◌, ◌+◌, ◌-◌, ◌*◌, ◌<◌, ◌≤◌, ℕ, suc, ⊤, IsTrue, ◌==◌, if◌then◌else◌};
ghost use Rattle.std.specs.Int.{bit_at};
ghost use Rattle.ca_plane.specs.declared.counting.{Counting.Counting, Neighbourhood.Neighbourhood};
ghost use Rattle.ca_plane.specs.declared.counting.Neighbourhood.TheVariants.{Moore, VonNeumann, Hexagonal};
ghost use Rattle.ca_bricks.specs.Bricks.{wide_bit, pair_at, count_at, IsWordOfEach, AreWords, HasTwoAndThreeAlone};
ghost use Rattle.ca_bricks.specs.Tiles.{next_by_count, sum_above, sum_beside, sum_below};

use crate::count::Count;
use crate::kernel::{FEW_OR_MANY, is_in};
use crate::neighbours::{EightNeighbours, FourNeighbours, SixNeighbours};
use ca_plane::Counting;

// A number for each cell, up to 3, in binary.
#[derive(Clone, Copy)]
pub(crate) struct WordPair {
    pub(crate) ones: u64,
    pub(crate) twos: u64,
}

// For each cell the sums of its counted neighbours in a row: where that is the row above it, where it is its
// own, and where it is the row below it.
#[derive(Clone, Copy)]
pub(crate) struct WordSums {
    pub(crate) above: WordPair,
    pub(crate) beside: WordPair,
    pub(crate) below: WordPair,
}

// How the counted neighbours of the cells of a brick are added up.
pub(crate) trait CountInRow {
    // Which neighbours are counted.
    ghost counted: { Neighbourhood };

    // The sums of a row.
    fn sums(west: u64, row: u64, east: u64) -> WordSums
        ensures above { (x : ℕ) → x < 64
            → pair_at result.above x ≡ sum_above counted (wide_bit west row east) x }
        ensures beside { (x : ℕ) → x < 64 → pair_at result.beside x ≡ sum_beside (wide_bit west row east) x }
        ensures below { (x : ℕ) → x < 64
            → pair_at result.below x ≡ sum_below counted (wide_bit west row east) x };
}

impl CountInRow for EightNeighbours {
    ghost counted = { Moore };

    #[inline(always)]
    fn sums(west: u64, row: u64, east: u64) -> WordSums {
        let left = west_bits(west, row);
        let right = east_bits(row, east);
        let three = add3(left, row, right);
        WordSums {
            above: three,
            beside: add2(left, right),
            below: three,
        }
    }
}

impl CountInRow for FourNeighbours {
    ghost counted = { VonNeumann };

    #[inline(always)]
    fn sums(west: u64, row: u64, east: u64) -> WordSums {
        let own = WordPair { ones: row, twos: 0 };
        WordSums {
            above: own,
            beside: add2(west_bits(west, row), east_bits(row, east)),
            below: own,
        }
    }
}

impl CountInRow for SixNeighbours {
    ghost counted = { Hexagonal };

    #[inline(always)]
    fn sums(west: u64, row: u64, east: u64) -> WordSums {
        let west = west_bits(west, row);
        let east = east_bits(row, east);
        WordSums {
            above: add2(west, row),
            beside: add2(west, east),
            below: add2(row, east),
        }
    }
}

// The number of live cells among the counted neighbours of each cell, from their sums in three rows.
#[inline(always)]
pub(crate) fn neighbours(above: WordPair, beside: WordPair, below: WordPair) -> Count<u64>
    ensures { (x : ℕ) → count_at result x ≡ pair_at above x + pair_at beside x + pair_at below x }
{
    let ones = add3(above.ones, beside.ones, below.ones);
    let outer = add2(above.twos, below.twos);
    let inner = add2(beside.twos, ones.twos);
    let twos = add2(outer.ones, inner.ones);
    let fours = add3(outer.twos, inner.twos, twos.twos);
    Count {
        ones: ones.ones,
        twos: twos.ones,
        fours: fours.ones,
        eights: fours.twos,
    }
}

// At each place the bit in the west of it.
#[inline(always)]
pub(crate) fn west_bits(west: u64, row: u64) -> u64
    ensures { (east x : ℕ) → x < 64 → bit_at result x ≡ wide_bit west row east x }
{
    row << 1 | west >> 63
}

// At each place the bit in the east of it.
#[inline(always)]
pub(crate) fn east_bits(row: u64, east: u64) -> u64
    ensures { (west x : ℕ) → x < 64 → bit_at result x ≡ wide_bit west row east (suc (suc x)) }
{
    row >> 1 | east << 63
}

// The bits of one that aren't in the other.
#[inline(always)]
pub(crate) fn and_not(a: u64, b: u64) -> u64
    ensures { (x : ℕ) → bit_at result x ≡ bit_at a x - bit_at b x }
{
    a ^ (a & b)
}

// The sum of two bits at each place.
#[inline(always)]
fn add2(a: u64, b: u64) -> WordPair
    ensures { (x : ℕ) → bit_at a x + bit_at b x ≡ pair_at result x }
{
    WordPair {
        ones: a ^ b,
        twos: a & b,
    }
}

// The sum of three bits at each place.
#[inline(always)]
fn add3(a: u64, b: u64, c: u64) -> WordPair
    ensures { (x : ℕ) → bit_at a x + bit_at b x + bit_at c x ≡ pair_at result x }
{
    let one = a ^ b;
    WordPair {
        ones: one ^ c,
        twos: a & b | one & c,
    }
}

// All bits, or none.
#[inline(always)]
pub(crate) fn all_bits(set: bool) -> u64
    ensures { (x : ℕ) → x < 64 → bit_at result x ≡ (if set then 1 else 0) }
{
    if set { u64::MAX } else { 0 }
}

// At each place the bit of `there` where `which` has one, else that of `elsewhere`.
#[inline(always)]
pub(crate) fn select_bits(which: u64, there: u64, elsewhere: u64) -> u64
    ensures { (x : ℕ) → bit_at result x
        ≡ (if bit_at which x == 0 then bit_at elsewhere x else bit_at there x) }
{
    elsewhere ^ which & (there ^ elsewhere)
}

// For each number of live cells round a cell a word of ones where a dead cell is born then, and one where a
// live cell stays, else words of zeros.
#[derive(Clone, Copy)]
struct WordMasks {
    born: [u64; 9],
    stays: [u64; 9],
}

impl WordMasks {
    // The words of the masks of births and survivals.
    fn of(counting: Counting) -> WordMasks
        ensures { AreWords result counting }
    {
        WordMasks {
            born: mask_words(counting.birth),
            stays: mask_words(counting.survival),
        }
    }

    // The next states of cells that have n live cells round them.
    #[inline(always)]
    fn next(&self, alive: u64, n: usize) -> u64
        requires { n ≤ 8 }
        ensures { (counting : Counting) (x : ℕ) → AreWords self.now counting → x < 64
            → bit_at result x ≡ next_by_count counting.birth counting.survival (bit_at alive x) n }
    {
        select_bits(alive, self.stays[n], self.born[n])
    }

    // The next states of cells that have n live cells round them, or one more where `ones` tells it.
    #[inline(always)]
    fn next_of_two(&self, alive: u64, ones: u64, n: usize) -> u64
        requires { n ≤ 7 }
        ensures { (counting : Counting) (x : ℕ) → AreWords self.now counting → x < 64
            → bit_at result x ≡ next_by_count counting.birth counting.survival (bit_at alive x) (n + bit_at ones x) }
    {
        select_bits(ones, self.next(alive, n + 1), self.next(alive, n))
    }

    // The next states of cells that have n live cells round them, and as many more as the two lowest digits of
    // the counts tell.
    #[inline(always)]
    fn next_of_four(&self, alive: u64, count: Count<u64>, n: usize) -> u64
        requires { n ≤ 5 }
        ensures { (counting : Counting) (x : ℕ) → AreWords self.now counting → x < 64
            → bit_at result x ≡ next_by_count counting.birth counting.survival (bit_at alive x)
            (n + bit_at count.ones x + 2 * bit_at count.twos x) }
    {
        select_bits(
            count.twos,
            self.next_of_two(alive, count.ones, n + 2),
            self.next_of_two(alive, count.ones, n),
        )
    }
}

// For each number a word of ones where the mask has it, else of zeros.
fn mask_words(mask: u16) -> [u64; 9]
    ensures { IsWordOfEach mask result }
{
    let mut words = [0; 9];
    'numbers: for n in 0..9u8 {
        words[usize::from(n)] = all_bits(is_in(mask, n));
    }
    words
}

// How the next states of 64 cells are computed.
pub(crate) trait NextCells: Copy {
    // The countings that it can go by.
    ghost suits: { Counting → Type 0 };
    // Whether it goes by the counting.
    ghost goes_by: { Self → Counting → Type 0 };

    // That which goes by this counting.
    fn of(counting: Counting) -> Self
        requires { suits counting }
        ensures { goes_by result counting };

    // The next state of each cell, from the number of live cells round it.
    fn next_word(&self, alive: u64, count: Count<u64>) -> u64
        ensures { (counting : Counting) (x : ℕ) → goes_by self.now counting → x < 64 → count_at count x ≤ 8
            → bit_at result x ≡ next_by_count counting.birth counting.survival (bit_at alive x) (count_at count x) };
}

// By the words for 2 and 3, where no cell is live next by another number.
#[derive(Clone, Copy)]
pub(crate) struct ByTwoAndThree {
    words: WordMasks,
}

impl NextCells for ByTwoAndThree {
    ghost suits = { HasTwoAndThreeAlone };

    ghost goes_by = { λ by counting. HasTwoAndThreeAlone counting × AreWords by.words counting };

    fn of(counting: Counting) -> ByTwoAndThree {
        ByTwoAndThree {
            words: WordMasks::of(counting),
        }
    }

    #[inline(always)]
    fn next_word(&self, alive: u64, count: Count<u64>) -> u64 {
        and_not(count.twos, count.fours) & self.words.next_of_two(alive, count.ones, 2)
    }
}

// By the words for all numbers.
#[derive(Clone, Copy)]
pub(crate) struct ByAll {
    words: WordMasks,
}

impl NextCells for ByAll {
    ghost suits = { λ counting. ⊤ };

    ghost goes_by = { λ by counting. AreWords by.words counting };

    fn of(counting: Counting) -> ByAll {
        ByAll {
            words: WordMasks::of(counting),
        }
    }

    #[inline(always)]
    fn next_word(&self, alive: u64, count: Count<u64>) -> u64 {
        let below = self.words.next_of_four(alive, count, 0);
        let above = self.words.next_of_four(alive, count, 4);
        let low = select_bits(count.fours, above, below);
        select_bits(count.eights, self.words.next(alive, 8), low)
    }
}

// Whether no cell is live next by another number than 2 and 3.
pub(crate) fn has_two_and_three_alone(counting: Counting) -> bool
    ensures { IsTrue result ↔ HasTwoAndThreeAlone counting }
{
    (counting.birth | counting.survival) & FEW_OR_MANY == 0
}
