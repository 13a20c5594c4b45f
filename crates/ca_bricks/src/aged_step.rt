//! One generation of a grid of cells that age, where bricks that rest are left as they are.

ghost use Rattle.std.specs.Prelude.{◌≡◌, ◌+◌, ◌-◌, ◌<◌, ◌%◌, ℕ, [], max, min, length, slice_index, slice_set};
ghost use Rattle.std.specs.Prelude.{get_or, OnOk, if◌then◌else◌};
ghost use Rattle.std.specs.List.{All};
ghost use Rattle.std.specs.Int.{bit_at};
ghost use Rattle.ca_plane.specs.Prelude.{row_cells};
ghost use Rattle.ca_bricks.specs.declared.grid.BrickGrid.{BrickGrid};
ghost use Rattle.ca_bricks.specs.Aged.{CanAge, HaveAged, AreBeside, AreAlike, number_at, aged_digit};
ghost use Rattle.ca_bricks.specs.Bricks.{IsInPlace};

use crate::aged::AgedGrid;
use crate::grid::BrickGrid;
use crate::neighbours::{EightNeighbours, FourNeighbours, SixNeighbours};
use crate::queue::Queue;
use crate::step::{changed_bits, round_of, wake_round};
use crate::word::{
    ByAll, ByTwoAndThree, CountInRow, NextCells, all_bits, and_not, has_two_and_three_alone,
};
use ca_plane::{Ageing, Memory, Neighbourhood};

/// One generation: what was now is then before. Those bricks of the list are stepped which may have changed.
pub fn aged_generation(
    now: &mut AgedGrid,
    before: &mut AgedGrid,
    awake: &[usize],
    queue: &mut Queue,
    ageing: Ageing,
) -> Result<(), Memory>
    requires { CanAge ageing now.old before.old awake.now }
    ensures before { OnOk result (before.new ≡ now.old) }
    ensures later { OnOk result (HaveAged ageing now.old before.old now.new queue.old queue.new) }
{
    step(now, before, awake, queue, ageing)?;
    std::mem::swap(now, before);
    Ok(())
}

// Steps the bricks of the list. The others rest: what they were before they are next too.
fn step(
    now: &AgedGrid,
    old: &mut AgedGrid,
    awake: &[usize],
    queue: &mut Queue,
    ageing: Ageing,
) -> Result<(), Memory>
    requires { CanAge ageing now.now old.old awake.now }
    ensures { OnOk result (HaveAged ageing now.now old.old old.new queue.old queue.new) }
{
    match ageing.counting.neighbourhood {
        Neighbourhood::Moore => step_counted::<EightNeighbours>(now, old, awake, queue, ageing),
        Neighbourhood::VonNeumann => step_counted::<FourNeighbours>(now, old, awake, queue, ageing),
        Neighbourhood::Hexagonal => step_counted::<SixNeighbours>(now, old, awake, queue, ageing),
    }
}

// The same, where the neighbours that are counted are those of the type.
fn step_counted<C: CountInRow>(
    now: &AgedGrid,
    old: &mut AgedGrid,
    awake: &[usize],
    queue: &mut Queue,
    ageing: Ageing,
) -> Result<(), Memory>
    requires can_age { CanAge ageing now.now old.old awake.now }
    requires counted { C.counted ≡ ageing.counting.neighbourhood }
    ensures { OnOk result (HaveAged ageing now.now old.old old.new queue.old queue.new) }
{
    if has_two_and_three_alone(ageing.counting) {
        return step_by::<ByTwoAndThree, C>(now, old, awake, queue, ageing);
    }
    step_by::<ByAll, C>(now, old, awake, queue, ageing)
}

// The same, where the counting suits how next cells are computed. A cell that is dying is not live next, whatever the
// counting says of it; one that was live and isn't by the counting begins to die.
fn step_by<N: NextCells, C: CountInRow>(
    now: &AgedGrid,
    old: &mut AgedGrid,
    awake: &[usize],
    queue: &mut Queue,
    ageing: Ageing,
) -> Result<(), Memory>
    requires can_age { CanAge ageing now.now old.old awake.now }
    requires counted { C.counted ≡ ageing.counting.neighbourhood }
    requires suits { N.suits ageing.counting }
    ensures { OnOk result (HaveAged ageing now.now old.old old.new queue.old queue.new) }
{
    let cells = N::of(ageing.counting);
    let across = now.live.across;
    let count = now.live.bricks.len();
    'bricks: for &s in awake {
        let lives = round_of(&now.live.bricks, across, s).next::<N, C>(&cells);
        let dying = dying_cells(&now.dying, count, s);
        let begun = bits_without(&now.live.bricks[s], &lives);
        let next = bits_without(&lives, &dying);
        wake_round(queue, s, across, count, &next, &old.live.bricks[s])?;
        put_live(old, s, next);
        let changed = put_numbers(now, old, s, dying, &begun, ageing.states);
        queue.wake_if(changed, s, across, count)?;
    }
    Ok(())
}

// Writes the live cells of a brick.
fn put_live(grid: &mut AgedGrid, s: usize, rows: [u64; 16])
    requires { s < length grid.old.live.bricks.items }
    ensures bricks { grid.new.live.bricks.items ≡ slice_set grid.old.live.bricks.items s rows }
    ensures place { IsInPlace grid.old.live grid.new.live }
    ensures dying { grid.new.dying ≡ grid.old.dying }
    ensures states { grid.new.states ≡ grid.old.states }
{
    let _changed = put_brick(&mut grid.live, s, rows);
}

// Writes the numbers of a brick's dying cells one generation later. Gives where a digit is another than it was.
fn put_numbers(
    now: &AgedGrid,
    old: &mut AgedGrid,
    s: usize,
    dying: [u64; 16],
    begun: &[u64; 16],
    states: u16,
) -> u64
    requires beside { AreBeside now.now }
    requires alike { AreAlike now.now old.old }
    requires brick { s < length now.now.live.bricks.items }
    requires dying { (x y : ℕ) → x < 64 → y < 16
        → row_cells dying x y ≡ min 1 (number_at now.now.dying.items s x y) }
    ensures digits { (k : ℕ) (d : BrickGrid) → k < length now.now.dying.items → (x y : ℕ) → x < 64 → y < 16
        → row_cells (get_or (get_or old.new.dying.items k d).bricks.items s []) x y
        ≡ aged_digit states k (number_at now.now.dying.items s x y) (row_cells begun.now x y) }
    ensures same { (k : ℕ) (d : BrickGrid) → k < length now.now.dying.items → (x y : ℕ) → x < 64 → y < 16
        → bit_at result x ≡ 0 → row_cells (get_or (get_or old.new.dying.items k d).bricks.items s []) x y
        ≡ row_cells (get_or (get_or old.old.dying.items k d).bricks.items s []) x y }
    ensures others { (k : ℕ) (d : BrickGrid) (t : ℕ) → (t ≡ s → ⊥)
        → get_or (get_or old.new.dying.items k d).bricks.items t []
        ≡ get_or (get_or old.old.dying.items k d).bricks.items t [] }
    ensures alike { AreAlike now.now old.new }
    ensures live { old.new.live ≡ old.old.live }
{
    let count = now.live.bricks.len();
    count_down(&now.dying, &mut old.dying, count, s, dying, begun, states)
}

// The dying cells of a brick: those whose number has a digit that isn't 0.
fn dying_cells(digits: &[BrickGrid], count: usize, s: usize) -> [u64; 16]
    requires size { All (λ digit. length digit.bricks.items ≡ count) digits.now }
    requires brick { s < count }
    ensures { (x y : ℕ) → x < 64 → y < 16 → row_cells result x y ≡ min 1 (number_at digits.now s x y) }
{
    let mut dying = [0; 16];
    'digits: for k in 0..digits.len() {
        dying = bits_of_both(&dying, &digits[k].bricks[s]);
    }
    dying
}

// The numbers of a brick's dying cells one generation later: each that isn't 0 is one less, and that of a cell that has
// begun to die is the number of states without two. Gives where a digit is another than it was two generations before.
fn count_down(
    now: &[BrickGrid],
    old: &mut [BrickGrid],
    count: usize,
    s: usize,
    dying: [u64; 16],
    begun: &[u64; 16],
    states: u16,
) -> u64
    requires size { All (λ digit. length digit.bricks.items ≡ count) now.now }
    requires old_size { All (λ digit. length digit.bricks.items ≡ count) old.old }
    requires digits { length old.old ≡ length now.now }
    requires brick { s < count }
    requires dying { (x y : ℕ) → x < 64 → y < 16 → row_cells dying x y ≡ min 1 (number_at now.now s x y) }
    ensures digits { (k : ℕ) (d : BrickGrid) → k < length now.now → (x y : ℕ) → x < 64 → y < 16
        → row_cells (get_or (get_or old.new k d).bricks.items s []) x y
        ≡ aged_digit states k (number_at now.now s x y) (row_cells begun.now x y) }
    ensures same { (k : ℕ) (d : BrickGrid) → k < length now.now → (x y : ℕ) → x < 64 → y < 16
        → bit_at result x ≡ 0 → row_cells (get_or (get_or old.new k d).bricks.items s []) x y
        ≡ row_cells (get_or (get_or old.old k d).bricks.items s []) x y }
    ensures others { (k : ℕ) (d : BrickGrid) (t : ℕ) → (t ≡ s → ⊥)
        → get_or (get_or old.new k d).bricks.items t [] ≡ get_or (get_or old.old k d).bricks.items t [] }
    ensures size { All (λ digit. length digit.bricks.items ≡ count) old.new }
    ensures places { (k : ℕ) (d : BrickGrid) → k < length now.now
        → IsInPlace (get_or old.old k d) (get_or old.new k d) }
    ensures length { length old.new ≡ length old.old }
{
    let most = states.saturating_sub(2);
    let mut borrowed = dying;
    let mut changed = 0;
    'digits: for k in 0..now.len() {
        let digit = &now[k].bricks[s];
        let next = next_digit(digit, &borrowed, begun, has_digit(most, k));
        borrowed = bits_without(&borrowed, digit);
        changed |= put_brick(&mut old[k], s, next);
    }
    changed
}

/// Whether a number has a 1 as its binary digit k.
pub fn has_digit(number: u16, k: usize) -> bool
    ensures { (if result then 1 else 0) ≡ bit_at number k }
{
    k < 16 && number >> k & 1 == 1
}

// Writes a brick of a grid, and gives the bits of the places that change.
fn put_brick(grid: &mut BrickGrid, s: usize, rows: [u64; 16]) -> u64
    requires { s < length grid.old.bricks.items }
    ensures bricks { grid.new.bricks.items ≡ slice_set grid.old.bricks.items s rows }
    ensures place { IsInPlace grid.old grid.new }
    ensures same { (x y : ℕ) → y < 16 → bit_at result x ≡ 0
        → bit_at (slice_index rows y) x ≡ bit_at (slice_index (get_or grid.old.bricks.items s []) y) x }
{
    let changed = changed_bits(&rows, &grid.bricks[s]);
    grid.bricks[s] = rows;
    changed
}

// A digit of the numbers one less, where one is borrowed, or `first` where a cell has begun to die.
#[inline(always)]
fn next_digit(digit: &[u64; 16], borrowed: &[u64; 16], begun: &[u64; 16], first: bool) -> [u64; 16]
    ensures { (x y : ℕ) → x < 64 → y < 16 → row_cells result x y
        ≡ max ((row_cells digit.now x y + row_cells borrowed.now x y) % 2) (min (row_cells begun.now x y) (if first then 1 else 0)) }
{
    let told = all_bits(first);
    let mut rows = [0; 16];
    'rows: for y in 0..16 {
        rows[y] = digit[y] ^ borrowed[y] | begun[y] & told;
    }
    rows
}

// The bits of one brick that aren't in the other.
#[inline(always)]
fn bits_without(a: &[u64; 16], b: &[u64; 16]) -> [u64; 16]
    ensures { (x y : ℕ) → x < 64 → y < 16 → row_cells result x y ≡ row_cells a.now x y - row_cells b.now x y }
{
    let mut rows = [0; 16];
    'rows: for y in 0..16 {
        rows[y] = and_not(a[y], b[y]);
    }
    rows
}

// The bits that are in one of two bricks or in both.
#[inline(always)]
fn bits_of_both(a: &[u64; 16], b: &[u64; 16]) -> [u64; 16]
    ensures { (x y : ℕ) → x < 64 → y < 16 → row_cells result x y ≡ max (row_cells a.now x y) (row_cells b.now x y) }
{
    let mut rows = [0; 16];
    'rows: for y in 0..16 {
        rows[y] = a[y] | b[y];
    }
    rows
}
