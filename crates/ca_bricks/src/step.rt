//! One generation of bricks, where those that rest are left as they are.

ghost use Rattle.std.specs.Prelude.{◌≡◌, ◌+◌, ◌-◌, ◌<◌, ◌≤◌, ◌^◌, ℕ, length, slice_index, OnOk};
ghost use Rattle.std.specs.Int.{bit_at};
ghost use Rattle.ca_bricks.specs.declared.cell_rule.CellRule.TheVariants.{ByCounting, ByDiagram};
ghost use Rattle.ca_bricks.specs.Bricks.{CanStep, AreStepped, HasNeighbours, AllHaveNeighbours};
ghost use Rattle.ca_bricks.specs.Bricks.{HasBlankEdge, IsNotIn, IsNextBrick, IsSameRound, IsUnseen};
ghost use Rattle.ca_bricks.specs.Bricks.{QueueGrows, BricksRest, column_at, round_at, round_cells};

use crate::cell_rule::CellRule;
use crate::diagram::Diagram;
use crate::neighbours::{EightNeighbours, FourNeighbours, SixNeighbours};
use crate::queue::Queue;
use crate::round::Round;
use crate::word::{ByAll, ByTwoAndThree, CountInRow, NextCells, has_two_and_three_alone};
use ca_plane::{Counting, Memory, Neighbourhood};

/// One generation: what was now is then before. Those bricks of the list are stepped which may have changed.
pub fn generation(
    across: usize,
    now: &mut Vec<[u64; 16]>,
    before: &mut Vec<[u64; 16]>,
    awake: &[usize],
    queue: &mut Queue,
    rule: &CellRule,
) -> Result<(), Memory>
    requires room { across + length now.old.items < 2 ^ 63 }
    requires size { length before.old.items ≡ length now.old.items }
    requires inside { AllHaveNeighbours across (length now.old.items) awake.now }
    requires rest { BricksRest rule.now across now.old.items before.old.items awake.now }
    ensures before { OnOk result (before.new.items ≡ now.old.items) }
    ensures size { OnOk result (length now.new.items ≡ length now.old.items) }
    ensures next { OnOk result ((t : ℕ) → HasNeighbours across (length now.old.items) t
        → IsNextBrick rule.now across now.old.items now.new.items t) }
    ensures same { OnOk result ((t : ℕ) → HasNeighbours across (length now.old.items) t → IsNotIn queue.new t
        → IsSameRound across before.old.items now.new.items t) }
    ensures rest { ((t : ℕ) → HasNeighbours across (length now.old.items) t
        → IsNextBrick rule.now across before.old.items now.old.items t)
        → OnOk result (BricksRest rule.now across now.new.items now.old.items queue.new) }
    ensures grows { OnOk result (QueueGrows across (length now.old.items) queue.old queue.new) }
    ensures edge { HasBlankEdge across before.old.items → OnOk result (HasBlankEdge across now.new.items) }
{
    step(across, now, before, awake, queue, rule)?;
    std::mem::swap(now, before);
    Ok(())
}

// Steps the bricks of the list. The others rest: the rows that they had before are the next ones too.
fn step(
    across: usize,
    now: &[[u64; 16]],
    old: &mut [[u64; 16]],
    awake: &[usize],
    queue: &mut Queue,
    rule: &CellRule,
) -> Result<(), Memory>
    requires { CanStep rule.now across now.now old.old awake.now }
    ensures { OnOk result (AreStepped rule.now across now.now old.old old.new queue.old queue.new) }
{
    match rule {
        CellRule::ByCounting(counting) => {
            step_by_counting(across, now, old, awake, queue, *counting)
        }
        CellRule::ByDiagram(diagram) => step_by_diagram(across, now, old, awake, queue, diagram),
    }
}

// The same, by a decision diagram.
fn step_by_diagram(
    across: usize,
    now: &[[u64; 16]],
    old: &mut [[u64; 16]],
    awake: &[usize],
    queue: &mut Queue,
    diagram: &Diagram,
) -> Result<(), Memory>
    requires { CanStep (ByDiagram diagram.now) across now.now old.old awake.now }
    ensures { OnOk result (AreStepped (ByDiagram diagram.now) across now.now old.old old.new queue.old queue.new) }
{
    let mut states = Vec::new(queue.allocator());
    'bricks: for &s in awake {
        let next = diagram.next_rows(&round_of(now, across, s), &mut states)?;
        wake_round(queue, s, across, now.len(), &next, &old[s])?;
        old[s] = next;
    }
    Ok(())
}

// The same, by a counting.
fn step_by_counting(
    across: usize,
    now: &[[u64; 16]],
    old: &mut [[u64; 16]],
    awake: &[usize],
    queue: &mut Queue,
    counting: Counting,
) -> Result<(), Memory>
    requires { CanStep (ByCounting counting) across now.now old.old awake.now }
    ensures { OnOk result (AreStepped (ByCounting counting) across now.now old.old old.new queue.old queue.new) }
{
    match counting.neighbourhood {
        Neighbourhood::Moore => {
            step_counted::<EightNeighbours>(across, now, old, awake, queue, counting)
        }
        Neighbourhood::VonNeumann => {
            step_counted::<FourNeighbours>(across, now, old, awake, queue, counting)
        }
        Neighbourhood::Hexagonal => {
            step_counted::<SixNeighbours>(across, now, old, awake, queue, counting)
        }
    }
}

// The same, where the neighbours that are counted are those of the type.
fn step_counted<C: CountInRow>(
    across: usize,
    now: &[[u64; 16]],
    old: &mut [[u64; 16]],
    awake: &[usize],
    queue: &mut Queue,
    counting: Counting,
) -> Result<(), Memory>
    requires can_step { CanStep (ByCounting counting) across now.now old.old awake.now }
    requires counted { C.counted ≡ counting.neighbourhood }
    ensures { OnOk result (AreStepped (ByCounting counting) across now.now old.old old.new queue.old queue.new) }
{
    if has_two_and_three_alone(counting) {
        return step_by::<ByTwoAndThree, C>(across, now, old, awake, queue, counting);
    }
    step_by::<ByAll, C>(across, now, old, awake, queue, counting)
}

// The same, where the counting suits how next cells are computed.
fn step_by<N: NextCells, C: CountInRow>(
    across: usize,
    now: &[[u64; 16]],
    old: &mut [[u64; 16]],
    awake: &[usize],
    queue: &mut Queue,
    counting: Counting,
) -> Result<(), Memory>
    requires can_step { CanStep (ByCounting counting) across now.now old.old awake.now }
    requires counted { C.counted ≡ counting.neighbourhood }
    requires suits { N.suits counting }
    ensures { OnOk result (AreStepped (ByCounting counting) across now.now old.old old.new queue.old queue.new) }
{
    let cells = N::of(counting);
    'bricks: for &s in awake {
        let next = round_of(now, across, s).next::<N, C>(&cells);
        wake_round(queue, s, across, now.len(), &next, &old[s])?;
        old[s] = next;
    }
    Ok(())
}

// A brick and the cells round it.
#[inline(always)]
pub(crate) fn round_of(bricks: &[[u64; 16]], across: usize, t: usize) -> Round
    requires { HasNeighbours across (length bricks.now) t }
    ensures { (x y : ℕ) → y < 18 → round_cells result x y ≡ round_at across bricks.now t x y }
{
    Round {
        west: column(bricks, across, t - 1),
        here: column(bricks, across, t),
        east: column(bricks, across, t + 1),
    }
}

// The rows of a brick, the one above them and the one below.
#[inline(always)]
fn column(bricks: &[[u64; 16]], across: usize, t: usize) -> [u64; 18]
    requires before { across ≤ t }
    requires behind { t + across < length bricks.now }
    ensures { (y : ℕ) → y < 18 → slice_index result y ≡ column_at across bricks.now t y }
{
    let here = &bricks[t];
    let mut column = [0; 18];
    'rows: for y in 0..16 {
        column[y + 1] = here[y];
    }
    column[0] = bricks[t - across][15];
    column[17] = bricks[t + across][0];
    column
}

// Wakes the bricks that see what changed of brick s.
pub(crate) fn wake_round(
    queue: &mut Queue,
    s: usize,
    across: usize,
    count: usize,
    new: &[u64; 16],
    old: &[u64; 16],
) -> Result<(), Memory>
    requires room { across + count < 2 ^ 63 }
    requires inside { HasNeighbours across count s }
    ensures grows { OnOk result (QueueGrows across count queue.old queue.new) }
    ensures unseen { OnOk result ((t : ℕ) → HasNeighbours across count t → IsNotIn queue.new t
        → IsUnseen across s old.now new.now t) }
{
    let any = changed_bits(new, old);
    if any == 0 {
        return Ok(());
    }
    wake_three(queue, any, s, across, count)?;
    wake_three(queue, new[0] ^ old[0], s - across, across, count)?;
    wake_three(queue, new[15] ^ old[15], s + across, across, count)?;
    Ok(())
}

// Wakes brick s if the word has a bit, and those in the west and in the east of it if it has its first or its last one.
#[inline(always)]
fn wake_three(
    queue: &mut Queue,
    word: u64,
    s: usize,
    across: usize,
    count: usize,
) -> Result<(), Memory>
    requires room { across + count < 2 ^ 63 }
    requires some { 1 ≤ s }
    requires few { s < 2 ^ 63 }
    ensures grows { OnOk result (QueueGrows across count queue.old queue.new) }
    ensures here { OnOk result (HasNeighbours across count s → IsNotIn queue.new s → word ≡ 0) }
    ensures west { OnOk result (HasNeighbours across count (s - 1) → IsNotIn queue.new (s - 1)
        → bit_at word 0 ≡ 0) }
    ensures east { OnOk result (HasNeighbours across count (s + 1) → IsNotIn queue.new (s + 1)
        → bit_at word 63 ≡ 0) }
{
    if word == 0 {
        return Ok(());
    }
    queue.wake_if(word, s, across, count)?;
    queue.wake_if(word & 1, s - 1, across, count)?;
    queue.wake_if(word >> 63, s + 1, across, count)?;
    Ok(())
}

// Where one of the words changed, bit for bit.
pub(crate) fn changed_bits(new: &[u64; 16], old: &[u64; 16]) -> u64
    ensures { (x y : ℕ) → y < 16 → bit_at result x ≡ 0
        → bit_at (slice_index new.now y) x ≡ bit_at (slice_index old.now y) x }
{
    let mut all = 0;
    'rows: for y in 0..16 {
        all |= new[y] ^ old[y];
    }
    all
}
