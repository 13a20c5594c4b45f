//! Which bricks are awake.

ghost use Rattle.std.specs.Prelude.{◌≡◌, ℕ, ◌+◌, ◌<◌, ◌^◌, [], length, get_or, true, false, IsOk, IfOk, OnOk};
ghost use Rattle.ca_bricks.specs.Bricks.{HasNeighbours, IsNotIn, IsBlank, IsBlankRound};
ghost use Rattle.ca_bricks.specs.Bricks.{AllHaveNeighbours, HasBlankEdge, QueueGrows};

use crate::queue::Queue;
use crate::step::wake_round;
use ca_plane::Memory;
use std::alloc::Global;

/// The bricks that see a live cell. The others are blank next, as they are in a plane without a live cell before it.
pub fn first_bricks(
    alloc: Global,
    across: usize,
    bricks: &[[u64; 16]],
    queue: &mut Queue,
) -> Result<Vec<usize>, Memory>
    requires room { across + length bricks.now < 2 ^ 63 }
    requires edge { HasBlankEdge across bricks.now }
    requires empty { queue.old ≡ [] }
    ensures inside { IfOk result (λ list. AllHaveNeighbours across (length bricks.now) list.items) }
    ensures others { IfOk result (λ list. (t : ℕ) → HasNeighbours across (length bricks.now) t
        → IsNotIn list.items t → IsBlankRound across bricks.now t) }
    ensures empty { OnOk result (queue.new ≡ []) }
{
    wake_seen(across, bricks, queue)?;
    let mut list = Vec::new(alloc);
    queue.take(&mut list);
    Ok(list)
}

// Wakes the bricks that see a live cell.
pub(crate) fn wake_seen(
    across: usize,
    bricks: &[[u64; 16]],
    queue: &mut Queue,
) -> Result<(), Memory>
    requires room { across + length bricks.now < 2 ^ 63 }
    requires edge { HasBlankEdge across bricks.now }
    ensures grows { OnOk result (QueueGrows across (length bricks.now) queue.old queue.new) }
    ensures others { OnOk result ((t : ℕ) → HasNeighbours across (length bricks.now) t
        → IsNotIn queue.new t → IsBlankRound across bricks.now t) }
{
    let count = bricks.len();
    'bricks: for t in across + 1..count.saturating_sub(across + 1) {
        wake_round(queue, t, across, count, &bricks[t], &[0; 16])?;
    }
    Ok(())
}

/// A list of `count` bricks without a live cell.
pub fn blank_bricks(alloc: Global, count: usize) -> Result<Vec<[u64; 16]>, Memory>
    ensures length { IfOk result (λ bricks. length bricks.items ≡ count) }
    ensures blank { IfOk result (λ bricks. (t : ℕ) → IsBlank (get_or bricks.items t [])) }
{
    Ok(vec![in alloc; [0; 16]; count]?)
}

/// Says which bricks are awake next: those of the queue, which is empty afterwards. After the first generation of a run, before
/// which nothing is known, those that were awake then are so once more.
pub fn wake_next(
    is_first: bool,
    across: usize,
    count: usize,
    queue: &mut Queue,
    awake: &mut Vec<usize>,
) -> Result<(), Memory>
    requires room { across + count < 2 ^ 63 }
    requires inside { AllHaveNeighbours across count queue.old }
    ensures inside { OnOk result (AllHaveNeighbours across count awake.new.items) }
    ensures calm { is_first ≡ false → IsOk result }
    ensures queue { OnOk result ((t : ℕ) → IsNotIn awake.new.items t → IsNotIn queue.old t) }
    ensures only { OnOk result (is_first ≡ false → awake.new.items ≡ queue.old) }
    ensures again { OnOk result (is_first ≡ true → (t : ℕ) → HasNeighbours across count t
        → IsNotIn awake.new.items t → IsNotIn awake.old.items t) }
    ensures empty { OnOk result (queue.new ≡ []) }
{
    if is_first {
        wake_again(across, count, awake, queue)?;
    }
    queue.take(awake);
    Ok(())
}

// Puts the bricks of a list into the queue.
fn wake_again(across: usize, count: usize, list: &[usize], queue: &mut Queue) -> Result<(), Memory>
    requires { across + count < 2 ^ 63 }
    ensures grows { OnOk result (QueueGrows across count queue.old queue.new) }
    ensures all { OnOk result ((t : ℕ) → HasNeighbours across count t → IsNotIn queue.new t
        → IsNotIn list.now t) }
{
    'bricks: for &t in list {
        queue.wake_if(1, t, across, count)?;
    }
    Ok(())
}
