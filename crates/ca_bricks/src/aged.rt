//! Grids of cells that age before they are dead.

ghost use Rattle.std.specs.Prelude.{◌≡◌, ℕ, ◌+◌, ◌-◌, ◌<◌, ◌≤◌, ◌^◌, [], length, get_or, IfOk, OnOk};
ghost use Rattle.ca_bricks.specs.Aged.{AreBeside, AreAlike, IsBeside, IsBlankAged, IsBlankRoundAged, HasBlankEdges};
ghost use Rattle.ca_bricks.specs.Bricks.{AllHaveNeighbours, HasNeighbours, IsBlank, IsNotIn, QueueGrows};

use crate::grid::BrickGrid;
use crate::queue::Queue;
use crate::step::changed_bits;
use crate::waking::{blank_bricks, wake_seen};
use ca_plane::Memory;
use std::alloc::Global;

/// Planes of bits of the same cells, each a grid of its own: a cell is live, or the number of generations
/// after which it is dead is given in binary, or it has no bit in any of them and is dead.
#[derive(Drop)]
pub struct AgedGrid {
    /// The live cells: those of state 1.
    pub live: BrickGrid,
    /// The digits of the number of a dying cell, the lowest first.
    pub dying: Vec<BrickGrid>,
    /// How many states there are.
    pub states: u16,
}

/// How many binary digits the number of a dying cell has: as few as tell the number of the states without two.
pub fn digit_count(states: u16) -> usize
    requires { 2 ≤ states }
    ensures enough { states < 2 + 2 ^ result }
    ensures least { (d : ℕ) → states < 2 + 2 ^ d → result ≤ d }
    ensures few { result ≤ 16 }
{
    let most = states - 2;
    'digits: for digits in 0..16 {
        if most >> digits == 0 {
            return digits;
        }
    }
    16
}

impl BrickGrid {
    // A grid without a live cell in the same place.
    fn blank_beside(&self, alloc: Global) -> Result<BrickGrid, Memory>
        ensures beside { IfOk result (IsBeside self.now) }
        ensures blank { IfOk result (λ grid. (t : ℕ) → IsBlank (get_or grid.bricks.items t [])) }
    {
        Ok(BrickGrid {
            x: self.x,
            y: self.y,
            across: self.across,
            down: self.down,
            bricks: blank_bricks(alloc, self.bricks.len())?,
            work: 0,
        })
    }
}

impl AgedGrid {
    /// A grid without a live or dying cell in the same place.
    pub fn blank_planes(&self, alloc: Global) -> Result<AgedGrid, Memory>
        ensures alike { IfOk result (AreAlike self.now) }
        ensures blank { IfOk result (λ grid. (t : ℕ) → IsBlankAged grid t) }
    {
        let mut dying = Vec::new(alloc);
        'digits: for _ in 0..self.dying.len() {
            dying.push(self.live.blank_beside(alloc)?)?;
        }
        Ok(AgedGrid {
            live: self.live.blank_beside(alloc)?,
            dying,
            states: self.states,
        })
    }

    /// The bricks that see a live cell or have a dying one. The others are blank next, as they are in a plane without a live or
    /// dying cell before it.
    pub fn first_bricks(&self, alloc: Global, queue: &mut Queue) -> Result<Vec<usize>, Memory>
        requires room { self.now.live.across + length self.now.live.bricks.items < 2 ^ 63 }
        requires beside { AreBeside self.now }
        requires edge { HasBlankEdges self.now }
        requires empty { queue.old ≡ [] }
        ensures inside { IfOk result (λ list. AllHaveNeighbours self.now.live.across
            (length self.now.live.bricks.items) list.items) }
        ensures others { IfOk result (λ list. (t : ℕ)
            → HasNeighbours self.now.live.across (length self.now.live.bricks.items) t
            → IsNotIn list.items t → IsBlankRoundAged self.now t) }
        ensures empty { OnOk result (queue.new ≡ []) }
    {
        wake_seen(self.live.across, &self.live.bricks, queue)?;
        'digits: for k in 0..self.dying.len() {
            wake_own(self.live.across, &self.dying[k].bricks, queue)?;
        }
        let mut list = Vec::new(alloc);
        queue.take(&mut list);
        Ok(list)
    }
}

// Wakes the bricks that have a bit in one of the planes.
fn wake_own(across: usize, bricks: &[[u64; 16]], queue: &mut Queue) -> Result<(), Memory>
    requires { across + length bricks.now < 2 ^ 63 }
    ensures grows { OnOk result (QueueGrows across (length bricks.now) queue.old queue.new) }
    ensures others { OnOk result ((t : ℕ) → HasNeighbours across (length bricks.now) t
        → IsNotIn queue.new t → IsBlank (get_or bricks.now t [])) }
{
    let count = bricks.len();
    'bricks: for t in across + 1..count.saturating_sub(across + 1) {
        queue.wake_if(changed_bits(&bricks[t], &[0; 16]), t, across, count)?;
    }
    Ok(())
}
