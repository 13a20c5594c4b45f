//! Blocks of cells that are made squares.

ghost use Rattle.std.specs.Prelude.{ℕ, ◌+◌, ◌≤◌, ◌^◌, IfOk};
ghost use Rattle.ca_quad.specs.Sound.{Grows};
ghost use Rattle.ca_quad.specs.inner.Window.{ShowsFrom};

use super::Store;
use super::read::half_side;
use crate::id::Id;
use ca_plane::Memory;

// A block of cells.
pub(super) trait Block {
    // The level of the squares that are made at once.
    const LEAST: u8;

    ghost LEAST: { ℕ };
    // How many cells the block has in a row, and how many rows.
    ghost side: { ℕ };
    // The state of each cell.
    ghost cells: { Self → ℕ → ℕ → ℕ };

    // The square of the smallest level with the cells from a place onwards.
    fn least_square(&self, store: &mut Store, x: usize, y: usize) -> Result<Id, Memory>
        requires x { x + 2 ^ LEAST ≤ side }
        requires y { y + 2 ^ LEAST ≤ side }
        ensures shows { IfOk result (λ id. ShowsFrom store.new id LEAST (cells self.now) x y) }
        ensures grows { Grows store.old store.new };

    ghost some: { 1 ≤ LEAST };

    ghost small: { side ≤ 64 };
}

impl Store {
    // The square of this level with the cells of a block from a place onwards.
    pub(super) fn gather<B: Block>(
        &mut self,
        block: &B,
        level: u8,
        x: usize,
        y: usize,
    ) -> Result<Id, Memory>
        requires least { B.LEAST ≤ level }
        requires most { level ≤ 6 }
        requires x { x + 2 ^ level ≤ B.side }
        requires y { y + 2 ^ level ≤ B.side }
        ensures shows { IfOk result (λ id. ShowsFrom self.new id level (B.cells block.now) x y) }
        ensures grows { Grows self.old self.new }
    {
        if level == B::LEAST {
            return block.least_square(self, x, y);
        }
        let half = half_side(level) as usize;
        let nw = self.gather(block, level - 1, x, y)?;
        let ne = self.gather(block, level - 1, x + half, y)?;
        let sw = self.gather(block, level - 1, x, y + half)?;
        let se = self.gather(block, level - 1, x + half, y + half)?;
        self.join(nw, ne, sw, se)
    }
}
