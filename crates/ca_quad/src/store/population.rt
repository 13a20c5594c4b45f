//! How many cells are live.

ghost use Rattle.std.specs.Prelude.{◌≡◌, ◌+◌, ◌-◌, ◌≤◌, ◌^◌, min, IfOk};
ghost use Rattle.ca_plane.specs.Prelude.{HasPopulation};
ghost use Rattle.ca_quad.specs.Trees.{IsIn, IsTree, cell};
ghost use Rattle.ca_quad.specs.inner.Population.{cell_population, IsPopulationIn, IsCountOf};

use super::Store;
use super::measure::Measure;
use crate::id::Id;
use crate::square_map::SquareMap;
use crate::tree::Tree;
use ca_plane::Memory;
use std::alloc::Global;

impl Store {
    /// How many cells of a tree are live. Its level is at most 63.
    ///
    /// Each square of the tree is counted once, however often it lies there.
    ///
    /// # Errors
    ///
    /// Fails where there is no memory to remember the counts of its squares.
    pub fn population(&self, alloc: Global, tree: Tree) -> Result<u128, Memory>
        requires tree { IsTree self.now tree }
        requires level { tree.level ≤ 63 }
        ensures { IfOk result (HasPopulation (cell self.now tree)) }
    {
        self.live_cells(alloc, tree.root)
    }

    /// How many squares of a tree are looked at to count its live cells: those of 16 by 16 cells and more,
    /// and those of 4 by 4 and 8 by 8 that have cells of more states. It tells how alike the squares are, and
    /// no contract says it.
    ///
    /// # Errors
    ///
    /// Fails where there is no memory to remember them.
    pub fn looked_at(&self, alloc: Global, tree: Tree) -> Result<usize, Memory>
        requires { IsTree self.now tree }
    {
        let mut counts = SquareMap::new(alloc);
        let _: Population = self.measure(tree.root, &mut counts)?;
        Ok(counts.count())
    }

    // How many cells of a square are live, or the greatest u128 where they are more.
    pub(super) fn live_cells(&self, alloc: Global, id: Id) -> Result<u128, Memory>
        requires { IsIn self.now id }
        ensures count { IfOk result (IsCountOf self.now id) }
    {
        let population: Population = self.measure(id, &mut SquareMap::new(alloc))?;
        Ok(population.cells)
    }
}

// How many cells of a square are live, or the greatest u128 where they are more.
#[derive(Clone, Copy)]
struct Population {
    cells: u128,
}

impl Measure for Population {
    ghost is = { λ cells side population. IsPopulationIn cells side population.cells };

    fn of_cell(state: u8) -> Population {
        Population { cells: live(state) }
    }

    fn of_four(
        _side: u128,
        nw: Population,
        ne: Population,
        sw: Population,
        se: Population,
    ) -> Population {
        Population {
            cells: sum_of_four(nw.cells, ne.cells, sw.cells, se.cells),
        }
    }

    fn of_number(cells: u64) -> Option<Population> {
        Some(Population {
            cells: cells.count_ones() as u128,
        })
    }
}

// 1 for a live cell.
fn live(state: u8) -> u128
    ensures { result ≡ cell_population state }
{
    if state == 0 {
        return 0;
    }
    1
}

// The sum of four counts, or the greatest u128 where it is larger.
fn sum_of_four(nw: u128, ne: u128, sw: u128, se: u128) -> u128
    ensures { result ≡ min (nw + ne + (sw + se)) (2 ^ 128 - 1) }
{
    nw.saturating_add(ne).saturating_add(sw.saturating_add(se))
}
