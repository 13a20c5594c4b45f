//! The greatest state of a tree's cells.

ghost use Rattle.std.specs.Prelude.{◌≡◌, ◌≢◌, ◌≤◌, ℤ, max, IfOk};
ghost use Rattle.ca_quad.specs.Trees.{IsTree, cell};
ghost use Rattle.ca_quad.specs.inner.Population.{cell_population};
ghost use Rattle.ca_quad.specs.inner.Greatest.{IsGreatest};

use super::Store;
use super::measure::Measure;
use crate::square_map::SquareMap;
use crate::tree::Tree;
use ca_plane::Memory;
use std::alloc::Global;

impl Store {
    /// The greatest state of a tree's cells, 0 where none is live.
    ///
    /// Each square of the tree is looked at once, however often it lies there.
    ///
    /// # Errors
    ///
    /// Fails where there is no memory to remember the greatest states of its squares.
    pub fn greatest_state(&self, alloc: Global, tree: Tree) -> Result<u8, Memory>
        requires { IsTree self.now tree }
        ensures most { IfOk result (λ s. (x y : ℤ) → cell self.now tree x y ≤ s) }
        ensures shown { IfOk result (λ s. s ≢ 0 → (x : ℤ) × (y : ℤ) × (cell self.now tree x y ≡ s)) }
    {
        let greatest: GreatestState = self.measure(tree.root, &mut SquareMap::new(alloc))?;
        Ok(greatest.state)
    }
}

// The greatest state of a square's cells.
#[derive(Clone, Copy)]
struct GreatestState {
    state: u8,
}

impl Measure for GreatestState {
    ghost is = { λ cells _ greatest. IsGreatest cells greatest.state };

    fn of_cell(state: u8) -> GreatestState {
        GreatestState { state }
    }

    fn of_four(
        _side: u128,
        nw: GreatestState,
        ne: GreatestState,
        sw: GreatestState,
        se: GreatestState,
    ) -> GreatestState {
        GreatestState {
            state: greatest(nw.state, ne.state, sw.state, se.state),
        }
    }

    fn of_number(cells: u64) -> Option<GreatestState> {
        Some(GreatestState {
            state: one_if_any(cells),
        })
    }
}

// 1 for a square of two states with live cells, whose cells are the digits of this number.
fn one_if_any(cells: u64) -> u8
    ensures { result ≡ cell_population cells }
{
    if cells == 0 {
        return 0;
    }
    1
}

// The greatest of four states.
fn greatest(nw: u8, ne: u8, sw: u8, se: u8) -> u8
    ensures { result ≡ max (max nw ne) (max sw se) }
{
    nw.max(ne).max(sw.max(se))
}
