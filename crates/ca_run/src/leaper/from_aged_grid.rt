//! Squares of several states made of grids of cells that age.

ghost use Rattle.std.specs.Prelude.{true, ℕ, ◌+◌, ◌-◌, ◌<◌, ◌≤◌, ℤ, IfOk};
ghost use Rattle.ca_quad.specs.Prelude.{IsOf};
ghost use Rattle.ca_run.specs.inner.AtCost.{GoesOnAtCost};
ghost use Rattle.ca_run.specs.inner.Shown.{ShowsAt};
ghost use Rattle.ca_bricks.specs.Prelude.{StatesShow, AgedGridShows, IsAgedGrid};

use super::Leaper;
use super::from_grid::SquareGrid;
use ca_bricks::{AgedGrid, BrickGrid, WordPlace};
use ca_budget::LeapFault;
use ca_plane::{Automaton, Memory};
use ca_quad::Id;

// How many squares the parts of one of 8 by 8 cells are, down to 2 by 2.
const PARTS: u64 = 20;

impl SquareGrid for AgedGrid {
    ghost live_grid = { λ grid. grid.live };

    ghost is_whole = { IsAgedGrid };

    ghost shows_plane = { AgedGridShows };

    ghost units = { λ _. 20 };

    ghost whole = { λ grid m p shows. record {
      least = shows.least;
      most = shows.most;
      live = shows.live.is_grid;
      beside = shows.beside;
    } };

    ghost margin = { λ grid m p shows. shows.margin };

    fn square<A: Automaton>(&self, leaper: &mut Leaper<A>, at: WordPlace) -> Result<Id, LeapFault> {
        let live = self.live.word(at);
        if self.is_without_dying(at) {
            return Ok(leaper.from_word(live)?);
        }
        leaper.charge(PARTS)?;
        let greatest = (self.states - 1) as u8;
        Ok(leaper.from_states(&self.states_at(at, live, greatest))?)
    }

    fn is_blank_between(&self, i: (usize, usize), j: (usize, usize)) -> bool {
        if !self.live.is_blank_between(i, j) {
            return false;
        }
        'digits: for digit in &self.dying {
            if !digit.is_blank_between(i, j) {
                return false;
            }
        }
        true
    }

    fn live(&self) -> &BrickGrid {
        &self.live
    }
}

impl<A: Automaton> Leaper<A> {
    // The square of 8 by 8 cells of these states, row by row.
    #[tactic(auto, using(crate::proofs::CostSteps::in_turn))]
    fn from_states(&mut self, cells: &[u8; 64]) -> Result<Id, Memory>
        ensures shows { (p : ℤ → ℤ → ℕ) (a b : ℤ) → StatesShow 8 cells.now 0 p a b
            → IfOk result (λ id. ShowsAt self.new.nodes id 3 p a b) }
        ensures square { IfOk result (λ id. IsOf self.new.nodes id 3) }
        ensures at_cost { GoesOnAtCost A self.old self.new 0 21 }
    {
        let nw = self.from_quarter(cells, 0)?;
        let ne = self.from_quarter(cells, 4)?;
        let sw = self.from_quarter(cells, 32)?;
        let se = self.from_quarter(cells, 36)?;
        self.join(nw, ne, sw, se, 1)
    }

    // The square of 4 by 4 of them that starts at `place`.
    #[tactic(auto, using(crate::proofs::CostSteps::in_turn))]
    fn from_quarter(&mut self, cells: &[u8; 64], place: usize) -> Result<Id, Memory>
        requires { place ≤ 36 }
        ensures shows { (p : ℤ → ℤ → ℕ) (a b : ℤ) → StatesShow 4 cells.now place p a b
            → IfOk result (λ id. ShowsAt self.new.nodes id 2 p a b) }
        ensures square { IfOk result (λ id. IsOf self.new.nodes id 2) }
        ensures at_cost { GoesOnAtCost A self.old self.new 0 5 }
    {
        let nw = self.from_leaf(cells, place)?;
        let ne = self.from_leaf(cells, place + 2)?;
        let sw = self.from_leaf(cells, place + 16)?;
        let se = self.from_leaf(cells, place + 18)?;
        self.join(nw, ne, sw, se, 0)
    }

    // The square of 2 by 2 of them that starts at `place`.
    fn from_leaf(&mut self, cells: &[u8; 64], place: usize) -> Result<Id, Memory>
        requires { place ≤ 54 }
        ensures shows { (p : ℤ → ℤ → ℕ) (a b : ℤ) → StatesShow 2 cells.now place p a b
            → IfOk result (λ id. ShowsAt self.new.nodes id 1 p a b) }
        ensures square { IfOk result (λ id. IsOf self.new.nodes id 1) }
        ensures at_cost { GoesOnAtCost A self.old self.new 0 1 }
    {
        self.leaf(
            cells[place],
            cells[place + 1],
            cells[place + 8],
            cells[place + 9],
        )
    }
}
