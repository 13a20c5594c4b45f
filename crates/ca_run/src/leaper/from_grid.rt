//! Squares and trees made of grids of bricks.

ghost use Rattle.std.specs.Prelude.{◌≡◌, true, ℕ, suc, ◌+◌, ◌-◌, ◌*◌, ◌<◌, ◌≤◌, ◌^◌, ℤ, pos, ◌+ℤ◌, IfOk};
ghost use Rattle.ca_quad.specs.Prelude.{IsOf, IsTree, cell};
ghost use Rattle.ca_budget.specs.Prelude.{EndsAtLimit};
ghost use Rattle.ca_run.specs.inner.AtCost.{GoesOnAtCost};
ghost use Rattle.ca_run.specs.inner.Shown.{ShowsAt};
ghost use Rattle.ca_bricks.specs.declared.grid.BrickGrid.{BrickGrid};
ghost use Rattle.ca_bricks.specs.Prelude.{IsGrid, GridShows, HasMargin, IsNearGrid, LiesWithin, IsAligned, eight};

use super::Leaper;
use ca_bricks::{BrickGrid, QuarterPlaces, WordPlace};
use ca_budget::LeapFault;
use ca_plane::{Automaton, Memory};
use ca_quad::{Id, Tree};

/// Grids of which squares are made.
pub(crate) trait SquareGrid {
    // The grid of the live cells: it tells where the others lie.
    ghost live_grid: { Self → BrickGrid };
    // Each plane of bits is a grid, and they lie in one place.
    ghost is_whole: { Self → Type 0 };
    // The planes show a plane of states, and have a margin of this many cells.
    ghost shows_plane: { Self → ℕ → (ℤ → ℤ → ℕ) → Type 0 };
    // How many units of work a square of 8 by 8 cells takes at most.
    ghost units: { Self → ℕ };

    /// The square of 8 by 8 cells at a place.
    fn square<A: Automaton>(&self, leaper: &mut Leaper<A>, at: WordPlace) -> Result<Id, LeapFault>
        requires { is_whole self.now }
        ensures shows { (m : ℕ) (p : ℤ → ℤ → ℕ) → shows_plane self.now m p
            → IfOk result (λ id. ShowsAt leaper.new.nodes id 3 p
            ((live_grid self.now).x +ℤ eight at.i) ((live_grid self.now).y +ℤ eight at.j)) }
        ensures square { IfOk result (λ id. IsOf leaper.new.nodes id 3) }
        ensures at_cost { GoesOnAtCost A leaper.old leaper.new (units self.now) 125 }
        ensures work { EndsAtLimit leaper.new.spent result };

    /// Whether all bricks are blank in which some word lies from one place to before another.
    fn is_blank_between(&self, i: (usize, usize), j: (usize, usize)) -> bool
        requires { is_whole self.now }
        ensures { result ≡ true → (m : ℕ) (p : ℤ → ℤ → ℕ) → shows_plane self.now m p
            → (x y : ℕ) → 8 * i.0 ≤ x → x < 8 * i.1 → 8 * j.0 ≤ y → y < 8 * j.1
            → p ((live_grid self.now).x +ℤ pos x) ((live_grid self.now).y +ℤ pos y) ≡ 0 };

    /// The grid of the live cells.
    fn live(&self) -> &BrickGrid
        requires { is_whole self.now }
        ensures grid { result.now ≡ live_grid self.now }
        ensures whole { IsGrid result.now };

    // planes that show one are grids
    ghost whole: { (grid : Self) (m : ℕ) (p : ℤ → ℤ → ℕ) → shows_plane grid m p → is_whole grid };

    // all is dead beyond the bricks
    ghost margin: { (grid : Self) (m : ℕ) (p : ℤ → ℤ → ℕ) → shows_plane grid m p
        → HasMargin m (live_grid grid).across (live_grid grid).down p (live_grid grid).x (live_grid grid).y };
}

impl SquareGrid for BrickGrid {
    ghost live_grid = { λ grid. grid };

    ghost is_whole = { IsGrid };

    ghost shows_plane = { GridShows };

    ghost units = { λ _. 0 };

    ghost whole = { λ grid m p shows. shows.is_grid };

    ghost margin = { λ grid m p shows. shows.margin };

    fn square<A: Automaton>(&self, leaper: &mut Leaper<A>, at: WordPlace) -> Result<Id, LeapFault> {
        Ok(leaper.from_word(self.word(at))?)
    }

    fn is_blank_between(&self, i: (usize, usize), j: (usize, usize)) -> bool {
        BrickGrid::is_blank_between(self, i, j)
    }

    fn live(&self) -> &BrickGrid {
        self
    }
}

// How many words a side has that can be halved so often.
fn width(halvings: u8) -> u64
    requires { halvings ≤ 61 }
    ensures { result ≡ 2 ^ halvings }
{
    1 << halvings
}

impl<A: Automaton> Leaper<A> {
    // The tree of a grid of which all bricks lie within 2 to this power from the origin.
    pub(super) fn tree_of<S: SquareGrid>(&mut self, grid: &S, reach: u8) -> Result<Tree, LeapFault>
        requires grid { S.is_whole grid.now }
        requires least { 6 ≤ reach }
        requires most { reach ≤ 62 }
        requires within { LiesWithin (2 ^ reach) (S.live_grid grid.now) }
        requires aligned { IsAligned (S.live_grid grid.now) }
        ensures tree { IfOk result (IsTree self.new.nodes) }
        ensures level { IfOk result (λ tree. tree.level ≤ 64) }
        ensures cells { (m : ℕ) (p : ℤ → ℤ → ℕ) → S.shows_plane grid.now m p
            → IfOk result (λ tree. (x y : ℤ) → cell self.new.nodes tree x y ≡ p x y) }
        ensures at_cost { GoesOnAtCost A self.old self.new ((1 + S.units grid.now) * 14 ^ (reach - 2)) 125 }
        ensures work { EndsAtLimit self.new.spent result }
    {
        let root = self.from_grid(grid, reach - 2, grid.live().corner(reach))?;
        Ok(Tree {
            root,
            level: reach + 1,
        })
    }

    // The square of the words of a grid from a place onwards. `halvings` is how often its side of words can
    // be halved: its level is that and 3.
    #[cycle(from_grid)]
    pub(super) fn from_grid<S: SquareGrid>(
        &mut self,
        grid: &S,
        halvings: u8,
        at: WordPlace,
    ) -> Result<Id, LeapFault>
        requires grid { S.is_whole grid.now }
        requires low { halvings ≤ 61 }
        requires near { IsNearGrid (2 ^ halvings) at }
        ensures shows { (m : ℕ) (p : ℤ → ℤ → ℕ) → S.shows_plane grid.now m p
            → IfOk result (λ id. ShowsAt self.new.nodes id (suc (suc (suc halvings))) p
            ((S.live_grid grid.now).x +ℤ eight at.i) ((S.live_grid grid.now).y +ℤ eight at.j)) }
        ensures square { IfOk result (λ id. IsOf self.new.nodes id (suc (suc (suc halvings)))) }
        ensures at_cost { GoesOnAtCost A self.old self.new ((1 + S.units grid.now) * 14 ^ halvings) 125 }
        ensures work { EndsAtLimit self.new.spent result }
    {
        if halvings == 0 {
            return grid.square(self, at);
        }
        let count = width(halvings);
        let (words, rows) = at.naturals(count);
        if grid.is_blank_between(words, rows) {
            return Ok(self.empty_square(halvings + 3)?);
        }
        self.from_grid_parts(grid, halvings - 1, at)
    }

    // The same where it has parts: `halvings` is theirs. Each is counted before it is made.
    #[cycle(from_grid)]
    fn from_grid_parts<S: SquareGrid>(
        &mut self,
        grid: &S,
        halvings: u8,
        at: WordPlace,
    ) -> Result<Id, LeapFault>
        requires grid { S.is_whole grid.now }
        requires low { halvings ≤ 60 }
        requires near { IsNearGrid (2 ^ halvings + 2 ^ halvings) at }
        ensures shows { (m : ℕ) (p : ℤ → ℤ → ℕ) → S.shows_plane grid.now m p
            → IfOk result (λ id. ShowsAt self.new.nodes id (suc (suc (suc (suc halvings)))) p
            ((S.live_grid grid.now).x +ℤ eight at.i) ((S.live_grid grid.now).y +ℤ eight at.j)) }
        ensures square { IfOk result (λ id. IsOf self.new.nodes id (suc (suc (suc (suc halvings))))) }
        ensures at_cost { GoesOnAtCost A self.old self.new (4 + 4 * ((1 + S.units grid.now) * 14 ^ halvings)) 0 }
        ensures work { EndsAtLimit self.new.spent result }
    {
        let places = at.quarters(width(halvings));
        self.charge(4)?;
        let nw = self.from_grid(grid, halvings, at)?;
        let ne = self.from_grid(grid, halvings, places.ne)?;
        let sw = self.from_grid(grid, halvings, places.sw)?;
        let se = self.from_grid(grid, halvings, places.se)?;
        Ok(self.join(nw, ne, sw, se, halvings + 2)?)
    }

    // The empty square of a level.
    fn empty_square(&mut self, level: u8) -> Result<Id, Memory>
        requires least { 1 ≤ level }
        requires most { level ≤ 125 }
        ensures shows { (p : ℤ → ℤ → ℕ) (a b : ℤ)
            → ((x y : ℕ) → x < 2 ^ level → y < 2 ^ level → p (a +ℤ pos x) (b +ℤ pos y) ≡ 0)
            → IfOk result (λ id. ShowsAt self.new.nodes id level p a b) }
        ensures square { IfOk result (λ id. IsOf self.new.nodes id level) }
        ensures at_cost { GoesOnAtCost A self.old self.new 0 125 }
    {
        self.store.empty(level)
    }
}
