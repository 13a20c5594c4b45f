//! Planes of bits that are read from squares of states.

ghost use Rattle.std.specs.Prelude.{◌≡◌, ℕ, ◌<◌, ℤ, pos, ◌+ℤ◌, IfSome, if◌then◌else◌};
ghost use Rattle.std.specs.Int.{bit_at};
ghost use Rattle.ca_quad.specs.Prelude.{IsOf};
ghost use Rattle.ca_run.specs.inner.Shown.{ShowsAt};
ghost use Rattle.ca_bricks.specs.Prelude.{WordShows};
ghost use Rattle.ca_run.specs.inner.AgedPlanes.{aged_bit};

use super::Leaper;
use ca_bricks::has_digit;
use ca_plane::Automaton;
use ca_quad::Id;

/// Says of each state whether a cell of it has a bit.
pub(crate) trait StatePlane: Copy {
    // 1 for a state that has it, else 0.
    ghost bit_of: { Self → ℕ → ℕ };

    /// The bits of a square of 8 by 8 cells, where they can be told.
    fn word<A: Automaton>(&self, leaper: &Leaper<A>, id: Id) -> Option<u64>
        requires { IsOf leaper.now.nodes id 3 }
        ensures { (p : ℤ → ℤ → ℕ) (a b : ℤ) → ShowsAt leaper.now.nodes id 3 p a b
            → IfSome result (λ word. WordShows word (λ x y. bit_of self.now (p x y)) a b) };
}

/// The states 0 and 1 as bits: there are none where a cell has another.
#[derive(Clone, Copy)]
pub(crate) struct TwoStates;

impl StatePlane for TwoStates {
    ghost bit_of = { λ _ state. state };

    fn word<A: Automaton>(&self, leaper: &Leaper<A>, id: Id) -> Option<u64> {
        leaper.word(id)
    }
}

/// A plane of a grid of cells that age, under a rule of a given number of states.
#[derive(Clone, Copy)]
pub(crate) enum AgedPlane {
    /// The live cells.
    Live,
    /// A binary digit of the number of generations after which a dying cell is dead.
    Dying { states: u16, digit: usize },
}

impl AgedPlane {
    // Whether a cell of a state has a bit.
    fn has(self, state: u8) -> bool
        ensures { (if result then 1 else 0) ≡ aged_bit self state }
    {
        match self {
            AgedPlane::Live => state == 1,
            AgedPlane::Dying { states, digit } => {
                state > 1 && has_digit(states.saturating_sub(u16::from(state)), digit)
            }
        }
    }
}

impl StatePlane for AgedPlane {
    ghost bit_of = { aged_bit };

    fn word<A: Automaton>(&self, leaper: &Leaper<A>, id: Id) -> Option<u64> {
        Some(leaper.aged_word(*self, id))
    }
}

impl<A: Automaton> Leaper<A> {
    // The bits of a square of 8 by 8 cells.
    fn aged_word(&self, plane: AgedPlane, id: Id) -> u64
        requires { IsOf self.now.nodes id 3 }
        ensures { (p : ℤ → ℤ → ℕ) (a b : ℤ) → ShowsAt self.now.nodes id 3 p a b
            → WordShows result (λ x y. aged_bit plane (p x y)) a b }
    {
        let mut word = 0;
        'rows: for y in 0..8 {
            word |= self.aged_row(plane, id, y) << (8 * y);
        }
        word
    }

    // The bits of a row of it.
    fn aged_row(&self, plane: AgedPlane, id: Id, y: usize) -> u64
        requires square { IsOf self.now.nodes id 3 }
        requires row { y < 8 }
        ensures low { result < 256 }
        ensures bits { (p : ℤ → ℤ → ℕ) (a b : ℤ) → ShowsAt self.now.nodes id 3 p a b
            → (x : ℕ) → x < 8 → bit_at result x ≡ aged_bit plane (p (a +ℤ pos x) (b +ℤ pos y)) }
    {
        let mut row = 0;
        'cells: for x in 0..8 {
            row |= u64::from(plane.has(self.state_in(id, x, y))) << x;
        }
        row
    }

    // The state of a cell of a square of 8 by 8.
    fn state_in(&self, id: Id, x: usize, y: usize) -> u8
        requires square { IsOf self.now.nodes id 3 }
        requires place_x { x < 8 }
        requires place_y { y < 8 }
        ensures { (p : ℤ → ℤ → ℕ) (a b : ℤ) → ShowsAt self.now.nodes id 3 p a b
            → result ≡ p (a +ℤ pos x) (b +ℤ pos y) }
    {
        let leaf = self.part_at(id, 1, 2, x / 2, y / 2);
        let [nw, ne, sw, se] = self.store.cells4(leaf);
        match (x % 2, y % 2) {
            (0, 0) => nw,
            (_, 0) => ne,
            (0, _) => sw,
            _ => se,
        }
    }
}
