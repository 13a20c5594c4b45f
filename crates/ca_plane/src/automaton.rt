//! What every rule of a cellular automaton answers.

ghost use Rattle.std.specs.Prelude.{◌≡◌, ℕ, ◌<◌, ◌≤◌, List, length, replicate, IfSome};
ghost use Rattle.std.specs.List.{All};
ghost use Rattle.ca_plane.specs.Moore.{IsMoore};
ghost use Rattle.ca_plane.specs.Counting.{GoesByCounting};
ghost use Rattle.ca_plane.specs.Ageing.{GoesByAgeing};

use crate::counting::{Ageing, Counting, Neighbourhood};
use crate::point::Nine;

/// A rule of a cellular automaton: all cells change at once, each by this one rule on itself and its eight
/// neighbours (Golly Help, "QuickLife" and "RuleLoader").
pub trait Automaton {
    ghost state_count: { Self → ℕ };

    ghost next_of: { Self → List ℕ → ℕ };

    ghost sound: { Self → Type 0 };

    /// How many states a cell can have. They are numbered from 0, and 0 is the state of an empty cell.
    fn states(&self) -> u16
        ensures sound { sound self.now }
        ensures value { result ≡ state_count self.now }
        ensures low { 2 ≤ result }
        ensures high { result ≤ 256 };

    /// The state that a cell has one generation later, from the states of the nine cells round it.
    fn next(&self, nine: &Nine) -> u8
        ensures { result ≡ next_of self.now nine.now };

    /// The masks of a rule of two states that goes by the number of live cells among the eight round a cell:
    /// a dead cell with n of them is born where bit n of the first is 1, a live one survives where bit n of
    /// the second is 1. What makes many cells at once asks for them. A rule that has none, or does not tell
    /// them, answers `None`.
    fn masks(&self) -> Option<(u16, u16)>
        ensures { IfSome result (λ masks. IsMoore (state_count self.now) (next_of self.now) masks.0 masks.1) }
    {
        None
    }

    /// How a rule of two states goes by the number of live cells among some neighbours of a cell. What makes
    /// many cells at once asks for it. A rule that goes by none, or does not tell it, answers `None`. Where
    /// a rule does not say otherwise, it is that of its masks, with all eight neighbours counted.
    fn counting(&self) -> Option<Counting>
        ensures { IfSome result (GoesByCounting (state_count self.now) (next_of self.now)) }
    {
        let (birth, survival) = self.masks()?;
        Some(Counting {
            neighbourhood: Neighbourhood::Moore,
            birth,
            survival,
        })
    }

    /// How live cells age under a rule of the family Generations. What makes many cells at once asks for it.
    /// A rule of another kind, or one that does not tell it, answers `None`.
    fn ageing(&self) -> Option<Ageing>
        ensures { IfSome result (GoesByAgeing (state_count self.now) (next_of self.now)) }
    {
        None
    }

    // states below the count lead to states below it
    ghost closed: { (r : Self) (nine : List ℕ) → sound r → length nine ≡ 9 → All (λ s. s < state_count r) nine
        → next_of r nine < state_count r };

    // where all is empty, nothing is born
    ghost quiet: { (r : Self) → sound r → next_of r (replicate 9 0) ≡ 0 };
}
