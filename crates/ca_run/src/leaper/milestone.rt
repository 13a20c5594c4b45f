//! How far a run of generations has come.

ghost use Rattle.std.specs.Prelude.{◌≡◌, ℤ};
ghost use Rattle.ca_plane.specs.Prelude.{cells_after};
ghost use Rattle.ca_quad.specs.Prelude.{cell};

use super::Leaper;
use super::from_grid::SquareGrid;
use ca_plane::Automaton;
use ca_quad::{Store, Tree};
use std::marker::Model;

/// A number of generations that a run reports. It is made in this module's crate alone, with a tree or a
/// grid of bricks that shows the plane of some tree after that many generations. That this is the tree with
/// which the run began is tested.
#[derive(Clone, Copy)]
pub struct Milestone {
    generations: u64,
}

impl Model for Milestone {
    ghost use Rattle.std.specs.Prelude.{ℕ};

    ghost Value = { ℕ };

    ghost view = { λ r. r.generations };

    ghost inverse = { λ n. record { generations = n } };
}

impl Milestone {
    /// The number of generations.
    pub fn generations(self) -> u64
        ensures { result ≡ self }
    {
        self.generations
    }

    // What a run has reached that began with the first tree, of some store, and holds the other.
    pub(super) fn with_tree<A: Automaton>(
        leaper: &Leaper<A>,
        origin: &Store,
        first: &Tree,
        held: &Tree,
        generations: u64,
    ) -> Milestone
        requires { (x y : ℤ) → cell leaper.now.nodes held.now x y
            ≡ cells_after (A.next_of leaper.now.rule) (cell origin.now first.now) generations x y }
        ensures { result ≡ generations }
    {
        let _ = leaper;
        let _ = origin;
        let _ = first;
        let _ = held;
        Milestone { generations }
    }

    // What a run has reached that began with a tree and holds a grid.
    pub(crate) fn with_grid<A: Automaton, S: SquareGrid>(
        leaper: &Leaper<A>,
        first: &Tree,
        held: &S,
        generations: u64,
    ) -> Milestone
        requires { S.shows_plane held.now 0
            (cells_after (A.next_of leaper.now.rule) (cell leaper.now.nodes first.now) generations) }
        ensures { result ≡ generations }
    {
        let _ = leaper;
        let _ = first;
        let _ = held;
        Milestone { generations }
    }
}
