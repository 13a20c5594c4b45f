//! The squares that were cut out of others.

ghost use Rattle.std.specs.Prelude.{◌≡◌, None, Some, cond, OnOk};
ghost use Rattle.ca_quad.specs.contracts.neighbours.NeighboursPartialEq.TheImpl.{eq-value};
ghost use Rattle.ca_quad.specs.declared.neighbours.Neighbours.{Neighbours as Squares};
ghost use Rattle.ca_quad.specs.inner.Cut.{cut_value};

use crate::id::Id;
use crate::neighbours::Neighbours;
use ca_plane::Memory;
use std::alloc::Global;
use std::collections::HashMap;
use std::marker::Model;

// The squares that were cut out of four others each.
#[derive(Drop)]
pub(crate) struct Cuts {
    values: HashMap<Neighbours, Id>,
}

impl Model for Cuts {
    ghost use Rattle.std.specs.Prelude.{ℕ, List};
    ghost use Rattle.ca_quad.specs.declared.neighbours.Neighbours.{Neighbours as Squares};

    ghost Value = { List (Squares × ℕ) };

    ghost view = { λ c. c.values.entries };
}

impl Cuts {
    // None yet.
    pub(super) fn new(alloc: Global) -> Cuts
        ensures { (four : Squares) → cut_value result four ≡ None }
    {
        Cuts {
            values: HashMap::new(alloc),
        }
    }

    // The one that is remembered for these four.
    pub(super) fn get(&self, four: &Neighbours) -> Option<Id>
        ensures { result ≡ cut_value self.now four.now }
    {
        self.values.get(four).copied()
    }

    // Remembers the one of these four.
    pub(super) fn put(&mut self, four: Neighbours, cut: Id) -> Result<(), Memory>
        ensures { OnOk result ((other : Squares) → cut_value self.new other
            ≡ cond ((eq-value).it four other) (Some cut) (cut_value self.old other)) }
    {
        self.values.insert(four, cut)?;
        Ok(())
    }
}
