//! The empty squares of a store, made as they are needed.

ghost use Rattle.std.specs.Prelude.{◌≡◌, [], ◌+◌, ◌<◌, ◌≤◌, length, IfOk, OnOk};
ghost use Rattle.ca_quad.specs.Prelude.{IsSoundStore, Grows, ShowsSquare};
ghost use Rattle.ca_macro.specs.inner.Reading.{AreEmpties};

use ca_plane::Memory;
use ca_quad::{Id, Store};
use std::alloc::Global;

/// The squares of level 1, 2 and so on whose cells are all 0, as far as they were needed.
#[derive(Drop)]
pub(crate) struct Empties {
    ids: Vec<Id>,
}

impl Empties {
    pub(crate) fn new(alloc: Global) -> Empties
        ensures { result.ids.items ≡ [] }
    {
        Empties {
            ids: Vec::new(alloc),
        }
    }

    /// One level more.
    fn grow(&mut self, store: &mut Store) -> Result<(), Memory>
        requires few { length self.old.ids.items ≤ 124 }
        requires empties { AreEmpties store.old self.old.ids.items }
        requires sound { IsSoundStore store.old }
        ensures empties { OnOk result (AreEmpties store.new self.new.ids.items) }
        ensures count { OnOk result (length self.new.ids.items ≡ length self.old.ids.items + 1) }
        ensures grows { Grows store.old store.new }
    {
        let id = match self.ids.last() {
            Some(part) => store.join(*part, *part, *part, *part)?,
            None => store.leaf(0, 0, 0, 0)?,
        };
        self.ids.push(id)?;
        Ok(())
    }

    /// The empty square of a level.
    pub(crate) fn square(&mut self, store: &mut Store, level: u8) -> Result<Id, Memory>
        requires least { 1 ≤ level }
        requires most { level ≤ 125 }
        requires empties { AreEmpties store.old self.old.ids.items }
        requires sound { IsSoundStore store.old }
        ensures shows { IfOk result (λ id. ShowsSquare store.new id level (λ x y. 0)) }
        ensures empties { OnOk result (AreEmpties store.new self.new.ids.items) }
        ensures grows { Grows store.old store.new }
    {
        let count = usize::from(level);
        'levels: while self.ids.len() < count {
            self.grow(store)?;
        }
        Ok(self.ids[count - 1])
    }
}
