//! Values that belong to squares, by the squares' names.

ghost use Rattle.std.specs.Prelude.{◌≡◌, ◌≢◌, ℕ, ◌==◌, IsOk, OnOk, OnErr, None, Some, cond, length};
ghost use Rattle.ca_quad.specs.SquareValues.{square_value};

use crate::id::Id;
use ca_plane::Memory;
use std::alloc::Global;
use std::collections::HashMap;
use std::marker::Model;

/// A value for each of some squares, so that a walk over shared squares looks at each once.
#[derive(Drop)]
pub struct SquareMap<V> {
    values: HashMap<Id, V>,
}

impl<V> Model for SquareMap<V> {
    ghost use Rattle.std.specs.Prelude.{ℕ, List};

    ghost Value = { List (ℕ × V) };

    ghost view = { λ m. m.values.entries };
}

impl<V: Copy> SquareMap<V> {
    /// No square has a value.
    pub fn new(alloc: Global) -> SquareMap<V>
        ensures { (id : ℕ) → square_value result id ≡ None }
    {
        SquareMap {
            values: HashMap::new(alloc),
        }
    }

    /// How many squares have a value.
    pub fn count(&self) -> usize
        ensures { result ≡ length self.now }
    {
        self.values.len()
    }

    /// The value of a square, if it has one.
    pub fn get(&self, id: Id) -> Option<V>
        ensures { result ≡ square_value self.now id }
    {
        self.values.get(&id).copied()
    }

    /// Gives a square a value, in place of the one that it may have.
    ///
    /// # Errors
    ///
    /// Fails where there is no memory for one more value, and then leaves each square its value. Where the
    /// square has a value already, it never fails.
    pub fn put(&mut self, id: Id, value: V) -> Result<(), Memory>
        ensures ok { OnOk result ((other : ℕ)
            → square_value self.new other ≡ cond (id == other) (Some value) (square_value self.old other)) }
        ensures over { square_value self.old id ≢ None → IsOk result }
        ensures err { OnErr result (self.new ≡ self.old) }
    {
        self.values.insert(id, value)?;
        Ok(())
    }
}
