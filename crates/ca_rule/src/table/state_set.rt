//! Sets of states.

ghost use Rattle.std.specs.Prelude.{◌≡◌, ◌≤◌, ◌<◌, ◌==◌, ◌||◌, ℕ, length, filter};
ghost use Rattle.std.specs.List.{list_any, range_with_len};
ghost use Rattle.ca_rule.specs.TableNext.{admits};
ghost use Rattle.ca_rule.specs.inner.TableStates.{is_in};

use crate::table::slot::Slot;
use crate::table::transition::admits;
use std::marker::Model;

/// A set of states from 0 to 255.
#[derive(Drop)]
pub(crate) struct StateSet {
    words: [u64; 4],
}

impl Model for StateSet {
    ghost use Rattle.std.specs.Prelude.{◌≡◌, length};
    ghost use Rattle.ca_rule.specs.TableNext.{States};
    ghost use Rattle.ca_rule.specs.inner.TableStates.{states_in};

    ghost Value = { States };

    ghost view = { λ set. states_in set.words };

    ghost invariant = { λ set. length set.words ≡ 4 };
}

impl StateSet {
    /// Whether the state is in the set.
    pub(crate) fn contains(&self, state: u8) -> bool
        ensures { result ≡ list_any (λ s. s == state) self.now }
    {
        let word = self.words[usize::from(state / 64)];
        (word >> (state % 64)) % 2 == 1
    }
}

/// Sets the bit of one more state.
fn put_state(words: &mut [u64; 4], state: u8)
    ensures bits { (t : ℕ) → t < 256 → is_in words.new t ≡ (is_in words.old t || (t == state)) }
    ensures long { length words.new ≡ 4 }
{
    let at = usize::from(state / 64);
    words[at] |= 1 << (state % 64);
}

/// Whether one of the slots admits the state.
fn one_admits(variables: &[StateSet], slots: &[Slot], state: u8) -> bool
    ensures { result ≡ list_any (λ slot. admits variables.now slot state) slots.now }
{
    let mut left = slots;
    'slots: while let Some((slot, later)) = left.split_first() {
        if admits(variables, *slot, state) {
            return true;
        }
        left = later;
    }
    false
}

/// The states below the count that one of the slots admits.
pub(crate) fn states_among(count: u16, variables: &[StateSet], slots: &[Slot]) -> StateSet
    requires { count ≤ 256 }
    ensures { result
        ≡ filter (λ s. list_any (λ slot. admits variables.now slot s) slots.now) (range_with_len 0 count) }
{
    let mut words = [0; 4];
    'states: for state in 0..count {
        if one_admits(variables, slots, state as u8) {
            put_state(&mut words, state as u8);
        }
    }
    StateSet { words }
}
