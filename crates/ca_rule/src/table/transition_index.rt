//! Indices of transitions: bits that tell at once which of many transitions can't fit.

ghost use Rattle.std.specs.Prelude.{◌≡◌, ◌<◌, ◌≤◌, ◌*◌, ◌%◌, ◌^◌, ℕ, List, length, false, cond, IfOk, map, zip, slice_index};
ghost use Rattle.std.specs.List.{list_all};
ghost use Rattle.std.specs.Int.{bit_at};
ghost use Rattle.ca_rule.specs.TableNext.{States, SlotCell, Transition as TransitionValue, admits};
ghost use Rattle.ca_rule.specs.inner.TransitionIndices.{IsIndexRow, TellsSlot};

use crate::table::choice::{Choice, cell_at};
use crate::table::placement::{Orders, as_it_stands};
use crate::table::state_set::StateSet;
use crate::table::transition::Transition;
use ca_plane::{Memory, Nine};
use std::alloc::Global;
use std::marker::Model;

/// An index of up to 64 transitions. For each slot and each state, a bit a transition: where it is 0, the slot
/// of the transition doesn't admit the state.
#[derive(Drop)]
pub(crate) struct TransitionIndex {
    rows: Vec<[u64; 256]>,
}

impl Model for TransitionIndex {
    ghost use Rattle.std.specs.Prelude.{◌≡◌, ℕ, List, length};

    ghost Value = { List (List ℕ) };

    ghost view = { λ index. index.rows.items };
}

impl TransitionIndex {
    ghost use Rattle.std.specs.Prelude.{◌≡◌, ◌<◌, ℕ, List, length, true, false, drop, map, zip, slice_index, IfOk};
    ghost use Rattle.std.specs.List.{list_all};
    ghost use Rattle.std.specs.Int.{bit_at};
    ghost use Rattle.ca_rule.specs.TableNext.{States, SlotCell, Transition as TransitionValue, admits};
    ghost use Rattle.ca_rule.specs.inner.TablePlaces.{begins_at_centre};
    ghost use Rattle.ca_rule.specs.inner.TableSearch.{placements_of};
    ghost use Rattle.ca_rule.specs.inner.TransitionIndices.{inputs_at, takable, IsIndex, HasIdle, FitNowhere, PassesOver};

    /// The index of the first 64 of the transitions of a table with this many states.
    ///
    /// # Errors
    ///
    /// Fails where there is no memory for it.
    pub(crate) fn of(
        alloc: Global,
        states: u16,
        variables: &[StateSet],
        transitions: &[Transition],
    ) -> Result<TransitionIndex, Memory>
        requires { states ≤ 256 }
        ensures { IfOk result (λ index. IsIndex variables.now transitions.now index) }
    {
        let count = match transitions.first() {
            Some(transition) => transition.len(),
            None => 0,
        };
        let mut rows = Vec::new(alloc);
        'slots: for slot in 0..count {
            rows.push(index_row(states, variables, transitions, slot))?;
        }
        Ok(TransitionIndex { rows })
    }

    /// Bits of the first 64 transitions: those that are 0 fit in none of the orders. Under all orders the
    /// first that may fit is looked at no further where it may fit the ring as it is.
    pub(crate) fn candidates(&self, orders: Orders, nine: &Nine) -> u64
        requires centred { list_all begins_at_centre (placements_of orders) ≡ true }
        ensures { (variables : List States) (ts : List TransitionValue) → IsIndex variables ts self.now
            → PassesOver variables nine.now (placements_of orders) ts result }
    {
        match orders {
            Orders::Listed(placements) => self.candidates_in(placements, nine),
            Orders::Every(neighbourhood) => {
                let bits = self.candidates_at(0, &[4], nine);
                let standing = self.candidates_at(0, as_it_stands(neighbourhood), nine);
                if bits == 0 || bits.trailing_zeros() == standing.trailing_zeros() {
                    return bits;
                }
                let ring = Choice::of_ring(neighbourhood);
                bits & self.filled_slots(ring.free_count(), ring.free_places(), nine)
            }
        }
    }

    /// Those that are 0 fit at none of the placements.
    fn candidates_in(&self, placements: &[&[u8]], nine: &Nine) -> u64
        ensures { (variables : List States) (ts : List TransitionValue) → IsIndex variables ts self.now
            → (k : ℕ) → k < 64 → k < length ts → bit_at result k ≡ 0
            → FitNowhere variables nine.now (inputs_at ts k) (map (λ p. p.now) placements.now) }
    {
        let Some((placement, later)) = placements.split_first() else {
            return 0;
        };
        self.candidates_at(0, placement, nine) | self.candidates_in(later, nine)
    }

    /// Those that are 0 have one of the slots, from this one onwards, that doesn't admit the cell at its place.
    fn candidates_at(&self, slot: usize, places: &[u8], nine: &Nine) -> u64
        ensures { (variables : List States) (ts : List TransitionValue) → IsIndex variables ts self.now
            → (k : ℕ) → k < 64 → k < length ts → bit_at result k ≡ 0
            → list_all (λ (t : SlotCell). admits variables t.0 t.1)
            (zip (drop slot (inputs_at ts k)) (map (slice_index nine.now) places.now)) ≡ false }
    {
        let Some((place, later)) = places.split_first() else {
            return u64::MAX;
        };
        let Some(row) = self.rows.get(slot) else {
            return u64::MAX;
        };
        let bits = row[usize::from(cell_at(nine, *place))];
        if bits == 0 {
            return 0;
        }
        bits & self.candidates_at(slot + 1, later, nine)
    }

    /// Those that are 0 have a slot after the centre's, up to this one, that admits none of the cells at the
    /// places.
    fn filled_slots(&self, slot: usize, places: &[u8], nine: &Nine) -> u64
        ensures { (variables : List States) (ts : List TransitionValue) → IsIndex variables ts self.now
            → (k : ℕ) → k < 64 → k < length ts → bit_at result k ≡ 0
            → HasIdle variables nine.now (inputs_at ts k) slot places.now }
    {
        if slot == 0 {
            return u64::MAX;
        }
        let bits = self.filled_slot(slot, places, nine);
        if bits == 0 {
            return 0;
        }
        bits & self.filled_slots(slot - 1, places, nine)
    }

    /// Those that are 0 have a slot there that admits none of the cells at the places.
    fn filled_slot(&self, slot: usize, places: &[u8], nine: &Nine) -> u64
        ensures { (variables : List States) (ts : List TransitionValue) → IsIndex variables ts self.now
            → (k : ℕ) → k < 64 → k < length ts → bit_at result k ≡ 0
            → takable variables nine.now (drop slot (inputs_at ts k)) places.now ≡ 0 }
    {
        let Some((place, later)) = places.split_first() else {
            return 0;
        };
        let Some(row) = self.rows.get(slot) else {
            return u64::MAX;
        };
        row[usize::from(cell_at(nine, *place))] | self.filled_slot(slot, later, nine)
    }
}

/// For each state: bits of the first 64 transitions, of which those are 0 whose slot doesn't admit the state.
fn index_row(
    states: u16,
    variables: &[StateSet],
    transitions: &[Transition],
    slot: usize,
) -> [u64; 256]
    requires { states ≤ 256 }
    ensures { IsIndexRow variables.now transitions.now slot result }
{
    let mut row = [u64::MAX; 256];
    'states: for state in 0..states {
        row[usize::from(state)] = bits_of(variables, transitions, slot, state as u8);
    }
    row
}

/// Bits of the first 64 transitions, of which those are 1 whose slot admits the state.
fn bits_of(variables: &[StateSet], transitions: &[Transition], slot: usize, state: u8) -> u64
    ensures { TellsSlot variables.now transitions.now slot state result }
{
    let mut bits = 0;
    let mut left = transitions;
    'transitions: for at in 0..64_u8 {
        let Some((transition, later)) = left.split_first() else {
            return bits;
        };
        bits |= bit_where(transition.slot_admits(variables, slot, state), at);
        left = later;
    }
    bits
}

/// The bit with this number where it is to be 1, and else none.
fn bit_where(is_one: bool, at: u8) -> u64
    requires { at < 64 }
    ensures { result ≡ cond is_one (1 * 2 ^ at % 2 ^ 64) 0 }
{
    if is_one { 1 << at } else { 0 }
}
