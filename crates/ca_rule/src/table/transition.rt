//! Transitions of rule tables.

ghost use Rattle.std.specs.Prelude.{◌≡◌, ◌<◌, ◌==◌, ◌||◌, ◌%◌, ℕ, [], ◌∷◌, true, false, not, length, map, zip, slice_index};
ghost use Rattle.std.specs.Prelude.{IfSome, MatchOption};
ghost use Rattle.std.specs.Int.{bit_at};
ghost use Rattle.std.specs.List.{list_all, list_any};
ghost use Rattle.ca_rule.specs.inner.TableDistinct.{are_distinct};
ghost use Rattle.ca_rule.specs.TableNext.{SlotCell, is_variable, admits, take_one_cell, taken_cell, fits, result_state};

use crate::table::choice::{Choice, cell_at};
use crate::table::crowd::has_crowd;
use crate::table::placement::{Orders, as_it_stands};
use crate::table::slot::Slot;
use crate::table::state_set::StateSet;
use ca_plane::Nine;
use std::marker::Model;

/// A transition: what its slots admit, the centre's first, and what it gives.
#[derive(Drop)]
pub(crate) struct Transition {
    inputs: Vec<Slot>,
    result: Slot,
}

impl Model for Transition {
    ghost use Rattle.ca_rule.specs.TableNext.{Transition as TransitionValue};

    ghost Value = { TransitionValue };

    ghost view = { λ t. record { inputs = t.inputs.items; result = t.result } };
}

impl Transition {
    ghost use Rattle.std.specs.Prelude.{◌≡◌, map, length, drop, true, None};
    ghost use Rattle.ca_rule.specs.TableNext.{fits};
    ghost use Rattle.std.specs.List.{list_all};
    ghost use Rattle.ca_rule.specs.inner.TablePlaces.{begins_at_centre, slots_admit, admits_centre, taken_at, outcome_at};
    ghost use Rattle.ca_rule.specs.inner.TableSearch.{least_outcome, placements_of};
    ghost use Rattle.ca_rule.specs.inner.TableChoice.{taken_of, free_of};

    /// The transition with these slots, the centre's first, and this result.
    pub(crate) fn new(inputs: Vec<Slot>, becomes: Slot) -> Transition
        ensures { result ≡ record { inputs = inputs.items; result = becomes } }
    {
        Transition {
            inputs,
            result: becomes,
        }
    }

    /// The state that the transition gives in the first of the orders in which it fits, if it fits in one.
    #[tactic(auto, using(crate::proofs::RingOrders::outcome_of_ring))]
    pub(crate) fn outcome(&self, variables: &[StateSet], orders: Orders, nine: &Nine) -> Option<u8>
        requires centred { list_all begins_at_centre (placements_of orders) ≡ true }
        ensures { result ≡ outcome_at variables.now nine.now self.now (placements_of orders) }
    {
        if !self.admits_centre(variables, nine) {
            return None;
        }
        match orders {
            Orders::Listed(placements) => self.listed_outcome(variables, placements, nine),
            Orders::Every(neighbourhood) => {
                let standing = as_it_stands(neighbourhood);
                if fits(variables, &self.inputs, standing, nine) {
                    return Some(result_state(self.result, &self.inputs, standing, nine));
                }
                let choice = Choice::of_ring(neighbourhood);
                if self.fits_at(variables, &choice, nine) {
                    self.least_outcome(variables, choice, nine)
                } else {
                    None
                }
            }
        }
    }

    /// The slots, the centre's first.
    pub(crate) fn inputs(&self) -> &[Slot]
        ensures { result.now ≡ self.now.inputs }
    {
        &self.inputs
    }

    /// The result.
    pub(crate) fn becomes(&self) -> Slot
        ensures { result ≡ self.now.result }
    {
        self.result
    }

    /// How many slots there are.
    pub(crate) fn len(&self) -> usize
        ensures { result ≡ length self.now.inputs }
    {
        self.inputs.len()
    }

    /// Whether the slot, counted from 0, admits the state, if there is one.
    pub(crate) fn slot_admits(&self, variables: &[StateSet], slot: usize, state: u8) -> bool
        ensures { result ≡ slots_admit variables.now state (drop slot self.now.inputs) }
    {
        match self.inputs.get(slot) {
            Some(slot) => admits(variables, *slot, state),
            None => true,
        }
    }

    /// Whether the first slot admits the centre. Where it doesn't, the transition fits in no order.
    fn admits_centre(&self, variables: &[StateSet], nine: &Nine) -> bool
        ensures { result ≡ admits_centre variables.now nine.now self.now }
    {
        match self.inputs.first() {
            Some(slot) => admits(variables, *slot, nine[4]),
            None => true,
        }
    }

    /// The state that the transition gives at the first of the placements at which it fits, if it fits at
    /// one.
    fn listed_outcome(
        &self,
        variables: &[StateSet],
        placements: &[&[u8]],
        nine: &Nine,
    ) -> Option<u8>
        ensures { result ≡ outcome_at variables.now nine.now self.now (map (λ p. p.now) placements.now) }
    {
        let (placement, later) = placements.split_first()?;
        if fits(variables, &self.inputs, placement, nine) {
            return Some(result_state(self.result, &self.inputs, placement, nine));
        }
        self.listed_outcome(variables, later, nine)
    }

    /// The state that the transition gives in the first order of the free places, after those that are taken,
    /// in which it fits. The next slot takes the free places one after another, in order, but of equal cells
    /// the first alone; where the slots don't fit at the places taken so far, no order of the others is
    /// tried. Once a place has led to none, the others are tried only where the slots left aren't too many
    /// for the cells that they may take.
    fn least_outcome(&self, variables: &[StateSet], choice: Choice, nine: &Nine) -> Option<u8>
        requires fit { fits variables.now (taken_at nine.now self.now (taken_of choice)) ≡ true }
        ensures { result
            ≡ least_outcome variables.now nine.now self.now (taken_of choice) (length (free_of choice))
            (free_of choice) }
    {
        let count = choice.free_count();
        if count == 0 {
            return Some(result_state(self.result, &self.inputs, choice.taken_places(), nine));
        }
        let mut is_first = true;
        'places: for at in 0..count {
            if choice.repeats(at, nine) {
                continue;
            }
            let next = choice.with(at);
            if !self.fits_at(variables, &next, nine) {
                continue;
            }
            if let Some(state) = self.least_outcome(variables, next, nine) {
                return Some(state);
            }
            if is_first && self.has_crowd(variables, &choice, nine) {
                return None;
            }
            is_first = false;
        }
        None
    }

    /// Whether the first slots fit at the places that are taken.
    fn fits_at(&self, variables: &[StateSet], choice: &Choice, nine: &Nine) -> bool
        ensures { result ≡ fits variables.now (taken_at nine.now self.now (taken_of choice.now)) }
    {
        fits(variables, &self.inputs, choice.taken_places(), nine)
    }

    /// Whether some of the slots left are more than the free cells that one of them may take, as far as is
    /// found.
    fn has_crowd(&self, variables: &[StateSet], choice: &Choice, nine: &Nine) -> bool
        ensures { result ≡ true →
            least_outcome variables.now nine.now self.now (taken_of choice.now) (length (free_of choice.now))
            (free_of choice.now) ≡ None }
    {
        has_crowd(
            variables,
            &self.inputs,
            choice.taken_places(),
            nine,
            choice.free_places(),
        )
    }
}

/// Whether the slot is that state, or a variable that has it.
pub(crate) fn admits(variables: &[StateSet], slot: Slot, cell: u8) -> bool
    ensures { result ≡ admits variables.now slot cell }
{
    match slot {
        Slot::Number(state) => cell == state,
        Slot::Variable(number) => match variables.get(number) {
            Some(states) => states.contains(cell),
            None => false,
        },
    }
}

/// Whether the slot is the variable.
pub(crate) fn is_variable(number: usize, slot: Slot) -> bool
    ensures { result ≡ is_variable number slot }
{
    match slot {
        Slot::Number(_) => false,
        Slot::Variable(other) => number == other,
    }
}

/// The first slot and the cell at its place, and the slots and the places after these.
fn first_taken<'t>(
    slots: &'t [Slot],
    places: &'t [u8],
    nine: &Nine,
) -> Option<(Slot, u8, &'t [Slot], &'t [u8])>
    ensures taken { MatchOption result (zip slots.now (map (slice_index nine.now) places.now) ≡ [])
        (λ t. zip slots.now (map (slice_index nine.now) places.now)
        ≡ (t.0, t.1) ∷ zip t.2.now (map (slice_index nine.now) t.3.now)) }
    ensures shorter { IfSome result (λ t. length t.2.now < length slots.now) }
{
    let (slot, slots_later) = slots.split_first()?;
    let (place, places_later) = places.split_first()?;
    Some((*slot, cell_at(nine, *place), slots_later, places_later))
}

/// Whether each slot of the variable takes this cell, where each takes that at its place.
pub(crate) fn takes_one_cell(
    number: usize,
    cell: u8,
    slots: &[Slot],
    places: &[u8],
    nine: &Nine,
) -> bool
    ensures { result
        ≡ list_all (λ (t : SlotCell). not (is_variable number t.0) || (t.1 == cell))
        (zip slots.now (map (slice_index nine.now) places.now)) }
{
    match first_taken(slots, places, nine) {
        Some((slot, taken, slots_later, places_later)) => {
            (!is_variable(number, slot) || taken == cell)
                && takes_one_cell(number, cell, slots_later, places_later, nine)
        }
        None => true,
    }
}

/// The cell that the variable takes.
fn cell_of(number: usize, slots: &[Slot], places: &[u8], nine: &Nine) -> u8
    ensures { result ≡ taken_cell number (zip slots.now (map (slice_index nine.now) places.now)) }
{
    match first_taken(slots, places, nine) {
        Some((slot, cell, slots_later, places_later)) => {
            if is_variable(number, slot) {
                cell
            } else {
                cell_of(number, slots_later, places_later, nine)
            }
        }
        None => 0,
    }
}

/// Whether each slot admits the cell at its place, and all slots of one variable take one cell.
#[tactic(auto, using(crate::proofs::SlotFits::fits_halved))]
fn fits(variables: &[StateSet], slots: &[Slot], places: &[u8], nine: &Nine) -> bool
    ensures { result ≡ fits variables.now (zip slots.now (map (slice_index nine.now) places.now)) }
{
    each_admits(variables, slots, places, nine) && each_takes_one_cell(slots, places, nine)
}

/// Whether no variable comes twice among the slots, and none was seen before. A variable is seen by its
/// number's remainder by 64, so that the answer may be no where two numbers have one remainder.
fn are_distinct(slots: &[Slot], seen: u64) -> bool
    ensures distinct { result ≡ true → are_distinct slots.now ≡ true }
    ensures apart { result ≡ true → (v : ℕ) → bit_at seen (v % 64) ≡ 1
        → list_any (is_variable v) slots.now ≡ false }
{
    let Some((slot, later)) = slots.split_first() else {
        return true;
    };
    let Slot::Variable(number) = *slot else {
        return are_distinct(later, seen);
    };
    if (seen >> (number % 64)) % 2 == 1 {
        return false;
    }
    are_distinct(later, seen | (1 << (number % 64)))
}

/// Whether each slot admits the cell at its place.
fn each_admits(variables: &[StateSet], slots: &[Slot], places: &[u8], nine: &Nine) -> bool
    ensures { result
        ≡ list_all (λ (t : SlotCell). admits variables.now t.0 t.1)
        (zip slots.now (map (slice_index nine.now) places.now)) }
{
    match first_taken(slots, places, nine) {
        Some((slot, cell, slots_later, places_later)) => {
            admits(variables, slot, cell) && each_admits(variables, slots_later, places_later, nine)
        }
        None => true,
    }
}

/// Whether all slots of one variable take one cell.
fn each_takes_one_cell(slots: &[Slot], places: &[u8], nine: &Nine) -> bool
    ensures { let all = zip slots.now (map (slice_index nine.now) places.now) in
        result ≡ list_all (λ (t : SlotCell). take_one_cell all t.0 t.1) all }
{
    if are_distinct(slots, 0) {
        return true;
    }
    let mut slots_left = slots;
    let mut places_left = places;
    'slots: while let Some((slot, cell, slots_later, places_later)) = first_taken(
        slots_left,
        places_left,
        nine,
    ) {
        if let Slot::Variable(number) = slot {
            if !takes_one_cell(number, cell, slots, places, nine) {
                return false;
            }
        }
        slots_left = slots_later;
        places_left = places_later;
    }
    true
}

/// The state that a result gives: its number, or the cell of its variable.
fn result_state(becomes: Slot, slots: &[Slot], places: &[u8], nine: &Nine) -> u8
    ensures { let all = zip slots.now (map (slice_index nine.now) places.now) in result
        ≡ result_state becomes all }
{
    match becomes {
        Slot::Number(state) => state,
        Slot::Variable(number) => cell_of(number, slots, places, nine),
    }
}
