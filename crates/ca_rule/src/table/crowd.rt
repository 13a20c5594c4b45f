//! Slots that are too many for the cells that they may take.

ghost use Rattle.std.specs.Prelude.{◌≡◌, ◌==◌, ◌≤◌, true, length, map, zip, slice_index};
ghost use Rattle.std.specs.List.{count_by};
ghost use Rattle.ca_rule.specs.TableNext.{is_variable};
ghost use Rattle.ca_rule.specs.inner.TableCrowd.{slots_in, HasCrowd};

use crate::table::choice::cell_at;
use crate::table::slot::Slot;
use crate::table::state_set::StateSet;
use crate::table::transition::{admits, is_variable, takes_one_cell};
use ca_plane::Nine;

/// A transition whose first slots have taken places.
#[derive(Clone, Copy)]
struct BegunTransition<'t> {
    variables: &'t [StateSet],
    nine: &'t Nine,
    /// All slots, and the places of the first of them.
    slots: &'t [Slot],
    places: &'t [u8],
    /// The slots after those, and the places that are free.
    left: &'t [Slot],
    free: &'t [u8],
}

impl BegunTransition<'_> {
    ghost use Rattle.std.specs.Prelude.{◌≡◌, ◌≤◌, length, map, zip, slice_index};
    ghost use Rattle.std.specs.List.{count_by};
    ghost use Rattle.ca_rule.specs.inner.TableCrowd.{has_slot_room, may_take, one_takes, are_crowded};

    /// Whether as many of the free cells are like the cell as slots left are like the slot, where that is a
    /// variable.
    fn has_room(&self, slot: Slot, cell: u8) -> bool
        ensures { result ≡ has_slot_room self.now.nine.now self.now.left.now self.now.free.now slot cell }
    {
        match slot {
            Slot::Number(_) => true,
            Slot::Variable(number) => {
                like_cells(self.free, cell, self.nine) >= like_slots(self.left, number)
            }
        }
    }

    /// Whether the slot may take the cell.
    fn may_take(&self, slot: Slot, cell: u8) -> bool
        ensures { let taken = zip self.now.slots.now
            (map (slice_index self.now.nine.now) self.now.places.now) in
            result ≡ may_take self.now.variables.now self.now.nine.now taken self.now.left.now
            self.now.free.now slot cell }
    {
        if !admits(self.variables, slot, cell) {
            return false;
        }
        if let Slot::Variable(number) = slot {
            if !takes_one_cell(number, cell, self.slots, self.places, self.nine) {
                return false;
            }
        }
        self.has_room(slot, cell)
    }

    /// Whether one of the slots in the set may take the cell. The set's lowest bit stands for the first slot.
    fn one_takes(&self, slots: &[Slot], set: u8, cell: u8) -> bool
        ensures { let taken = zip self.now.slots.now
            (map (slice_index self.now.nine.now) self.now.places.now) in
            result ≡ one_takes self.now.variables.now self.now.nine.now taken self.now.left.now
            self.now.free.now slots.now set cell }
    {
        let Some((slot, later)) = slots.split_first() else {
            return false;
        };
        if set % 2 == 1 && self.may_take(*slot, cell) {
            return true;
        }
        self.one_takes(later, set / 2, cell)
    }

    /// How many of the cells at the places one of the slots left in the set may take.
    fn cells_taken(&self, set: u8, places: &[u8]) -> usize
        ensures count { let taken = zip self.now.slots.now
            (map (slice_index self.now.nine.now) self.now.places.now) in
            result ≡ count_by
            (λ p. one_takes self.now.variables.now self.now.nine.now taken self.now.left.now self.now.free.now
            self.now.left.now set (slice_index self.now.nine.now p)) places.now }
        ensures within { result ≤ length places.now }
    {
        let Some((place, later)) = places.split_first() else {
            return 0;
        };
        let others = self.cells_taken(set, later);
        let cell = cell_at(self.nine, *place);
        if self.one_takes(self.left, set, cell) {
            others + 1
        } else {
            others
        }
    }

    /// Whether the slots left that are in the set are more than the free cells that one of them may take.
    fn are_crowded(&self, set: u8) -> bool
        ensures { let taken = zip self.now.slots.now
            (map (slice_index self.now.nine.now) self.now.places.now) in
            result ≡ are_crowded self.now.variables.now self.now.nine.now taken self.now.left.now
            self.now.free.now set }
    {
        self.cells_taken(set, self.free) < slots_in(self.left, set)
    }

    /// A set of the slots left to try: where slots are too many for their cells, these are.
    fn crowd(&self) -> Option<u8> {
        let mut takable = [u8::MAX; 8];
        'slots: for (cells, slot) in takable.iter_mut().zip(self.left.iter()) {
            *cells = self.takable_cells(*slot, self.free);
        }
        smallest_crowd(&takable, self.left.len())
    }

    /// Of the cells at the places, those that the slot may take. The lowest bit stands for the first one.
    fn takable_cells(&self, slot: Slot, places: &[u8]) -> u8 {
        let Some((place, later)) = places.split_first() else {
            return 0;
        };
        let first = self.may_take(slot, cell_at(self.nine, *place));
        let others = self.takable_cells(slot, later);
        others.wrapping_mul(2) | u8::from(first)
    }
}

/// Whether some of the slots after the places are more than the free cells that one of them may take, as far
/// as is found.
pub(crate) fn has_crowd(
    variables: &[StateSet],
    slots: &[Slot],
    places: &[u8],
    nine: &Nine,
    free: &[u8],
) -> bool
    ensures { result ≡ true → HasCrowd variables.now nine.now slots.now places.now free.now }
{
    if slots.len() < places.len() {
        return false;
    }
    let left = &slots[places.len()..];
    if free.len() < left.len() {
        return false;
    }
    let begun = BegunTransition {
        variables,
        nine,
        slots,
        places,
        left,
        free,
    };
    match begun.crowd() {
        Some(set) => begun.are_crowded(set),
        None => false,
    }
}

/// How many of the slots are the variable.
fn like_slots(slots: &[Slot], number: usize) -> usize
    ensures count { result ≡ count_by (is_variable number) slots.now }
    ensures within { result ≤ length slots.now }
{
    let Some((slot, later)) = slots.split_first() else {
        return 0;
    };
    let others = like_slots(later, number);
    if is_variable(number, *slot) {
        others + 1
    } else {
        others
    }
}

/// How many of the places have the cell.
fn like_cells(places: &[u8], cell: u8, nine: &Nine) -> usize
    ensures count { result ≡ count_by (λ p. slice_index nine.now p == cell) places.now }
    ensures within { result ≤ length places.now }
{
    let Some((place, later)) = places.split_first() else {
        return 0;
    };
    let others = like_cells(later, cell, nine);
    if cell_at(nine, *place) == cell {
        others + 1
    } else {
        others
    }
}

/// How many of the slots are in the set.
fn slots_in(slots: &[Slot], set: u8) -> usize
    ensures count { result ≡ slots_in slots.now set }
    ensures within { result ≤ length slots.now }
{
    let Some((_, later)) = slots.split_first() else {
        return 0;
    };
    let others = slots_in(later, set / 2);
    if set % 2 == 1 { others + 1 } else { others }
}

/// The first set of slots, of this many, that are more than the cells that they may take.
fn smallest_crowd(takable: &[u8; 8], count: usize) -> Option<u8> {
    let mut cells_of = [0_u8; 256];
    'sets: for set in 1..=u8::MAX {
        let first = usize::try_from(set.trailing_zeros()).unwrap_or(0);
        let last = usize::try_from(set.leading_zeros()).unwrap_or(0);
        if last.saturating_add(count) < 8 {
            return None;
        }
        let others = cells_of[usize::from(set & set.wrapping_sub(1))];
        let cells = others | takable.get(first).copied().unwrap_or(u8::MAX);
        if cells.count_ones() < set.count_ones() {
            return Some(set);
        }
        cells_of[usize::from(set)] = cells;
    }
    None
}
