//! Ties: transitions that may give one neighbourhood two states, each under an order in which they fit.

ghost use Rattle.std.specs.Prelude.{◌≡◌, ◌≤◌, ◌==◌, ◌&&◌, ◌||◌, not, map, zip};
ghost use Rattle.std.specs.List.{list_any, list_all, count_by};
ghost use Rattle.ca_rule.specs.TableNext.{Transition as TransitionValue, SlotCell, admits, is_variable};
ghost use Rattle.ca_rule.specs.TableTies.{admits_another, may_take_over, is_exchanged, exchanges_two, have_common};
ghost use Rattle.ca_rule.specs.TableTies.{may_change, may_fit_both, orders_may_fit, may_tie};

use crate::table::neighbourhood::{Neighbourhood, Symmetry};
use crate::table::placement::placements;
use crate::table::slot::Slot;
use crate::table::state_set::StateSet;
use crate::table::transition::{Transition, admits, is_variable};

/// Whether one of the transitions has a tie, in a table of so many states.
pub(crate) fn one_may_tie(
    states: u16,
    variables: &[StateSet],
    neighbourhood: Neighbourhood,
    symmetry: Symmetry,
    transitions: &[Transition],
) -> bool
    requires { states ≤ 256 }
    ensures { result ≡ list_any (λ (t : TransitionValue).
        may_tie states variables.now neighbourhood symmetry t.inputs t.result) transitions.now }
{
    let mut left = transitions;
    'transitions: while let Some((transition, later)) = left.split_first() {
        let (slots, becomes) = (transition.inputs(), transition.becomes());
        if may_tie(states, variables, neighbourhood, symmetry, slots, becomes) {
            return true;
        }
        left = later;
    }
    false
}

/// Whether a transition of these slots, the centre's first, and this result has a tie.
fn may_tie(
    states: u16,
    variables: &[StateSet],
    neighbourhood: Neighbourhood,
    symmetry: Symmetry,
    slots: &[Slot],
    becomes: Slot,
) -> bool
    requires { states ≤ 256 }
    ensures { result ≡ may_tie states variables.now neighbourhood symmetry slots.now becomes }
{
    let Some((centre, ring_slots)) = slots.split_first() else {
        return false;
    };
    let Slot::Variable(number) = becomes else {
        return false;
    };
    !is_variable(number, *centre)
        && exchanges_two(states, variables, ring_slots, number)
        && orders_may_fit(states, variables, neighbourhood, symmetry, number, slots)
}

/// Whether the variable may have each of two states under one order and not under another.
fn exchanges_two(states: u16, variables: &[StateSet], slots: &[Slot], number: usize) -> bool
    requires { states ≤ 256 }
    ensures { result ≡ exchanges_two states variables.now slots.now number }
{
    let mut count: u16 = 0;
    'states: for state in 0..states {
        if is_exchanged(states, variables, slots, number, state as u8) {
            count += 1;
        }
    }
    count >= 2
}

/// Whether the variable may have the state under one order and not under another.
fn is_exchanged(
    states: u16,
    variables: &[StateSet],
    slots: &[Slot],
    number: usize,
    cell: u8,
) -> bool
    requires { states ≤ 256 }
    ensures { result ≡ is_exchanged states variables.now slots.now number cell }
{
    admits(variables, Slot::Variable(number), cell)
        && slot_count(slots, number) <= taker_count(states, variables, slots, number, cell)
}

/// How many of the slots are the variable.
fn slot_count(slots: &[Slot], number: usize) -> usize
    ensures { result ≡ count_by (is_variable number) slots.now }
{
    slots
        .iter()
        .filter(|slot| is_variable(number, **slot))
        .count()
}

/// How many of the slots may take the state over from the variable.
fn taker_count(
    states: u16,
    variables: &[StateSet],
    slots: &[Slot],
    number: usize,
    cell: u8,
) -> usize
    requires { states ≤ 256 }
    ensures { result ≡ count_by (may_take_over states variables.now number cell) slots.now }
{
    slots
        .iter()
        .filter(|slot| may_take_over(states, variables, number, cell, **slot))
        .count()
}

/// Whether the slot, which isn't the variable, admits the state and another one.
fn may_take_over(states: u16, variables: &[StateSet], number: usize, cell: u8, slot: Slot) -> bool
    requires { states ≤ 256 }
    ensures { result ≡ may_take_over states variables.now number cell slot }
{
    !is_variable(number, slot)
        && admits(variables, slot, cell)
        && admits_another(states, variables, slot, cell)
}

/// Whether the slot admits another state than this one.
fn admits_another(states: u16, variables: &[StateSet], slot: Slot, cell: u8) -> bool
    requires { states ≤ 256 }
    ensures { result ≡ admits_another states variables.now slot cell }
{
    'states: for state in 0..states {
        if is_other(variables, slot, cell, state as u8) {
            return true;
        }
    }
    false
}

/// Whether the slot admits the state, which isn't this cell.
fn is_other(variables: &[StateSet], slot: Slot, cell: u8, state: u8) -> bool
    ensures { result ≡ (not (state == cell) && admits variables.now slot state) }
{
    state != cell && admits(variables, slot, state)
}

/// Whether the slots may fit one neighbourhood under two orders of the symmetry, with two states of the
/// variable. Under `permute` this isn't looked for, and the answer is yes.
fn orders_may_fit(
    states: u16,
    variables: &[StateSet],
    neighbourhood: Neighbourhood,
    symmetry: Symmetry,
    number: usize,
    slots: &[Slot],
) -> bool
    requires { states ≤ 256 }
    ensures { result ≡ orders_may_fit states variables.now neighbourhood symmetry number slots.now }
{
    match symmetry {
        Symmetry::Permute => true,
        _ => {
            let placements = placements(neighbourhood, symmetry);
            two_may_fit(states, variables, number, slots, placements, placements)
        }
    }
}

/// Whether they may under one of the orders that are left and one of all.
fn two_may_fit<'p>(
    states: u16,
    variables: &[StateSet],
    number: usize,
    slots: &[Slot],
    left: &[&'p [u8]],
    placements: &[&'p [u8]],
) -> bool
    requires { states ≤ 256 }
    ensures { result ≡ list_any (λ p. list_any (λ q.
        may_fit_both states variables.now number (zip slots.now p) (zip slots.now q))
        (map (λ p. p.now) placements.now)) (map (λ p. p.now) left.now) }
{
    let Some((first, later)) = left.split_first() else {
        return false;
    };
    one_may_fit(states, variables, number, slots, first, placements)
        || two_may_fit(states, variables, number, slots, later, placements)
}

/// Whether they may under the first order and one of these.
fn one_may_fit(
    states: u16,
    variables: &[StateSet],
    number: usize,
    slots: &[Slot],
    first: &[u8],
    placements: &[&[u8]],
) -> bool
    requires { states ≤ 256 }
    ensures { result ≡ list_any (λ q.
        may_fit_both states variables.now number (zip slots.now first.now) (zip slots.now q))
        (map (λ p. p.now) placements.now) }
{
    let Some((second, later)) = placements.split_first() else {
        return false;
    };
    may_fit_both(states, variables, number, slots, first, second)
        || one_may_fit(states, variables, number, slots, first, later)
}

/// Whether they may under these two orders, given by the places of the slots' cells.
fn may_fit_both(
    states: u16,
    variables: &[StateSet],
    number: usize,
    slots: &[Slot],
    first: &[u8],
    second: &[u8],
) -> bool
    requires { states ≤ 256 }
    ensures { result ≡ may_fit_both states variables.now number
        (zip slots.now first.now) (zip slots.now second.now) }
{
    slots.iter().zip(first).all(|(slot, place)| may_pass(
        states, variables, number, *slot, *place, slots, second,
    ))
}

/// Whether the cell at the place, which the slot takes, may be taken by the slot at that place under the other
/// order.
fn may_pass(
    states: u16,
    variables: &[StateSet],
    number: usize,
    slot: Slot,
    place: u8,
    slots: &[Slot],
    second: &[u8],
) -> bool
    requires { states ≤ 256 }
    ensures { result ≡ list_all
        (λ (b : SlotCell). not (place == b.1) || may_change states variables.now number slot b.0)
        (zip slots.now second.now) }
{
    slots.iter().zip(second).all(|(other, at)| place != *at
        || may_change(states, variables, number, slot, *other))
}

/// Whether a cell may be taken by the one slot under one order and by the other under another, and the
/// variable take two states.
fn may_change(states: u16, variables: &[StateSet], number: usize, slot: Slot, other: Slot) -> bool
    requires { states ≤ 256 }
    ensures { result ≡ may_change states variables.now number slot other }
{
    !(is_variable(number, slot) && is_variable(number, other))
        && have_common(states, variables, slot, other)
}

/// Whether both slots admit one state.
fn have_common(states: u16, variables: &[StateSet], slot: Slot, other: Slot) -> bool
    requires { states ≤ 256 }
    ensures { result ≡ have_common states variables.now slot other }
{
    'states: for state in 0..states {
        if both_admit(variables, slot, other, state as u8) {
            return true;
        }
    }
    false
}

/// Whether both slots admit the state.
fn both_admit(variables: &[StateSet], slot: Slot, other: Slot, state: u8) -> bool
    ensures { result ≡ (admits variables.now slot state && admits variables.now other state) }
{
    admits(variables, slot, state) && admits(variables, other, state)
}
