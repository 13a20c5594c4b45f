//! The transitions of a rule table, with indices that pass over those that can't fit.

ghost use Rattle.std.specs.Prelude.{◌≡◌, ◌≤◌, true, IfOk, drop, unwrap_or};
ghost use Rattle.std.specs.List.{list_all};
ghost use Rattle.ca_rule.specs.inner.TableSearch.{placements_of};
ghost use Rattle.ca_rule.specs.inner.TablePlaces.{begins_at_centre, next_at};
ghost use Rattle.ca_rule.specs.inner.TransitionIndices.{IsIndex, AreIndices};

use crate::table::neighbourhood::{Neighbourhood, Symmetry};
use crate::table::placement::Orders;
use crate::table::state_set::StateSet;
use crate::table::ties::one_may_tie;
use crate::table::transition::Transition;
use crate::table::transition_index::TransitionIndex;
use ca_plane::{Memory, Nine};
use std::alloc::Global;
use std::marker::Model;

/// The variables of a table, its transitions, and an index of each 64 of them.
#[derive(Drop)]
pub(crate) struct IndexedTransitions {
    variables: Vec<StateSet>,
    transitions: Vec<Transition>,
    indices: Vec<TransitionIndex>,
}

impl Model for IndexedTransitions {
    ghost use Rattle.ca_rule.specs.inner.TransitionIndices.{Lines, AreIndices};

    ghost Value = { Lines };

    ghost view = { λ s. record { variables = s.variables.items; transitions = s.transitions.items } };

    ghost invariant = { λ s. AreIndices s.variables.items s.transitions.items s.indices.items };
}

impl IndexedTransitions {
    ghost use Rattle.std.specs.Prelude.{◌≡◌, ◌≤◌, true, IfOk};
    ghost use Rattle.std.specs.List.{list_all, list_any};
    ghost use Rattle.ca_rule.specs.TableNext.{Transition as TransitionValue};
    ghost use Rattle.ca_rule.specs.TableTies.{may_tie};
    ghost use Rattle.ca_rule.specs.inner.TableSearch.{placements_of};
    ghost use Rattle.ca_rule.specs.inner.TablePlaces.{begins_at_centre, next_at};
    ghost use Rattle.ca_rule.specs.inner.TransitionIndices.{Lines};

    /// The transitions of a table with this many states.
    ///
    /// # Errors
    ///
    /// Fails where there is no memory for their indices.
    pub(crate) fn of(
        alloc: Global,
        states: u16,
        variables: Vec<StateSet>,
        transitions: Vec<Transition>,
    ) -> Result<IndexedTransitions, Memory>
        requires { states ≤ 256 }
        ensures variables { IfOk result (λ indexed. indexed.variables ≡ variables.items) }
        ensures transitions { IfOk result (λ indexed. indexed.transitions ≡ transitions.items) }
    {
        let indices = indices_of(alloc, states, &variables, &transitions)?;
        Ok(IndexedTransitions {
            variables,
            transitions,
            indices,
        })
    }

    /// Whether one of the transitions has a tie, in a table of so many states.
    pub(crate) fn have_ties(
        &self,
        states: u16,
        neighbourhood: Neighbourhood,
        symmetry: Symmetry,
    ) -> bool
        requires { states ≤ 256 }
        ensures { result ≡ list_any (λ (t : TransitionValue).
            may_tie states self.now.variables neighbourhood symmetry t.inputs t.result) self.now.transitions }
    {
        one_may_tie(
            states,
            &self.variables,
            neighbourhood,
            symmetry,
            &self.transitions,
        )
    }

    /// What the first transition gives that fits in one of the orders; where none fits, the centre stays.
    pub(crate) fn next(&self, orders: Orders, nine: &Nine) -> u8
        requires centred { list_all begins_at_centre (placements_of orders) ≡ true }
        ensures { result ≡ next_at self.now.variables (placements_of orders) nine.now self.now.transitions }
    {
        let mut left: &[Transition] = &self.transitions;
        let mut indices: &[TransitionIndex] = &self.indices;
        'indices: while let Some((index, later)) = indices.split_first() {
            if let Some(state) = indexed_outcome(index, &self.variables, left, orders, nine) {
                return state;
            }
            left = tail_after_64(left);
            indices = later;
        }
        first_outcome(&self.variables, left, orders, nine)
    }
}

/// An index of each 64 of the transitions of a table with this many states.
fn indices_of(
    alloc: Global,
    states: u16,
    variables: &[StateSet],
    transitions: &[Transition],
) -> Result<Vec<TransitionIndex>, Memory>
    requires { states ≤ 256 }
    ensures { IfOk result (λ indices. AreIndices variables.now transitions.now indices.items) }
{
    let mut indices = Vec::new(alloc);
    let mut left = transitions;
    'indices: while !left.is_empty() {
        indices.push(TransitionIndex::of(alloc, states, variables, left)?)?;
        left = tail_after_64(left);
    }
    Ok(indices)
}

/// The transitions after the first 64.
fn tail_after_64(transitions: &[Transition]) -> &[Transition]
    ensures { result.now ≡ drop 64 transitions.now }
{
    if transitions.len() <= 64 {
        return &[];
    }
    transitions.split_at(64).1
}

/// What the first of 64 transitions gives that fits in one of the orders, if one of them fits.
fn indexed_outcome(
    index: &TransitionIndex,
    variables: &[StateSet],
    transitions: &[Transition],
    orders: Orders,
    nine: &Nine,
) -> Option<u8>
    requires centred { list_all begins_at_centre (placements_of orders) ≡ true }
    requires index { IsIndex variables.now transitions.now index.now }
    ensures { next_at variables.now (placements_of orders) nine.now transitions.now
        ≡ unwrap_or result (next_at variables.now (placements_of orders) nine.now (drop 64 transitions.now)) }
{
    let mut bits = index.candidates(orders, nine);
    'candidates: while bits != 0 {
        let at = bits.trailing_zeros();
        let Some(transition) = transitions.get(at as usize) else {
            return None;
        };
        if let Some(state) = transition.outcome(variables, orders, nine) {
            return Some(state);
        }
        bits &= !(1 << at);
    }
    None
}

/// What the first transition gives that fits in one of the orders; where none fits, the centre stays.
pub(crate) fn first_outcome(
    variables: &[StateSet],
    transitions: &[Transition],
    orders: Orders,
    nine: &Nine,
) -> u8
    requires centred { list_all begins_at_centre (placements_of orders) ≡ true }
    ensures { result ≡ next_at variables.now (placements_of orders) nine.now transitions.now }
{
    let mut left = transitions;
    'transitions: while let Some((transition, later)) = left.split_first() {
        if let Some(state) = transition.outcome(variables, orders, nine) {
            return state;
        }
        left = later;
    }
    nine[4]
}
