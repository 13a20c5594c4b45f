//! The next states of all neighbourhoods of nine cells, each of them dead or live.

ghost use Rattle.std.specs.Prelude.{◌≡◌, ◌<◌, ◌/◌, ◌%◌, slice_index, IfOk};
ghost use Rattle.ca_bricks.specs.inner.Neighbourhoods.{neighbourhood, AreNextStates};

use ca_plane::{Automaton, Memory, Nine};
use std::alloc::Global;

/// How many neighbourhoods there are.
pub(crate) const NEIGHBOURHOODS: u16 = 512;

// The state at a place, dead where there is none.
pub(crate) fn state_at(states: &[u8], place: usize) -> u8
    ensures { result ≡ slice_index states.now place }
{
    states.get(place).copied().unwrap_or(0)
}

// The neighbourhood with this number.
pub(crate) fn neighbourhood(number: u16) -> Nine
    ensures { result ≡ neighbourhood number }
{
    [
        cell(number, 16),
        cell(number, 256),
        cell(number, 8),
        cell(number, 64),
        cell(number, 1),
        cell(number, 32),
        cell(number, 4),
        cell(number, 128),
        cell(number, 2),
    ]
}

// The binary digit of this weight.
pub(crate) fn cell(number: u16, weight: u16) -> u8
    requires { 0 < weight }
    ensures { result ≡ number / weight % 2 }
{
    (number / weight % 2) as u8
}

// The rule's next state of each neighbourhood.
pub(crate) fn next_states<A: Automaton>(alloc: Global, rule: &A) -> Result<Vec<u8>, Memory>
    ensures { IfOk result (λ states. AreNextStates (A.next_of rule.now) states.items) }
{
    let mut states = Vec::new(alloc);
    'numbers: for number in 0..NEIGHBOURHOODS {
        states.push(rule.next(&neighbourhood(number)))?;
    }
    Ok(states)
}
