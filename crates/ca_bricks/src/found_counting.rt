//! The counting of neighbours by which cells go on, found from their next states.

ghost use Rattle.std.specs.Prelude.{◌≡◌, ◌≤◌, true, IfSome};
ghost use Rattle.ca_plane.specs.Prelude.{counted_sum, counting_next};
ghost use Rattle.ca_bricks.specs.inner.Neighbourhoods.{neighbourhood, AreNextStates};

use crate::next_states::{NEIGHBOURHOODS, cell, state_at};
use ca_plane::{Counting, Neighbourhood};

// The counting of a rule with these next states of all neighbourhoods, where it goes by one.
pub(crate) fn counting_of(next_states: &[u8]) -> Option<Counting>
    ensures { IfSome result (λ counting. AreNextStates (counting_next counting) next_states.now) }
{
    let all = [
        Neighbourhood::Moore,
        Neighbourhood::VonNeumann,
        Neighbourhood::Hexagonal,
    ];
    'all: for counted in all {
        let counting = read_counting(counted, next_states);
        if gives(counting, next_states) {
            return Some(counting);
        }
    }
    None
}

// By how many live cells among the counted ones a cell is live in these next states, if it goes by that.
fn read_counting(counted: Neighbourhood, next_states: &[u8]) -> Counting {
    let mut counting = Counting {
        neighbourhood: counted,
        birth: 0,
        survival: 0,
    };
    'numbers: for number in 0..NEIGHBOURHOODS {
        if state_at(next_states, usize::from(number)) != 0 {
            let mask = 1 << live_count(counted, number);
            if cell(number, 1) == 0 {
                counting.birth |= mask;
            } else {
                counting.survival |= mask;
            }
        }
    }
    counting
}

// Whether the counting gives the state with the same number for each neighbourhood.
fn gives(counting: Counting, next_states: &[u8]) -> bool
    ensures { result ≡ true → AreNextStates (counting_next counting) next_states.now }
{
    'numbers: for number in 0..NEIGHBOURHOODS {
        if next_state(counting, number) != state_at(next_states, usize::from(number)) {
            return false;
        }
    }
    true
}

// The next state of the centre of the neighbourhood with this number.
fn next_state(counting: Counting, number: u16) -> u8
    ensures { result ≡ counting_next counting (neighbourhood number) }
{
    let mask = if cell(number, 1) == 0 {
        counting.birth
    } else {
        counting.survival
    };
    (mask >> live_count(counting.neighbourhood, number) & 1) as u8
}

// How many of the counted neighbours are live in the neighbourhood with this number.
fn live_count(counted: Neighbourhood, number: u16) -> u8
    ensures sum { result ≡ counted_sum counted (neighbourhood number) }
    ensures most { result ≤ 8 }
{
    let four = cell(number, 256) + cell(number, 64) + cell(number, 32) + cell(number, 128);
    match counted {
        Neighbourhood::Moore => {
            four + cell(number, 16) + cell(number, 8) + cell(number, 4) + cell(number, 2)
        }
        Neighbourhood::VonNeumann => four,
        Neighbourhood::Hexagonal => four + cell(number, 16) + cell(number, 2),
    }
}
