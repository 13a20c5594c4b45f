//! The numbers of claims: how shifts are read, limits, and how they are written.

ghost use Rattle.std.specs.Prelude.{◌≡◌, ◌≤◌, ℤ, pos, [], ◌∷◌, IsTrue, ◌↔◌, decimal, OnOk, MatchOption};
ghost use Rattle.std.specs.Fmt.{signed_decimal};
ghost use Rattle.ca_plane.specs.Prelude.{IsInteger, longest_period, Puts};
ghost use Rattle.ca_text.specs.Kinds.{IsShift, spaced};
ghost use Rattle.ca_text.specs.inner.Reading.{IsHeldShift};

use ca_plane::Memory;
use ca_plane::bytes::integer;
use ca_plane::limits::{GREATEST_SHIFT, LONGEST_PERIOD};
use ca_plane::text::{push_integer, push_number, push_text};

/// The integer that a word writes, as a shift is held: one that doesn't fit an `i64` is held as the nearest,
/// which is no shift either.
fn integer_of(word: &[u8]) -> Option<i64>
    ensures { MatchOption result ((n : ℤ) → IsInteger word.now n → ⊥)
        (λ i. (n : ℤ) × IsInteger word.now n × IsHeldShift n i) }
{
    integer(word)
}

/// The shift that two words write, that to the right first.
pub(crate) fn shift_of(right: &[u8], down: &[u8]) -> Option<(i64, i64)>
    ensures { MatchOption result ((x y : ℤ) → IsInteger right.now x → IsInteger down.now y → ⊥)
        (λ s. (x : ℤ) × (y : ℤ) × IsInteger right.now x × IsInteger down.now y
        × IsHeldShift x s.0 × IsHeldShift y s.1) }
{
    let dx = integer_of(right)?;
    let dy = integer_of(down)?;
    Some((dx, dy))
}

/// Whether a period is this at least, and not too long.
pub(crate) fn is_period(least: u64, period: u64) -> bool
    ensures { IsTrue result ↔ ((least ≤ period) × (period ≤ longest_period)) }
{
    least <= period && period <= LONGEST_PERIOD
}

/// Whether a pattern may be shifted so far in one direction.
pub(crate) fn is_shift(distance: i64) -> bool
    ensures { IsTrue result ↔ IsShift distance }
{
    -GREATEST_SHIFT <= distance && distance <= GREATEST_SHIFT
}

/// Whether a spaceship may be shifted so far, and is.
pub(crate) fn is_move(dx: i64, dy: i64) -> bool
    ensures { IsTrue result ↔ (IsShift dx × IsShift dy × ((dx ≡ pos 0) → (dy ≡ pos 0) → ⊥)) }
{
    if dx == 0 && dy == 0 {
        return false;
    }
    is_shift(dx) && is_shift(dy)
}

/// Puts a number after a blank.
pub(crate) fn push_count(out: &mut Vec<u8>, count: u64) -> Result<(), Memory>
    ensures { OnOk result (Puts out.old.items out.new.items (spaced (decimal count ∷ []))) }
{
    push_text(out, b" ")?;
    push_number(out, count)
}

/// Puts a number and a name, each after a blank.
pub(crate) fn push_count_and_name(out: &mut Vec<u8>, count: u64, name: &[u8]) -> Result<(), Memory>
    ensures { OnOk result (Puts out.old.items out.new.items (spaced (decimal count ∷ name.now ∷ []))) }
{
    push_count(out, count)?;
    push_text(out, b" ")?;
    push_text(out, name)
}

/// Puts the numbers of a shift, that to the right first, each after a blank.
pub(crate) fn push_vector(out: &mut Vec<u8>, dx: i64, dy: i64) -> Result<(), Memory>
    ensures { OnOk result (Puts out.old.items out.new.items
        (spaced (signed_decimal dx ∷ signed_decimal dy ∷ []))) }
{
    push_text(out, b" ")?;
    push_integer(out, dx)?;
    push_text(out, b" ")?;
    push_integer(out, dy)
}
