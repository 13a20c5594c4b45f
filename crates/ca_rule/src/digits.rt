//! Digits, and the number of states that they write.

ghost use Rattle.std.specs.Prelude.{◌≡◌};
ghost use Rattle.ca_rule.specs.Digits.{are_digits, state_count};

use ca_plane::bytes::{all_digits, number};

/// Whether the bytes are one or more digits.
pub(crate) fn are_digits(bytes: &[u8]) -> bool
    ensures { result ≡ are_digits bytes.now }
{
    if bytes.is_empty() {
        return false;
    }
    all_digits(bytes)
}

/// The number of states that a value gives: from 2 to 256.
pub(crate) fn state_count(bytes: &[u8]) -> Option<u16>
    ensures { result ≡ state_count bytes.now }
{
    if !are_digits(bytes) {
        return None;
    }
    let count = number(bytes);
    if count < 2 {
        return None;
    }
    if count > 256 {
        return None;
    }
    Some(count as u16)
}
