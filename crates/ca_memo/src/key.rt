//! What a memo's order of use is kept of.

use ca_quad::Id;

/// Results that are forgotten together: those at full leap of 64 squares with neighbouring numbers, or a
/// single other one, of a square after 2^j generations.
#[derive(Clone, Copy, Debug, PartialEq, Eq, Hash, Drop)]
pub enum Key {
    Page(u32),
    Single(Id, u8),
}
