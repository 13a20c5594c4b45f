//! What an id stands for.

/// What an id stands for: a small square of two states by its cells, any other by its place in the store.
#[derive(Clone, Copy, Drop)]
pub(crate) enum IdForm {
    // A 2 by 2 square: its cells are binary digits, the north-western lowest.
    Cells2(u8),
    // A 4 by 4 square: its parts are digits of base 16, the north-western lowest.
    Cells4(u16),
    // The square at this place of the store.
    Kept(u32),
}
