//! A node that is written.

/// A node that is written: an 8 by 8 square of two states by its rows from the top, of which bit 0 is the
/// west-most cell; a 2 by 2 square by its four states; or a square by its level and the numbers of its four
/// parts.
#[derive(Clone, Copy, Drop)]
pub(crate) enum WrittenNode {
    Leaf([u8; 8]),
    Cells([u8; 4]),
    Parts(u8, [u64; 4]),
}
