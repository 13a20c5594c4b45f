//! What stands for both of a claim's patterns.

/// One of the first pattern of a claim, and one of its second, which is the first again where the claim names
/// one alone.
#[derive(Clone, Copy, Drop)]
pub struct Both<T> {
    pub first: T,
    pub second: T,
}
