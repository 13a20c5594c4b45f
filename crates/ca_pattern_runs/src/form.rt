//! What is written of a pattern, and when.

use ca_pattern::Limits;

/// What is written, and the line that tells of it.
#[derive(Drop)]
pub struct FormText {
    /// The bytes of the text or the image.
    pub text: Vec<u8>,
    /// Of a picture the box of the live cells, if there are any, the scale and the generation, with an LF at
    /// the end. Of all else it is empty.
    pub caption: Vec<u8>,
}

/// How many generations a pattern is taken on before something is written of it, and how much that may take.
#[derive(Clone, Copy)]
pub struct Evolution {
    /// At most 1152921504606846976.
    pub generations: u64,
    pub limits: Limits,
}
