//! Patterns that were read.

use ca_quad::Tree;

/// A pattern that was read from a text into a store: the tree of its cells, of the smallest level, its rule
/// text, and its generation count.
#[derive(Drop)]
pub struct MacroPattern {
    pub tree: Tree,
    pub rule_text: Vec<u8>,
    pub generation: u64,
}
