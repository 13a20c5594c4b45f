//! Pattern files that were read, and their patterns.

use crate::format::Format;
use ca_plane::Bounds;
use ca_quad::{Store, Tree};
use ca_rle::RleText;
use ca_rule::Rule;

/// A pattern that was read into a store: the format of its file, the tree of its cells, of the smallest
/// level, its rule text, and its generation count.
#[derive(Drop)]
pub struct Loaded {
    pub kind: Format,
    pub tree: Tree,
    pub rule_text: Vec<u8>,
    pub generation: u64,
}

/// A pattern file at a glance: its format, the printed form of its rule, its generation count, the number of
/// its live cells, and the smallest box round them, where there are any.
#[derive(Drop)]
pub struct Summary {
    pub kind: Format,
    pub rule_text: Vec<u8>,
    pub generation: u64,
    pub cells: u128,
    pub bounds: Option<Bounds>,
}

/// A pattern of a file: cells under a rule, at a generation.
#[derive(Drop)]
pub struct Pattern<'a, 't> {
    /// The cells, as they are at hand.
    pub cells: Cells<'a>,
    /// The format of the file.
    pub kind: Format,
    /// The rule that the file's rule text names. No cell has a state that it doesn't have.
    pub rule: Rule<'t>,
    /// The generation count, below 2^63.
    pub generation: u64,
}

/// The cells of a pattern.
#[derive(Drop)]
pub enum Cells<'a> {
    /// Those of an RLE file, which stay in its bytes.
    Text(RleText<'a>),
    /// Those of a tree.
    Squares(StoredTree),
}

/// A tree of the smallest level, which is at most 62, and the store of its squares.
#[derive(Drop)]
pub struct StoredTree {
    pub store: Store,
    pub tree: Tree,
}
