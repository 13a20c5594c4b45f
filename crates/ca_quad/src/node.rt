//! What a store keeps.

ghost use Rattle.std.proofs.Common.{rules};
ghost use Rattle.std.specs.Cmp.Rules.{hashing};
ghost use Rattle.ca_quad.specs.inner.Hashed.{hash_key};

use crate::id::Id;
use std::hash::{Hash, Hasher};

/// A square that is kept. Corners and parts are in the order north-west, north-east, south-west, south-east.
#[derive(Clone, Copy, PartialEq, Eq, Drop)]
pub enum Node {
    /// The four cells of a 2 by 2 square, of which one at least has a state above 1.
    Leaf(u8, u8, u8, u8),
    /// An 8 by 8 square of two states: its parts are digits of base 65536, the north-western lowest.
    Block(u64),
    /// The level of a square, and its four parts, one level lower.
    Join(u8, Id, Id, Id, Id),
}

impl Hash for Node {
    ghost hash_input = { hash_key };

    ghost respects_eq = { Prim.search (hashing, rules) };

    // In one write, which takes a third of the time of a write for each part.
    fn hash<H: Hasher>(&self, state: &mut H) {
        match *self {
            Node::Leaf(nw, ne, sw, se) => state.write(&[nw, ne, sw, se]),
            Node::Block(cells) => state.write_u64(cells),
            Node::Join(_, nw, ne, sw, se) => state.write_u128(Id::four_numbers(nw, ne, sw, se)),
        }
    }
}
