//! What results in slots are kept by.

ghost use Rattle.std.specs.Prelude.{◌≡◌, IsTrue};

use ca_quad::Id;
use std::hash::{BuildHasher, BuildHasherDefault, FoldHasher};

/// What a result in a slot is kept by.
pub trait SlotKey: Copy {
    /// A number whose lowest bits tell the slot.
    fn slot_hash(self) -> u64;

    /// Whether it is the other one.
    fn is(self, other: Self) -> bool
        ensures { IsTrue result → self ≡ other };
}

// A square and a j: the result is the square's centre after 2^j generations.
impl SlotKey for (Id, u8) {
    fn slot_hash(self) -> u64 {
        BuildHasherDefault::<FoldHasher>::new().hash_one(self)
    }

    fn is(self, other: (Id, u8)) -> bool {
        self == other
    }
}

// Four squares: the result is the one in their middle as far ahead as it can be known.
impl SlotKey for (Id, Id, Id, Id) {
    fn slot_hash(self) -> u64 {
        let (nw, ne, sw, se) = self;
        let north = nw.number() as u64 | (ne.number() as u64) << 32;
        let south = sw.number() as u64 | (se.number() as u64) << 32;
        let mixed = north.wrapping_mul(FACTOR) ^ south.wrapping_mul(OTHER).rotate_left(32);
        (mixed ^ (mixed >> 32)).wrapping_mul(FACTOR) >> 32
    }

    fn is(self, other: (Id, Id, Id, Id)) -> bool {
        self == other
    }
}

// Odd numbers whose bits are mixed well.
const FACTOR: u64 = 0x9E3779B97F4A7C15;

const OTHER: u64 = 0xC2B2AE3D27D4EB4F;
