//! Where the words of a grid lie, and how far its bricks reach.

ghost use Rattle.std.specs.Prelude.{◌≡◌, true, ℕ, ◌+◌, ◌*◌, ◌<◌, ◌≤◌, ◌^◌, ℤ, pos, neg_ℤ, ◌+ℤ◌, ◌<ℤ◌, ◌≤ℤ◌};
ghost use Rattle.ca_bricks.specs.Bricks.{IsGrid, IsNearGrid, LiesWithin, LiesNearOrigin, IsAligned};
ghost use Rattle.ca_bricks.specs.Words.{eight};

use crate::grid::{BrickGrid, WordPlace};

// The smallest number such that 2 to its power is a tree's reach, and the greatest.
const LEAST: u8 = 6;

const GREATEST: u8 = 62;

// Those of the `count` whole numbers from `from` onwards that aren't below 0: from the first to before the second.
fn naturals(from: i64, count: u64) -> (usize, usize)
    requires least { neg_ℤ (pos (2 ^ 61)) ≤ℤ from }
    requires most { (from +ℤ pos count) ≤ℤ pos (2 ^ 61) }
    ensures { (u : ℕ) → from ≤ℤ pos u → pos u <ℤ (from +ℤ pos count) → (result.0 ≤ u) × (u < result.1) }
{
    let to = from + count as i64;
    (
        usize::try_from(from).unwrap_or(0),
        usize::try_from(to).unwrap_or(0),
    )
}

/// The places of three quarters of a square.
#[derive(Clone, Copy)]
pub struct QuarterPlaces {
    pub ne: WordPlace,
    pub sw: WordPlace,
    pub se: WordPlace,
}

impl WordPlace {
    /// Which words there are among the `count` from here to the east, and which rows among the `count` to the
    /// south: from the first to before the second.
    pub fn naturals(self, count: u64) -> ((usize, usize), (usize, usize))
        requires { IsNearGrid count self }
        ensures words { (u : ℕ) → self.i ≤ℤ pos u → pos u <ℤ (self.i +ℤ pos count) → (result.0.0 ≤ u)
            × (u < result.0.1) }
        ensures rows { (v : ℕ) → self.j ≤ℤ pos v → pos v <ℤ (self.j +ℤ pos count) → (result.1.0 ≤ v)
            × (v < result.1.1) }
    {
        (naturals(self.i, count), naturals(self.j, count))
    }

    /// The places of the quarters of a square that begins here, each `half` words wide.
    pub fn quarters(self, half: u64) -> QuarterPlaces
        requires { IsNearGrid (half + half) self }
        ensures ne { (result.ne.i ≡ self.i +ℤ pos half) × (result.ne.j ≡ self.j) }
        ensures sw { (result.sw.i ≡ self.i) × (result.sw.j ≡ self.j +ℤ pos half) }
        ensures se { (result.se.i ≡ self.i +ℤ pos half) × (result.se.j ≡ self.j +ℤ pos half) }
    {
        let WordPlace { i, j } = self;
        let east = i + half as i64;
        let south = j + half as i64;
        QuarterPlaces {
            ne: WordPlace { i: east, j },
            sw: WordPlace { i, j: south },
            se: WordPlace { i: east, j: south },
        }
    }
}

impl BrickGrid {
    /// The smallest number from 6 onwards such that all its bricks lie within 2 to its power from the origin.
    pub fn reach(&self) -> u8
        requires grid { IsGrid self.now }
        requires place { LiesNearOrigin self.now }
        ensures least { 6 ≤ result }
        ensures most { result ≤ 62 }
        ensures within { LiesWithin (2 ^ result) self.now }
    {
        'powers: for power in LEAST..GREATEST {
            if self.lies_within(power) {
                return power;
            }
        }
        GREATEST
    }

    // Whether all its bricks lie within a power of two from the origin.
    fn lies_within(&self, power: u8) -> bool
        requires grid { IsGrid self.now }
        requires place { LiesNearOrigin self.now }
        requires power { power ≤ 62 }
        ensures { result ≡ true → LiesWithin (2 ^ power) self.now }
    {
        lies_within(self.x, 64 * self.across as u64, power)
            && lies_within(self.y, 16 * self.down as u64, power)
    }

    /// Where among its words a tree begins whose reach is a power of two.
    pub fn corner(&self, power: u8) -> WordPlace
        requires grid { IsGrid self.now }
        requires least { 6 ≤ power }
        requires most { power ≤ 62 }
        requires within { LiesWithin (2 ^ power) self.now }
        requires aligned { IsAligned self.now }
        ensures x { self.now.x +ℤ eight result.i ≡ neg_ℤ (pos (2 ^ power)) }
        ensures y { self.now.y +ℤ eight result.j ≡ neg_ℤ (pos (2 ^ power)) }
    {
        WordPlace {
            i: words_back(self.x, power),
            j: words_back(self.y, power),
        }
    }
}

// Two to a power.
fn reach_of(power: u8) -> i64
    requires { power ≤ 62 }
    ensures value { result ≡ pos (2 ^ power) }
    ensures most { result ≤ℤ pos (2 ^ 62) }
{
    (1u64 << power) as i64
}

// Whether the `count` cells from the coordinate `from` onwards lie within a power of two from 0.
fn lies_within(from: i64, count: u64, power: u8) -> bool
    requires power { power ≤ 62 }
    requires some { 1 ≤ count }
    requires least { neg_ℤ (pos (2 ^ 62)) ≤ℤ from }
    requires most { (from +ℤ pos count) ≤ℤ pos (2 ^ 62) }
    ensures { result ≡ true → (neg_ℤ (pos (2 ^ power)) ≤ℤ from) × ((from +ℤ pos count) ≤ℤ pos (2 ^ power)) }
{
    let way = reach_of(power);
    if from < -way {
        return false;
    }
    (from + way) as u64 + count <= 2 * way as u64
}

// How many words a power of two to the west of 0 lies to the east of a coordinate.
fn words_back(from: i64, power: u8) -> i64
    requires least { 6 ≤ power }
    requires most { power ≤ 62 }
    requires low { neg_ℤ (pos (2 ^ power)) ≤ℤ from }
    requires high { from <ℤ pos (2 ^ power) }
    requires aligned { (k : ℤ) × (from ≡ eight k) }
    ensures { from +ℤ eight result ≡ neg_ℤ (pos (2 ^ power)) }
{
    let beyond = (from + reach_of(power)) as u64 / 8;
    -(beyond as i64)
}
