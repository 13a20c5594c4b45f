//! Results that cost little: tables of bounded size remember them, and may drop any.

ghost use Rattle.std.specs.Prelude.{◌≡◌, ℕ, ◌⊎◌, ◌<◌, ◌≤◌, [], length, IfSome};
ghost use Rattle.ca_memo.specs.SlotResults.{HasRecent};

use crate::slot_key::SlotKey;
use ca_quad::Id;
use std::alloc::Global;
use std::marker::Model;

// How many slots there are at first.
const FIRST: usize = 1024;

/// How many slots `entries` entries of a memo make: none, if they are too few for a table.
pub fn slot_count(entries: usize) -> usize
    ensures few { entries < 1024 → result ≡ 0 }
    ensures many { 1024 ≤ entries → result ≡ entries }
    ensures most { result ≤ entries }
{
    if entries < FIRST { 0 } else { entries }
}

/// Squares that are results, by their keys. A result has the slot of its key's hash until another comes
/// there.
#[derive(Drop)]
pub struct Slots<K: SlotKey> {
    slots: Vec<Option<(K, Id)>>,
    // How many slots there may be.
    most: usize,
    // How many results may come before there are to be more slots.
    left: usize,
}

impl<K: SlotKey> Model for Slots<K> {
    ghost use Rattle.std.specs.Prelude.{◌≤◌, length};
    ghost use Rattle.ca_memo.specs.SlotResults.{SlotsView};

    ghost Value = { SlotsView K };

    ghost view = { λ s. record { slots = s.slots.items; most = s.most } };

    ghost invariant = { λ s. length s.slots.items ≤ s.most };
}

impl<K: SlotKey> Slots<K> {
    /// Nothing yet, and no memory is taken. There may be `most` slots.
    pub fn new(alloc: Global, most: usize) -> Slots<K>
        ensures { result ≡ record { slots = []; most = most } }
    {
        Slots {
            slots: Vec::new(alloc),
            most,
            left: 0,
        }
    }

    /// Forgets all, and gives its memory back.
    pub fn forget(&mut self)
        ensures { self.new ≡ record { slots = []; most = self.old.most } }
    {
        *self = Slots::new(self.allocator(), self.most);
    }

    /// Where its memory comes from.
    pub fn allocator(&self) -> Global {
        *self.slots.allocator()
    }

    /// What is remembered for a key.
    pub fn get(&self, key: K) -> Option<Id>
        ensures { IfSome result (HasRecent self.now.slots key) }
    {
        let place = self.place(key);
        if place >= self.slots.len() {
            return None;
        }
        let (other, square) = self.slots[place]?;
        if !key.is(other) {
            return None;
        }
        Some(square)
    }

    /// Remembers a result, if there is memory for any.
    pub fn put(&mut self, key: K, square: Id)
        ensures results { (other : K) (any : ℕ) → HasRecent self.new.slots other any
            → HasRecent self.old.slots other any ⊎ ((other ≡ key) × (any ≡ square)) }
        ensures most { self.new.most ≡ self.old.most }
        ensures bounded { length self.new.slots ≤ self.new.most }
    {
        self.count_one();
        let place = self.place(key);
        if place < self.slots.len() {
            self.slots[place] = Some((key, square));
        }
    }

    // The slot of a key, where there are slots.
    fn place(&self, key: K) -> usize {
        key.slot_hash() as usize & self.slots.len().wrapping_sub(1)
    }

    // Counts a result that comes: where as many came as there are slots, there shall be more.
    fn count_one(&mut self)
        ensures results { (key : K) (square : ℕ) → HasRecent self.new.slots key square
            → HasRecent self.old.slots key square }
        ensures most { self.new.most ≡ self.old.most }
    {
        if self.left == 0 {
            self.grow();
            self.left = self.slots.len();
        } else {
            self.left -= 1;
        }
    }

    // Four times as many slots, where that isn't too many and there is memory. Most of what is kept isn't
    // found any more.
    fn grow(&mut self)
        ensures results { (key : K) (square : ℕ) → HasRecent self.new.slots key square
            → HasRecent self.old.slots key square }
        ensures most { self.new.most ≡ self.old.most }
    {
        let slots = self.slots.len();
        if slots > self.most / 4 || FIRST > self.most {
            return;
        }
        let _ = self.slots.resize((4 * slots).max(FIRST), None);
    }
}
