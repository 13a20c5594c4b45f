//! Results of squares with neighbouring numbers.

ghost use Rattle.std.specs.Prelude.{◌≡◌, ◌<◌, ℕ, IfSome};
ghost use Rattle.ca_memo.specs.Pages.{HasSlot};

use ca_quad::Id;
use std::mem;

/// Of how many squares a page has results.
pub const SQUARES: usize = 64;

/// The results at full leap of these squares, and whether one was looked up since the page was last spared.
#[derive(Clone, Copy, Drop)]
pub struct Page {
    pub slots: [Option<Id>; SQUARES],
    pub used: bool,
    // Which of the slots were looked up.
    pub looked_up: u64,
}

impl Page {
    // A page with no result.
    pub fn empty() -> Page
        ensures { (i result_id : ℕ) → HasSlot result i result_id → ⊥ }
    {
        Page {
            slots: [None; SQUARES],
            used: false,
            looked_up: 0,
        }
    }

    /// The result in a slot, and whether it is looked up for the first time.
    pub fn look_up(&mut self, slot: usize) -> Option<(Id, bool)>
        requires { slot < 64 }
        ensures found { IfSome result (λ found. HasSlot self.old slot found.0) }
        ensures same { self.new.slots ≡ self.old.slots }
    {
        self.used = true;
        let result_id = self.slots[slot]?;
        let first = (self.looked_up >> slot) & 1 == 0;
        self.looked_up |= 1 << slot;
        Some((result_id, first))
    }

    /// Whether it was used since it was last spared: now it wasn't.
    pub fn take_use(&mut self) -> bool
        ensures { self.new.slots ≡ self.old.slots }
    {
        mem::replace(&mut self.used, false)
    }
}
