//! The slots of a transition while its fields are read.

ghost use Rattle.std.specs.Prelude.{◌≡◌, ◌≤◌, ◌<◌, ◌∷◌, [], ◌++◌, length};

use crate::table::slot::Slot;

/// Some of the slots of a transition, and its result after them.
#[derive(Clone, Copy)]
pub(crate) struct TransitionSlots {
    slots: [Slot; 10],
    count: usize,
    ghost few: { count ≤ 10 },
}

impl TransitionSlots {
    ghost use Rattle.ca_rule.specs.inner.TableSlots.{slots_of};

    /// Before the first field.
    pub(crate) fn new() -> TransitionSlots
        ensures { slots_of result ≡ [] }
    {
        TransitionSlots {
            slots: [Slot::Number(0); 10],
            count: 0,
        }
    }

    /// One more slot.
    pub(crate) fn push(&mut self, slot: Slot)
        requires { length (slots_of self.now) < 10 }
        ensures { slots_of self.new ≡ slots_of self.old ++ slot ∷ [] }
    {
        self.slots[self.count] = slot;
        self.count += 1;
    }

    /// All slots.
    pub(crate) fn all(&self) -> &[Slot]
        ensures { result.now ≡ slots_of self.now }
    {
        &self.slots[..self.count]
    }
}
