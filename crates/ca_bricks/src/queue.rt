//! The bricks that wake.

ghost use Rattle.std.specs.Prelude.{◌≡◌, ◌+◌, ◌<◌, ◌^◌, [], IsOk, IfOk, OnOk};
ghost use Rattle.ca_bricks.specs.Bricks.{HasNeighbours, IsNotIn, QueueGrows};

use ca_plane::Memory;
use std::alloc::Global;
use std::marker::Model;

/// The numbers of bricks, each of those below the number of marks no more than once while the mark can rise.
#[derive(Drop)]
pub struct Queue {
    mark: u64,
    marks: Vec<u64>,
    list: Vec<usize>,
}

impl Model for Queue {
    ghost use Rattle.std.specs.Prelude.{ℕ, List};
    ghost use Rattle.ca_bricks.specs.Bricks.{HasMarks};

    ghost Value = { List ℕ };

    ghost view = { λ q. q.list.items };

    ghost invariant = { λ q. HasMarks q.marks.items q.mark q.list.items };
}

impl Queue {
    /// No brick, with marks for `count` bricks.
    pub fn new(alloc: Global, count: usize) -> Result<Queue, Memory>
        ensures { IfOk result (λ queue. queue ≡ []) }
    {
        let marks = vec![in alloc; 0; count]?;
        Ok(Queue {
            mark: 1,
            marks,
            list: Vec::new(alloc),
        })
    }

    // Where it has its memory from.
    pub(crate) fn allocator(&self) -> Global {
        *self.list.allocator()
    }

    // Puts in the brick if the word has a bit, it isn't in, and it has others on all sides.
    #[inline(always)]
    pub(crate) fn wake_if(
        &mut self,
        word: u64,
        t: usize,
        across: usize,
        count: usize,
    ) -> Result<(), Memory>
        requires { across + count < 2 ^ 63 }
        ensures grows { OnOk result (QueueGrows across count self.old self.new) }
        ensures woken { OnOk result (HasNeighbours across count t → IsNotIn self.new t → word ≡ 0) }
        ensures calm { word ≡ 0 → IsOk result × (self.new ≡ self.old) }
    {
        if word == 0 || t <= across || t >= count || t + across + 1 >= count {
            return Ok(());
        }
        if t >= self.marks.len() {
            self.list.push(t)?;
            return Ok(());
        }
        if self.marks[t] == self.mark {
            return Ok(());
        }
        self.list.push(t)?;
        self.marks[t] = self.mark;
        Ok(())
    }

    // Gives its list away for another, and is empty then. The mark rises; where it can't, all marks are
    // thrown away, and bricks may then stand in the list twice.
    pub(crate) fn take(&mut self, list: &mut Vec<usize>)
        ensures list { list.new.items ≡ self.old }
        ensures empty { self.new ≡ [] }
    {
        list.clear();
        std::mem::swap(&mut self.list, list);
        match self.mark.checked_add(1) {
            Some(mark) => self.mark = mark,
            None => self.marks.clear(),
        }
    }
}
