//! How long leaps are, and how many squares a store may have, where a run makes too many.

ghost use Rattle.std.specs.Prelude.{◌≡◌, ℕ, ◌+◌, ◌-◌, ◌<◌, ◌≤◌, ◌^◌, max, min, true, false};
ghost use Rattle.ca_budget.specs.Tries.{tries, most_tries};

// How many squares a store may have at first, and how many more than before, where no fewer are allowed.
const ROOM: usize = 4 << 20;

const MORE: usize = 1 << 20;

// How many leaps a run may try after memory was refused, where more than `MOST_LEAPS` are left to it.
const MOST_TRIES: u64 = 1 << 8;

const MOST_LEAPS: u64 = 1 << 12;

// What part of a store's squares have results that were looked up again, at least, where a run repeats.
const REPEATED: usize = 4;

// How often a leap that was given up is tried again as long, while results of it are kept.
const MOST_REPEATS: u8 = 3;

/// With how many squares a leap is given up in a store that had `squares` before, where `most` are allowed.
pub fn room_beside(squares: usize, most: usize) -> usize
    ensures { result ≡ max (min (squares + min (2 ^ 20) most) (2 ^ 64 - 1)) (min (2 ^ 22) most) }
{
    squares.saturating_add(MORE.min(most)).max(ROOM.min(most))
}

/// Whether the cells of a run of n generations from a tree of this level may be many: where the level and the binary
/// digits of n sum to 15 or more. Where they sum to 14 or less, the run hardly makes more squares than fit.
pub fn is_long(level: u8, n: u64) -> bool
    ensures long { result ≡ true → (d : ℕ) → n < 2 ^ d → 15 ≤ level + d }
    ensures short { result ≡ false → (d : ℕ) × ((n < 2 ^ d) × (level + d ≤ 14)) }
{
    level > 14 || n >> (14 - level) > 0
}

/// By how many generations a run leaps in a store of its own, as a power of two, and how many squares there
/// may be.
#[derive(Clone, Copy)]
pub struct Pace {
    digit: u8,
    room: usize,
    // Whether memory was refused where there were fewer squares than might be.
    refused: bool,
    // Whether no leap was made since all squares but the tree's were dropped.
    fresh: bool,
    // How many leaps were tried since memory was refused.
    tried: u64,
    // How many squares are allowed where it pays to keep them.
    most: usize,
    // How often the same leap was given up, and its results kept.
    repeats: u8,
}

impl Pace {
    /// One generation at first, in a store that has `squares` squares, where `most` are allowed.
    pub fn new(squares: usize, most: usize) -> Pace {
        Pace {
            digit: 0,
            room: room_after(squares, first_room(most)),
            refused: false,
            fresh: false,
            tried: 0,
            most,
            repeats: 0,
        }
    }

    /// How many squares there may be.
    pub fn room(self) -> usize {
        self.room
    }

    /// By which power of two to leap, where `left` generations are left.
    pub fn digit(self, left: u64) -> u8
        requires { 1 ≤ left }
        ensures fits { 2 ^ result ≤ left }
        ensures low { result ≤ 60 }
    {
        power_within(self.digit.min(60), left)
    }

    /// After a leap by 2^digit generations, which made `made` squares: twice as long where these are few.
    pub fn note_leap(&mut self, digit: u8, made: usize)
        ensures { tries self.new < most_tries }
    {
        self.fresh = false;
        self.repeats = 0;
        self.note_try();
        if digit == self.digit && digit < 60 && made < self.room / 8 {
            self.digit += 1;
        }
    }

    /// Whether a leap was given up because there were `squares` squares, and may be tried with more.
    pub fn is_full(self, squares: usize) -> bool
        ensures { result ≡ true → self.room < 2 ^ 64 - 1 }
    {
        squares >= self.room && self.room < usize::MAX
    }

    /// Whether a store that has `squares` squares had better keep them, and have room for twice as many.
    pub fn is_worth_growing(self, squares: usize, looked_up: usize) -> bool
        ensures allowed { result ≡ true → self.room < self.most }
        ensures low { result ≡ true → self.room < 2 ^ 64 - 1 }
    {
        self.room < self.most && self.is_repeating(squares, looked_up)
    }

    /// Whether a run repeats that has made `squares` squares: `looked_up` results were looked up again since all was
    /// forgotten, and would be computed once more. Where memory was refused, none is spent on them.
    pub fn is_repeating(self, squares: usize, looked_up: usize) -> bool {
        !self.refused && looked_up >= squares / REPEATED
    }

    /// Whether a leap that was given up in a store of `squares` squares is tried again as long, since the results that
    /// were looked up are kept.
    pub fn may_repeat_leap(self, squares: usize, looked_up: usize) -> bool
        ensures { result ≡ true → self.repeats < 3 }
    {
        self.repeats < MOST_REPEATS && self.is_repeating(squares, looked_up)
    }

    /// After a leap that was given up, and is tried again as long.
    pub fn note_repeated_leap(&mut self)
        requires { self.old.repeats < 3 }
        ensures { tries self.new < tries self.old }
    {
        self.repeats += 1;
    }

    /// Twice as many squares.
    pub fn grow(&mut self)
        ensures least { tries self.new ≤ tries self.old }
        ensures less { self.old.room < 2 ^ 64 - 1 → tries self.new < tries self.old }
    {
        self.room = self.room.max(room_after(self.room, self.least()));
    }

    // How many squares there may be at least: where memory was refused, as few as it takes.
    fn least(self) -> usize
        ensures { 1 ≤ result }
    {
        if self.refused {
            1
        } else {
            first_room(self.most)
        }
    }

    /// After a leap that was given up: half as long, or with twice as many squares.
    pub fn note_abandoned_leap(&mut self)
        requires { self.old.room < 2 ^ 64 - 1 }
        ensures { tries self.new < tries self.old }
    {
        if self.digit == 0 {
            self.grow();
        } else {
            self.digit -= 1;
            self.repeats = 0;
        }
    }

    // One leap more was tried since memory was refused, if it was.
    fn note_try(&mut self)
        ensures { tries self.new ≡ tries self.old }
    {
        if self.refused {
            self.tried = self.tried.saturating_add(1);
        }
    }

    /// Whether a run that goes on with less memory is no use, where `left` generations are left: it tried many leaps,
    /// and many are left.
    pub fn is_hopeless(self, left: u64) -> bool {
        self.tried > MOST_TRIES && left >> self.digit.min(60) > MOST_LEAPS
    }

    /// Whether a leap for which memory was refused may be tried again: a shorter one, or where there are squares to drop.
    pub fn may_try_again(self) -> bool
        ensures { result ≡ true → self.fresh ≡ true → 1 ≤ self.digit }
    {
        self.digit > 0 || !self.fresh
    }

    /// After a leap for which memory was refused where there were `squares` squares, which are to be dropped: half as
    /// long, where it can be.
    pub fn note_refused_leap(&mut self, squares: usize)
        requires { self.old.fresh ≡ true → 1 ≤ self.old.digit }
        ensures { tries self.new < tries self.old }
    {
        self.digit = self.digit.saturating_sub(1);
        self.fresh = true;
        self.note_refusal(squares);
        self.note_try();
    }

    /// Memory was refused where there were `squares` squares. The first time, there may be half as many afterwards.
    pub fn note_refusal(&mut self, squares: usize)
        ensures { tries self.new ≤ tries self.old }
    {
        if !self.refused {
            self.refused = true;
            self.room = (squares / 2).max(1);
        }
    }

    /// Whether, with `squares` squares, too few are likely left for the next leap.
    pub fn is_late(self, squares: usize) -> bool {
        squares > self.room / 4 * 3
    }

    /// After squares were left behind, so that there are `squares`.
    pub fn note_copy(&mut self, squares: usize)
        ensures { tries self.new ≤ tries self.old }
    {
        self.fresh = true;
        self.room = self.room.max(room_after(squares, self.least()));
    }
}

// How many squares a store may have at first, where `most` are allowed.
fn first_room(most: usize) -> usize
    ensures { 1 ≤ result }
{
    ROOM.min(most).max(1)
}

// How many squares there may be in a store that has `squares` at first: `least` at least.
fn room_after(squares: usize, least: usize) -> usize
    requires { 1 ≤ least }
    ensures { squares < 2 ^ 64 - 1 → squares < result }
{
    squares.saturating_mul(2).max(least)
}

// The greatest power of two among the first ones that isn't more than a number.
fn power_within(digit: u8, left: u64) -> u8
    requires some { 1 ≤ left }
    requires low { digit ≤ 60 }
    ensures fits { 2 ^ result ≤ left }
    ensures low { result ≤ 60 }
{
    if digit == 0 {
        return 0;
    }
    if left >> digit > 0 {
        return digit;
    }
    power_within(digit - 1, left)
}
