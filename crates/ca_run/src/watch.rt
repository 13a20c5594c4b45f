//! Those who watch a long run, and say how much it may keep.

use crate::leaper::Milestone;

/// How many squares a long run may keep where it pays, unless who watches it says otherwise.
pub const USUAL_SQUARES: usize = 16 << 20;

/// Sees how far a run of generations is, while it lasts, and says how many squares it may keep.
pub trait Watch {
    /// The run has reached this many of the generations that were asked for.
    fn reached(&mut self, run: Milestone);

    /// The run goes on: `used` units of work were done so far, and `squares` squares are kept. It is reported
    /// after each 65536 units of work or so.
    fn works(&mut self, used: u64, squares: usize);

    /// How many squares a long run may keep, about, before it drops those that it needs no more: it goes on with
    /// more where one generation needs them. What it drops costs time alone.
    fn most_squares(&self) -> usize {
        USUAL_SQUARES
    }
}

/// Watches nothing.
#[derive(Clone, Copy, Debug)]
pub struct Unwatched;

impl Watch for Unwatched {
    fn reached(&mut self, run: Milestone) {
        let _ = run;
    }

    fn works(&mut self, used: u64, squares: usize) {
        let _ = used;
        let _ = squares;
    }
}
