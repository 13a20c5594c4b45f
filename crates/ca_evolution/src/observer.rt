//! Those who watch runs.

use ca_run::{Unwatched, Watch};

/// What a run is about, for those who watch it.
#[derive(Clone, Copy, Debug, PartialEq, Eq)]
pub enum RunSubject {
    /// The claim on this line of its text. Lines are counted from 1.
    Claim { line: u64 },
    /// The file at this index of those that are identified, starting at 0.
    File { index: usize },
    /// The pattern of the one file that a command is about.
    Pattern,
}

/// Sees how far the judging of a claim is, or another run, while it lasts. As a `Watch`, it also sees how many
/// generations a run has reached.
pub trait Observer: Watch {
    /// This is judged, identified or advanced by some generations next.
    fn begins(&mut self, subject: RunSubject);

    /// The cells of its pattern are looked for after `generations` generations: those of the claim, or an
    /// earlier time at which the pattern may be back or dead.
    fn goes_to(&mut self, generations: u64);

    /// It is done.
    fn ends(&mut self);
}

impl Observer for Unwatched {
    fn begins(&mut self, subject: RunSubject) {
        let _ = subject;
    }

    fn goes_to(&mut self, generations: u64) {
        let _ = generations;
    }

    fn ends(&mut self) {}
}
