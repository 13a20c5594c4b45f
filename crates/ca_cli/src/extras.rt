//! What a run is asked for besides claims or patterns, and how much each of these may take.

ghost use Rattle.std.specs.Prelude.{◌≡◌};
ghost use Rattle.ca_pattern.specs.Prelude.{AreGoodLimits};
ghost use Rattle.ca_cli.specs.{Words.memo_of, Words.work_of, Words.squares_of, Requests.AreExtras};

use crate::arguments::{MOST_MEMORY, with_limit_words};
use crate::values::{flag_value, number_value};
use ca_pattern::Limits;
use ca_plane::limits::MOST_MEMO;
use clap::{ArgMatches, Command};
use std::alloc::{AllocError, Global};

// About how many squares, with what is remembered of them, a megabyte has room for.
const SQUARES: u64 = 16384;

// How many megabytes a long run keeps of them, unless that is set.
const USUAL_MEMORY: u64 = 1024;

/// What a run is asked for besides claims or patterns, and how much each of these may take.
#[derive(Clone, Copy)]
pub struct Extras {
    /// What more there is to tell of each answer.
    pub explained: bool,
    /// How far each is that takes long.
    pub progress: bool,
    /// How many entries the memo of each may have, where that is set.
    pub memo: Option<u64>,
    /// How much work each may take, where that is set.
    pub work: Option<u64>,
    /// How many megabytes of squares and results a long run keeps, about, where that is set.
    pub memory: Option<u64>,
}

impl Extras {
    /// The limits of each. The words keep a memo within its limits, and one outside is brought within.
    pub fn limits(self) -> Limits
        ensures good { AreGoodLimits result }
        ensures memo { result.memo ≡ memo_of self.memo }
        ensures work { result.work ≡ work_of self.work }
    {
        let usual = Limits::default();
        let memo = self.memo.unwrap_or(usual.memo as u64);
        Limits {
            memo: memo.clamp(1, MOST_MEMO as u64) as usize,
            work: self.work.unwrap_or(usual.work),
        }
    }

    /// How many squares a long run may keep, in the megabytes of `memory`. The words keep these within their limits,
    /// and a number outside is brought within.
    pub fn most_squares(self) -> usize
        ensures { result ≡ squares_of self.memory }
    {
        let memory = self.memory.unwrap_or(USUAL_MEMORY).clamp(1, MOST_MEMORY);
        (SQUARES * memory) as usize
    }
}

/// The command with the words for this.
pub fn with_extras<'a>(alloc: Global, command: Command<'a>) -> Result<Command<'a>, AllocError> {
    with_limit_words(
        alloc,
        command,
        "Show how far a long claim is, also where standard error is no terminal",
        "How many entries each claim's memo may have: 1 to 16777216; unless set, 262144",
        "How many units of work each claim may take; unless set, 18446744073709551615",
    )
}

/// What the words ask for.
pub fn extras_of(words: &ArgMatches<'_>) -> Extras
    ensures { AreExtras words.now result }
{
    Extras {
        explained: flag_value(words, "explain"),
        progress: flag_value(words, "progress"),
        memo: number_value(words, "memo"),
        work: number_value(words, "work"),
        memory: number_value(words, "max-memory"),
    }
}
