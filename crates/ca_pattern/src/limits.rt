//! How much may be spent on the judgement of a claim.

ghost use Rattle.std.specs.Prelude.{◌≡◌};
ghost use Rattle.ca_pattern.specs.Limited.{AreGoodLimits};

/// How many entries a claim's memo may have, unless it is set.
pub const USUAL_MEMO: usize = 262144;

/// How much each claim of a text may take. Each has a memo of its own, and a count of its own.
#[derive(Clone, Copy, Debug, PartialEq, Eq)]
pub struct Limits {
    /// How many entries the memo may have: 1 to 16777216. An entry is one result, or up to 64 results at full
    /// leap of squares with neighbouring numbers; a quarter of the entries, and a sixteenth more under a rule
    /// of two states, is kept for results that are found quickly and may be dropped. With fewer entries a claim
    /// may take longer, and more work.
    pub memo: usize,
    /// How many units of work may be done. A unit is the centre of one square, not empty, after some
    /// generations, that wasn't remembered; one brick of 64 by 16 cells of a dense plane, one generation later;
    /// one square that is made of such bricks again; or up to 4096 squares that a long run copies. A claim that
    /// needs more is refused.
    pub work: u64,
}

impl Limits {
    /// A memo of 262144 entries, and as much work as can be counted.
    pub fn default() -> Limits
        ensures memo { result.memo ≡ 262144 }
        ensures work { result.work ≡ 18446744073709551615 }
        ensures good { AreGoodLimits result }
    {
        Limits {
            memo: USUAL_MEMO,
            work: u64::MAX,
        }
    }
}
