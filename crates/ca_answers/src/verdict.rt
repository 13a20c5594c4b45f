//! Verdicts on claims.

use crate::cause::Cause;

/// Why a claim is false.
#[derive(Clone, Copy, Debug, PartialEq, Eq)]
pub enum Refutation {
    /// The claim asks for a live pattern, and no cell is live.
    Empty,
    /// After `gens` generations, the claimed number, the cell at (`x`, `y`) is `found`, and the claim says
    /// `claimed`.
    Differs {
        x: i64,
        y: i64,
        found: u8,
        claimed: u8,
        gens: u64,
    },
    /// The claimed cells stand after the claimed period, but after `m` generations, fewer than that, the
    /// pattern was there already, moved by (`dx`, `dy`); and after no fewer. An oscillator's is moved by (0,
    /// 0).
    Earlier {
        m: u64,
        dx: i64,
        dy: i64,
    },
    /// The plane is empty after the claimed generations, but after `m` generations, fewer than that, it was
    /// already; and after no fewer.
    Died {
        m: u64,
    },
}

/// What is said of a claim.
#[derive(Clone, Copy, Debug, PartialEq, Eq)]
pub enum Verdict {
    /// The claim is true of the whole plane.
    Yes,
    /// The claim is false.
    No(Refutation),
    /// The claim isn't judged.
    Refused(Cause),
}

/// The verdict on the claim of a line of the claim text. Lines are counted from 1.
#[derive(Clone, Copy, Debug, PartialEq, Eq)]
pub struct Answer {
    pub line: u64,
    pub verdict: Verdict,
}
