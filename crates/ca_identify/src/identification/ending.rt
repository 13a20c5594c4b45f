//! How a pattern ends: its plane is dead, or the pattern is there again.

ghost use Rattle.std.specs.Prelude.{ℕ, ◌≤◌, List};
ghost use Rattle.ca_plane.specs.Prelude.{Picture, longest_period};
ghost use Rattle.ca_answers.specs.Prelude.{IsIdentity};
ghost use Rattle.ca_identify.specs.inner.Stages.{IsReturn, IsEnding, generations_of};

use ca_answers::Identity;
use ca_text::Kind;

/// What a live pattern's plane shows after these generations, and at no earlier time, starting at 1.
#[derive(Clone, Copy)]
pub(super) enum Ending {
    /// No cell is live.
    Death { generations: u64 },
    /// The pattern is there again.
    Return(Recurrence),
}

/// After how many generations a pattern is there again, and the vector by which it is moved then.
#[derive(Clone, Copy)]
pub(super) struct Recurrence {
    pub(super) generations: u64,
    pub(super) dx: i64,
    pub(super) dy: i64,
}

/// What a pattern is that ends so.
pub(super) fn identity_of(ending: Ending) -> Identity
    ensures { (next : List ℕ → ℕ) (cells : Picture) (limit : ℕ) → generations_of ending ≤ limit
        → limit ≤ longest_period → IsEnding next cells ending → IsIdentity next cells limit result }
{
    match ending {
        Ending::Death { generations } => Identity::Claim(Kind::Dies { generations }),
        Ending::Return(again) => identity_of_return(again),
    }
}

// What a pattern is that is back so for the first time.
fn identity_of_return(again: Recurrence) -> Identity
    ensures { (next : List ℕ → ℕ) (cells : Picture) (limit : ℕ) → again.generations ≤ limit
        → limit ≤ longest_period → IsReturn next cells again → IsIdentity next cells limit result }
{
    let Recurrence {
        generations,
        dx,
        dy,
    } = again;
    if dx != 0 || dy != 0 {
        return Identity::Claim(Kind::Spaceship {
            period: generations,
            dx,
            dy,
        });
    }
    if generations == 1 {
        return Identity::Claim(Kind::Still);
    }
    Identity::Claim(Kind::Oscillator {
        period: generations,
    })
}
