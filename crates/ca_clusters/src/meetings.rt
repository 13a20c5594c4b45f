//! Which parts meet first.

ghost use Rattle.std.specs.Prelude.{ℕ, ◌+◌, ◌<◌, ◌≤◌, length, List, IsTrue};
ghost use Rattle.std.specs.List.{All};
ghost use Rattle.ca_clusters.specs.inner.Runs.{IsRunTo};
ghost use Rattle.ca_clusters.specs.inner.Encounters.{IsEncounter, IsTrueLook};

use crate::part::Part;
use ca_parts::{Meeting, first_meeting};

/// What becomes of some parts, each of which goes on alone.
#[derive(Clone, Copy)]
pub(crate) enum Encounter {
    /// Two of them meet, those at these places, and no two of all meet before.
    Meet { one: usize, other: usize },
    /// All come back, and no two ever meet.
    Never,
    /// None of that is known yet. So many pairs of parts that come back were looked at in vain.
    NotYet { pairs: u64 },
}

// What was seen of some pairs.
#[derive(Clone, Copy)]
struct Look {
    // No two of them meet before that many generations.
    most: u64,
    // These two meet then.
    first: Option<(usize, usize)>,
    // Both of each pair come back, and they never meet.
    is_never: bool,
    // Of so many it isn't known whether they meet, though both come back.
    pairs: u64,
}

/// What becomes of the parts, as far as it is known from the first `horizon` generations of each.
pub(crate) fn encounter_of(parts: &[Part], horizon: u64) -> Encounter
    ensures { (next : List ℕ → ℕ) (count : ℕ) → All (IsRunTo next count horizon) parts.now
        → IsEncounter next parts.now result }
{
    let mut look = Look {
        most: horizon,
        first: None,
        is_never: true,
        pairs: 0,
    };
    'parts: for other in 0..parts.len() {
        look = with_part(look, parts, other);
    }
    match look.first {
        Some((one, other)) => Encounter::Meet { one, other },
        None if look.is_never && are_back(parts) => Encounter::Never,
        None => Encounter::NotYet { pairs: look.pairs },
    }
}

// Whether all parts are known to come back.
fn are_back(parts: &[Part]) -> bool
    ensures { IsTrue result → All (λ part. IsTrue part.is_back) parts.now }
{
    parts.iter().all(|part| part.is_back)
}

// The look, with the pairs of this part and one before it.
fn with_part(look: Look, parts: &[Part], other: usize) -> Look
    requires other { other < length parts.now }
    requires look { IsTrueLook parts.now 0 other look }
    ensures look { IsTrueLook parts.now 0 (other + 1) result }
    ensures most { result.most ≤ look.most }
{
    let mut look = look;
    'parts: for one in 0..other {
        look = with_pair(look, parts, one, other);
    }
    look
}

// The look, with one more pair.
fn with_pair(look: Look, parts: &[Part], one: usize, other: usize) -> Look
    requires one { one < other }
    requires other { other < length parts.now }
    requires look { IsTrueLook parts.now one other look }
    ensures look { IsTrueLook parts.now (one + 1) other result }
    ensures most { result.most ≤ look.most }
{
    let (first, second) = (&parts[one], &parts[other]);
    let both_back = first.is_back && second.is_back;
    match first_meeting(&first.shows, &second.shows, look.most) {
        Meeting::Never => Look {
            is_never: look.is_never && both_back,
            ..look
        },
        Meeting::At(n) => Look {
            most: n,
            first: Some((one, other)),
            is_never: false,
            ..look
        },
        Meeting::NotYet => Look {
            is_never: false,
            pairs: look.pairs.saturating_add(u64::from(both_back)),
            ..look
        },
    }
}
