//! How far a pattern is looked at to find out what it is, and what is found.

ghost use Rattle.std.specs.Prelude.{◌≡◌, None};

use crate::identity::Identity;

/// How far a pattern is looked at.
#[derive(Clone, Copy, Debug, PartialEq, Eq)]
pub struct Scope {
    /// The longest period and the longest life that are looked for, in generations: 1 to 4294967295.
    pub limit: u64,
    /// How many units of work the generations after the first two may take together, if that is bounded. Where they
    /// would take more, no more generations are looked at. The count of work is the same on every machine, so what
    /// is found doesn't depend on how fast that is.
    pub patience: Option<u64>,
}

impl Scope {
    /// All generations up to a limit, whatever they take.
    pub fn whole(limit: u64) -> Scope
        ensures { result ≡ record { limit = limit; patience = None } }
    {
        Scope {
            limit,
            patience: None,
        }
    }
}

/// What a pattern is found to be.
#[derive(Clone, Copy, Debug, PartialEq, Eq)]
pub struct Look {
    pub identity: Identity,
    /// The generations within which it is that: all up to the limit of the scope, unless patience ended the look.
    pub limit: u64,
    /// The units of work that it took.
    pub work: u64,
}
