//! Work that is counted.

ghost use Rattle.std.specs.Prelude.{◌≡◌, ◌+◌, ◌<◌, ◌≤◌, ◌^◌, max, IsOk, OnOk, IfErr};
ghost use Rattle.ca_budget.specs.Spending.{Spends, EndsAtLimit};

use crate::fault::LeapFault;
use std::marker::Model;

/// How many units of work are used up, and how many may be.
#[derive(Clone, Copy)]
pub struct Work {
    used: u64,
    limit: u64,
}

impl Model for Work {
    ghost use Rattle.std.specs.Prelude.{◌≤◌};
    ghost use Rattle.ca_budget.specs.Spending.{Spent};

    ghost Value = { Spent };

    ghost view = { λ w. record { used = w.used; limit = w.limit } };

    ghost inverse = { λ s. record { used = s.used; limit = s.limit } };

    ghost invariant = { λ w. w.used ≤ w.limit };
}

impl Work {
    /// Nothing is used up yet.
    pub fn new(limit: u64) -> Work
        ensures { result ≡ record { used = 0; limit = limit } }
    {
        Work { used: 0, limit }
    }

    /// How much is used up: no more than may be.
    pub fn used(&self) -> u64
        ensures value { result ≡ self.now.used }
        ensures most { result ≤ self.now.limit }
    {
        self.used
    }

    /// How much may be used up.
    pub fn limit(&self) -> u64
        ensures { result ≡ self.now.limit }
    {
        self.limit
    }

    /// Lets `limit` units be used up in all, or as many as are used up already, where these are more.
    pub fn set_limit(&mut self, limit: u64)
        ensures { self.new ≡ record { used = self.old.used; limit = max self.old.used limit } }
    {
        self.limit = self.used.max(limit);
    }

    /// Counts `units` units of work before they are done. Only where fewer are left is this refused: then all are used
    /// up, and nothing is to be done.
    pub fn charge(&mut self, units: u64) -> Result<(), LeapFault>
        ensures enough { self.old.used + units ≤ self.old.limit → IsOk result }
        ensures counts { OnOk result (self.new.used ≡ self.old.used + units) }
        ensures most { self.new.used ≤ self.old.used + units }
        ensures fits { self.new.used < 2 ^ 64 }
        ensures spends { Spends self.old self.new }
        ensures work { EndsAtLimit self.new result }
        ensures err { IfErr result (λ fault. fault ≡ LeapFault.Work) }
    {
        if self.limit - self.used < units {
            self.used = self.limit;
            return Err(LeapFault::Work);
        }
        self.used += units;
        Ok(())
    }
}
