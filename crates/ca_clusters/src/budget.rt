//! How much may still be computed.

ghost use Rattle.std.specs.Prelude.{◌≡◌, ◌+◌, ◌<◌, IsTrue, IsFalse};

/// Takes units from a budget, if it has so many. Else it is used up, and the answer is no.
pub(crate) fn take(budget: &mut u64, units: u64) -> bool
    ensures taken { IsTrue result → budget.new + units ≡ budget.old }
    ensures spent { IsFalse result → (budget.new ≡ 0) }
    ensures few { IsFalse result → budget.old < units }
{
    if *budget < units {
        *budget = 0;
        return false;
    }
    *budget -= units;
    true
}
