//! Leapers within the limits of a caller.

ghost use Rattle.std.specs.Prelude.{◌≡◌, IfOk};
ghost use Rattle.ca_pattern.specs.Prelude.{AreGoodLimits};
ghost use Rattle.ca_evolution.specs.Spending.{HasLimits};

use ca_pattern::Limits;
use ca_plane::{Automaton, Memory};
use ca_quad::Store;
use ca_run::Leaper;
use std::alloc::Global;

/// A leaper over the squares of a store under a rule, which has used up no work yet, and may remember and
/// compute as much as the limits say.
///
/// # Errors
///
/// Fails where there is no memory for the memo.
pub fn leaper_of<A: Automaton + Drop>(
    alloc: Global,
    store: Store,
    rule: A,
    limits: Limits,
) -> Result<Leaper<A>, Memory>
    requires good { AreGoodLimits limits }
    ensures store { IfOk result (λ l. l.nodes ≡ store) }
    ensures rule { IfOk result (λ l. l.rule ≡ rule) }
    ensures used { IfOk result (λ l. l.spent.used ≡ 0) }
    ensures limits { IfOk result (HasLimits limits) }
{
    Leaper::new(alloc, store, rule, limits.memo, limits.work)
}
