//! Codes that are found without the trees of an object's phases.

ghost use Rattle.std.specs.Prelude.{◌≡◌, ◌≤◌, ℕ, ℤ, List, replicate, IfOk, IfSome};
ghost use Rattle.ca_plane.specs.Prelude.{cells_after, longest_period, Picture};
ghost use Rattle.ca_quad.specs.Prelude.{cell};
ghost use Rattle.ca_apgcode.specs.Prelude.{IsObjectCode};
ghost use Rattle.ca_answers.specs.Prelude.{IsIdentity, IsCodeOf, HasGoodPeriod};
ghost use Rattle.ca_pattern.specs.Prelude.{IsNearTree, ShowsTree};
ghost use Rattle.ca_apgcode_search.specs.Countings.{MayGoBy};
ghost use Rattle.ca_apgcode_search.specs.inner.Large.{IsBackBy};

use crate::large::is_too_large;
use crate::small::least_of_small;
use ca_answers::Identity;
use ca_apgcode::{ObjectKind, object_code};
use ca_plane::{Automaton, Counting, Memory};
use ca_quad::{SquareBoxes, Tree};
use ca_run::Leaper;
use ca_text::Kind;
use std::alloc::Global;

/// The code of an oscillator or a spaceship that is so large that no phase fits into 40 by 40 cells, or whose phases all do, where
/// the rule goes by a counting. None says nothing.
pub fn quick_code<A: Automaton>(
    alloc: Global,
    leaper: &Leaper<A>,
    tree: &Tree,
    identity: Identity,
    counting: Option<Counting>,
) -> Result<Option<Vec<u8>>, Memory>
    requires tree { IsNearTree leaper.now.nodes tree.now }
    requires period { HasGoodPeriod identity }
    ensures { (next : List ℕ → ℕ) (cells : Picture) (limit : ℕ) → next (replicate 9 0) ≡ 0
        → MayGoBy next (cell leaper.now.nodes tree.now) counting → IsIdentity next cells limit identity
        → ShowsTree leaper.now.nodes tree.now cells
        → IfOk result (λ found. IfSome found (λ code. IsCodeOf next cells identity code.items)) }
{
    // Says what holds of every leaper.
    let _ = leaper.store();
    match identity {
        Identity::Claim(Kind::Oscillator { period }) => {
            code_of_phases(
                alloc,
                leaper,
                tree,
                ObjectKind::Oscillator,
                period,
                counting,
            )
        }
        Identity::Claim(Kind::Spaceship { period, .. }) => {
            code_of_phases(alloc, leaper, tree, ObjectKind::Spaceship, period, counting)
        }
        _ => Ok(None),
    }
}

// The code of the first `period` phases.
fn code_of_phases<A: Automaton>(
    alloc: Global,
    leaper: &Leaper<A>,
    tree: &Tree,
    kind: ObjectKind,
    period: u64,
    counting: Option<Counting>,
) -> Result<Option<Vec<u8>>, Memory>
    requires tree { IsNearTree leaper.now.nodes tree.now }
    requires some { 1 ≤ period }
    requires most { period ≤ longest_period }
    ensures { (next : List ℕ → ℕ) (dx dy : ℤ) → next (replicate 9 0) ≡ 0
        → MayGoBy next (cell leaper.now.nodes tree.now) counting
        → IsBackBy next (cell leaper.now.nodes tree.now) period dx dy → IfOk result (λ found. IfSome found
        (λ code. IsObjectCode kind period (cells_after next (cell leaper.now.nodes tree.now)) period code.items)) }
{
    let mut boxes = SquareBoxes::new(alloc);
    let Some(bounds) = leaper.store().bounds_with(alloc, *tree, &mut boxes)? else {
        return Ok(None);
    };
    if is_too_large(&bounds, period) {
        let number = object_code(alloc, kind, u128::from(period), None)?;
        return Ok(Some(number));
    }
    let Some(counting) = counting else {
        return Ok(None);
    };
    let Some(least) = least_of_small(alloc, leaper, tree, &mut boxes, period, counting)? else {
        return Ok(None);
    };
    let code = object_code(alloc, kind, u128::from(period), Some(least))?;
    Ok(Some(code))
}
