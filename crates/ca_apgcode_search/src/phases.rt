//! The least text of the phases of a pattern.

ghost use Rattle.std.specs.Prelude.{◌≡◌, ◌≤◌, ◌+◌, ◌-◌, ℕ, ℤ, IfOk, OnOk, option_map};
ghost use Rattle.ca_plane.specs.Prelude.{cells_after, longest_period};
ghost use Rattle.ca_quad.specs.Prelude.{AreSquareBoxes, cell};
ghost use Rattle.ca_run.specs.Prelude.{LeaperGrows};
ghost use Rattle.ca_budget.specs.Prelude.{EndsAtLimit};
ghost use Rattle.ca_apgcode.specs.Prelude.{IsLeastOfPhases};
ghost use Rattle.ca_evolution.specs.Prelude.{TakesSteps};
ghost use Rattle.ca_pattern.specs.Prelude.{IsNearTree, IsStart};

use crate::boxes::box_round;
use ca_apgcode::least_with;
use ca_evolution::later_tree;
use ca_plane::{Automaton, Memory};
use ca_quad::{SquareBoxes, Store, Tree};
use ca_run::{LeapFault, Leaper, Unwatched};
use std::alloc::Global;

/// The least text of the first `count` phases of a pattern, if one of them fits into 40 by 40 cells.
pub(crate) fn least_of_phases<A: Automaton>(
    alloc: Global,
    leaper: &mut Leaper<A>,
    pattern: &Tree,
    count: u64,
) -> Result<Option<Vec<u8>>, LeapFault>
    requires pattern { IsStart leaper.old.nodes pattern.now }
    requires some { 1 ≤ count }
    requires most { count ≤ longest_period }
    ensures least { IfOk result (λ least. IsLeastOfPhases
        (cells_after (A.next_of leaper.old.rule) (cell leaper.old.nodes pattern.now)) count
        (option_map (λ text. text.items) least)) }
    ensures goes_on { LeaperGrows A leaper.old leaper.new }
    ensures takes { TakesSteps leaper.old.spent.used leaper.new.spent.used
        (cells_after (A.next_of leaper.old.rule) (cell leaper.old.nodes pattern.now)) (count - 1) (count - 1) }
    ensures work { EndsAtLimit leaper.new.spent result }
{
    // Says what holds of every leaper.
    let _ = leaper.store();
    let mut boxes = SquareBoxes::new(alloc);
    let mut now = *pattern;
    let mut least = least_up_to(alloc, leaper.store(), pattern, &mut boxes, None)?;
    'phases: for n in 0..count - 1 {
        now = later_tree(leaper, now, 1, &mut Unwatched)?;
        least = least_up_to(alloc, leaper.store(), &now, &mut boxes, least)?;
        let _ = n;
    }
    Ok(least)
}

// The least text of the phases up to the one of this tree, from that of the phases before it.
fn least_up_to(
    alloc: Global,
    store: &Store,
    tree: &Tree,
    boxes: &mut SquareBoxes,
    least: Option<Vec<u8>>,
) -> Result<Option<Vec<u8>>, Memory>
    requires tree { IsNearTree store.now tree.now }
    requires boxes { AreSquareBoxes store.now boxes.old }
    ensures least { (phases : ℕ → ℤ → ℤ → ℕ) (n : ℕ)
        → ((x y : ℤ) → cell store.now tree.now x y ≡ phases n x y)
        → IsLeastOfPhases phases n (option_map (λ text. text.items) least)
        → IfOk result (λ now. IsLeastOfPhases phases (n + 1) (option_map (λ text. text.items) now)) }
    ensures boxes { OnOk result (AreSquareBoxes store.now boxes.new) }
{
    match box_round(alloc, store, tree, boxes)? {
        Some(grid) => {
            let least = least_with(alloc, least, &grid)?;
            Ok(Some(least))
        }
        None => Ok(least),
    }
}
