//! The planes of a pattern some generations on, cell by cell.

ghost use Rattle.std.specs.Prelude.{◌≡◌, ◌≤◌, IfOk, IfSome, IsTrue, ◌↔◌};
ghost use Rattle.ca_plane.specs.Prelude.{Picture, cell, IsAfter, most_generations, HasFewCells};
ghost use Rattle.ca_steps.specs.Prelude.{HasStates};
ghost use Rattle.ca_run.specs.Prelude.{LeaperGrows};
ghost use Rattle.ca_budget.specs.Prelude.{EndsAtLimit};
ghost use Rattle.ca_pattern.specs.Prelude.{ShowsTree, IsPattern};

use ca_evolution::{Observer, later_tree_within};
use ca_plane::{Automaton, Plane, Point};
use ca_quad::{QuadFault, Tree};
use ca_run::{LeapFault, Leaper};
use std::alloc::Global;

/// The plane of a pattern's tree after `generations` generations. None where that takes more units of work than until
/// `most` are used up in all, where a live cell lies outside the square of a plane, and where too many cells are live
/// or one has a state that isn't below `states`.
pub(crate) fn plane_after<A: Automaton, O: Observer>(
    alloc: Global,
    leaper: &mut Leaper<A>,
    states: u16,
    pattern: Tree,
    generations: u64,
    most: u64,
    observer: &mut O,
) -> Result<Option<Plane>, LeapFault>
    requires pattern { IsPattern leaper.old.nodes pattern }
    requires few { generations ≤ most_generations }
    ensures plane { (cells : Picture) → ShowsTree leaper.old.nodes pattern cells
        → IfOk result (λ found. IfSome found (IsAfter (A.next_of leaper.old.rule) cells generations)) }
    ensures states { IfOk result (λ found. IfSome found (HasStates states)) }
    ensures few { IfOk result (λ found. IfSome found (λ plane. HasFewCells (cell plane))) }
    ensures goes_on { LeaperGrows A leaper.old leaper.new }
    ensures work { EndsAtLimit leaper.new.spent result }
{
    // Says what holds of every leaper.
    let _ = leaper.store();
    let Some(later) = later_tree_within(leaper, pattern, generations, most, observer)? else {
        return Ok(None);
    };
    match leaper.store().to_plane(alloc, later) {
        Ok(plane) if has_states(plane.as_slice(), states) => Ok(Some(plane)),
        Ok(_) => Ok(None),
        Err(QuadFault::Memory) => Err(LeapFault::Memory),
        Err(_) => Ok(None),
    }
}

// Whether all states are below the number.
fn has_states(cells: &[(Point, u8)], states: u16) -> bool
    ensures { IsTrue result ↔ HasStates states cells.now }
{
    cells.iter().all(|&(_, state)| u16::from(state) < states)
}
