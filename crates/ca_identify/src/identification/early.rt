//! The planes of a pattern's first generations, with which later ones are compared.

ghost use Rattle.std.specs.Prelude.{◌≡◌, ◌≤◌, ◌++◌, ◌∷◌, [], max, OnOk, IfOk, IfSome};
ghost use Rattle.ca_quad.specs.Prelude.{AreSquareBoxes, IsTree, IsTrimmed, cell};
ghost use Rattle.ca_run.specs.Prelude.{LeaperGrows};
ghost use Rattle.ca_identify.specs.inner.Stages.{CanSearch, IsFirst, AreEarly};

use super::share::later_within;
use super::stage::First;
use ca_plane::{Automaton, Memory};
use ca_quad::{SquareBoxes, Store, Tree};
use ca_run::{LeapFault, Leaper};
use std::alloc::Global;

/// The planes of a live pattern after 0, 1, 2 .. generations, below `generations`: up to the first that is dead, or
/// lies far from the origin. `Work` is reported where `until` units of work are used up.
pub(super) fn early_planes<A: Automaton>(
    alloc: Global,
    leaper: &mut Leaper<A>,
    first: &First,
    generations: u64,
    until: u64,
) -> Result<Vec<First>, LeapFault>
    requires first { CanSearch (A.next_of leaper.old.rule) leaper.old.nodes first.now generations }
    ensures early { IfOk result (λ planes. AreEarly (A.next_of leaper.old.rule)
        (cell leaper.old.nodes first.now.tree) leaper.new.nodes planes.items) }
    ensures goes_on { LeaperGrows A leaper.old leaper.new }
    ensures bounded { leaper.new.spent.used ≤ max leaper.old.spent.used until }
{
    let mut boxes = SquareBoxes::new(alloc);
    let mut planes = Vec::new(alloc);
    let mut now = first.tree;
    'generations: while (planes.len() as u64) < generations {
        let Some(plane) = near_plane(alloc, leaper.store(), &now, &mut boxes)? else {
            return Ok(planes);
        };
        let tree = later_within(leaper, now, 1, until)?;
        push_plane(&mut planes, plane)?;
        now = tree;
    }
    Ok(planes)
}

fn push_plane(planes: &mut Vec<First>, plane: First) -> Result<(), Memory>
    ensures { OnOk result (planes.new.items ≡ planes.old.items ++ plane ∷ []) }
{
    planes.push(plane)?;
    Ok(())
}

// The plane of a tree, if it is live and lies near the origin. The boxes are those of squares that were measured before, and
// then of these too.
fn near_plane(
    alloc: Global,
    store: &Store,
    tree: &Tree,
    boxes: &mut SquareBoxes,
) -> Result<Option<First>, Memory>
    requires tree { IsTree store.now tree.now }
    requires trimmed { IsTrimmed store.now tree.now }
    requires boxes { AreSquareBoxes store.now boxes.old }
    ensures tree { IfOk result (λ found. IfSome found (λ plane. plane.tree ≡ tree.now)) }
    ensures first { IfOk result (λ found. IfSome found (IsFirst store.now)) }
    ensures boxes { OnOk result (AreSquareBoxes store.now boxes.new) }
{
    // Says what holds of every store.
    let _ = store.count();
    let Some(bounds) = store.bounds_with(alloc, *tree, boxes)? else {
        return Ok(None);
    };
    if tree.level > 62 {
        return Ok(None);
    }
    Ok(Some(First {
        tree: *tree,
        bounds,
    }))
}
