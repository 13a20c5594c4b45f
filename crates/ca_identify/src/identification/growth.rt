//! How far a live plane has grown.

ghost use Rattle.std.specs.Prelude.{IfOk};
ghost use Rattle.ca_quad.specs.Prelude.{cell};
ghost use Rattle.ca_pattern.specs.Prelude.{IsLowTree, HasLive};
ghost use Rattle.ca_identify.specs.inner.Stages.{IsGrowthOf};

use ca_answers::Growth;
use ca_pattern::bounds_of;
use ca_plane::Memory;
use ca_quad::{Store, Tree};
use std::alloc::Global;

/// How many cells of a live tree's plane are live, and the smallest box round them.
pub(super) fn growth_of(alloc: Global, store: &Store, tree: &Tree) -> Result<Growth, Memory>
    requires low { IsLowTree store.now tree.now }
    requires live { HasLive (cell store.now tree.now) }
    ensures { IfOk result (IsGrowthOf store.now tree.now) }
{
    let cells = store.population(alloc, *tree)?;
    match bounds_of(alloc, store, *tree)? {
        Some(bounds) => Ok(Growth { cells, bounds }),
        None => unreachable!(),
    }
}
