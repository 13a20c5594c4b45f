//! The list of the objects, by their places.

ghost use Rattle.std.specs.Prelude.{OnOk, List};
ghost use Rattle.std.specs.List.{flat_map};
ghost use Rattle.ca_plane.specs.Prelude.{Puts};
ghost use Rattle.ca_census.specs.declared.entry.CensusObject.{CensusObject};
ghost use Rattle.ca_census_runs.specs.Objects.{object_line};
ghost use Rattle.ca_census_runs.specs.Places.{ArePlaced};

use crate::objects::push_object;
use ca_census::CensusObject;
use ca_plane::Memory;

/// Sorts the objects by the upper left corners of their boxes, row by row.
///
/// # Errors
///
/// Fails where there is no memory for it.
pub(crate) fn sort_by_place(objects: &mut Vec<CensusObject>) -> Result<(), Memory>
    ensures { OnOk result (ArePlaced objects.old.items objects.new.items) }
{
    objects.sort_by(|one, other| {
        one.bounds
            .y0
            .cmp(&other.bounds.y0)
            .then(one.bounds.x0.cmp(&other.bounds.x0))
    })?;
    Ok(())
}

/// Puts a line for each of these objects.
///
/// # Errors
///
/// Fails where there is no memory for them.
pub(crate) fn push_objects(out: &mut Vec<u8>, objects: &[CensusObject]) -> Result<(), Memory>
    ensures { OnOk result (Puts out.old.items out.new.items (flat_map object_line objects.now)) }
{
    'objects: for object in objects {
        push_object(out, object)?;
    }
    Ok(())
}
