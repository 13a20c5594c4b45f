//! Planes that are taken apart.

ghost use Rattle.std.specs.Prelude.{IfOk};
ghost use Rattle.ca_plane.specs.Prelude.{cell};
ghost use Rattle.ca_parts.specs.Parts.{AreApart, AreFurther};
ghost use Rattle.ca_parts.specs.Components.{ArePartsOf, DontTouch};

use crate::taking::take_part;
use ca_plane::{Memory, Plane};
use std::alloc::Global;

/// The parts of the plane's live cells, each two of which are apart, and none of which can be taken apart
/// further: cells that are within 2 of each other in both directions are in one part. They come in the order
/// of their first cells, row by row from the top, and in a row by rising x.
///
/// # Errors
///
/// Fails where there is no memory for them.
pub fn components(alloc: Global, plane: &Plane) -> Result<Vec<Plane>, Memory>
    ensures { IfOk result (λ v. ArePartsOf AreApart (cell plane.now) v.items) }
{
    parts(alloc, plane, 2)
}

/// The islands of the plane's live cells, in the same order: cells that touch, at a side or a corner, are in
/// one.
///
/// # Errors
///
/// Fails where there is no memory for them.
pub fn islands(alloc: Global, plane: &Plane) -> Result<Vec<Plane>, Memory>
    ensures { IfOk result (λ v. ArePartsOf DontTouch (cell plane.now) v.items) }
{
    parts(alloc, plane, 1)
}

// The parts, each two of which have more than `reach` between them in some direction.
fn parts(alloc: Global, plane: &Plane, reach: u8) -> Result<Vec<Plane>, Memory>
    ensures { IfOk result (λ v. ArePartsOf (AreFurther reach) (cell plane.now) v.items) }
{
    let mut left = Vec::from_slice(alloc, plane.as_slice())?;
    let mut parts = Vec::new(alloc);
    'cells: for place in 0..left.len() {
        let (at, state) = left[place];
        if state != 0 {
            let part = take_part(alloc, &mut left, place, at, reach)?;
            parts.push(part)?;
        }
    }
    Ok(parts)
}
