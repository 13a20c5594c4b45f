//! The pattern files of a census.

ghost use Rattle.std.specs.Prelude.{◌<◌, ◌↔◌, IfOk, IfErr, IsTrue, IsFalse};
ghost use Rattle.std.specs.List.{All, Any};
ghost use Rattle.ca_plane.specs.Prelude.{IsInRange, IsWord, generation_limit};
ghost use Rattle.ca_census.specs.Prelude.{FitsFile};
ghost use Rattle.ca_census_files.specs.Files.{IsPatternFile};
ghost use Rattle.ca_census_files.specs.inner.Unwritten.{IsUnwritable};

use crate::files::FilesFault;
use crate::folder::NewFile;
use crate::names::rle_file;
use ca_census::Origin;
use ca_plane::limits::RANGE;
use ca_plane::{Plane, Point};
use ca_rle::write_rle;
use std::alloc::Global;

// Whether a file may have a live cell at this point.
fn is_in_range(point: Point) -> bool
    ensures { IsTrue result ↔ IsInRange point }
{
    let (x, y) = (i128::from(point.x), i128::from(point.y));
    -RANGE <= x && x < RANGE && -RANGE <= y && y < RANGE
}

// Whether some of these cells lies where no file may have a live one.
fn has_cell_out_of_range(cells: &[(Point, u8)]) -> bool
    ensures out { IsTrue result → Any (λ e. IsInRange e.0 → ⊥) cells.now }
    ensures within { IsFalse result → All (λ e. IsInRange e.0) cells.now }
{
    cells.iter().any(|&(point, _)| !is_in_range(point))
}

/// The file with the cells of a plane, under the rule of its origin, at this generation, for the pattern of this name.
///
/// # Errors
///
/// `Range` where a cell is live where no file may have one; else `Memory` where there is no memory for it.
pub(crate) fn pattern_file(
    alloc: Global,
    name: &[u8],
    plane: &Plane,
    origin: &Origin,
    generation: u64,
) -> Result<NewFile, FilesFault>
    requires word { IsWord origin.now.rule_text.items }
    requires generation { generation < generation_limit }
    requires fits { FitsFile origin.now.states plane.now }
    ensures file { IfOk result (IsPatternFile name.now plane.now origin.now generation) }
    ensures none { IfErr result (IsUnwritable plane.now) }
{
    if has_cell_out_of_range(plane.as_slice()) {
        return Err(FilesFault::Range);
    }
    let Ok(bytes) = write_rle(alloc, plane, &origin.rule_text, generation, origin.states) else {
        return Err(FilesFault::Memory);
    };
    match rle_file(alloc, name) {
        Ok(name) => Ok(NewFile { name, bytes }),
        Err(_) => Err(FilesFault::Memory),
    }
}
