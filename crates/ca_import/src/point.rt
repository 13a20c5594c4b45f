//! Points that a line gives by two words. Nothing here takes memory.

ghost use Rattle.std.specs.Prelude.{◌↔◌, IsTrue, IfOk, IfErr};
ghost use Rattle.ca_plane.specs.Prelude.{IsInRange};
ghost use Rattle.ca_import.specs.inner.Lines.{WritePoint, HavePointFault};

use crate::fault::ImportFault;
use ca_plane::Point;
use ca_plane::bytes::integer;
use ca_plane::limits::RANGE;

/// Whether the point is in the range of a file.
fn is_in_range(at: Point) -> bool
    ensures { IsTrue result ↔ IsInRange at }
{
    -RANGE <= i128::from(at.x)
        && i128::from(at.x) < RANGE
        && -RANGE <= i128::from(at.y)
        && i128::from(at.y) < RANGE
}

/// The point whose x and y two words write.
///
/// # Errors
///
/// `Syntax` where one of them writes no integer; else `Range` where the point is out of range.
pub(crate) fn point(x: &[u8], y: &[u8]) -> Result<Point, ImportFault>
    ensures point { IfOk result (WritePoint x.now y.now) }
    ensures range { IfOk result IsInRange }
    ensures fault { IfErr result (HavePointFault x.now y.now) }
{
    let Some(x) = integer(x) else {
        return Err(ImportFault::Syntax);
    };
    let Some(y) = integer(y) else {
        return Err(ImportFault::Syntax);
    };
    let at = Point { y, x };
    if !is_in_range(at) {
        return Err(ImportFault::Range);
    }
    Ok(at)
}
