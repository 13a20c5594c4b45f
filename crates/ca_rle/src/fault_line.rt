//! A text judged before anything is drawn, and the line on which its first fault stands. Nothing here takes
//! memory.

ghost use Rattle.std.specs.Prelude.{◌≢◌, MatchOption, IfOk, IfErr};
ghost use Rattle.ca_rle.specs.declared.fault.RleFault.{RleFault};
ghost use Rattle.ca_rle.specs.declared.fault.RleFault.TheVariants.{Memory};
ghost use Rattle.ca_rle.specs.File.{RleFile};
ghost use Rattle.ca_rle.specs.Faults.{IsFirstRleFault};
ghost use Rattle.ca_rle.specs.FaultyLine.{IsRleFaultOn, IsFaultyRleLine};
ghost use Rattle.ca_rle.specs.inner.FrontParts.{IsGoodText};

use crate::extent::{bounds_of, measure};
use crate::fault::{LineFault, RleFault};
use crate::front::{Front, read_front};
use ca_plane::Bounds;
use ca_plane::limits::MOST_CELLS;

/// A text without a fault.
#[derive(Clone, Copy)]
pub(crate) struct GoodText<'a> {
    /// What stands before its items.
    pub(crate) front: Front<'a>,
    /// The greatest state of a cell.
    pub(crate) greatest: u8,
    /// How many cells are live.
    pub(crate) cells: u64,
    /// The smallest box round them, where there are any.
    pub(crate) bounds: Option<Bounds>,
}

/// Judges a text.
///
/// # Errors
///
/// The first fault of the text's spelling; else `Range` where a count, the corner or a live cell is out of
/// range; else `TooManyCells`.
pub(crate) fn good_text(bytes: &[u8]) -> Result<GoodText<'_>, LineFault>
    ensures found { IfOk result (λ t. (file : RleFile) × IsGoodText bytes.now file t) }
    ensures fault { IfErr result (λ f. IsRleFaultOn bytes.now f.fault f.line) }
    ensures no_memory { IfErr result (λ f. f.fault ≢ Memory) }
{
    let front = match read_front(bytes) {
        Ok(front) => front,
        Err(bad_line) => return Err(bad_line.in_text(bytes)),
    };
    let extent = match measure(front.body) {
        Ok(extent) => extent,
        Err(bad_item) => return Err(bad_item.in_text(bytes)),
    };
    if !extent.is_in_range(front.corner) {
        return Err(LineFault {
            fault: RleFault::Range,
            line: None,
        });
    }
    if extent.cells > MOST_CELLS {
        return Err(LineFault {
            fault: RleFault::TooManyCells,
            line: None,
        });
    }
    Ok(GoodText {
        front,
        greatest: extent.greatest,
        cells: extent.cells,
        bounds: bounds_of(extent.span, front.corner),
    })
}

/// The number, counted from 1, of the line on which the first fault in a text's spelling stands. None where
/// the spelling has no fault: a text that is only out of range, or has only too many live cells, has no
/// faulty line.
///
/// A bad word of a `#CXRLE` line, a bad header and a header without a rule stand on their own line. A bad
/// item, also one that is cut off, stands on the line of its first byte, after the white space before it.
/// Where the text ends and the header or the `!` is missing, it is missing on the text's last line: after a
/// last LF there is no further line, and the empty text has line 1.
///
/// It takes no memory.
pub fn faulty_line(bytes: &[u8]) -> Option<u64>
    ensures { MatchOption result ((f : RleFault) → IsFirstRleFault bytes.now f → ⊥)
        (IsFaultyRleLine bytes.now) }
{
    match good_text(bytes) {
        Ok(_) => None,
        Err(found) => found.line,
    }
}
