//! Texts that were judged and whose cells aren't kept: what is reported of a text goes by its items.

ghost use Rattle.std.specs.Prelude.{◌≡◌, ◌≢◌, ℕ, ℤ, List, IfOk, IfErr};
ghost use Rattle.ca_plane.specs.Prelude.{cell};
ghost use Rattle.ca_rle.specs.declared.fault.RleFault.TheVariants.{Memory};
ghost use Rattle.ca_rle.specs.FaultyLine.{IsRleFaultOn};
ghost use Rattle.ca_rle.specs.Judged.{IsRleText};
ghost use Rattle.ca_rle.specs.Pattern.{ArePacked, packed_cell};
ghost use Rattle.ca_rle.specs.Shown.{picture_of_items};

use crate::drawing::draw;
use crate::fault::LineFault;
use crate::fault_line::good_text;
use crate::pattern::PackedCells;
use ca_plane::{Bounds, Point};
use std::alloc::Global;

/// A text without a fault that passes no limit. Its cells stay in its bytes.
#[derive(Clone, Copy)]
pub struct RleText<'a> {
    /// The header's rule text, where it has one.
    pub rule: Option<&'a [u8]>,
    pub generation: u64,
    /// How many cells are live.
    pub cells: u64,
    /// The smallest box round them, where there are any.
    pub bounds: Option<Bounds>,
    /// The greatest state of a cell.
    pub greatest: u8,
    /// Where the first cell stands.
    pub corner: Point,
    /// The items, and what stands after them.
    pub body: &'a [u8],
}

/// Judges an extended RLE text (Golly Help, File Formats; docs/FORMATS.md) as the readers do, and draws
/// nothing. It takes no memory.
///
/// # Errors
///
/// Those of `read_rle_with_line`, but for `Memory`.
pub fn judge_rle(bytes: &[u8]) -> Result<RleText<'_>, LineFault>
    // What is reported is what the text holds, and it passes no limit.
    ensures found { IfOk result (IsRleText bytes.now) }
    // A text that is refused has this fault, on this line.
    ensures fault { IfErr result (λ f. IsRleFaultOn bytes.now f.fault f.line) }
    ensures no_memory { IfErr result (λ f. f.fault ≢ Memory) }
{
    let text = good_text(bytes)?;
    Ok(RleText {
        rule: text.front.rule,
        generation: text.front.generation,
        cells: text.cells,
        bounds: text.bounds,
        greatest: text.greatest,
        corner: text.front.corner,
        body: text.front.body,
    })
}

/// The live cells of a text that was judged, packed: where no state is above 1, they take some bytes for each
/// 64 cells side by side, and not for each cell.
///
/// # Errors
///
/// Fails where there is no memory for them.
pub fn draw_text(alloc: Global, text: RleText<'_>) -> Result<PackedCells, ca_plane::Memory>
    requires { (bytes : List ℕ) × IsRleText bytes text }
    ensures cells { IfOk result (λ cells. (bytes : List ℕ) (is : IsRleText bytes text.entry) (x y : ℤ)
        → packed_cell cells x y ≡ cell (picture_of_items text.entry.corner is.file.items) x y) }
    ensures packed { IfOk result (ArePacked text.entry.greatest) }
{
    let RleText { body, corner, .. } = text;
    if text.greatest <= 1 {
        return Ok(PackedCells::Words(draw(alloc, body, corner)?));
    }
    Ok(PackedCells::States(draw(alloc, body, corner)?))
}
