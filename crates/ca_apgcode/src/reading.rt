//! Representations that are read.

ghost use Rattle.std.specs.Prelude.{◌≡◌, IfOk, MatchResult};
ghost use Rattle.ca_apgcode.specs.Grids.{GridCells};
ghost use Rattle.ca_apgcode.specs.Representation.{IsCode};

use crate::drawing::Drawing;
use crate::fault::ReadFault;
use crate::grid::Grid;
use std::alloc::Global;

/// The cells of a text in their smallest box (LifeWiki, "Apgcode"): those whose representation it is.
///
/// # Errors
///
/// Fails where the text isn't the representation of cells in their smallest box, at most 40 by 40, and where there
/// is no memory for the cells.
pub fn read_representation(alloc: Global, text: &[u8]) -> Result<Grid, ReadFault>
    // The text is the representation of what is read.
    ensures found { IfOk result (λ g. IsCode g text.now) }
    // The representation of cells in their smallest box gives these cells back, unless memory runs out.
    ensures only { (g : GridCells) → IsCode g text.now
        → MatchResult result (λ read. read ≡ g) (λ e. e ≡ ReadFault.Memory) }
{
    let mut drawing = Drawing::new(alloc)?;
    let mut rest = text;
    'steps: while !rest.is_empty() {
        let Some(left) = drawing.take(rest) else {
            return Err(ReadFault::NoRepresentation);
        };
        rest = left;
    }
    let Drawing { columns, y, .. } = drawing;
    let Some(grid) = Grid::from_columns(columns) else {
        return Err(ReadFault::NoRepresentation);
    };
    if grid.height() <= y {
        return Err(ReadFault::NoRepresentation);
    }
    Ok(grid)
}
