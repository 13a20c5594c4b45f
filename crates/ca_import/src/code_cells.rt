//! The cells of an apgcode.

ghost use Rattle.std.specs.Prelude.{◌≡◌, ◌+◌, ◌<◌, ℤ, pos, Some, length, OnOk, IfOk, IfErr, count_by};
ghost use Rattle.ca_plane.specs.Prelude.{bit_cell, is_line_end, front, from_corner};
ghost use Rattle.ca_apgcode.specs.Prelude.{cell};
ghost use Rattle.ca_import.specs.declared.format.ImportFormat.TheVariants.{Apgcode};
ghost use Rattle.ca_import.specs.Import.{is_white, representation_text, import_format, IsImport, IsImportFaultOn, IsCodeFault};
ghost use Rattle.ca_import.specs.inner.Drawn.{IsDrawnTo, IsCodeCells};

use crate::fault::{ImportFault, LineFault};
use crate::import::ImportedPattern;
use crate::white::{line_ends, split_white};
use ca_apgcode::{Grid, ReadFault, read_representation};
use ca_plane::{BitPlane, Memory, Point};
use std::alloc::Global;

/// Makes the live cells of a column of a grid live, where those of the columns before it are.
fn draw_column(cells: &mut BitPlane, grid: &Grid, x: u8) -> Result<(), Memory>
    requires column { x < length grid.now.columns }
    requires drawn { IsDrawnTo (cell grid.now) x 0 cells.old }
    ensures { OnOk result (IsDrawnTo (cell grid.now) (x + 1) 0 cells.new) }
{
    // Says what holds of every grid.
    let _ = grid.width();
    'rows: for y in 0..grid.height() {
        if grid.is_live(x, y) {
            cells.add_run(place(x, y), 1)?;
        }
    }
    Ok(())
}

/// The place of a cell of a grid whose north-western cell lies at 0,0.
fn place(x: u8, y: u8) -> Point
    ensures { result ≡ record { y = pos y; x = pos x } }
{
    Point {
        y: i64::from(y),
        x: i64::from(x),
    }
}

/// The cells of a grid, whose north-western cell lies at 0,0.
fn plane_of_grid(alloc: Global, grid: &Grid) -> Result<BitPlane, Memory>
    ensures { IfOk result (λ cells. (x y : ℤ) → bit_cell cells x y ≡ from_corner (cell grid.now) x y) }
{
    let mut cells = BitPlane::new(alloc);
    'columns: for x in 0..grid.width() {
        draw_column(&mut cells, grid, x)?;
    }
    Ok(cells)
}

/// The cells of a representation, whose north-western cell lies at 0,0.
///
/// # Errors
///
/// `Syntax` where it is the representation of no cells, and `Memory`.
fn cells_of(alloc: Global, text: &[u8]) -> Result<BitPlane, ImportFault>
    ensures cells { IfOk result (IsCodeCells text.now) }
    ensures fault { IfErr result (λ f. IsCodeFault f text.now) }
{
    match read_representation(alloc, text) {
        Ok(grid) => Ok(plane_of_grid(alloc, &grid)?),
        Err(ReadFault::NoRepresentation) => Err(ImportFault::Syntax),
        Err(ReadFault::Memory) => Err(ImportFault::Memory),
    }
}

/// The number of the line on which the first word of the bytes stands, counted from 1.
fn first_word_line(bytes: &[u8]) -> u64
    ensures { result ≡ count_by is_line_end (front is_white bytes.now) + 1 }
{
    let (white, _) = split_white(bytes);
    line_ends(white) as u64 + 1
}

/// What an apgcode holds, by what follows its head.
pub(crate) fn read_code(
    alloc: Global,
    bytes: &[u8],
    text: &[u8],
) -> Result<ImportedPattern, LineFault>
    requires format { import_format bytes.now ≡ Some Apgcode }
    requires text { representation_text bytes.now ≡ Some text.now }
    ensures found { IfOk result (λ p. IsImport bytes.now (bit_cell p.cells) p.rule) }
    ensures fault { IfErr result (λ f. IsImportFaultOn bytes.now f.fault f.line) }
{
    match cells_of(alloc, text) {
        Ok(cells) => Ok(ImportedPattern { cells, rule: None }),
        Err(fault) => Err(LineFault::at_line(fault, first_word_line(bytes))),
    }
}
