//! Representations that are written.

ghost use Rattle.std.specs.Prelude.{◌≡◌, ◌*◌, ◌/◌, ◌+◌, ◌<◌, ◌≤◌, ◌==◌, [], ◌∷◌, IfOk, OnOk, if◌then◌else◌};
ghost use Rattle.ca_plane.specs.Prelude.{Puts};
ghost use Rattle.ca_apgcode.specs.Grids.{cell};
ghost use Rattle.ca_apgcode.specs.Representation.{IsRepresentation, digit, gap_text, step_text};
ghost use Rattle.ca_apgcode.specs.inner.Puts.{PutsStrip};

use crate::grid::Grid;
use ca_plane::Memory;
use ca_plane::text::push_text;
use std::alloc::Global;

/// The representation of a grid's cells (LifeWiki, "Apgcode"). An apgcode ends with that of the smallest box
/// round the live cells.
///
/// # Errors
///
/// Fails where there is no memory for the text.
pub fn representation(alloc: Global, grid: &Grid) -> Result<Vec<u8>, Memory>
    ensures { IfOk result (λ v. IsRepresentation (cell grid.now) grid.now.height v.items) }
{
    let mut text = Vec::new(alloc);
    let count = grid.height().div_ceil(5);
    'strips: for strip in 0..count {
        push_joint(&mut text, strip)?;
        push_strip(&mut text, grid, 5 * strip)?;
    }
    Ok(text)
}

// Puts what is before a strip.
fn push_joint(text: &mut Vec<u8>, strip: u8) -> Result<(), Memory>
    ensures { OnOk result (Puts text.old.items text.new.items (if strip == 0 then [] else 122 ∷ [])) }
{
    if strip == 0 {
        return Ok(());
    }
    push_text(text, b"z")
}

// Puts the five rows from row `y` onwards.
fn push_strip(text: &mut Vec<u8>, grid: &Grid, y: u8) -> Result<(), Memory>
    requires { y < 40 }
    ensures { OnOk result (PutsStrip (cell grid.now) y text.old.items text.new.items) }
{
    let mut gap = 0;
    'columns: for x in 0..grid.width() {
        let column = grid.five_cells(x, y);
        gap = push_column(text, gap, column)?;
    }
    Ok(())
}

// Puts a column after `gap` columns without cells, where it has some itself. Gives how many are without cells now.
fn push_column(text: &mut Vec<u8>, gap: u8, column: u8) -> Result<u8, Memory>
    requires gap { gap ≤ 39 }
    requires column { column ≤ 31 }
    ensures gap { IfOk result (λ n. n ≡ (if column == 0 then gap + 1 else 0)) }
    ensures puts { OnOk result (Puts text.old.items text.new.items
        (if column == 0 then [] else step_text (record { gap = gap; column = column }))) }
{
    if column == 0 {
        return Ok(gap + 1);
    }
    push_gap(text, gap)?;
    push_text(text, &[digit(column)])?;
    Ok(0)
}

// Puts what is written for columns without cells.
fn push_gap(text: &mut Vec<u8>, gap: u8) -> Result<(), Memory>
    requires { gap ≤ 39 }
    ensures { OnOk result (Puts text.old.items text.new.items (gap_text gap)) }
{
    match gap {
        0 => Ok(()),
        1 => push_text(text, b"0"),
        2 => push_text(text, b"w"),
        3 => push_text(text, b"x"),
        _ => push_text(text, &[b'y', digit(gap - 4)]),
    }
}

// The digit of a number.
fn digit(number: u8) -> u8
    requires { number < 36 }
    ensures { result ≡ digit number }
{
    if number < 10 {
        return b'0' + number;
    }
    b'a' + (number - 10)
}
