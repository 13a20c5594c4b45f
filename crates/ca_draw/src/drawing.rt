//! Pictures of windows.

ghost use Rattle.std.specs.Prelude.{◌≡◌, ◌<◌, ◌*◌, [], ◌∷◌, pos, ◌+ℤ◌, IfOk, OnOk};
ghost use Rattle.ca_plane.specs.Prelude.{Puts};
ghost use Rattle.ca_quad.specs.Prelude.{IsTree, cell};
ghost use Rattle.ca_draw.specs.Windows.{IsWindow};
ghost use Rattle.ca_draw.specs.Marks.{mark_of};
ghost use Rattle.ca_draw.specs.Drawings.{byte_of_mark, drawing_front, row_end, repeated, drawing_row, drawing};

use crate::mark::Mark;
use crate::squares::mark_at;
use crate::window::Window;
use ca_plane::Memory;
use ca_plane::text::{push_number, push_text};
use ca_quad::{Store, Tree};
use std::alloc::Global;

/// What a picture is written as.
#[derive(Clone, Copy, Debug, PartialEq, Eq)]
pub enum ImageFormat {
    /// Lines of characters, each ended by LF: `.` for a square without live cells, and `o` for one with some.
    /// States that are told apart are `A` to `X` for 1 to 24, `a` to `x` for 25 to 48, and `*` above that.
    Text,
    /// A grey image (netpbm's page on PGM), a byte a square: 255, white, for a square without live cells, and
    /// 0, black, for one with some. States that are told apart go from 0 for 1 to lighter greys.
    Pgm,
}

/// How squares are drawn.
#[derive(Clone, Copy, Debug, PartialEq, Eq)]
pub struct Style {
    pub format: ImageFormat,
    /// A rule's number of states. Where it is above 2, they are told apart at scale 0.
    pub states: u16,
    /// How many pixels or characters wide and high a square is drawn.
    pub zoom: u8,
}

/// A picture of a window of a tree's cells: a character or byte for each of its squares, row by row from the
/// north, and from the west in each. It tells whether a cell of the square is live, or at scale 0 which state
/// its cell has. At a zoom of k it stands there k times, and each row k times below itself.
///
/// Each square goes down the tree once for each row of its bytes, so the work doesn't grow with the scale.
///
/// # Errors
///
/// Fails where there is no memory for the picture.
pub fn draw(
    alloc: Global,
    store: &Store,
    tree: Tree,
    window: Window,
    style: Style,
) -> Result<Vec<u8>, Memory>
    requires tree { IsTree store.now tree }
    requires window { IsWindow window }
    ensures { IfOk result (λ v. v.items ≡ drawing style (cell store.now tree) window) }
{
    let mut out = Vec::new(alloc);
    push_front(&mut out, window, style)?;
    'rows: for row in 0..window.height {
        push_rows(&mut out, store, &tree, window, style, row)?;
    }
    Ok(out)
}

// Puts what stands before the first row.
fn push_front(out: &mut Vec<u8>, window: Window, style: Style) -> Result<(), Memory>
    ensures { OnOk result (Puts out.old.items out.new.items
        (drawing_front style.format (style.zoom * window.width) (style.zoom * window.height))) }
{
    match style.format {
        ImageFormat::Text => Ok(()),
        ImageFormat::Pgm => push_sizes(out, style.side(window.width), style.side(window.height)),
    }
}

// Puts the first lines of an image that is `width` pixels wide and `height` high.
fn push_sizes(out: &mut Vec<u8>, width: u64, height: u64) -> Result<(), Memory>
    ensures { OnOk result (Puts out.old.items out.new.items (drawing_front ImageFormat.Pgm width height)) }
{
    push_text(out, b"P5\n")?;
    push_number(out, width)?;
    push_text(out, b" ")?;
    push_number(out, height)?;
    push_text(out, b"\n255\n")
}

// Puts a row of a window, counted from its first one, as often as a square is high.
fn push_rows(
    out: &mut Vec<u8>,
    store: &Store,
    tree: &Tree,
    window: Window,
    style: Style,
    row: u16,
) -> Result<(), Memory>
    requires tree { IsTree store.now tree.now }
    requires window { IsWindow window }
    requires row { row < window.height }
    ensures { OnOk result (Puts out.old.items out.new.items
        (repeated style.zoom (drawing_row style (cell store.now tree.now) window row))) }
{
    'times: for _ in 0..style.zoom {
        push_row(out, store, tree, window, style, row)?;
    }
    Ok(())
}

// Puts a row of a window, counted from its first one, once.
fn push_row(
    out: &mut Vec<u8>,
    store: &Store,
    tree: &Tree,
    window: Window,
    style: Style,
    row: u16,
) -> Result<(), Memory>
    requires tree { IsTree store.now tree.now }
    requires window { IsWindow window }
    requires row { row < window.height }
    ensures { OnOk result (Puts out.old.items out.new.items
        (drawing_row style (cell store.now tree.now) window row)) }
{
    'columns: for column in 0..window.width {
        let byte = byte_at(store, tree, window, style, column, row);
        push_times(out, byte, style.zoom)?;
    }
    push_end(out, style.format)
}

// Puts a byte `times` times.
fn push_times(out: &mut Vec<u8>, byte: u8, times: u8) -> Result<(), Memory>
    ensures { OnOk result (Puts out.old.items out.new.items (repeated times (byte ∷ []))) }
{
    'times: for _ in 0..times {
        push_text(out, &[byte])?;
    }
    Ok(())
}

// The byte of a square of a window, whose column and row are counted from its first ones.
fn byte_at(store: &Store, tree: &Tree, window: Window, style: Style, column: u16, row: u16) -> u8
    requires tree { IsTree store.now tree.now }
    requires window { IsWindow window }
    requires column { column < window.width }
    requires row { row < window.height }
    ensures { result ≡ byte_of_mark style (mark_of (cell store.now tree.now) style.states window.scale
        (window.column +ℤ pos column) (window.row +ℤ pos row)) }
{
    let column = window.column + i128::from(column);
    let row = window.row + i128::from(row);
    style.byte(mark_at(store, tree, style.states, window.scale, column, row))
}

// Puts what ends a row.
fn push_end(out: &mut Vec<u8>, format: ImageFormat) -> Result<(), Memory>
    ensures { OnOk result (Puts out.old.items out.new.items (row_end format)) }
{
    match format {
        ImageFormat::Text => push_text(out, b"\n"),
        ImageFormat::Pgm => Ok(()),
    }
}

impl Style {
    // How many pixels wide or high `squares` squares are.
    fn side(self, squares: u16) -> u64
        ensures { result ≡ self.zoom * squares }
    {
        u64::from(self.zoom) * u64::from(squares)
    }

    // The character or byte of a mark.
    fn byte(self, mark: Mark) -> u8
        ensures { result ≡ byte_of_mark self mark }
    {
        match self.format {
            ImageFormat::Text => mark.letter(),
            ImageFormat::Pgm => mark.grey(self.states),
        }
    }
}
