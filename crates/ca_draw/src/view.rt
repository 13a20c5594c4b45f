//! Which window of a plane is drawn.

ghost use Rattle.std.specs.Prelude.{◌≡◌, MatchResult};
ghost use Rattle.ca_draw.specs.Windows.{IsBox};
ghost use Rattle.ca_draw.specs.Views.{usual_size, other_size, squares_in, size_of, IsWindowFor, IsNoWindowFor};
ghost use Rattle.ca_draw.specs.Views.{IsWindowFrom, IsNoWindowFrom};

use crate::drawing::ImageFormat;
use crate::window::{MOST_SIDE, Window};
use ca_quad::{Spot, WideBounds};
use thiserror::Error;

/// How wide and high a window or its picture is.
#[derive(Clone, Copy, Debug, PartialEq, Eq, Drop)]
pub struct Size {
    /// How many squares, characters or pixels are in a row.
    pub width: u16,
    /// How many rows of them there are.
    pub height: u16,
}

/// What is asked for of a window.
///
/// With a corner it is the window that begins there, at scale 0 unless another is asked for. Without one it
/// shows the whole box of the live cells, and its picture has the size at most: at the scale that is asked for,
/// or else at the smallest at which the box fits.
#[derive(Clone, Copy, Debug, PartialEq, Eq)]
pub struct View {
    /// A cell of the square in the north-west.
    pub corner: Option<Spot>,
    /// The size in characters or pixels. Where none is asked for it is 80 by 40 for a text and 1024 by 1024 for
    /// an image; but 8192 by 8192 where a scale is asked for, and no corner.
    pub size: Option<Size>,
    /// The scale.
    pub scale: Option<u8>,
    /// How many characters or pixels wide and high a square is drawn. The window has as many squares as the size
    /// has room for, so none at a zoom of 0.
    pub zoom: u8,
}

/// Why there is no such window.
#[derive(Clone, Copy, Debug, PartialEq, Eq, Error)]
pub enum WindowFault {
    /// The window that begins with the corner isn't within the limits of windows.
    #[error("window out of range")]
    Range,
    /// The box of the live cells doesn't fit into the size.
    #[error("window too large")]
    TooLarge,
}

impl View {
    /// The window that is asked for, of a plane of which this box is drawn.
    ///
    /// # Errors
    ///
    /// `Range` where there is a corner, and `TooLarge` where there is none.
    pub fn window(self, format: ImageFormat, bounds: WideBounds) -> Result<Window, WindowFault>
        requires { IsBox bounds }
        ensures { MatchResult result (IsWindowFor self format bounds) (IsNoWindowFor self format bounds) }
    {
        let size = self.size(format);
        match self.corner {
            Some(corner) => window_from(corner, self.scale, size),
            None => window_round(bounds, self.scale, size),
        }
    }

    // The size in squares that a window has, or at most has.
    fn size(self, format: ImageFormat) -> Size
        ensures { result ≡ size_of self format }
    {
        let size = self
            .size
            .unwrap_or(other_size(self.corner, self.scale, format));
        Size {
            width: squares_in(self.zoom, size.width),
            height: squares_in(self.zoom, size.height),
        }
    }
}

// How many squares lie side by side in `side` characters or pixels.
fn squares_in(zoom: u8, side: u16) -> u16
    ensures { result ≡ squares_in zoom side }
{
    if zoom == 0 {
        return 0;
    }
    side / u16::from(zoom)
}

// The size that is taken where none is asked for.
fn other_size(corner: Option<Spot>, scale: Option<u8>, format: ImageFormat) -> Size
    ensures { result ≡ other_size corner scale format }
{
    match (corner, scale) {
        (None, Some(_)) => Size {
            width: MOST_SIDE,
            height: MOST_SIDE,
        },
        _ => usual_size(format),
    }
}

fn usual_size(format: ImageFormat) -> Size
    ensures { result ≡ usual_size format }
{
    match format {
        ImageFormat::Text => Size {
            width: 80,
            height: 40,
        },
        ImageFormat::Pgm => Size {
            width: 1024,
            height: 1024,
        },
    }
}

// The window that begins with a corner.
fn window_from(corner: Spot, scale: Option<u8>, size: Size) -> Result<Window, WindowFault>
    ensures { (bounds : WideBounds) → MatchResult result (IsWindowFrom (Some corner) scale size bounds)
        (IsNoWindowFrom (Some corner) scale size bounds) }
{
    let scale = scale.unwrap_or(0);
    match Window::at(corner, scale, size.width, size.height) {
        Some(window) => Ok(window),
        None => Err(WindowFault::Range),
    }
}

// The window that shows a whole box.
fn window_round(bounds: WideBounds, scale: Option<u8>, size: Size) -> Result<Window, WindowFault>
    requires { IsBox bounds }
    ensures { MatchResult result (IsWindowFrom None scale size bounds)
        (IsNoWindowFrom None scale size bounds) }
{
    let window = match scale {
        Some(scale) => Window::fitting_at(bounds, size.width, size.height, scale),
        None => Window::fitting(bounds, size.width, size.height),
    };
    match window {
        Some(window) => Ok(window),
        None => Err(WindowFault::TooLarge),
    }
}
