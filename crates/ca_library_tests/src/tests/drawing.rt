//! Pictures and windows that no command asks for.

use super::expected::{Cell, GLIDER, expect, plane_of};
use super::squares::raised;
use ca_draw::{ImageFormat, Style, Window, draw};
use ca_plane::Memory;
use ca_quad::{Spot, Store, WideBounds};
use std::alloc::Global;
use std::test::*;

const STATES: &[Cell] = &[
    (0, 0, 1),
    (0, 1, 2),
    (0, 2, 24),
    (1, 0, 25),
    (1, 1, 48),
    (1, 2, 49),
    (1, 3, 255),
];

/// The smallest level of a tree, a place with the scale, the width and the height of the window that begins
/// there, and the picture.
type View = (u8, (i128, i128, u8, u16, u16), &'static [u8]);

/// The format of a picture, the number of states, and the zoom.
type Look = (ImageFormat, u16, u8);

/// Cells, how they are drawn, and pictures of them.
type Drawing = (&'static [Cell], Look, &'static [View]);

const GLIDER_TEXTS: &[View] = &[
    (125, (-5, -5, 2, 4, 4), b"....\n....\n..o.\n....\n"),
    (125, (-1, -1, 124, 2, 2), b"..\n.o\n"),
];

const GLIDER_TWICE: &[View] = &[(1, (0, 0, 0, 3, 1), b"..oo..\n..oo..\n")];

const LIVE_TEXTS: &[View] = &[(1, (0, 0, 0, 4, 2), b"ooo.\noooo\n")];

const THREE_STATE_IMAGES: &[View] = &[(1, (0, 0, 0, 2, 1), b"P5\n2 1\n255\n\x00\x7f")];

const NO_PIXELS: &[View] = &[(1, (0, 0, 0, 2, 1), b"P5\n0 0\n255\n")];

/// What no command draws: trees of the highest level, texts whose squares are several bytes wide, states that a rule doesn't have, and no pixels.
const DRAWINGS: &[Drawing] = &[
    (GLIDER, (ImageFormat::Text, 2, 1), GLIDER_TEXTS),
    (GLIDER, (ImageFormat::Text, 2, 2), GLIDER_TWICE),
    (STATES, (ImageFormat::Text, 2, 1), LIVE_TEXTS),
    (STATES, (ImageFormat::Pgm, 3, 1), THREE_STATE_IMAGES),
    (STATES, (ImageFormat::Pgm, 3, 0), NO_PIXELS),
];

/// The picture of these cells in a view.
fn picture(alloc: Global, cells: &[Cell], look: Look, view: &View) -> Result<Vec<u8>, Memory> {
    let (format, states, zoom) = look;
    let &(level, (x, y, scale, width, height), _) = view;
    let mut store = Store::new(alloc);
    let small = store.from_plane(&plane_of(alloc, cells)?)?;
    let tree = raised(&mut store, small, level)?;
    let Some(window) = Window::at(Spot { x, y }, scale, width, height) else {
        return Err(Memory);
    };
    let style = Style {
        format,
        states,
        zoom,
    };
    draw(alloc, &store, tree, window, style)
}

/// Whether the cells are drawn so in each view.
fn shows_views(alloc: Global, drawing: &Drawing) -> bool {
    let &(cells, look, views) = drawing;
    'views: for view in views {
        let Ok(found) = picture(alloc, cells, look, view) else {
            return false;
        };
        if found.as_slice() != view.2 {
            return false;
        }
    }
    true
}

/// Whether each of them is drawn so.
fn are_drawn(alloc: Global, drawings: &[Drawing]) -> bool {
    'drawings: for drawing in drawings {
        if !shows_views(alloc, drawing) {
            return false;
        }
    }
    true
}

const FAR: i128 = 1 << 124;

/// The corners of a box, how many columns and rows are allowed, and the window.
type Fitting = (
    (i128, i128, i128, i128),
    (u16, u16),
    Option<(u8, i128, i128, u16, u16)>,
);

/// Boxes that no command fits, since none has so wide a plane, or allows no column.
const FITTINGS: &[Fitting] = &[
    ((0, 0, 0, 0), (0, 40), None),
    (
        (-FAR, -FAR, FAR - 1, FAR - 1),
        (2, 2),
        Some((124, -1, -1, 2, 2)),
    ),
    (
        (-FAR, -FAR, FAR - 1, FAR - 1),
        (80, 40),
        Some((120, -16, -16, 32, 32)),
    ),
    ((i128::MIN, i128::MIN, i128::MAX, i128::MAX), (8, 8), None),
];

/// The window that is fitted to a box, by its numbers.
fn fitted(
    corners: (i128, i128, i128, i128),
    most: (u16, u16),
) -> Option<(u8, i128, i128, u16, u16)> {
    let (x0, y0, x1, y1) = corners;
    if x0 > x1 || y0 > y1 {
        return None;
    }
    let Some(window) = Window::fitting(WideBounds { x0, y0, x1, y1 }, most.0, most.1) else {
        return None;
    };
    Some((
        window.scale,
        window.column,
        window.row,
        window.width,
        window.height,
    ))
}

/// Whether each box is fitted so.
fn are_fitted(fittings: &[Fitting]) -> bool {
    'fittings: for &(corners, most, window) in fittings {
        if fitted(corners, most) != window {
            return false;
        }
    }
    true
}

#[test]
fn pictures_and_windows(rt: HostRuntime) {
    let holds = are_drawn(rt.alloc(), DRAWINGS) && are_fitted(FITTINGS);
    expect(&rt, holds, "pictures of planes, and windows of boxes");
}
