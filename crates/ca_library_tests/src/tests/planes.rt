//! Planes whose cells are known.

use super::expected::{Cell, FAR, expect, plane_of, shows, within};
use ca_plane::{Bounds, Memory, MoveFault, Plane, Point};
use std::alloc::Global;
use std::test::*;

/// Cells at the corners of a plane and about its middle.
const CORNERS: &[Cell] = &[
    (-FAR, -FAR, 2),
    (-FAR, FAR, 3),
    (0, -5, 6),
    (0, 5, 4),
    (1, 0, 1),
    (FAR, -FAR, 255),
    (FAR, FAR, 7),
];

/// A cell at the eastern edge, and one at the northern edge.
const AT_EDGES: &[Cell] = &[(-FAR, 0, 9), (0, FAR - 1, 7)];

const SCATTERED: &[Cell] = &[(-7, 2, 1), (-1, 8, 255), (0, -9, 1), (5, -1, 3)];

/// The corners of a box: x0, y0, x1, y1.
type Corners = (i64, i64, i64, i64);

/// Cells that are written in this order, those that are there then, row by row, and the corners of the smallest box round them; and how far they are moved
/// to the right and down, and where they are then, if they stay in the plane.
type Written = (
    &'static [Cell],
    &'static [Cell],
    Option<Corners>,
    (i64, i64),
    Option<&'static [Cell]>,
);

const WRITTEN: &[Written] = &[
    (&[], &[], None, (i64::MAX, i64::MIN), Some(&[])),
    (
        &[(4, 3, 2)],
        &[(4, 3, 2)],
        Some((3, 4, 3, 4)),
        (1, -1),
        Some(&[(3, 4, 2)]),
    ),
    (
        &[(4, 3, 2)],
        &[(4, 3, 2)],
        Some((3, 4, 3, 4)),
        (FAR, 0),
        None,
    ),
    (&[(4, 3, 2), (4, 3, 0)], &[], None, (1, 1), Some(&[])),
    (
        &[(4, 3, 2), (4, 3, 5), (3, 4, 0)],
        &[(4, 3, 5)],
        Some((3, 4, 3, 4)),
        (0, 0),
        Some(&[(4, 3, 5)]),
    ),
    (
        &[(-7, 2, 1), (5, -1, 3), (0, -9, 1), (-1, 8, 255)],
        SCATTERED,
        Some((-9, -7, 8, 5)),
        (0, 0),
        Some(SCATTERED),
    ),
    (
        &[
            (FAR, -FAR, 255),
            (1, 0, 1),
            (-FAR, FAR, 3),
            (0, 5, 4),
            (-FAR, -FAR, 2),
            (FAR, FAR, 7),
            (0, -5, 6),
        ],
        CORNERS,
        Some((-FAR, -FAR, FAR, FAR)),
        (0, 1),
        None,
    ),
    (
        &[(0, FAR - 1, 7), (-FAR, 0, 9)],
        AT_EDGES,
        Some((0, -FAR, FAR - 1, 0)),
        (1, 0),
        Some(&[(-FAR, 1, 9), (0, FAR, 7)]),
    ),
    (
        AT_EDGES,
        AT_EDGES,
        Some((0, -FAR, FAR - 1, 0)),
        (2, 0),
        None,
    ),
    (
        AT_EDGES,
        AT_EDGES,
        Some((0, -FAR, FAR - 1, 0)),
        (0, -1),
        None,
    ),
    (
        AT_EDGES,
        AT_EDGES,
        Some((0, -FAR, FAR - 1, 0)),
        (i64::MAX, i64::MAX),
        None,
    ),
    (
        AT_EDGES,
        AT_EDGES,
        Some((0, -FAR, FAR - 1, 0)),
        (i64::MIN, i64::MIN),
        None,
    ),
];

/// Whether the smallest box round a plane's cells has these corners.
fn has_box(plane: &Plane, corners: Option<Corners>) -> bool {
    match (plane.bounds(), corners) {
        (Some(Bounds { x0, y0, x1, y1 }), Some(corners)) => (x0, y0, x1, y1) == corners,
        (found, _) => found.is_none() && corners.is_none(),
    }
}

/// Whether a plane was moved so, or refused.
fn is_moved(moved: &Result<Plane, MoveFault>, cells: Option<&[Cell]>) -> bool {
    match (moved, cells) {
        (Ok(moved), Some(cells)) => shows(moved, cells),
        (Err(fault), None) => *fault == MoveFault::Range,
        (_, _) => false,
    }
}

/// Whether a plane that is written has the cells and the box that it should, and is moved as it should be.
fn is_written(alloc: Global, written: &Written) -> Result<bool, Memory> {
    let &(written, cells, corners, (dx, dy), moved) = written;
    let plane = plane_of(alloc, written)?.copy(alloc)?;
    Ok(
        shows(&plane, cells)
            && plane.is_empty() == cells.is_empty()
            && has_box(&plane, corners)
            && is_moved(&plane.translated(alloc, dx, dy), moved),
    )
}

#[test]
fn cells_are_written_and_moved(rt: HostRuntime) {
    'planes: for written in WRITTEN {
        let holds = is_written(rt.alloc(), written) == Ok(true);
        expect(&rt, holds, "cells that were written");
    }
}

/// Two planes, and the places at which they differ.
const COMPARED: &[(&[Cell], &[Cell], &[(i64, i64)])] = &[
    (&[(0, 1, 1)], &[(0, 1, 1)], &[]),
    (&[(0, 1, 1)], &[(0, 1, 1), (7, 7, 1)], &[(7, 7)]),
    (&[(0, 1, 1), (7, 7, 2)], &[(0, 1, 1), (7, 7, 1)], &[(7, 7)]),
    (
        &[(0, 1, 1), (7, 7, 2)],
        &[(0, 1, 1), (-7, 7, 2)],
        &[(7, 7), (-7, 7)],
    ),
];

/// Whether the planes differ at one of these places, if there are any.
fn differ(here: &Plane, there: &Plane, places: &[(i64, i64)]) -> bool {
    let found = match here.difference(there) {
        Some(at) => places.contains(&(at.y, at.x)),
        None => places.is_empty(),
    };
    found && here.same(there) == places.is_empty()
}

/// Whether planes differ at these places, whichever comes first.
fn are_compared(alloc: Global) -> Result<bool, Memory> {
    'planes: for &(here, there, places) in COMPARED {
        let here = plane_of(alloc, here)?;
        let there = plane_of(alloc, there)?;
        if !differ(&here, &there, places) || !differ(&there, &here, places) {
            return Ok(false);
        }
    }
    Ok(true)
}

/// The plane of cells that are given together.
fn gathered(alloc: Global, cells: &[Cell]) -> Result<Plane, Memory> {
    let mut listed = Vec::new(alloc);
    'cells: for &(y, x, state) in cells {
        listed.push((within(y, x), state))?;
    }
    Plane::from_cells(alloc, listed)
}

/// Cells that are given together: of two at one point the first counts.
const GIVEN: &[Cell] = &[
    (1, 2, 3),
    (0, 5, 1),
    (1, 2, 7),
    (-3, 0, 0),
    (0, 5, 0),
    (-3, 0, 4),
    (1, -2, 255),
    (0, -5, 2),
];

const GATHERED: &[Cell] = &[(0, -5, 2), (0, 5, 1), (1, -2, 255), (1, 2, 3)];

/// Two cells at each of 30011 points, in no order, all those of state 1 before those of state 2.
fn scattered(alloc: Global) -> Result<Vec<Cell>, Memory> {
    let mut cells = Vec::new(alloc);
    'cells: for turn in 0..60_022u32 {
        let place = turn % 30_011;
        let state = if turn < 30_011 { 1 } else { 2 };
        cells.push((i64::from(place % 7), i64::from(place * 37 % 30_011), state))?;
    }
    Ok(cells)
}

/// Whether of two cells at one point the first counts.
fn are_gathered(alloc: Global) -> Result<bool, Memory> {
    Ok(shows(&gathered(alloc, GIVEN)?, GATHERED))
}

/// Whether many cells are gathered, copied, and moved below themselves.
fn are_many(alloc: Global) -> Result<bool, MoveFault> {
    let plane = gathered(alloc, &scattered(alloc)?)?;
    let copy = plane.copy(alloc)?;
    let moved = copy.translated(alloc, 0, 7)?;
    let corner = Point { y: 0, x: 0 };
    let at = Point { y: 12, x: 185 };
    Ok(
        copy.same(&plane)
            && moved.len() == 30_011
            && moved.get(at) == 1
            && plane.difference(&moved) == Some(corner),
    )
}

#[test]
fn planes_are_compared_and_gathered(rt: HostRuntime) {
    let holds = are_compared(rt.alloc()) == Ok(true) && are_gathered(rt.alloc()) == Ok(true);
    expect(
        &rt,
        holds && are_many(rt.alloc()) == Ok(true),
        "cells of several planes",
    );
}
