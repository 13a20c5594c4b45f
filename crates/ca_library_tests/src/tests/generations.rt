//! Planes after generations that were computed by hand, by steps and by leaps.

ghost use Rattle.std.specs.Prelude.{◌+◌, ◌==◌, ◌&&◌, ◌||◌, if◌then◌else◌, slice_index, ◌<◌, IsTrue};
ghost use Rattle.std.specs.List.{All};
ghost use Rattle.std.proofs.Common.{rules, arith};
ghost use Rattle.std.proofs.lemmas.Bool.Decides.{nat_tests};

use super::expected::{Cell, GLIDER, expect, plane_of, shows};
use ca_plane::{Automaton, Nine, Plane};
use ca_quad::Store;
use ca_run::{LeapFault, Leaper, RunFault, kernel16, step, steps};
use std::alloc::Global;
use std::test::*;

/// Conway's game of life: of a cell and its eight neighbours three are live, or four with the cell itself. It has a
/// third state, which no cell comes to, so that dense planes are leapt too.
#[derive(Drop)]
struct Life;

impl Automaton for Life {
    ghost state_count = { λ _. 3 };

    ghost next_of = { λ _ nine. let count = slice_index nine 0 + slice_index nine 1 + slice_index nine 2 + slice_index nine 3 + slice_index nine 4 + slice_index nine 5 + slice_index nine 6 + slice_index nine 7 + slice_index nine 8 in if (count == 3) || ((count == 4) && (slice_index nine 4 == 1)) then 1 else 0 };

    ghost sound = { λ _. Unit {0} };

    fn states(&self) -> u16 {
        3
    }

    fn next(&self, nine: &Nine) -> u8 {
        let upper = u16::from(nine[0]) + u16::from(nine[1]) + u16::from(nine[2]);
        let middle = u16::from(nine[3]) + u16::from(nine[4]) + u16::from(nine[5]);
        let lower = u16::from(nine[6]) + u16::from(nine[7]) + u16::from(nine[8]);
        let count = upper + middle + lower;
        u8::from(count == 3 || (count == 4 && nine[4] == 1))
    }

    ghost closed = { λ rule nine _ _ _. Prim.grind (arith, nat_tests) };

    ghost quiet = { Prim.search rules };
}

/// Whether no cell of a plane has a state above 1.
fn has_two_states(plane: &Plane) -> bool
    ensures { IsTrue result → All (λ e. e.1 < 2) plane.now }
{
    'cells: for (_, state) in plane.cells() {
        if state >= 2 {
            return false;
        }
    }
    true
}

/// The greatest coordinate of a cell from which a step is taken.
const REACH: i64 = 4611686018427387902;

const ROW: &[Cell] = &[(0, 0, 1), (0, 1, 1), (0, 2, 1)];

const COLUMN: &[Cell] = &[(-1, 1, 1), (0, 1, 1), (1, 1, 1)];

/// A glider after 4000 generations.
const GLIDER_4000: &[Cell] = &[
    (1000, 1001, 1),
    (1001, 1002, 1),
    (1002, 1000, 1),
    (1002, 1001, 1),
    (1002, 1002, 1),
];

const EDGE_ROW: &[Cell] = &[(REACH, 5, 1), (REACH, 6, 1), (REACH, 7, 1)];

/// Cells, a number of generations, and the cells after them, where none left the reach of a step.
const LATER: &[(&[Cell], u64, Option<&[Cell]>)] = &[
    (ROW, 1, Some(COLUMN)),
    (ROW, 2, Some(ROW)),
    (GLIDER, 0, Some(GLIDER)),
    (
        GLIDER,
        1,
        Some(&[(1, 0, 1), (1, 2, 1), (2, 1, 1), (2, 2, 1), (3, 1, 1)]),
    ),
    (GLIDER, 4000, Some(GLIDER_4000)),
    (&[(-REACH, REACH, 1), (REACH, -REACH, 1)], 1, Some(&[])),
    (&[(0, 0, 1), (0, REACH + 1, 1)], 1, None),
    (&[(0, -REACH - 1, 1), (0, 0, 1)], 1, None),
    (&[(0, 0, 1), (REACH + 1, 0, 1)], 1, None),
    (&[(-REACH - 1, 0, 1), (0, 0, 1)], 1, None),
    (&[(-REACH - 1, 0, 1)], 0, Some(&[(-REACH - 1, 0, 1)])),
    (
        EDGE_ROW,
        1,
        Some(&[(REACH - 1, 6, 1), (REACH, 6, 1), (REACH + 1, 6, 1)]),
    ),
    (EDGE_ROW, 2, None),
];

/// Whether a plane shows these cells, or was left without any.
fn is_later(found: &Result<Plane, RunFault>, cells: Option<&[Cell]>) -> bool {
    match (found, cells) {
        (Ok(plane), Some(cells)) => shows(plane, cells),
        (Err(fault), None) => *fault == RunFault::Range,
        (_, _) => false,
    }
}

/// Whether n steps come to these cells, or leave the reach, and one step where n is 1.
fn comes_to(alloc: Global, plane: &Plane, n: u64, later: Option<&[Cell]>) -> bool {
    has_two_states(plane)
        && is_later(&steps(alloc, &Life, plane, n), later)
        && (n != 1 || is_later(&step(alloc, &Life, plane), later))
}

#[test]
fn generations_by_steps(rt: HostRuntime) -> Result<(), Fail> {
    'planes: for &(cells, n, later) in LATER {
        let plane = plane_of(rt.alloc(), cells)?;
        expect(
            &rt,
            comes_to(rt.alloc(), &plane, n, later),
            "a plane after steps",
        );
    }
    Ok(())
}

/// Whether leaps of n generations come to another plane.
fn leaps_to(
    leaper: &mut Leaper<Life>,
    plane: &Plane,
    n: u64,
    later: &Plane,
) -> Result<bool, LeapFault> {
    let tree = leaper.load_plane(plane)?;
    let found = leaper.advance(tree, n.min(1 << 60))?;
    let wanted = leaper.load_plane(later)?;
    Ok(leaper.difference(found, wanted)?.is_none())
}

/// A glider after 64 generations.
const GLIDER_64: &[Cell] = &[
    (16, 17, 1),
    (17, 18, 1),
    (18, 16, 1),
    (18, 17, 1),
    (18, 18, 1),
];

const R_PENTOMINO: &[Cell] = &[(0, 1, 1), (0, 2, 1), (1, 0, 1), (1, 1, 1), (2, 1, 1)];

/// Whether a leaper adds no more squares for 4096 generations than its work allows.
fn are_made_by_work(alloc: Global) -> Result<bool, LeapFault> {
    let plane = plane_of(alloc, R_PENTOMINO)?;
    let mut leaper = Leaper::new(alloc, Store::new(alloc), Life, 262144, u64::MAX)?;
    let tree = leaper.load_plane(&plane)?;
    let before = leaper.store().count();
    let _end = leaper.advance(tree, 4096)?;
    let made = leaper.store().count().saturating_sub(before);
    Ok(made as u64 <= leaper.used().saturating_mul(4096).saturating_add(1 << 20))
}

#[test]
fn squares_are_made_by_work(rt: HostRuntime) {
    let holds = are_made_by_work(rt.alloc()) == Ok(true);
    expect(&rt, holds, "squares that work adds");
}

/// Whether a glider's leap comes to what it has to, and where it is refused memory, when it is asked for
/// again.
fn goes_on(alloc: Global) -> Result<bool, LeapFault> {
    let plane = plane_of(alloc, GLIDER)?;
    let later = plane_of(alloc, GLIDER_64)?;
    let mut leaper = Leaper::new(alloc, Store::new(alloc), Life, 262144, u64::MAX)?;
    match leaps_to(&mut leaper, &plane, 64, &later) {
        Err(LeapFault::Memory) => leaps_to(&mut leaper, &plane, 64, &later),
        found => found,
    }
}

/// `tests/refused_memory.py` runs it with each of its allocations refused: before there is a leaper, all is
/// begun anew.
#[test]
fn a_refused_leap_goes_on(rt: HostRuntime) {
    let found = match goes_on(rt.alloc()) {
        Err(LeapFault::Memory) => goes_on(rt.alloc()),
        found => found,
    };
    expect(&rt, found == Ok(true), "a leap after a refusal");
}

/// The masks of Conway's game of life.
const BIRTH: u16 = 8;

const SURVIVAL: u16 = 12;

const TILE_ROW: [u16; 16] = [0, 0, 0, 0, 0, 0, 0, 448, 0, 0, 0, 0, 0, 0, 0, 0];

const TILE_COLUMN: [u16; 16] = [0, 0, 0, 0, 0, 0, 128, 128, 128, 0, 0, 0, 0, 0, 0, 0];

const FULL: [u16; 16] = [u16::MAX; 16];

const INNER: [u16; 16] = [
    0, 32766, 32766, 32766, 32766, 32766, 32766, 32766, 32766, 32766, 32766, 32766, 32766, 32766,
    32766, 0,
];

/// Tiles, their masks, and the tiles after a generation.
const TILES: &[(&[u16; 16], u16, u16, &[u16; 16])] = &[
    (&TILE_ROW, BIRTH, SURVIVAL, &TILE_COLUMN),
    (&TILE_COLUMN, BIRTH, SURVIVAL, &TILE_ROW),
    (&FULL, BIRTH, SURVIVAL, &[0; 16]),
    (&FULL, 0, 256, &INNER),
];

#[test]
fn a_tile_after_a_generation(rt: HostRuntime) {
    'tiles: for &(tile, birth, survival, later) in TILES {
        expect(&rt, kernel16(tile, birth, survival) == *later, "a tile");
    }
}
