//! Trees of the highest levels, and trees that are moved.

ghost use Rattle.std.specs.Prelude.{IsTrue, IfOk};
ghost use Rattle.ca_quad.specs.Prelude.{IsIn, IsTree};

use super::expected::{Cell, FAR, GLIDER, expect, plane_of, shows};
use ca_plane::{Memory, MoveFault, Plane};
use ca_quad::{Id, QuadFault, Spot, Store, Tree};
use std::alloc::Global;
use std::test::*;

/// The tree with its level raised to this one, at most 125.
pub(crate) fn raised(store: &mut Store, tree: Tree, level: u8) -> Result<Tree, Memory>
    requires { IsTree store.old tree }
    ensures { IfOk result (IsTree store.new) }
{
    let mut larger = tree;
    'levels: for _ in 0..125u8 {
        if larger.level > 124 || larger.level >= level {
            return Ok(larger);
        }
        larger = store.pad(larger)?;
    }
    Ok(larger)
}

/// Whether a glider's tree is padded to level 125, shows its cell there, and is trimmed again.
fn is_padded(alloc: Global, store: &mut Store) -> Result<bool, Memory> {
    let tree = store.from_plane(&plane_of(alloc, GLIDER)?)?;
    let larger = raised(store, tree, 125)?;
    let centre = store.cell(larger, Spot { x: 2, y: 1 });
    let again = store.trim(larger)?;
    Ok(larger.level == 125 && centre == 1 && again == tree)
}

/// Whether the id is one of this store.
fn is_known(store: &Store, id: Id) -> bool
    ensures { IsTrue result → IsIn store.now id }
{
    id.number() < 65552 || id.number() - 65552 < store.count()
}

/// The square with this part in its south-east, and another of the same level in the three other corners.
fn in_the_south_east(store: &mut Store, part: Id, rest: Id) -> Result<Id, QuadFault> {
    if !is_known(store, part) || !is_known(store, rest) {
        return Err(QuadFault::Memory);
    }
    let level = store.level(part);
    if level > 124 || store.level(rest) != level {
        return Err(QuadFault::Memory);
    }
    Ok(store.join(rest, rest, rest, part)?)
}

/// The plane of the tree with this root.
fn plane_of_tree(alloc: Global, store: &Store, root: Id) -> Result<Plane, QuadFault> {
    if !is_known(store, root) {
        return Err(QuadFault::Memory);
    }
    let level = store.level(root);
    store.to_plane(alloc, Tree { root, level })
}

/// The plane of one cell, whose place is counted from the lower right corner of a plane, at 2^62 and 2^62.
fn at_the_corner(alloc: Global, store: &mut Store, cell: Cell) -> Result<Plane, QuadFault> {
    let tree = store.from_plane(&plane_of(alloc, &[cell])?)?;
    let part = raised(store, tree, 63)?.root;
    let rest = store.empty(63)?;
    let root = in_the_south_east(store, part, rest)?;
    plane_of_tree(alloc, store, root)
}

/// Places from that corner, and where they are in the plane: none where the cell is out of range.
const AT_CORNERS: &[(Cell, Option<&[Cell]>)] = &[
    ((0, 0, 1), Some(&[(FAR, FAR, 1)])),
    ((-5, -3, 7), Some(&[(FAR - 5, FAR - 3, 7)])),
    ((1, -3, 7), None),
    ((-5, 1, 7), None),
    ((1, 1, 7), None),
];

/// Cells, how far they are moved to the right and downward, and where they are then: none where one would
/// leave a plane.
const MOVES: &[(&[Cell], i64, i64, Option<&[Cell]>)] = &[
    (&[], 5, -5, Some(&[])),
    (GLIDER, 0, 0, Some(GLIDER)),
    (
        GLIDER,
        1,
        -1,
        Some(&[(-1, 2, 1), (0, 3, 1), (1, 1, 1), (1, 2, 1), (1, 3, 1)]),
    ),
    (
        &[(0, 0, 255), (0, 1, 1), (9, -14, 3)],
        -5,
        3,
        Some(&[(3, -5, 255), (3, -4, 1), (12, -19, 3)]),
    ),
    (&[(0, 0, 7)], -FAR, FAR, Some(&[(FAR, -FAR, 7)])),
    (&[(0, FAR, 1)], i64::MIN, 0, Some(&[(0, -FAR, 1)])),
    (&[(0, FAR, 1)], 1, 0, None),
    (&[(-FAR, 0, 2), (0, 0, 2)], 0, -1, None),
    (GLIDER, i64::MIN, i64::MAX, None),
];

/// The plane of the moved tree of a plane of these cells.
fn moved(
    alloc: Global,
    store: &mut Store,
    cells: &[Cell],
    dx: i64,
    dy: i64,
) -> Result<Plane, QuadFault> {
    let tree = store.from_plane(&plane_of(alloc, cells)?)?;
    match store.shifted(tree, dx, dy) {
        Ok(tree) => store.to_plane(alloc, tree),
        Err(MoveFault::Memory) => Err(QuadFault::Memory),
        Err(MoveFault::Range) => Err(QuadFault::Range),
    }
}

/// Whether a plane has these cells alone, or there is none since a cell is out of range.
fn are_at(found: &Result<Plane, QuadFault>, cells: Option<&[Cell]>) -> bool {
    match (found, cells) {
        (Ok(plane), Some(cells)) => shows(plane, cells),
        (Err(fault), None) => *fault == QuadFault::Range,
        (_, _) => false,
    }
}

/// Whether cells at the corner of a plane are there, or out of range.
fn are_at_corners(alloc: Global) -> bool {
    'cells: for &(cell, wanted) in AT_CORNERS {
        let mut store = Store::new(alloc);
        if !are_at(&at_the_corner(alloc, &mut store, cell), wanted) {
            return false;
        }
    }
    true
}

/// Whether trees are moved, or their cells are out of range.
fn are_moved(alloc: Global) -> bool {
    'moves: for &(cells, dx, dy, wanted) in MOVES {
        let mut store = Store::new(alloc);
        if !are_at(&moved(alloc, &mut store, cells, dx, dy), wanted) {
            return false;
        }
    }
    true
}

#[test]
fn trees_reach_the_edge(rt: HostRuntime) {
    let mut store = Store::new(rt.alloc());
    let is_high = is_padded(rt.alloc(), &mut store) == Ok(true);
    let holds = is_high && are_at_corners(rt.alloc()) && are_moved(rt.alloc());
    expect(&rt, holds, "trees of high levels, and at the edge");
}
