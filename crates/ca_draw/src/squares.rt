//! Whether a square of a tree has a live cell.

ghost use Rattle.std.specs.Prelude.{◌≡◌, ◌-◌, ◌<◌, ◌≤◌, ◌^◌, ◌↔◌, min, IsTrue};
ghost use Rattle.ca_quad.specs.Prelude.{IsOf, cell_of, IsTree, cell};
ghost use Rattle.ca_draw.specs.Marks.{has_live, mark_of};
ghost use Rattle.ca_draw.specs.inner.Blanks.{IsBlankIn, LiesInPart};

use crate::mark::Mark;
use ca_quad::{Id, Spot, Store, Tree, edge_distance};

// One of the four parts of a square, and a column and a row of squares in it.
#[derive(Clone, Copy)]
struct PartPlace {
    id: Id,
    column: u128,
    row: u128,
}

// The squares that a tree is asked for: their scale, and how many lie beside each other in half of it.
#[derive(Clone, Copy)]
struct Grid {
    scale: u8,
    half: u128,
}

/// What is drawn of the square at a column and row, where `states` states are told apart.
pub(crate) fn mark_at(
    store: &Store,
    tree: &Tree,
    states: u16,
    scale: u8,
    column: i128,
    row: i128,
) -> Mark
    requires { IsTree store.now tree.now }
    ensures { result ≡ mark_of (cell store.now tree.now) states scale column row }
{
    if scale == 0 && states > 2 {
        return Mark::of_state(store.cell(*tree, Spot { x: column, y: row }));
    }
    Mark::of_live(has_live(store, tree, scale, column, row))
}

// Whether a cell of the square at a column and row is live. A tree that lies in four squares at most is asked
// at the scale at which these are its quarters: larger squares there have no further live cells.
fn has_live(store: &Store, tree: &Tree, scale: u8, column: i128, row: i128) -> bool
    requires { IsTree store.now tree.now }
    ensures { result ≡ has_live (cell store.now tree.now) scale column row }
{
    let Grid { scale, half } = grid_of(store, tree, scale);
    if scale == 0 {
        return store.cell(*tree, Spot { x: column, y: row }) != 0;
    }
    let Some(x) = edge_distance(half, column) else {
        return false;
    };
    let Some(y) = edge_distance(half, row) else {
        return false;
    };
    !is_blank_in(store, tree.root, tree.level, scale, x, y)
}

// The squares that a tree is asked for, where those of this scale are wanted.
fn grid_of(store: &Store, tree: &Tree, scale: u8) -> Grid
    requires { IsTree store.now tree.now }
    ensures some { 1 ≤ tree.now.level }
    ensures most { tree.now.level ≤ 125 }
    ensures scale { result.scale ≡ min scale (tree.now.level - 1) }
    ensures half { result.half ≡ 2 ^ (tree.now.level - 1 - result.scale) }
    ensures low { result.half ≤ 2 ^ 124 }
{
    let level = store.level(tree.root);
    let scale = scale.min(level - 1);
    Grid {
        scale,
        half: squares_in(level - 1 - scale),
    }
}

// Whether every cell of one of a square's squares is 0. They have 2^scale cells a side, and their columns and
// rows are counted from its corner.
fn is_blank_in(store: &Store, id: Id, level: u8, scale: u8, column: u128, row: u128) -> bool
    requires square { IsOf store.now id level }
    requires least { 1 ≤ scale }
    requires most { scale ≤ level }
    requires size { level ≤ 125 }
    requires column { column < 2 ^ (level - scale) }
    requires row { row < 2 ^ (level - scale) }
    ensures { IsTrue result ↔ IsBlankIn (cell_of store.now level id) scale column row }
{
    if level == scale {
        return store.is_empty(id);
    }
    let part = part_at(store, id, level, scale, column, row);
    is_blank_in(store, part.id, level - 1, scale, part.column, part.row)
}

// The part of a larger square in which one of its squares lies, and where it lies in that.
fn part_at(store: &Store, id: Id, level: u8, scale: u8, column: u128, row: u128) -> PartPlace
    requires square { IsOf store.now id level }
    requires least { 1 ≤ scale }
    requires most { scale < level }
    requires size { level ≤ 125 }
    requires column { column < 2 ^ (level - scale) }
    requires row { row < 2 ^ (level - scale) }
    ensures { LiesInPart store.now id (level - 1) scale column row result }
{
    let half = squares_in(level - scale - 1);
    let [nw, ne, sw, se] = store.children(id);
    if row < half {
        if column < half {
            return PartPlace {
                id: nw,
                column,
                row,
            };
        }
        return PartPlace {
            id: ne,
            column: column - half,
            row,
        };
    }
    if column < half {
        return PartPlace {
            id: sw,
            column,
            row: row - half,
        };
    }
    PartPlace {
        id: se,
        column: column - half,
        row: row - half,
    }
}

// How many squares lie beside each other in one that is `levels` levels larger.
fn squares_in(levels: u8) -> u128
    requires { levels ≤ 124 }
    ensures count { result ≡ 2 ^ levels }
    ensures low { result ≤ 2 ^ 124 }
{
    1 << levels
}
