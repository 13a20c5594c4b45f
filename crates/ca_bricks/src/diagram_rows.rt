//! Bricks one generation later by a decision diagram, many cells at once.

ghost use Rattle.std.specs.Prelude.{◌≡◌, ◌<◌, ◌+◌, ℕ, [], get_or, ◌==◌, if◌then◌else◌, IfOk};
ghost use Rattle.std.specs.Int.{bit_at};
ghost use Rattle.ca_plane.specs.Prelude.{row_cells};
ghost use Rattle.ca_bricks.specs.Bricks.{round_cells};
ghost use Rattle.ca_bricks.specs.Tiles.{nine_at};
ghost use Rattle.ca_bricks.specs.Diagrams.{node_state, diagram_next};
ghost use Rattle.ca_bricks.specs.inner.Planes.{cells_at, column_place};

use crate::diagram::{Diagram, Node};
use crate::round::Round;
use crate::word::{all_bits, east_bits, select_bits, west_bits};
use ca_plane::Memory;

// No live cell.
const DEAD: [u64; 16] = [0; 16];

// Which of three cells side by side.
#[derive(Clone, Copy)]
enum Column {
    West,
    Here,
    East,
}

impl Diagram {
    // The rows of a brick one generation later. What the nodes stand for is kept in `states` meanwhile.
    pub(crate) fn next_rows(
        &self,
        round: &Round,
        states: &mut Vec<[u64; 16]>,
    ) -> Result<[u64; 16], Memory>
        ensures { IfOk result (λ rows. (x y : ℕ) → x < 64 → y < 16
            → row_cells rows x y ≡ diagram_next self.now.nodes.items (nine_at (round_cells round.now) x y)) }
    {
        let nine = round.nine();
        states.clear();
        'nodes: for node in &self.nodes {
            let rows = node_rows(node, &nine, states);
            states.push(rows)?;
        }
        Ok(*rows_at(states, states.len().saturating_sub(1)))
    }
}

// What a node stands for at each cell of a brick, where it is known for the earlier nodes.
#[inline(always)]
fn node_rows(node: &Node, nine: &[[u64; 16]; 9], earlier: &[[u64; 16]]) -> [u64; 16]
    ensures { (x y : ℕ) → x < 64 → y < 16
        → row_cells result x y ≡ node_state (cells_at nine.now x y) (cells_at earlier.now x y) node.now }
{
    match node {
        Node::State(live) => [all_bits(*live); 16],
        Node::Choice(choice) => select_rows(
            rows_at(nine, choice.place),
            rows_at(earlier, choice.live),
            rows_at(earlier, choice.dead),
        ),
    }
}

// The rows at a place, dead ones where there are none.
#[inline(always)]
fn rows_at(planes: &[[u64; 16]], place: usize) -> &[u64; 16]
    ensures { (x y : ℕ) → row_cells result.now x y ≡ row_cells (get_or planes.now place []) x y }
{
    match planes.get(place) {
        Some(rows) => rows,
        None => &DEAD,
    }
}

// At each cell that of `live` where `which` is live, else that of `dead`.
#[inline(always)]
fn select_rows(which: &[u64; 16], live: &[u64; 16], dead: &[u64; 16]) -> [u64; 16]
    ensures { (x y : ℕ) → x < 64 → y < 16 → row_cells result x y
        ≡ (if row_cells which.now x y == 0 then row_cells dead.now x y else row_cells live.now x y) }
{
    let mut rows = DEAD;
    'rows: for y in 0..16 {
        rows[y] = select_bits(which[y], live[y], dead[y]);
    }
    rows
}

impl Round {
    // For each of the nine cells round a cell of the brick, row by row from the north-west, its state.
    #[inline(always)]
    fn nine(&self) -> [[u64; 16]; 9]
        ensures { (x y : ℕ) → x < 64 → y < 16 → cells_at result x y ≡ nine_at (round_cells self.now) x y }
    {
        [
            self.rows_from(Column::West, 0),
            self.rows_from(Column::Here, 0),
            self.rows_from(Column::East, 0),
            self.rows_from(Column::West, 1),
            self.rows_from(Column::Here, 1),
            self.rows_from(Column::East, 1),
            self.rows_from(Column::West, 2),
            self.rows_from(Column::Here, 2),
            self.rows_from(Column::East, 2),
        ]
    }

    // The rows from row `top` onwards, of the cells beside each.
    #[inline(always)]
    fn rows_from(&self, column: Column, top: usize) -> [u64; 16]
        requires { top < 3 }
        ensures { (x y : ℕ) → x < 64 → y < 16
            → row_cells result x y ≡ round_cells self.now (column_place column + x) (top + y) }
    {
        let mut rows = DEAD;
        'rows: for y in 0..16 {
            rows[y] = self.row(column, top + y);
        }
        rows
    }

    // A row, of the cells beside each.
    #[inline(always)]
    fn row(&self, column: Column, y: usize) -> u64
        requires { y < 18 }
        ensures { (x : ℕ) → x < 64 → bit_at result x ≡ round_cells self.now (column_place column + x) y }
    {
        match column {
            Column::West => west_bits(self.west[y], self.here[y]),
            Column::Here => self.here[y],
            Column::East => east_bits(self.here[y], self.east[y]),
        }
    }
}
