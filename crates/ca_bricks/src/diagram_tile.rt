//! Tiles one generation later by a decision diagram, all cells at once.

ghost use Rattle.std.specs.Prelude.{◌≡◌, ◌<◌, ℕ, suc, [], get_or, IfOk};
ghost use Rattle.ca_plane.specs.Prelude.{row_cells};
ghost use Rattle.ca_bricks.specs.Tiles.{nine_at};
ghost use Rattle.ca_bricks.specs.CellRules.{IsTileNext};
ghost use Rattle.ca_bricks.specs.declared.cell_rule.CellRule.TheVariants.{ByDiagram};
ghost use Rattle.ca_bricks.specs.Diagrams.{node_state};
ghost use Rattle.ca_bricks.specs.inner.Planes.{cells_at, tile_planes};

use crate::diagram::{Diagram, Node};
use crate::kernel::Bits;
use ca_plane::Memory;

impl Diagram {
    // The next generation of those cells of a tile that aren't on its edge. What the nodes stand for is kept in `states` meanwhile.
    pub(crate) fn next_tile(&self, alive: Bits, states: &mut Vec<Bits>) -> Result<Bits, Memory>
        ensures { IfOk result (λ next. IsTileNext (ByDiagram self.now) alive.rows next.rows) }
    {
        let nine = nine_bits(alive);
        states.clear();
        'nodes: for node in &self.nodes {
            let bits = node_bits(node, &nine, states);
            states.push(bits)?;
        }
        Ok(bits_at(states, states.len().saturating_sub(1)))
    }
}

// For each of the nine cells round a cell of a tile, row by row from the north-west, its state.
#[inline(always)]
fn nine_bits(alive: Bits) -> [Bits; 9]
    ensures { (x y : ℕ) → x < 14 → y < 14
        → cells_at (tile_planes result) (suc x) (suc y) ≡ nine_at (row_cells alive.rows) x y }
{
    let north = alive.north();
    let south = alive.south();
    [
        north.west(),
        north,
        north.east(),
        alive.west(),
        alive,
        alive.east(),
        south.west(),
        south,
        south.east(),
    ]
}

// What a node stands for at each cell of a tile, where it is known for the earlier nodes.
#[inline(always)]
fn node_bits(node: &Node, nine: &[Bits; 9], earlier: &[Bits]) -> Bits
    ensures { (x y : ℕ) → x < 16 → y < 16 → row_cells result.rows x y
        ≡ node_state (cells_at (tile_planes nine.now) x y) (cells_at (tile_planes earlier.now) x y) node.now }
{
    match node {
        Node::State(live) => Bits::all(*live),
        Node::Choice(choice) => bits_at(nine, choice.place).select(
            bits_at(earlier, choice.live),
            bits_at(earlier, choice.dead),
        ),
    }
}

// The bits at a place, none where there are none.
#[inline(always)]
fn bits_at(planes: &[Bits], place: usize) -> Bits
    ensures { (x y : ℕ) → x < 16 → y < 16
        → row_cells result.rows x y ≡ row_cells (get_or (tile_planes planes.now) place []) x y }
{
    match planes.get(place) {
        Some(bits) => *bits,
        None => Bits::all(false),
    }
}
