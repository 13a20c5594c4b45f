//! The nodes of a tree, each square once, its parts before it.

ghost use Rattle.std.specs.Prelude.{◌≡◌, ◌≢◌, ◌+◌, ◌<◌, ◌≤◌, ◌++◌, ◌∷◌, [], ℕ, ℤ, List, map, length, slice_index, OnOk, IfOk};
ghost use Rattle.std.specs.Prelude.{MatchOption, Some, None};
ghost use Rattle.ca_quad.specs.Prelude.{level_of, square_value, IsIn, IsTree, IsEmpty, cell};
ghost use Rattle.ca_macro.specs.Nodes.{Node, Leaf, Cells};
ghost use Rattle.ca_macro.specs.Tidy.{IsLeastLevel, AreTidyNodes, node_parts};
ghost use Rattle.ca_macro.specs.inner.Written.{row_marks, node_of, kept_cells, leaf_level, empty_root, HasFitParts};
ghost use Rattle.ca_macro.specs.inner.Written.{IsWrittenNumber, IsNodeOf, IsGathered, Extends, KeepsFirstOrder};

use super::written::WrittenNode;
use ca_plane::Memory;
use ca_quad::{Id, SquareMap, Store, Tree};
use std::alloc::Global;

/// What has been gathered so far: the nodes, and the number of each square that has one.
#[derive(Drop)]
struct GatheredNodes {
    nodes: Vec<WrittenNode>,
    numbers: SquareMap<u64>,
}

impl GatheredNodes {
    /// Puts the node of a square after the others, and gives the square its number.
    fn push(&mut self, store: &Store, states: u16, id: Id, node: WrittenNode) -> Result<u64, Memory>
        requires known { IsIn store.now id }
        requires gathered { IsGathered store.now states (map node_of self.old.nodes.items) self.old.numbers }
        requires node { IsNodeOf store.now states (map node_of self.old.nodes.items) id (node_of node) }
        requires live { IsEmpty (kept_cells store.now id) → ⊥ }
        requires new { square_value self.old.numbers id ≡ None }
        ensures number { IfOk result (IsWrittenNumber store.now (map node_of self.new.nodes.items) id) }
        ensures last { IfOk result (λ n. n ≡ length (map node_of self.new.nodes.items)) }
        ensures gathered { OnOk result (IsGathered store.now states
            (map node_of self.new.nodes.items) self.new.numbers) }
        ensures more { OnOk result (map node_of self.new.nodes.items
            ≡ map node_of self.old.nodes.items ++ node_of node ∷ []) }
        ensures keeps { OnOk result ((other : ℕ) → other ≢ id
            → square_value self.new.numbers other ≡ square_value self.old.numbers other) }
    {
        let _squares = store.count();
        self.nodes.push(node)?;
        let number = self.nodes.len() as u64;
        self.numbers.put(id, number)?;
        Ok(number)
    }
}

/// The level of the squares that are written without parts.
fn leaf_level(states: u16) -> u8
    ensures { result ≡ leaf_level states }
{
    if states == 2 {
        return 3;
    }
    1
}

/// The node of these rows.
fn rows_node(rows: [u8; 8]) -> WrittenNode
    ensures node { node_of result ≡ Leaf (map (row_marks 8) rows) }
    ensures height { length rows ≡ 8 }
    ensures low { (y : ℕ) → slice_index rows y < 256 }
{
    WrittenNode::Leaf(rows)
}

/// The node of these four states.
fn states_node(states: [u8; 4]) -> WrittenNode
    ensures node { node_of result
        ≡ Cells (slice_index states 0) (slice_index states 1) (slice_index states 2) (slice_index states 3) }
    ensures low { (i : ℕ) → slice_index states i < 256 }
{
    WrittenNode::Cells(states)
}

/// The node of a square that is written without parts.
fn leaf(store: &Store, states: u16, id: Id) -> WrittenNode
    requires known { IsIn store.now id }
    requires level { level_of store.now id ≡ leaf_level states }
    requires states { (x y : ℕ) → kept_cells store.now id x y < states }
    ensures node { (ns : List Node) → IsNodeOf store.now states ns id (node_of result) }
    ensures parts { node_parts (node_of result) ≡ [] }
{
    if states == 2 {
        return rows_node(store.leaf8(id));
    }
    states_node(store.cells4(id))
}

/// The parts of a square of this level that is written by them. None where it is written without parts.
fn written_parts(store: &Store, states: u16, id: Id, level: u8) -> Option<[Id; 4]>
    requires level { level ≡ level_of store.now id }
    requires known { IsIn store.now id }
    requires least { leaf_level states ≤ level_of store.now id }
    requires most { level_of store.now id ≤ 120 }
    requires states { (x y : ℕ) → kept_cells store.now id x y < states }
    ensures { MatchOption result (level_of store.now id ≡ leaf_level states)
        (HasFitParts store.now states id) }
{
    if level == leaf_level(states) {
        return None;
    }
    Some(store.children(id))
}

/// One of four parts.
fn part(parts: &[Id; 4], place: usize) -> Id
    requires { place < 4 }
    ensures { result ≡ slice_index parts.now place }
{
    parts[place]
}

/// The number of a square, which is 0 where it is empty. Its node is put after the others where it isn't
/// there yet.
fn number(store: &Store, states: u16, id: Id, gathered: &mut GatheredNodes) -> Result<u64, Memory>
    requires known { IsIn store.now id }
    requires least { leaf_level states ≤ level_of store.now id }
    requires most { level_of store.now id ≤ 120 }
    requires states { (x y : ℕ) → kept_cells store.now id x y < states }
    requires gathered { IsGathered store.now states
        (map node_of gathered.old.nodes.items) gathered.old.numbers }
    ensures number { IfOk result (IsWrittenNumber store.now (map node_of gathered.new.nodes.items) id) }
    ensures gathered { OnOk result (IsGathered store.now states
        (map node_of gathered.new.nodes.items) gathered.new.numbers) }
    ensures more { OnOk result (Extends (map node_of gathered.old.nodes.items)
        (map node_of gathered.new.nodes.items)) }
    ensures order { IfOk result (KeepsFirstOrder (map node_of gathered.old.nodes.items)
        (map node_of gathered.new.nodes.items)) }
    // Larger squares have no new numbers.
    ensures keeps { OnOk result ((other : ℕ) → level_of store.now id < level_of store.now other
        → square_value gathered.new.numbers other ≡ square_value gathered.old.numbers other) }
    // A square that is new is the last.
    ensures last { IfOk result (λ n. (IsEmpty (kept_cells store.now id) → ⊥)
        → square_value gathered.old.numbers id ≡ None → n ≡ length (map node_of gathered.new.nodes.items)) }
{
    if store.is_empty(id) {
        return Ok(0);
    }
    if let Some(number) = gathered.numbers.get(id) {
        return Ok(number);
    }
    let level = store.level(id);
    let Some(parts) = written_parts(store, states, id, level) else {
        return gathered.push(store, states, id, leaf(store, states, id));
    };
    let nw = number(store, states, part(&parts, 0), gathered)?;
    let ne = number(store, states, part(&parts, 1), gathered)?;
    let sw = number(store, states, part(&parts, 2), gathered)?;
    let se = number(store, states, part(&parts, 3), gathered)?;
    gathered.push(
        store,
        states,
        id,
        WrittenNode::Parts(level, [nw, ne, sw, se]),
    )
}

/// The root of the empty plane.
fn empty_root(states: u16) -> WrittenNode
    ensures { node_of result ≡ empty_root states }
{
    if states == 2 {
        return WrittenNode::Parts(4, [0, 0, 0, 0]);
    }
    WrittenNode::Cells([0, 0, 0, 0])
}

/// The nodes of a tidy text of a tree.
pub(super) fn nodes_of(
    alloc: Global,
    store: &Store,
    tree: Tree,
    states: u16,
) -> Result<Vec<WrittenNode>, Memory>
    requires tree { IsTree store.now tree }
    requires level { IsLeastLevel states (cell store.now tree) tree.level }
    requires most { tree.level ≤ 120 }
    requires states { (x y : ℤ) → cell store.now tree x y < states }
    ensures { IfOk result (λ ns. AreTidyNodes states (cell store.now tree) (map node_of ns.items)) }
{
    let mut gathered = GatheredNodes {
        nodes: Vec::new(alloc),
        numbers: SquareMap::new(alloc),
    };
    if store.is_empty(tree.root) {
        gathered.nodes.push(empty_root(states))?;
        return Ok(gathered.nodes);
    }
    number(store, states, tree.root, &mut gathered)?;
    Ok(gathered.nodes)
}
