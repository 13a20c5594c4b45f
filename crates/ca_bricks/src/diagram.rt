//! Decision diagrams of rules of two states.

ghost use Rattle.std.specs.Prelude.{◌≡◌, true, IfOk, IfSome};
ghost use Rattle.ca_bricks.specs.Diagrams.{node_state, diagram_next};
ghost use Rattle.ca_bricks.specs.inner.Neighbourhoods.{AreNextStates};

use crate::next_states::{NEIGHBOURHOODS, neighbourhood, state_at};
use ca_plane::{Memory, Nine};
use std::alloc::Global;

/// The places of the bits of a neighbourhood's number among its nine cells, row by row from the north-west, the lowest bit first. So
/// the cells that share a side with the centre are looked at first, and the centre last: of the orders that were tried
/// this one gives the fewest nodes under rules that turns and reflections keep.
const PLACES: [usize; 9] = [4, 8, 6, 2, 0, 5, 3, 7, 1];

/// A node of a diagram.
#[derive(Clone, Copy, Debug, PartialEq, Eq)]
pub enum Node {
    /// Dead or live.
    State(bool),
    /// One of two earlier nodes.
    Choice(Choice),
}

/// Which of two earlier nodes goes on, as one of nine cells is dead or live.
#[derive(Clone, Copy, Debug, PartialEq, Eq)]
pub struct Choice {
    /// The place of the cell, 0 to 8, row by row from the north-west.
    pub place: usize,
    /// The index of the node where it is dead.
    pub dead: usize,
    /// The index of the node where it is live.
    pub live: usize,
}

/// A decision diagram: the last node stands for the next state of a cell, by the nine cells round it.
#[derive(Drop)]
pub struct Diagram {
    pub nodes: Vec<Node>,
}

impl Node {
    // The state that it stands for, where those of the earlier nodes are known.
    fn state(&self, nine: &Nine, earlier: &[u8]) -> u8
        ensures { result ≡ node_state nine.now earlier.now self.now }
    {
        match self {
            Node::State(live) => u8::from(*live),
            Node::Choice(choice) => {
                let chosen = if state_at(nine, choice.place) == 0 {
                    choice.dead
                } else {
                    choice.live
                };
                state_at(earlier, chosen)
            }
        }
    }
}

impl Diagram {
    // The diagram of a rule with these next states, which is right if they are dead or live.
    fn built(alloc: Global, states: &[u8]) -> Result<Diagram, Memory> {
        let mut nodes = Vec::new(alloc);
        nodes.push(Node::State(false))?;
        nodes.push(Node::State(true))?;
        let mut ids = state_ids(alloc, states)?;
        'places: for place in PLACES {
            ids = joined(alloc, &mut nodes, place, &ids)?;
        }
        let root = ids.first().copied().unwrap_or(0);
        nodes.truncate(root.saturating_add(1));
        Ok(Diagram { nodes })
    }

    // The diagram of a rule with these next states of all neighbourhoods, where each of them is dead or live.
    pub(crate) fn of(alloc: Global, next_states: &[u8]) -> Result<Option<Diagram>, Memory>
        ensures { IfOk result (λ found. IfSome found (λ diagram. AreNextStates (diagram_next diagram.nodes.items) next_states.now)) }
    {
        let diagram = Diagram::built(alloc, next_states)?;
        if diagram.gives(alloc, next_states)? {
            return Ok(Some(diagram));
        }
        Ok(None)
    }

    // Whether it gives the state with the same number for each neighbourhood.
    fn gives(&self, alloc: Global, next_states: &[u8]) -> Result<bool, Memory>
        ensures { IfOk result (λ gives. gives ≡ true → AreNextStates (diagram_next self.now.nodes.items) next_states.now) }
    {
        let mut states = Vec::new(alloc);
        'numbers: for number in 0..NEIGHBOURHOODS {
            let nine = neighbourhood(number);
            if self.next(&nine, &mut states)? != state_at(next_states, usize::from(number)) {
                return Ok(false);
            }
        }
        Ok(true)
    }

    // The next state of the centre of nine cells.
    fn next(&self, nine: &Nine, states: &mut Vec<u8>) -> Result<u8, Memory>
        ensures { IfOk result (λ state. state ≡ diagram_next self.now.nodes.items nine.now) }
    {
        states.clear();
        'nodes: for node in &self.nodes {
            let state = node.state(nine, states);
            states.push(state)?;
        }
        Ok(state_at(states, states.len().saturating_sub(1)))
    }
}

// The nodes of these states.
fn state_ids(alloc: Global, states: &[u8]) -> Result<Vec<usize>, Memory> {
    let mut ids = Vec::new(alloc);
    'states: for state in states {
        ids.push(usize::from(*state != 0))?;
    }
    Ok(ids)
}

// The nodes that choose between the first and the second of each two by the cell at this place.
fn joined(
    alloc: Global,
    nodes: &mut Vec<Node>,
    place: usize,
    ids: &[usize],
) -> Result<Vec<usize>, Memory> {
    let mut joined = Vec::new(alloc);
    'pairs: for i in 0..ids.len() / 2 {
        let choice = Choice {
            place,
            dead: ids[2 * i],
            live: ids[2 * i + 1],
        };
        joined.push(node_of(nodes, choice)?)?;
    }
    Ok(joined)
}

// The node of a choice: one that is there already, or a new one.
fn node_of(nodes: &mut Vec<Node>, choice: Choice) -> Result<usize, Memory> {
    if choice.dead == choice.live {
        return Ok(choice.dead);
    }
    let node = Node::Choice(choice);
    if let Some(known) = nodes.iter().position(|it| *it == node) {
        return Ok(known);
    }
    let id = nodes.len();
    nodes.push(node)?;
    Ok(id)
}
