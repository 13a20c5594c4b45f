//! Squares of two states whose cells are the binary digits of one number.

ghost use Rattle.std.specs.Prelude.{◌≡◌, ◌≢◌, ℕ, MatchOption};
ghost use Rattle.ca_quad.specs.declared.node.Node.TheVariants.{Block};
ghost use Rattle.ca_quad.specs.Sound.{IsSoundStore};
ghost use Rattle.ca_quad.specs.Trees.{IsIn};
ghost use Rattle.ca_quad.specs.inner.Numbered.{IsNumberOfNode, IsKeptOtherwise};

use super::Store;
use crate::id::Id;
use crate::named::IdForm;
use crate::node::Node;

impl Store {
    // The number of a square's cells, where it has two states and at most 8 by 8 cells.
    pub(super) fn number(&self, id: Id) -> Option<u64>
        requires { IsIn self.now id }
        ensures number { MatchOption result (IsKeptOtherwise self.now id) (IsNumberOfNode self.now id) }
        ensures sound { IsSoundStore self.now }
    {
        match id.form() {
            IdForm::Cells2(n) => Some(n as u64),
            IdForm::Cells4(n) => Some(n as u64),
            IdForm::Kept(place) => block_number(self.nodes.as_slice()[place as usize]),
        }
    }
}

// The number of a node that is a block.
fn block_number(node: Node) -> Option<u64>
    ensures { MatchOption result ((n : ℕ) → node ≢ Block n) (λ n. node ≡ Block n) }
{
    match node {
        Node::Leaf(_, _, _, _) => None,
        Node::Block(n) => Some(n),
        Node::Join(_, _, _, _, _) => None,
    }
}
