//! What is found of the tree of a plane.

use ca_answers::Look;
use ca_quad::Tree;

/// What a plane is found to be, and the tree of its cells, of the smallest level.
#[derive(Clone, Copy)]
pub struct TreeLook {
    pub tree: Tree,
    pub look: Look,
}
