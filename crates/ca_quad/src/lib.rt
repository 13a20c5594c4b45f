//! Squares of cells that are kept once each, and the trees that they make.
#![tactic(auto)]

mod fault;
mod id;
pub mod laws;
mod named;
mod neighbours;
mod node;
mod square;
mod square_boxes;
mod square_map;
mod store;
mod tree;

pub use fault::QuadFault;
pub use id::Id;
pub use square_boxes::SquareBoxes;
pub use square_map::SquareMap;
pub use store::Store;
pub use tree::{Spot, Tree, WideBounds, edge_distance};
