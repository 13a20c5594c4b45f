//! Points of the unbounded plane, the trait of rules, the sparse plane, the limits, and devices that count
//! their failures.
#![tactic(auto)]

mod automaton;
mod bit_plane;
pub mod bytes;
mod counting;
mod device;
pub mod limits;
mod memory;
mod plane;
mod point;
pub mod population_laws;
mod sending;
pub mod text;

pub use automaton::Automaton;
pub use bit_plane::{BitPlane, CellWord};
pub use counting::{Ageing, Counting, Neighbourhood};
pub use device::{Dev, Failed};
pub use memory::{Memory, MoveFault, WriteFault};
pub use plane::{Cells, Plane};
pub use point::{Bounds, Nine, Point};
pub use sending::send;
