//! The names that apgsearch and Catagolue give still lifes, oscillators and spaceships.
#![tactic(auto)]

mod drawing;
pub mod examples;
mod fault;
mod front;
mod grid;
pub mod laws;
mod masks;
mod object;
mod order;
mod orientation;
mod phases;
mod reading;
mod rounds;
mod sides;
mod writing;

pub use fault::ReadFault;
pub use grid::{Grid, MOST_SIDE};
pub use object::{ObjectKind, object_code};
pub use order::compare;
pub use orientation::Orientation;
pub use phases::least_with;
pub use reading::read_representation;
pub use rounds::least_representation;
pub use writing::representation;
