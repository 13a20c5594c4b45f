//! The codes of still lifes, oscillators and spaceships, found from their patterns and rules.
#![tactic(auto)]

mod boxes;
mod code;
mod drawing;
mod frame;
mod frame_box;
mod large;
mod phases;
mod planes;
mod quick;
mod rules;
mod small;

pub use code::code_of_tree;
pub use planes::code_of_planes;
pub use quick::quick_code;
pub use rules::has_codes;
