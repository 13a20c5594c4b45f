//! Planes after some generations, stepped cell by cell, and laws of the plane after n generations.
#![tactic(auto)]

mod fault;
mod generations;
pub mod laws;
mod points;
mod row;
mod window;

pub use fault::RunFault;
pub use generations::{step, steps};
