//! Grids of bricks that are stepped generation by generation, and counted.

mod aged;
mod frame;
mod grid_rule;
mod run;

pub(crate) use frame::{Frame, frame_of};
pub(crate) use grid_rule::GridRule;
