//! Dense planes: cells of two states as bits, many of which are stepped at once, in tiles of 16 by 16 cells and in bricks
//! of 64 by 16. Where live cells age, several planes of bits lie in one place. Bricks that rest sleep.
#![tactic(auto)]

mod aged;
mod aged_cells;
mod aged_step;
mod cell_rule;
mod count;
mod cut;
mod diagram;
mod diagram_rows;
mod diagram_tile;
mod found_counting;
mod grid;
mod kernel;
mod neighbours;
mod next_states;
mod places;
mod queue;
mod round;
mod step;
mod tile;
mod trio;
mod waking;
mod wide_square;
mod word;
mod word_square;

pub use aged::{AgedGrid, digit_count};
pub use aged_step::{aged_generation, has_digit};
pub use cell_rule::CellRule;
pub use count::Count;
pub use cut::brick_of;
pub use diagram::{Choice, Diagram, Node};
pub use grid::{BrickGrid, WordPlace};
pub use kernel::{Bits, CountInTile, kernel16, next_tile};
pub use neighbours::{EightNeighbours, FourNeighbours, SixNeighbours};
pub use places::QuarterPlaces;
pub use queue::Queue;
pub use step::generation;
pub use trio::{Rows, Trio};
pub use waking::{blank_bricks, first_bricks, wake_next};
pub use wide_square::WideSquare;
pub use word_square::WordSquare;
