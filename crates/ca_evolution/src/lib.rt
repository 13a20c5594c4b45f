//! Planes of patterns that are advanced by some generations, as patterns of files and as trees.
#![tactic(auto)]

mod evolution;
mod later;
mod leaper;
mod observer;
mod trees;

pub use evolution::{evolve, open_evolved};
pub use later::{later_tree, later_tree_within};
pub use leaper::leaper_of;
pub use observer::{Observer, RunSubject};
pub use trees::{distance, is_dead, moved_inside, tree_after, vector_if_back};
