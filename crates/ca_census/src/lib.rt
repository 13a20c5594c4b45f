//! What a plane settles into: the first generation after which it is settled, and the objects that it consists of then.
#![tactic(auto)]

mod census;
mod entry;
mod file;
mod later_plane;
pub mod laws;
mod reach;
mod search;
mod settling;

pub use census::{Census, census_of};
pub use entry::{CensusObject, entry_of};
pub use file::{FileCensus, Origin, census_of_file};
pub use reach::Reach;
pub use settling::{Settling, settle};
