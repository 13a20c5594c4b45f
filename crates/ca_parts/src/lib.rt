//! What a plane consists of: its components and islands, and once it has settled, parts that come back and never meet. The
//! laws say that such parts go on alone, that a finest division is the only one, and how one generation earlier is judged.
#![tactic(auto)]

mod apart;
pub mod growth;
pub mod laws;
mod meeting;
mod partition;
mod phases;
mod rows;
mod taking;
mod track;

pub use apart::{apart_planes_are_further_than_two, are_apart, are_apart_when_moved};
pub use meeting::{Meeting, first_meeting};
pub use partition::{components, islands};
pub use phases::Phases;
