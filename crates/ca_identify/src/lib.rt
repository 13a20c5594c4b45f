//! What the patterns of files are: the one claim about each that is true.
#![tactic(auto)]

mod identification;
pub mod identity_laws;
mod tree_look;

pub use identification::{identify, look_at_plane};
pub use tree_look::TreeLook;
