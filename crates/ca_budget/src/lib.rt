//! What a run costs and how it goes on: units of work that are counted, and the pace of its leaps.
#![tactic(auto)]

mod fault;
mod pace;
mod work;

pub use fault::LeapFault;
pub use pace::{Pace, is_long, room_beside};
pub use work::Work;
