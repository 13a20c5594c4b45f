//! Generations of a plane under a rule, by steps and by leaps, and laws of the plane after n generations.
#![tactic(auto)]

mod bricks;
mod leaper;
mod watch;

pub use ca_bricks::kernel16;
pub use ca_budget::LeapFault;
pub use ca_steps::{RunFault, laws, step, steps};
pub use leaper::{Leaper, Milestone};
pub use watch::{Unwatched, Watch};
