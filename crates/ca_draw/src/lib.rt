//! Pictures of windows of a plane that is kept as a tree of shared squares.
#![tactic(auto)]

mod drawing;
pub mod laws;
mod mark;
mod squares;
mod view;
mod window;

pub use drawing::{ImageFormat, Style, draw};
pub use view::{Size, View, WindowFault};
pub use window::{MOST_SCALE, MOST_SIDE, Window};
