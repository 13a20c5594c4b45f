//! Macrocell, the format of shared squares: its nodes, its files and its faults.
#![tactic(auto)]

pub mod examples;
mod fault;
pub mod laws;
mod line;
mod pattern;
mod read;
mod spelling;
pub mod tidy_laws;
mod write;

pub use fault::{LineFault, MacroFault};
pub use pattern::MacroPattern;
pub use read::{read_macro, read_macro_with_line};
pub use spelling::faulty_line;
pub use write::{write_macro, write_macro_to};
