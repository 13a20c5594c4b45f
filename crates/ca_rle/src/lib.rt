//! Extended RLE, the format of single patterns: its items, its files, its faults, its reader and its writer.
#![tactic(auto)]

mod drawing;
pub mod examples;
mod extent;
mod fault;
mod fault_line;
mod faulty;
mod front;
mod item;
pub mod laws;
mod pattern;
mod read;
mod rle_text;
pub mod tidy_laws;
mod unit;
mod write;

pub use fault::{LineFault, RleFault};
pub use fault_line::faulty_line;
pub use item::{Item, Tag};
pub use pattern::{PackedCells, Pattern};
pub use read::{read_rle, read_rle_with_line};
pub use rle_text::{RleText, draw_text, judge_rle};
pub use write::{rewrite_rle, write_rle, write_rle_to};
