//! The words of the command line, and the help.
#![tactic(auto)]

mod arguments;
mod commands;
mod extras;
mod raw;
mod request;
mod values;
mod words;

pub use commands::{CensusSearch, Folders, ImportWords, PatternExtras, Search};
pub use extras::Extras;
pub use request::{Request, WordsFault};
pub use words::read_words;
