//! What all parts of the program's output share: texts in pieces, the lines on faults and what helps, and whole
//! files.
#![tactic(auto)]

mod absence;
mod counts;
mod detailed_fault;
mod escaped;
mod fault;
mod file_lines;
mod form;
mod outside;
mod pieces;
mod read;
mod remedy;
mod rule_folder;

pub use absence::{Absence, MissingFile, missing_piece};
pub use counts::{generations_word, push_counted, push_side};
pub use detailed_fault::DetailedFault;
pub use escaped::push_escaped;
pub use fault::{InputFault, ToolFault};
pub use file_lines::{at_pieces, file_pieces, pattern_pieces, rule_file_pieces, rule_pieces};
pub use form::{DrawRequest, Form, TextForm};
pub use outside::{lies_outside, path_in};
pub use pieces::{NOTHING, Piece, push_pieces, send_both, send_pieces};
pub use read::{MAX_FILE, read_all};
pub use remedy::{Remedy, bytes_of, cause_remedy, file_word, remedy_line_pieces, run_remedy};
pub use rule_folder::{FaultyRule, rule_path};
