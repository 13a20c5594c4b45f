//! Pattern files of both formats: read, with their rules, summed up and written.
#![tactic(auto)]

mod cells;
mod conversion;
pub mod conversion_laws;
mod convert_fault;
pub mod evolution_laws;
mod fault_texts;
mod file;
mod format;
mod limits;
mod located_fault;
mod opening;
mod pattern;
mod pattern_fault;
mod read;
mod ruled;
mod summaries;
mod writing;

pub use cells::{bounds_of, has_large_state, has_too_many_cells};
pub use conversion::convert;
pub use convert_fault::ConvertFault;
pub use fault_texts::{rule_fault_text, table_kind, table_line};
pub use file::File;
pub use format::{FORMAT_WORDS, Format, Format as Target, text_of_tree};
pub use limits::{Limits, USUAL_MEMO};
pub use located_fault::LocatedFault;
pub use opening::open_pattern;
pub use pattern::{Cells, Loaded, Pattern, StoredTree, Summary};
pub use pattern_fault::PatternFault;
pub use read::{BadPattern, OUT_OF_MEMORY, read_pattern, read_with_line, rule_text_of};
pub use ruled::{RuledPattern, UnnamedRule, with_rule};
pub use summaries::summary;
