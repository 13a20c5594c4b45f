//! Patterns in other formats than extended RLE and macrocell: Life 1.06, Life 1.05, Plaintext and apgcodes, read,
//! and written in a format of ca_pattern.
#![tactic(auto)]

mod apgcode;
mod cell_line;
mod code_cells;
pub mod examples;
mod fault;
mod format;
mod import;
pub mod laws;
mod life105;
mod life106;
mod plaintext;
mod point;
mod reading;
mod rows;
mod rule_text;
mod text_fault;
mod white;
mod writing;

pub use fault::{ImportFault, LineFault};
pub use format::{ImportFormat, LineFormat};
pub use import::{ImportedPattern, import_format, read_import};
pub use text_fault::ImportTextFault;
pub use writing::import_text;
