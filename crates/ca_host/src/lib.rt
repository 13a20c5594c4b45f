//! What the program has of the machine that it runs on: files, the standard streams, and the line that tells
//! how far a run is.
#![tactic(auto)]

mod files;
mod lookups;
mod progress;
mod rules;
mod streams;
mod whole_files;

pub use files::{
    FaultyFile, LoadedFile, LoadedText, LostFile, NeededFiles, bytes_at, check_folder,
    faulty_rules, load_needed, load_once, missing_files, open_source, read_file, read_source,
    views,
};
pub use lookups::{Lookup, NamedLookup};
pub use progress::{Heading, Progress};
pub use rules::{NamedTable, RuleFiles, table_named};
pub use streams::{Source, Streams};
pub use whole_files::{Unread, WholeFiles};
