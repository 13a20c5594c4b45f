//! The files that a census writes into a folder: a pattern file of each object, one of the settled plane, and a claim text
//! over them.
#![tactic(auto)]

mod claims_text;
mod files;
mod folder;
pub mod laws;
mod names;
mod pattern_file;

pub use files::{FilesFault, FilesTask, files_of_census};
pub use folder::{Folder, FolderFault, NewFile};
