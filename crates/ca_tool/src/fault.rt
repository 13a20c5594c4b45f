//! Faults of the program.

use ca_report::{InputFault, ToolFault};
use ca_text::ClaimFault;
use thiserror::Error;

/// What the program complains of.
#[derive(Clone, Copy, Debug, PartialEq, Eq, Error)]
pub enum Fault {
    /// A file was not read.
    #[error("{0}")]
    Input(InputFault),
    /// The claim text has a faulty line.
    #[error("{0}")]
    Claims(ClaimFault),
    /// The run failed.
    #[error("{0}")]
    Tool(ToolFault),
    /// There is a file at this path already, where one was to be written.
    #[error("a file is there already")]
    Taken,
    /// The file or folder of this path was not written.
    #[error("a file was not written")]
    Unwritten,
    /// A claim text that is to be written can't name the rule file or the folder of this path.
    #[error("a path that no claim text can name")]
    Unnameable,
}
