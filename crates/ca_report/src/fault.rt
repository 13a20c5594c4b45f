//! Faults of runs.

use ca_draw::WindowFault;
use ca_pattern::ConvertFault;
use ca_rule::TableFault;
use thiserror::Error;

/// Why a file was not read.
#[derive(Clone, Copy, Debug, PartialEq, Eq, Error)]
pub enum InputFault {
    /// A read failed, or the file could not be opened.
    #[error("reading failed")]
    Read,
    /// More than 67108864 bytes came.
    #[error("too long")]
    TooLong,
    /// An allocation failed.
    #[error("out of memory")]
    Memory,
}

/// Why a run ended without its whole text being written: the first of these that holds, but that `Memory` may
/// come before any other. On all but `Write` nothing was written, but that a run that identifies files may have
/// written the text on the first ones, and is out of memory then.
#[derive(Clone, Copy, Debug, PartialEq, Eq, Error)]
pub enum ToolFault {
    /// The file was not read.
    #[error("{0}")]
    Input(InputFault),
    /// The rule file holds no table, or one that wakes the empty plane. Its fault is never `Memory` here.
    #[error("rule table: {0}")]
    BadTable(TableFault),
    /// The pattern isn't shown or converted. Its fault is never `Memory` here.
    #[error("{0}")]
    Convert(ConvertFault),
    /// The file's generation and those after it are together more than 2^63 - 1. Only runs that advance a pattern
    /// have it.
    #[error("the generation is too large")]
    GenTooLarge,
    /// As much work was done as may be. Only runs that advance a pattern have it.
    #[error("out of work")]
    Work,
    /// A cell is live in the end where no file may have one. Only runs that advance a pattern have it.
    #[error("out of range")]
    Range,
    /// There is no window of the plane as it is asked for.
    #[error("{0}")]
    Window(WindowFault),
    /// A write failed or took no byte; a first part of the text was written, but not all of it.
    #[error("writing failed")]
    Write,
    /// An allocation failed.
    #[error("out of memory")]
    Memory,
}
