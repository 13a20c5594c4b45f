//! Files that were read.

/// A file that was read: its path, as it is written where the file is named, and its bytes.
#[derive(Clone, Copy, Debug)]
pub struct File<'a> {
    pub path: &'a [u8],
    pub bytes: &'a [u8],
}
