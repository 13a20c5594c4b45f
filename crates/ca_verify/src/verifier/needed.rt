//! What the claims of a text need of the files that are supplied.

use super::tables::Tables;

/// The bytes of each path of a text, and its rule tables.
#[derive(Drop)]
pub struct NeededFiles<'a> {
    pub found: Vec<Option<&'a [u8]>>,
    pub tables: Tables,
}
