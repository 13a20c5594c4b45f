//! What is to be judged.

use super::needed::NeededFiles;
use ca_pattern::Limits;
use ca_text::Claim;

/// A claim of a text, the bytes and the tables on which it is judged, and how much that may take.
#[derive(Clone, Copy)]
pub(crate) struct Task<'c, 'a> {
    pub(crate) claim: &'c Claim<usize>,
    pub(crate) needed: &'c NeededFiles<'a>,
    pub(crate) limits: Limits,
}
