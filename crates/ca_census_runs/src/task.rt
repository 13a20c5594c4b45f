//! How a census of files is taken.

use ca_census::Reach;
use ca_pattern::Limits;

/// How the census of each file of a run is taken, and what is written of it.
#[derive(Clone, Copy)]
pub struct CensusTask<'a> {
    /// What may be used for each file.
    pub limits: Limits,
    /// How far it is looked for what the plane of each file settles into.
    pub reach: Reach,
    /// Whether each object is listed, with its place, in place of the counts.
    pub listed: bool,
    /// The path of the folder to which files of each census are added, where they are asked for.
    pub folder: Option<&'a [u8]>,
}
