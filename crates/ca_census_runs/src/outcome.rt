//! What comes of the census of a file.

use ca_answers::Cause;
use ca_census::FileCensus;
use ca_report::{DetailedFault, FaultyRule};

/// What comes of the census of a file.
#[derive(Drop)]
pub enum CensusOutcome<'a> {
    /// Its plane settles within the reach, and this is the census of it.
    Settled(FileCensus),
    /// It isn't found to settle within the reach.
    Unsettled,
    /// Files are to be written of its census, and no claim text can name its path.
    Unnameable,
    /// There is no census of it, for this reason.
    Refused(DetailedFault<Cause>),
    /// The rule file of its rule isn't good.
    FaultyRule(FaultyRule<'a>),
}
