//! How far it is looked for what a plane settles into.

/// How far it is looked for what a plane settles into.
#[derive(Clone, Copy, Debug, PartialEq, Eq)]
pub struct Reach {
    /// How many generations after the pattern it begins: at most 1152921504606846976, with the limit.
    pub start: u64,
    /// After how many more generations a settled plane is looked for last: at most 4294967295.
    pub limit: u64,
    /// How many units the parts of planes may take that are run alone, one for each live cell and generation: less than
    /// 4294967295.
    pub budget: u64,
    /// How many units of the leaper's work the runs of the whole plane may take, if that is bounded.
    pub patience: Option<u64>,
}
