//! The limits of planes, pattern files, runs and claims, for the code of all crates.

/// How far from 0 a coordinate of a plane's cells may be.
pub const REACH: i128 = 1 << 62;

/// Coordinates of live cells in a file are at least `-RANGE` and below `RANGE`.
pub const RANGE: i128 = 1 << 60;

/// The longest count of a file's item.
pub const LONGEST_COUNT: u64 = 1 << 62;

/// The most live cells that are handled one by one.
pub const MOST_CELLS: u64 = 16777216;

/// The generations that a file names are below this.
pub const GENERATION_LIMIT: u64 = 1 << 63;

/// The most generations by which a leaper goes on at once, and that a claim may name.
pub const MOST_GENERATIONS: u64 = 1 << 60;

/// The greatest shift of a claim in one direction.
pub const GREATEST_SHIFT: i64 = 1 << 60;

/// The most entries of a memo.
pub const MOST_MEMO: usize = 16777216;

/// The longest period of a claim.
pub const LONGEST_PERIOD: u64 = (1 << 32) - 1;
