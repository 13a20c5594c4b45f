//! Files that are to be identified, and what came of them.

use ca_answers::{Cause, CodedLook};
use ca_report::{DetailedFault, FaultyRule};

/// What a file that is to be identified gave.
#[derive(Clone, Copy, Debug)]
pub enum Content<'a> {
    /// Its bytes.
    Bytes(&'a [u8]),
    /// No bytes, for this cause.
    Missing(Cause),
    /// Nothing that is to be identified: its rule text is the name for which this rule file was found.
    FaultyRule(FaultyRule<'a>),
}

/// A file that is to be identified: its path, and what it gave.
#[derive(Clone, Copy, Debug)]
pub struct Subject<'a> {
    pub path: &'a [u8],
    pub content: Content<'a>,
}

/// What came of a file that is to be identified.
#[derive(Drop)]
pub enum Outcome<'a> {
    /// No claim text can name its path.
    Unnameable,
    /// It isn't found out what its pattern is, for this reason.
    Refused(DetailedFault<Cause>),
    /// The rule file of its rule isn't good.
    FaultyRule(FaultyRule<'a>),
    /// Its pattern is this, within the limit of the look, with its code, where that is asked for; and where it is none of
    /// the kinds that are looked for, it may be known what it settles into.
    Identified(CodedLook, Option<Settles>),
}

/// When a plane settles, and into how many objects.
#[derive(Clone, Copy, Debug, PartialEq, Eq)]
pub struct Settles {
    /// The first number of generations after which it is settled.
    pub generations: u64,
    /// How many objects it consists of then.
    pub objects: u64,
}

/// A file of a claim text: its name there, its path, and what came of it.
#[derive(Drop)]
pub struct Entry<'a> {
    pub name: Vec<u8>,
    pub path: &'a [u8],
    pub outcome: Outcome<'a>,
}
