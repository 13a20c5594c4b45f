//! How files are identified.

use ca_answers::Scope;
use ca_pattern::Limits;

/// How the files of a run are identified.
#[derive(Clone, Copy)]
pub struct Task {
    /// How many generations after the patterns the planes are identified: at most 1152921504606846976.
    pub generations: u64,
    /// What may be used for each file.
    pub limits: Limits,
    /// How far each plane is looked at from there.
    pub scope: Scope,
    /// Whether the text tells the codes of still lifes, oscillators and spaceships (LifeWiki, "Apgcode").
    pub codes: bool,
}
