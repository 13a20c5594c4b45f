//! What is found of a plane, with its code.

use crate::scope::Look;

/// What a plane is found to be, and the code of that.
#[derive(Drop)]
pub struct CodedLook {
    pub look: Look,
    /// The code (LifeWiki, "Apgcode"), where the plane is a still life, an oscillator or a spaceship, and objects have codes
    /// under its rule.
    pub code: Option<Vec<u8>>,
}
