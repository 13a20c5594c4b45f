//! What may be written of a pattern.

use ca_draw::{ImageFormat, View};
use ca_pattern::Target;

/// What is written of a pattern.
#[derive(Clone, Copy)]
pub enum Form {
    /// A text that tells all of it.
    Text(TextForm),
    /// A picture of a window of its plane.
    Picture(DrawRequest),
}

/// A text that tells all of a pattern.
#[derive(Clone, Copy)]
pub enum TextForm {
    /// The five lines that are shown of it.
    Summary,
    /// The file of this format that it is converted to.
    File(Target),
}

/// What is asked for of a picture.
#[derive(Clone, Copy)]
pub struct DrawRequest {
    /// The window.
    pub view: View,
    /// What the picture is written as.
    pub format: ImageFormat,
}
