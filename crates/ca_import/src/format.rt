//! The formats that are read here.

/// A format that is read here. None of them has states above 1.
#[derive(Clone, Copy, Debug, PartialEq, Eq)]
pub enum ImportFormat {
    /// A format whose lines say which cells are live.
    Lines(LineFormat),
    /// An apgcode, the only word of a text.
    Apgcode,
}

/// A format whose lines say which cells are live.
#[derive(Clone, Copy, Debug, PartialEq, Eq)]
pub enum LineFormat {
    /// Life 1.06: a line for each live cell.
    Life106,
    /// Life 1.05: blocks of rows.
    Life105,
    /// Plaintext, the format of `.cells` files: rows.
    Plaintext,
}
