//! Items of an RLE text.

ghost use Rattle.std.specs.Prelude.{◌≡◌};
ghost use Rattle.ca_rle.specs.Shown.{tag_state};

/// What an item repeats (Golly Help, File Formats: Extended RLE format).
#[derive(Clone, Copy, Debug, PartialEq, Eq)]
pub enum Tag {
    /// A cell of this state, 0 being a dead cell.
    Cell(u8),
    /// The end of a row.
    RowEnd,
}

impl Tag {
    /// The state of the cells, 0 for a row's end.
    pub(crate) fn state(self) -> u8
        ensures { result ≡ tag_state self }
    {
        match self {
            Tag::Cell(state) => state,
            Tag::RowEnd => 0,
        }
    }
}

/// An item: a tag, and how often it counts.
#[derive(Clone, Copy, Debug, PartialEq, Eq)]
pub struct Item {
    pub count: u64,
    pub tag: Tag,
}
