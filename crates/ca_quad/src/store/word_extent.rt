//! The smallest box round the live cells of 8 by 8 cells of two states.

ghost use Rattle.std.specs.Prelude.{◌<◌};
ghost use Rattle.ca_plane.specs.Prelude.{word_cells};
ghost use Rattle.ca_quad.specs.inner.Extent.{IsSquareExtent};
ghost use Rattle.ca_quad.specs.inner.WordExtent.{AreEnds, AreColumns};

use super::extent::Extent;

// The lowest and the highest bit of a word that are 1.
#[derive(Clone, Copy)]
pub(super) struct BitEnds {
    pub(super) first: u32,
    pub(super) last: u32,
}

// The smallest box round the live cells of a word, where there are any.
pub(super) fn word_extent(word: u64) -> Option<Extent>
    ensures { IsSquareExtent (word_cells word) 8 8 result }
{
    if word == 0 {
        return None;
    }
    let columns = ends_of(columns_of(word));
    let cells = ends_of(word);
    Some(Extent {
        left: columns.first as u128,
        top: (cells.first / 8) as u128,
        right: columns.last as u128,
        bottom: (cells.last / 8) as u128,
    })
}

// The ends of a word that isn't 0.
fn ends_of(word: u64) -> BitEnds
    requires { 0 < word }
    ensures { AreEnds word result }
{
    BitEnds {
        first: word.trailing_zeros(),
        last: 63 - word.leading_zeros(),
    }
}

// The columns of a word's cells that have a live one.
fn columns_of(word: u64) -> u64
    ensures { AreColumns word result }
{
    let halves = word | word >> 32;
    let quarters = halves | halves >> 16;
    (quarters | quarters >> 8) & 0xff
}
