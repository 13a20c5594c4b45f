//! What a line of a text says.

use ca_plane::Point;
use ca_rule::BsRule;

/// What a line says.
#[derive(Clone, Copy)]
pub(crate) enum Line<'a> {
    /// Nothing.
    Nothing,
    /// A live cell.
    LiveCell(Point),
    /// The cells of a row.
    Row(&'a [u8]),
    /// Where the rows after it begin.
    Corner(Point),
    /// The rule.
    Rule(BsRule),
}
