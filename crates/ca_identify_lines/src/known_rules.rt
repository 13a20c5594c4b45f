//! The rule files whose tables a run knows.

ghost use Rattle.std.specs.Prelude.{◌≡◌, length};

use ca_rule::Table;

/// The rule files that a claim text names: their paths, and the tables that they hold, in the same order.
#[derive(Clone, Copy)]
pub struct KnownRules<'a> {
    pub paths: &'a [Vec<u8>],
    pub tables: &'a [Table],
    ghost paired: { length paths.now ≡ length tables.now },
}
