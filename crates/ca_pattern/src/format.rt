//! The formats of pattern files: which one bytes are of, how each is read and named, and how cells are written in
//! it. Another format is a case here, and one of each definition of `specs/Formats.antt`.

ghost use Rattle.std.specs.Prelude.{◌≡◌, ◌≤◌, length, IfOk, IfErr, MatchResult};
ghost use Rattle.ca_plane.specs.Prelude.{most_cells, cell as plane_cell};
ghost use Rattle.ca_quad.specs.Prelude.{Grows, cell};
ghost use Rattle.ca_rle.specs.Prelude.{IsWritableRle};
ghost use Rattle.ca_macro.specs.Prelude.{IsWritable};
ghost use Rattle.ca_pattern.specs.declared.format.Format.TheVariants.{Rle, Mc};
ghost use Rattle.ca_pattern.specs.Formats.{format_of, format_name};
ghost use Rattle.ca_pattern.specs.Patterns.{IsReadFrom, IsUnread};
ghost use Rattle.ca_pattern.specs.Written.{IsTidyTextOf, AreUnwritten};

use crate::cells::{plane_of, tree_of};
use crate::located_fault::LocatedFault;
use crate::pattern::Loaded;
use crate::pattern_fault::PatternFault;
use crate::read::{BadPattern, OUT_OF_MEMORY, bad_rle};
use ca_macro::{LineFault, MacroFault, read_macro_with_line, write_macro};
use ca_plane::Plane;
use ca_plane::text::rule_text;
use ca_quad::{Store, Tree};
use ca_rle::{draw_text, judge_rle, write_rle};
use std::alloc::Global;

/// A format of pattern files.
#[derive(Clone, Copy, Debug, PartialEq, Eq)]
pub enum Format {
    /// Extended RLE.
    Rle,
    /// Macrocell.
    Mc,
}

/// The words for the formats on the command line. `Format::of_word` knows each of them.
pub const FORMAT_WORDS: [&str; 2] = ["rle", "mc"];

impl Format {
    /// The name by which the format is shown.
    pub fn name<'a>(self) -> &'a [u8]
        ensures { result.now ≡ format_name self }
    {
        match self {
            Format::Rle => b"rle",
            Format::Mc => b"macrocell",
        }
    }

    /// The format that the command line calls by this word.
    pub fn of_word(word: &str) -> Option<Format> {
        match word {
            "rle" => Some(Format::Rle),
            "mc" => Some(Format::Mc),
            _ => None,
        }
    }
}

/// The format of a file with these bytes.
pub(crate) fn format_of(bytes: &[u8]) -> Format
    ensures { result ≡ format_of bytes.now }
{
    if bytes.starts_with(b"[M2]") {
        return Format::Mc;
    }
    Format::Rle
}

/// Reads a pattern file into the store, by its format. A fault comes with its line.
pub(crate) fn load(alloc: Global, store: &mut Store, bytes: &[u8]) -> Result<Loaded, BadPattern>
    ensures read { MatchResult result (IsReadFrom store.new bytes.now) (IsUnread bytes.now) }
    ensures grows { Grows store.old store.new }
{
    match format_of(bytes) {
        Format::Rle => load_rle(alloc, store, bytes),
        Format::Mc => load_macro(alloc, store, bytes),
    }
}

/// Reads an RLE file into the store.
fn load_rle(alloc: Global, store: &mut Store, bytes: &[u8]) -> Result<Loaded, BadPattern>
    requires { format_of bytes.now ≡ Rle }
    ensures read { MatchResult result (IsReadFrom store.new bytes.now) (IsUnread bytes.now) }
    ensures grows { Grows store.old store.new }
{
    let _ = store.count();
    let text = match judge_rle(bytes) {
        Ok(text) => text,
        Err(found) => return Err(bad_rle(found)),
    };
    let Ok(rule_text) = rule_text(alloc, text.rule) else {
        return Err(OUT_OF_MEMORY);
    };
    let Ok(cells) = draw_text(alloc, text) else {
        return Err(OUT_OF_MEMORY);
    };
    let Ok(tree) = tree_of(store, cells) else {
        return Err(OUT_OF_MEMORY);
    };
    Ok(Loaded {
        kind: Format::Rle,
        tree,
        rule_text,
        generation: text.generation,
    })
}

/// Reads a macrocell file into the store.
fn load_macro(alloc: Global, store: &mut Store, bytes: &[u8]) -> Result<Loaded, BadPattern>
    requires { format_of bytes.now ≡ Mc }
    ensures read { MatchResult result (IsReadFrom store.new bytes.now) (IsUnread bytes.now) }
    ensures grows { Grows store.old store.new }
{
    match read_macro_with_line(alloc, store, bytes) {
        Ok(pattern) => Ok(Loaded {
            kind: Format::Mc,
            tree: pattern.tree,
            rule_text: pattern.rule_text,
            generation: pattern.generation,
        }),
        Err(
            LineFault {
                fault: MacroFault::Memory,
                ..
            },
        ) => Err(OUT_OF_MEMORY),
        Err(LineFault { fault, line }) => Err(BadPattern {
            fault: PatternFault::Macro(fault),
            line,
        }),
    }
}

/// The tidy text of the target's format with the cells of a tree, a rule text, a generation, and as many
/// states as the rule has. The live cells are in a file's range and their states below that number, the rule
/// text is a word, and the generation is below 2^63.
///
/// # Errors
///
/// `TooManyCells` for an RLE of more than 16777216 live cells. `Memory` may come before.
pub fn text_of_tree(
    alloc: Global,
    store: &mut Store,
    tree: Tree,
    rule_text: &[u8],
    generation: u64,
    states: u16,
    target: Format,
) -> Result<Vec<u8>, LocatedFault>
    requires { IsWritable store.old tree rule_text.now generation states }
    ensures written { IfOk result (λ text.
        IsTidyTextOf target (cell store.old tree) rule_text.now generation states text.items) }
    ensures fault { IfErr result (AreUnwritten target (cell store.old tree)) }
{
    match target {
        Format::Rle => match plane_of(alloc, store, tree) {
            Ok(Some(cells)) => rle_of_plane(alloc, &cells, rule_text, generation, states),
            Ok(None) => Err(LocatedFault::TooManyCells),
            Err(_) => Err(LocatedFault::Memory),
        },
        Format::Mc => match write_macro(alloc, store, tree, rule_text, generation, states) {
            Ok(text) => Ok(text),
            Err(_) => Err(LocatedFault::Memory),
        },
    }
}

/// The tidy RLE of the cells of a plane.
fn rle_of_plane(
    alloc: Global,
    cells: &Plane,
    rule_text: &[u8],
    generation: u64,
    states: u16,
) -> Result<Vec<u8>, LocatedFault>
    requires writable { IsWritableRle cells.now rule_text.now generation states }
    requires few { length cells.now ≤ most_cells }
    ensures written { IfOk result (λ text.
        IsTidyTextOf Rle (plane_cell cells.now) rule_text.now generation states text.items) }
    ensures fault { IfErr result (AreUnwritten Rle (plane_cell cells.now)) }
{
    match write_rle(alloc, cells, rule_text, generation, states) {
        Ok(text) => Ok(text),
        Err(_) => Err(LocatedFault::Memory),
    }
}
