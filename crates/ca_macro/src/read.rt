//! The reader of macrocell.

ghost use Rattle.std.specs.Prelude.{◌≡◌, ◌⊎◌, ◌<◌, List, IfOk, IfErr};
ghost use Rattle.ca_quad.specs.Prelude.{Grows};
ghost use Rattle.ca_macro.specs.declared.fault.MacroFault.TheVariants.{Range, Memory};
ghost use Rattle.ca_macro.specs.File.{MacrocellLine};
ghost use Rattle.ca_macro.specs.Limits.{IsMacrocellWithinRange, IsMacrocellOutOfRange};
ghost use Rattle.ca_macro.specs.Faults.{IsMacrocellFault, IsMacrocellFaultOn};
ghost use Rattle.ca_macro.specs.Pattern.{IsMacrocellPattern, HoldsMacrocellPattern};
ghost use Rattle.ca_macro.specs.inner.Reading.{HoldsReading, IsMacrocellReading, IsMacrocellReadingFault, file_of_lines};

mod empties;
mod range;
mod reading;
mod squares;

use crate::fault::{LineFault, MacroFault};
use crate::pattern::MacroPattern;
use ca_plane::bytes::next_line;
use ca_plane::text::rule_text;
use ca_quad::Store;
use range::trim_in_range;
use reading::Reading;
use std::alloc::Global;

/// What a text's lines say, read into the store.
///
/// # Errors
///
/// The first fault of its spelling, and its line; and `Memory` where an allocation fails for the node of a
/// good line.
pub(crate) fn read_text<'a>(
    alloc: Global,
    store: &mut Store,
    bytes: &'a [u8],
) -> Result<Reading<'a>, LineFault>
    ensures found { IfOk result (HoldsReading store.new bytes.now) }
    ensures fault { IfErr result (λ f. IsMacrocellReadingFault bytes.now f.fault f.line) }
    ensures grows { Grows store.old store.new }
{
    // Says what holds of every store.
    let _ = store.count();
    if !bytes.starts_with(b"[M2]") {
        return Err(LineFault {
            fault: MacroFault::NotMacro,
            line: Some(1),
        });
    }
    let mut reading = Reading::new(alloc);
    let (_, mut rest) = next_line(bytes);
    let mut number = 1;
    'lines: while !rest.is_empty() {
        let (line, later) = next_line(rest);
        number += 1;
        if let Err(fault) = reading.read(store, line) {
            return Err(LineFault::at_line(fault, number));
        }
        rest = later;
    }
    Ok(reading)
}

/// The pattern of a text whose lines have been read.
fn pattern_of(
    alloc: Global,
    store: &mut Store,
    reading: &Reading<'_>,
) -> Result<MacroPattern, MacroFault>
    requires { (said : List MacrocellLine) × IsMacrocellReading store.old said reading.now }
    ensures found { IfOk result (λ p. (said : List MacrocellLine)
        → IsMacrocellReading store.old said reading.now
        → IsMacrocellWithinRange (file_of_lines said) × IsMacrocellPattern store.new (file_of_lines said) p) }
    ensures fault { IfErr result (λ f. (said : List MacrocellLine)
        → IsMacrocellReading store.old said reading.now
        → (f ≡ Memory) ⊎ ((f ≡ Range) × IsMacrocellOutOfRange (file_of_lines said))) }
    ensures grows { Grows store.old store.new }
{
    let root = reading.squares.root(store)?;
    let tree = trim_in_range(alloc, store, root)?;
    let Ok(rule_text) = rule_text(alloc, reading.rule) else {
        return Err(MacroFault::Memory);
    };
    Ok(MacroPattern {
        tree,
        rule_text,
        generation: reading.generation,
    })
}

/// Reads a macrocell text (Golly Help, File Formats; docs/FORMATS.md) into the store: the pattern that it
/// holds, the centre of its root at the corner between the cells (-1, -1) and (0, 0).
///
/// Each node becomes a square of the store as its line comes, so the work is in proportion to the text,
/// however many cells it shows.
///
/// # Errors
///
/// The fault of the first faulty line, and that line; else `Range` where a live cell isn't from -2^60 to
/// 2^60 - 1 in both directions; and `Memory` where an allocation fails, at a good line that adds a node after
/// good lines, or after the last line of a good text. After an error the store is as before or has more
/// squares.
pub fn read_macro_with_line(
    alloc: Global,
    store: &mut Store,
    bytes: &[u8],
) -> Result<MacroPattern, LineFault>
    // What is read is what the text holds, and each live cell is in range.
    ensures found { IfOk result (HoldsMacrocellPattern store.new bytes.now) }
    // A text that is refused has this fault, on this line.
    ensures fault { IfErr result (λ f. IsMacrocellFaultOn bytes.now f.fault f.line) }
    // Every old square stays.
    ensures grows { Grows store.old store.new }
{
    let reading = read_text(alloc, store, bytes)?;
    match pattern_of(alloc, store, &reading) {
        Ok(pattern) => Ok(pattern),
        Err(fault) => Err(LineFault { fault, line: None }),
    }
}

/// Reads a macrocell text as `read_macro_with_line` does, where the line of a fault isn't wanted.
///
/// # Errors
///
/// Those of `read_macro_with_line`.
pub fn read_macro(
    alloc: Global,
    store: &mut Store,
    bytes: &[u8],
) -> Result<MacroPattern, MacroFault>
    // What is read is what the text holds, and each live cell is in range.
    ensures found { IfOk result (HoldsMacrocellPattern store.new bytes.now) }
    // A text that is refused has this fault.
    ensures fault { IfErr result (λ f. IsMacrocellFault bytes.now f) }
    // Every old square stays.
    ensures grows { Grows store.old store.new }
{
    match read_macro_with_line(alloc, store, bytes) {
        Ok(pattern) => Ok(pattern),
        Err(found) => Err(found.fault),
    }
}
