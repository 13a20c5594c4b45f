//! Pattern files, read into a store of squares.

ghost use Rattle.std.specs.Prelude.{◌≡◌, ◌≢◌, ℕ, ◌<◌, List, IfOk, IfErr, IsErrOf, MatchOption, MatchResult, OnErr};
ghost use Rattle.ca_plane.specs.Prelude.{Picture, IsWord, generation_limit};
ghost use Rattle.ca_quad.specs.Prelude.{Grows, cell};
ghost use Rattle.ca_macro.specs.Prelude.{AreInRange};
ghost use Rattle.ca_rle.specs.Prelude.{IsRleFaultOn, IsReadableRle};
ghost use Rattle.ca_rle.specs.declared.fault.RleFault.TheVariants as rle_fault;
ghost use Rattle.ca_pattern.specs.declared.format.Format.TheVariants.{Rle};
ghost use Rattle.ca_pattern.specs.declared.pattern_fault.PatternFault.TheVariants as pattern_fault;
ghost use Rattle.ca_pattern.specs.Formats.{format_of, IsUnreadFile, IsPatternFault};
ghost use Rattle.ca_pattern.specs.Means.{HoldsRuleText, MayWantMemory};
ghost use Rattle.ca_pattern.specs.Loaded.{IsLoaded};
ghost use Rattle.ca_pattern.specs.Patterns.{IsReadFrom, IsUnread};

use crate::format::{Format, format_of, load};
use crate::pattern::Loaded;
use crate::pattern_fault::PatternFault;
use ca_plane::Memory;
use ca_plane::text::rule_text;
use ca_quad::Store;
use ca_rle::{LineFault, RleFault, judge_rle};
use std::alloc::Global;

/// Reads a pattern file into the store: bytes that begin with `[M2]` as macrocell, and all others as RLE.
///
/// # Errors
///
/// The fault of the file, by its format; and `Memory` where an allocation fails: for an RLE that reads, and
/// for a macrocell at a good line that adds a node after good lines, or after the last line of a good text.
/// After a refusal the store is as before or has more squares.
pub fn read_pattern(alloc: Global, store: &mut Store, bytes: &[u8]) -> Result<Loaded, PatternFault>
    // What is read is what the file means, and it passes no limit.
    ensures read { IfOk result (λ p. (cells : Picture) × IsLoaded store.new bytes.now cells p) }
    ensures range { IfOk result (λ p. AreInRange (cell store.new p.tree)) }
    ensures generation { IfOk result (λ p. p.generation < generation_limit) }
    ensures rule { IfOk result (λ p. IsWord p.rule_text.items) }
    // A file that is refused has this fault.
    ensures fault { IfErr result (λ f. f ≢ pattern_fault.Memory → IsPatternFault bytes.now f) }
    ensures memory { IsErrOf result PatternFault.Memory → MayWantMemory bytes.now }
    // Every old square stays.
    ensures grows { Grows store.old store.new }
{
    match read_with_line(alloc, store, bytes) {
        Ok(pattern) => Ok(pattern),
        Err(bad) => Err(bad.fault),
    }
}

/// The rule text of the pattern file with these bytes: what its header or its `#R` line says, else `B3/S23`.
/// None where the file isn't read.
///
/// # Errors
///
/// Fails where there is no memory for the pattern of the file.
pub fn rule_text_of(alloc: Global, bytes: &[u8]) -> Result<Option<Vec<u8>>, Memory>
    ensures text { IfOk result (λ found. MatchOption found (IsUnreadFile bytes.now)
        (λ text. HoldsRuleText text.items bytes.now)) }
    ensures memory { OnErr result (MayWantMemory bytes.now) }
{
    match format_of(bytes) {
        // No cell of an RLE is drawn for it.
        Format::Rle => match judge_rle(bytes) {
            Ok(text) => Ok(Some(rule_text(alloc, text.rule)?)),
            Err(_) => Ok(None),
        },
        _ => {
            let mut store = Store::new(alloc);
            match read_pattern(alloc, &mut store, bytes) {
                Ok(pattern) => Ok(Some(pattern.rule_text)),
                Err(PatternFault::Memory) => Err(Memory),
                Err(_) => Ok(None),
            }
        }
    }
}

/// Why a pattern file isn't read, and the line on which the fault stands, where it stands on one.
#[derive(Clone, Copy, Debug)]
pub struct BadPattern {
    pub fault: PatternFault,
    pub line: Option<u64>,
}

/// No memory to read a pattern file.
pub const OUT_OF_MEMORY: BadPattern = BadPattern {
    fault: PatternFault::Memory,
    line: None,
};

/// Reads a pattern file into the store, as `read_pattern` does. A fault comes with its line.
///
/// # Errors
///
/// As for `read_pattern`.
pub fn read_with_line(alloc: Global, store: &mut Store, bytes: &[u8]) -> Result<Loaded, BadPattern>
    ensures read { MatchResult result (IsReadFrom store.new bytes.now) (IsUnread bytes.now) }
    ensures grows { Grows store.old store.new }
{
    load(alloc, store, bytes)
}

/// Why an RLE file isn't read.
pub(crate) fn bad_rle(found: LineFault) -> BadPattern
    ensures { (bytes : List ℕ) → format_of bytes ≡ Rle → IsRleFaultOn bytes found.fault found.line
        → (found.fault ≡ rle_fault.Memory → IsReadableRle bytes) → IsUnread bytes result }
{
    match found.fault {
        RleFault::Memory => OUT_OF_MEMORY,
        fault => BadPattern {
            fault: PatternFault::Rle(fault),
            line: found.line,
        },
    }
}
