//! Why a pattern file isn't read.

ghost use Rattle.std.specs.Prelude.{◌≡◌};
ghost use Rattle.ca_pattern.specs.Formats.{pattern_fault_text};

use ca_macro::MacroFault;
use ca_rle::RleFault;
use thiserror::Error;

/// Why a pattern wasn't read.
#[derive(Clone, Copy, Debug, PartialEq, Eq, Error)]
pub enum PatternFault {
    /// The fault of an RLE text.
    #[error("rle: {0}")]
    Rle(RleFault),
    /// The fault of a macrocell text.
    #[error("macrocell: {0}")]
    Macro(MacroFault),
    /// An allocation failed. No verdict has it: out of memory is a cause of its own.
    #[error("out of memory")]
    Memory,
}

impl PatternFault {
    /// Why a pattern wasn't read, in the words of what is printed of it.
    pub fn text<'a>(self) -> &'a [u8]
        ensures { result.now ≡ pattern_fault_text self }
    {
        match self {
            PatternFault::Rle(RleFault::Syntax) => b"bad pattern: rle syntax",
            PatternFault::Rle(RleFault::Header) => b"bad pattern: rle header",
            PatternFault::Rle(RleFault::XlifeRule) => b"bad pattern: rle xlife rule",
            PatternFault::Rle(RleFault::NoEnd) => b"bad pattern: rle no end",
            PatternFault::Rle(RleFault::BadState) => b"bad pattern: rle bad state",
            PatternFault::Rle(RleFault::Range) => b"bad pattern: rle range",
            PatternFault::Rle(RleFault::TooManyCells) => b"bad pattern: rle too many cells",
            PatternFault::Rle(RleFault::GenTooLarge) => b"bad pattern: rle gen too large",
            PatternFault::Macro(MacroFault::NotMacro) => b"bad pattern: macrocell not macro",
            PatternFault::Macro(MacroFault::Timeline) => b"bad pattern: macrocell timeline",
            PatternFault::Macro(MacroFault::Syntax) => b"bad pattern: macrocell syntax",
            PatternFault::Macro(MacroFault::Forward) => b"bad pattern: macrocell forward",
            PatternFault::Macro(MacroFault::Level) => b"bad pattern: macrocell level",
            PatternFault::Macro(MacroFault::LeafSize) => b"bad pattern: macrocell leaf size",
            PatternFault::Macro(MacroFault::Range) => b"bad pattern: macrocell range",
            PatternFault::Macro(MacroFault::GenTooLarge) => b"bad pattern: macrocell gen too large",
            PatternFault::Rle(RleFault::Memory)
            | PatternFault::Macro(MacroFault::Memory)
            | PatternFault::Memory => b"memory",
        }
    }
}
