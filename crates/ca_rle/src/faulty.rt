//! The first fault of a text, and the place where the reader met it.

ghost use Rattle.std.specs.Prelude.{◌≡◌, ◌≢◌};
ghost use Rattle.ca_rle.specs.declared.fault.RleFault.TheVariants.{Memory};
ghost use Rattle.ca_rle.specs.FaultyLine.{IsFirstFaultAt, IsRleFaultOn, line_number_of};

use crate::fault::{LineFault, RleFault};

/// A fault, and the bytes that were left to read.
#[derive(Clone, Copy)]
pub(crate) struct FaultPlace<'a> {
    pub(crate) fault: RleFault,
    /// From the faulty line or item on.
    pub(crate) rest: &'a [u8],
}

impl FaultPlace<'_> {
    /// The fault of this text, with the line on which it stands.
    pub(crate) fn in_text(self, text: &[u8]) -> LineFault
        requires { IsFirstFaultAt text.now self.fault self.rest.now }
        ensures fault { IsRleFaultOn text.now result.fault result.line }
        ensures no_memory { result.fault ≢ Memory }
    {
        LineFault {
            fault: self.fault,
            line: Some(line_of(text, self.rest)),
        }
    }
}

/// The number, counted from 1, of the line on which the rest of a text begins. The end of a text stands on
/// the line of its last byte.
fn line_of(text: &[u8], rest: &[u8]) -> u64
    ensures { result ≡ line_number_of text.now rest.now }
{
    let (before, _) = text.split_at(text.len().saturating_sub(rest.len().max(1)));
    1 + before.iter().filter(|byte| **byte == b'\n').count() as u64
}
