//! What stands before the items of an RLE text: the lines before the header, and the header.

mod header;
mod lines;
mod words;

ghost use Rattle.std.specs.Prelude.{◌≡◌, ℕ, List, ◌++◌, true, false, not, IfOk, IfErr};
ghost use Rattle.std.specs.List.{flat_map};
ghost use Rattle.ca_plane.specs.Prelude.{Every, is_line_end, is_end_or};
ghost use Rattle.ca_rle.specs.Header.{CxrleWord, is_front_line};
ghost use Rattle.ca_rle.specs.File.{line_with_lf};
ghost use Rattle.ca_rle.specs.FaultyLine.{IsFirstFaultAt};
ghost use Rattle.ca_rle.specs.inner.FrontParts.{IsPreambleOf, IsFront};

use self::header::read_header;
use self::lines::{Preamble, is_comment};
use crate::fault::RleFault;
use crate::faulty::FaultPlace;
use ca_plane::Point;
use ca_plane::bytes::split_line;

/// What stands before the items of an RLE text.
#[derive(Clone, Copy)]
pub(crate) struct Front<'a> {
    /// Where the first cell stands; where it is out of range, some place that is out of range too.
    pub(crate) corner: Point,
    pub(crate) generation: u64,
    /// The header's rule text, where it has one.
    pub(crate) rule: Option<&'a [u8]>,
    /// What stands after the header: nothing, or bytes that begin with the LF of its line.
    pub(crate) body: &'a [u8],
}

/// Reads the header, which stands in this line after what the lines before it say.
fn front_at<'a>(preamble: Preamble, line: &'a [u8], body: &'a [u8]) -> Result<Front<'a>, RleFault>
    requires line { Every (λ b. not (is_line_end b)) line.now }
    requires header { is_front_line line.now ≡ false }
    requires ends { is_end_or is_line_end body.now ≡ true }
    ensures found { IfOk result (λ f. (lines : List (List ℕ)) (said : List CxrleWord)
        → IsPreambleOf lines said preamble
        → IsFront (flat_map line_with_lf lines ++ (line.now ++ body.now)) f) }
    ensures fault { IfErr result (λ f. (lines : List (List ℕ)) (said : List CxrleWord)
        → IsPreambleOf lines said preamble
        → IsFirstFaultAt (flat_map line_with_lf lines ++ (line.now ++ body.now)) f (line.now ++ body.now)) }
{
    let Some(header) = read_header(line) else {
        return Err(RleFault::Header);
    };
    if header.rule.is_none() && preamble.has_xlife_rule {
        return Err(RleFault::XlifeRule);
    }
    Ok(Front {
        corner: preamble.start.corner,
        generation: preamble.start.generation,
        rule: header.rule,
        body,
    })
}

/// Reads the lines before the header, and the header.
///
/// # Errors
///
/// The fault of the first bad line, and the bytes from that line onwards.
pub(crate) fn read_front(bytes: &[u8]) -> Result<Front<'_>, FaultPlace<'_>>
    ensures found { IfOk result (IsFront bytes.now) }
    ensures fault { IfErr result (λ f. IsFirstFaultAt bytes.now f.fault f.rest.now) }
{
    let mut preamble = Preamble::new();
    let mut rest = bytes;
    'lines: loop {
        let (line, more) = split_line(rest);
        if !is_comment(line) {
            return match front_at(preamble, line, more) {
                Ok(front) => Ok(front),
                Err(fault) => Err(FaultPlace { fault, rest }),
            };
        }
        preamble = match preamble.after_line(line) {
            Ok(preamble) => preamble,
            Err(fault) => return Err(FaultPlace { fault, rest }),
        };
        let Some((_, later)) = more.split_first() else {
            return Err(FaultPlace {
                fault: RleFault::Header,
                rest,
            });
        };
        rest = later;
    }
}
