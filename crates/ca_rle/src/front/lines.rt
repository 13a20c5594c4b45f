//! The lines before the header.

ghost use Rattle.std.specs.Prelude.{◌≡◌, [], true, not, IsTrue, IsFalse, MatchOption, IfSome, IfOk, IfErr};
ghost use Rattle.ca_plane.specs.Prelude.{Every, is_line_end, words_of, without_cr};
ghost use Rattle.ca_rle.specs.Header.{is_front_line, extended_words, IsXlifeLine};
ghost use Rattle.ca_rle.specs.Faults.{HasBadWordAmong};
ghost use Rattle.ca_rle.specs.inner.FrontParts.{WordsLead, IsPreambleOf, LeadsPreamble};

use super::words::Start;
use crate::fault::RleFault;
use ca_plane::Point;
use ca_plane::bytes::{is_blank, next_word, split_blanks, strip};

/// What the lines before a header say.
#[derive(Clone, Copy)]
pub(crate) struct Preamble {
    pub(crate) start: Start,
    /// Whether one of them gives the rule in XLife's way.
    pub(crate) has_xlife_rule: bool,
}

/// Whether the line may stand before a header: it is blank, or its first byte that is no blank is `#`.
pub(crate) fn is_comment(line: &[u8]) -> bool
    ensures { result ≡ is_front_line line.now }
{
    let (_, text) = split_blanks(line);
    match text.first() {
        Some(byte) => *byte == b'#',
        None => true,
    }
}

/// The line without the one CR that may stand before its end.
fn without_cr(line: &[u8]) -> &[u8]
    ensures { result.now ≡ without_cr line.now }
{
    let Some((last, before)) = line.split_last() else {
        return line;
    };
    if *last != b'\r' {
        return line;
    }
    before
}

/// Whether the line gives the rule in XLife's way: it begins with `#r` and a blank.
fn is_xlife_line(line: &[u8]) -> bool
    ensures yes { IsTrue result → IsXlifeLine line.now }
    ensures no { IsFalse result → IsXlifeLine line.now → ⊥ }
{
    let (_, text) = split_blanks(without_cr(line));
    let Some(rest) = strip(text, b"#r") else {
        return false;
    };
    match rest.first() {
        Some(byte) => is_blank(*byte),
        None => false,
    }
}

/// The bytes after `#CXRLE`, where that is the line's first word.
fn after_cxrle(line: &[u8]) -> Option<&[u8]>
    requires { Every (λ b. not (is_line_end b)) line.now }
    ensures words { MatchOption result (extended_words line.now ≡ [])
        (λ w. extended_words line.now ≡ words_of w.now) }
    ensures line { IfSome result (λ w. Every (λ b. not (is_line_end b)) w.now) }
{
    let (word, words) = next_word(line)?;
    if word != b"#CXRLE".as_slice() {
        return None;
    }
    Some(words)
}

impl Preamble {
    /// Before the first line.
    pub(crate) fn new() -> Preamble
        ensures { IsPreambleOf [] [] result }
    {
        Preamble {
            start: Start {
                corner: Point { y: 0, x: 0 },
                generation: 0,
            },
            has_xlife_rule: false,
        }
    }

    /// The start where the words of this line stand after those before.
    fn start_after(self, line: &[u8]) -> Result<Start, RleFault>
        requires { Every (λ b. not (is_line_end b)) line.now }
        ensures found { IfOk result (λ t. WordsLead (extended_words line.now) self.start t) }
        ensures fault { IfErr result (λ f. HasBadWordAmong (extended_words line.now) f) }
    {
        match after_cxrle(line) {
            Some(words) => self.start.after_words(words),
            None => Ok(self.start),
        }
    }

    /// What this line says after those before.
    pub(crate) fn after_line(self, line: &[u8]) -> Result<Preamble, RleFault>
        requires line { Every (λ b. not (is_line_end b)) line.now }
        requires comment { is_front_line line.now ≡ true }
        ensures found { IfOk result (LeadsPreamble line.now self) }
        ensures fault { IfErr result (λ f. HasBadWordAmong (extended_words line.now) f) }
    {
        let start = self.start_after(line)?;
        Ok(Preamble {
            start,
            has_xlife_rule: self.has_xlife_rule || is_xlife_line(line),
        })
    }
}
