//! The lines of a rule file, one after another.

ghost use Rattle.std.specs.Prelude.{◌≡◌, ◌+◌, ◌<◌, ◌^◌, ◌∷◌, [], length, not, MatchOption, IfSome};
ghost use Rattle.ca_plane.specs.Prelude.{Every, is_line_end};
ghost use Rattle.ca_rule.specs.TableLines.{lines_said, last_line};
ghost use Rattle.ca_rule.specs.TableFaults.{number_at};

use crate::table::lines::content_of;
use ca_plane::bytes::next_line;

/// A line that says something.
#[derive(Clone, Copy)]
pub(crate) struct SaidLine<'a> {
    /// The line's number in the text, counted from 1.
    pub(crate) number: u64,
    /// What it says.
    pub(crate) content: &'a [u8],
    ghost one: { Every (λ b. not (is_line_end b)) content.now },
}

/// The lines of a text that are left.
#[derive(Clone, Copy)]
pub(crate) struct SaidLines<'a> {
    /// The whole text.
    text: &'a [u8],
    /// How many of its lines have been read.
    read: u64,
    left: &'a [u8],
    ghost few: { read + length left.now < 2 ^ 64 },
}

impl<'a> SaidLines<'a> {
    ghost use Rattle.ca_rule.specs.inner.TableReading.{said_text, left_of, said_line};

    /// All lines of the text.
    pub(crate) fn of_text(text: &'a [u8]) -> SaidLines<'a>
        ensures text { said_text result ≡ text.now }
        ensures lines { left_of result ≡ lines_said text.now }
    {
        SaidLines {
            text,
            read: 0,
            left: text,
        }
    }

    /// The first line that says something, and the lines after it.
    pub(crate) fn next(&self) -> Option<(SaidLine<'a>, SaidLines<'a>)>
        ensures lines { MatchOption result (left_of self.now ≡ [])
            (λ r. left_of self.now ≡ said_line r.0 ∷ left_of r.1) }
        ensures text { IfSome result (λ r. said_text r.1 ≡ said_text self.now) }
        ensures shorter { IfSome result (λ r. length r.1.left.now < length self.now.left.now) }
    {
        let mut read = self.read;
        let mut left = self.left;
        'lines: while !left.is_empty() {
            let (line, later) = next_line(left);
            read += 1;
            left = later;
            let content = content_of(line);
            if !content.is_empty() {
                let line = SaidLine {
                    number: read,
                    content,
                };
                let lines = SaidLines {
                    text: self.text,
                    read,
                    left,
                };
                return Some((line, lines));
            }
        }
        None
    }

    /// The number of the first line that is left and says something, or of the text's last line where there
    /// is none.
    pub(crate) fn number(&self) -> u64
        ensures { result ≡ number_at (said_text self.now) (left_of self.now) }
    {
        match self.next() {
            Some((line, _)) => line.number,
            None => last_line(self.text),
        }
    }

    /// The number of the text's last line.
    pub(crate) fn last_line(&self) -> u64
        ensures { result ≡ last_line (said_text self.now) }
    {
        last_line(self.text)
    }
}

/// The number of the text's last line.
fn last_line(text: &[u8]) -> u64
    ensures { result ≡ last_line text.now }
{
    let mut count: u64 = 0;
    let mut left = text;
    'lines: while !left.is_empty() {
        let (_, later) = next_line(left);
        count += 1;
        left = later;
    }
    count.max(1)
}
