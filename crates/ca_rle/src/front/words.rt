//! The words of a line before the header, and where they let a pattern start.

ghost use Rattle.std.specs.Prelude.{◌≡◌, ℕ, List, [], ◌∷◌, ◌++◌, not, codes, MatchOption, IfOk, IfErr, ℤ};
ghost use Rattle.ca_plane.specs.Prelude.{Every, is_line_end, IsInteger, words_of};
ghost use Rattle.ca_rle.specs.Header.{WordSays, Generation as SaidGeneration};
ghost use Rattle.ca_rle.specs.Faults.{IsBadWord, HasBadWordAmong};
ghost use Rattle.ca_rle.specs.inner.FrontParts.{Writes, WritesPair, WordsLead};

use crate::fault::RleFault;
use ca_plane::Point;
use ca_plane::bytes::{integer, next_word, split_at_first, strip, whole_number};

/// Where and when a pattern starts.
#[derive(Clone, Copy)]
pub(crate) struct Start {
    /// Where the first cell stands; where it is out of range, some place that is out of range too.
    pub(crate) corner: Point,
    pub(crate) generation: u64,
}

/// More than a coordinate may be, both ways.
const BEYOND_RANGE: i64 = 1 << 61;

/// The coordinate that the bytes write; where it is out of range, some number that is out of range too.
fn coordinate(bytes: &[u8]) -> Option<i64>
    ensures { MatchOption result ((n : ℤ) → IsInteger bytes.now n → ⊥) (λ n. Writes bytes.now n) }
{
    Some(integer(bytes)?.clamp(-BEYOND_RANGE, BEYOND_RANGE))
}

/// The place that two numbers with a comma between them write.
fn place(bytes: &[u8]) -> Option<Point>
    ensures { MatchOption result ((x y : ℤ) (a b : List ℕ) → bytes.now ≡ a ++ 44 ∷ b
        → IsInteger a x → IsInteger b y → ⊥) (WritesPair bytes.now) }
{
    let (x, rest) = split_at_first(bytes, b',');
    let y = strip(rest, b",")?;
    let x = coordinate(x)?;
    let y = coordinate(y)?;
    Some(Point { y, x })
}

/// The generation that the digits write.
fn generation(digits: &[u8]) -> Result<u64, RleFault>
    ensures found { IfOk result (λ n. WordSays (codes "Gen=" ++ digits.now) (SaidGeneration n)) }
    ensures fault { IfErr result (λ f. IsBadWord (codes "Gen=" ++ digits.now) f) }
{
    let Some(generation) = whole_number(digits) else {
        return Err(RleFault::Syntax);
    };
    if generation >= ca_plane::limits::GENERATION_LIMIT {
        return Err(RleFault::GenTooLarge);
    }
    Ok(generation)
}

impl Start {
    /// The start where this word stands after those before.
    fn after_word(self, word: &[u8]) -> Result<Start, RleFault>
        ensures found { IfOk result (λ t. WordsLead (word.now ∷ []) self t) }
        ensures fault { IfErr result (λ f. IsBadWord word.now f) }
    {
        if let Some(numbers) = strip(word, b"Pos=") {
            let Some(corner) = place(numbers) else {
                return Err(RleFault::Syntax);
            };
            return Ok(Start { corner, ..self });
        }
        if let Some(digits) = strip(word, b"Gen=") {
            let generation = generation(digits)?;
            return Ok(Start { generation, ..self });
        }
        Ok(self)
    }

    /// The start where these words stand after those before.
    pub(crate) fn after_words(self, words: &[u8]) -> Result<Start, RleFault>
        requires { Every (λ b. not (is_line_end b)) words.now }
        ensures found { IfOk result (λ t. WordsLead (words_of words.now) self t) }
        ensures fault { IfErr result (λ f. HasBadWordAmong (words_of words.now) f) }
    {
        let mut start = self;
        let mut rest = words;
        'words: while let Some((word, more)) = next_word(rest) {
            start = start.after_word(word)?;
            rest = more;
        }
        Ok(start)
    }
}
