//! The lines of a macrocell text, each read by itself. Nothing here takes memory.

ghost use Rattle.std.specs.Prelude.{◌≡◌, ◌<◌, ◌≤◌, not, List, [], ◌∷◌, MatchOption, IfOk, IfErr, true, length};
ghost use Rattle.std.specs.List.{AllByRecursion};
ghost use Rattle.ca_plane.specs.Prelude.{is_end_or, is_line_end, Every, words_of};
ghost use Rattle.ca_macro.specs.Nodes.{Node};
ghost use Rattle.ca_macro.specs.Faults.{is_leaf_byte, AreFaulty, begin_node};
ghost use Rattle.ca_macro.specs.inner.Lines.{ReadsLines};

mod comment;
mod leaf;
mod numbers;

use crate::fault::MacroFault;
use ca_plane::bytes::next_word;
pub(crate) use comment::Comment;
use comment::said_by;
use leaf::{is_leaf_byte, leaf};
pub(crate) use numbers::Numbers;
use numbers::five_numbers;

/// What a line says.
#[derive(Clone, Copy)]
pub(crate) enum Line<'a> {
    /// The rule text, the generation, or nothing.
    Comment(Comment<'a>),
    /// A leaf's eight rows from the top, of which bit 0 is the west-most cell.
    Leaf([u8; 8]),
    /// The states of four cells: north-west, north-east, south-west, south-east.
    Cells([u8; 4]),
    /// A level from 2 to 120, and the numbers of the four parts.
    Parts(Numbers),
}

fn state(number: u64) -> Option<u8>
    ensures { MatchOption result (255 < number) (λ s. s ≡ number) }
{
    u8::try_from(number).ok()
}

/// The states of four cells. None where a number is above 255.
fn states(numbers: Numbers) -> Option<[u8; 4]>
    ensures { MatchOption result
        (AllByRecursion (λ s. s ≤ 255) (numbers.nw ∷ numbers.ne ∷ numbers.sw ∷ numbers.se ∷ []) → ⊥)
        (λ states. AllByRecursion (λ s. s ≤ 255) states
        × (states ≡ numbers.nw ∷ numbers.ne ∷ numbers.sw ∷ numbers.se ∷ [])) }
{
    let nw = state(numbers.nw)?;
    let ne = state(numbers.ne)?;
    let sw = state(numbers.sw)?;
    let se = state(numbers.se)?;
    Some([nw, ne, sw, se])
}

/// What a line says that begins neither as a comment nor as a leaf.
fn node(line: &[u8]) -> Result<Line<'_>, MacroFault>
    requires line { Every (λ b. not (is_line_end b)) line.now }
    requires begins { begin_node (words_of line.now) ≡ true }
    ensures read { IfOk result (λ l. ReadsLines (words_of line.now) l) }
    ensures fault { IfErr result (λ f. (earlier : List Node) → AreFaulty f earlier (words_of line.now)) }
{
    let Some(numbers) = five_numbers(line) else {
        return Err(MacroFault::Syntax);
    };
    if numbers.level == 0 || numbers.level > 120 {
        return Err(MacroFault::Level);
    }
    if numbers.level > 1 {
        return Ok(Line::Parts(numbers));
    }
    let Some(states) = states(numbers) else {
        return Err(MacroFault::Syntax);
    };
    Ok(Line::Cells(states))
}

fn begins_leaf(word: &[u8]) -> bool
    ensures { result ≡ is_end_or is_leaf_byte word.now }
{
    match word.first() {
        Some(byte) => is_leaf_byte(*byte),
        None => true,
    }
}

/// The leaf that a line gives by its first word. No other word may follow.
fn leaf_line<'a>(word: &[u8], rest: &'a [u8]) -> Result<Line<'a>, MacroFault>
    requires some { 0 < length word.now }
    requires begins { is_end_or is_leaf_byte word.now ≡ true }
    requires line { Every (λ b. not (is_line_end b)) rest.now }
    ensures read { IfOk result (λ l. ReadsLines (word.now ∷ words_of rest.now) l) }
    ensures fault { IfErr result (λ f. (earlier : List Node)
        → AreFaulty f earlier (word.now ∷ words_of rest.now)) }
{
    let rows = leaf(word)?;
    match next_word(rest) {
        Some(_) => Err(MacroFault::Syntax),
        None => Ok(Line::Leaf(rows)),
    }
}

/// What a line says by itself. It isn't asked whether its parts are earlier nodes of the right level.
///
/// # Errors
///
/// What is wrong with the line, whatever comes before it: `Timeline`, `Syntax`, `LeafSize`, `GenTooLarge`,
/// and `Level` for a level of 0 or above 120.
pub(crate) fn read_line(line: &[u8]) -> Result<Line<'_>, MacroFault>
    requires { Every (λ b. not (is_line_end b)) line.now }
    ensures read { IfOk result (λ l. ReadsLines (words_of line.now) l) }
    ensures fault { IfErr result (λ f. (earlier : List Node) → AreFaulty f earlier (words_of line.now)) }
{
    let Some((word, rest)) = next_word(line) else {
        return Ok(Line::Comment(Comment::Nothing));
    };
    if word.starts_with(b"#") {
        let said = said_by(word, rest)?;
        return Ok(Line::Comment(said));
    }
    if begins_leaf(word) {
        return leaf_line(word, rest);
    }
    node(line)
}
