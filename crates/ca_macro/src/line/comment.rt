//! A line whose first word begins with `#`.

ghost use Rattle.std.specs.Prelude.{◌≡◌, not, List, ◌∷◌, true, codes, IfOk, IfErr};
ghost use Rattle.std.specs.Bool.{nat_eq};
ghost use Rattle.std.specs.List.{starts_with};
ghost use Rattle.ca_plane.specs.Prelude.{is_line_end, Every, words_of};
ghost use Rattle.ca_macro.specs.File.{MacrocellWordsSay};
ghost use Rattle.ca_macro.specs.Nodes.{Node};
ghost use Rattle.ca_macro.specs.Faults.{AreFaulty};
ghost use Rattle.ca_macro.specs.inner.Comments.{said_of};

use crate::fault::MacroFault;
use ca_plane::bytes::{next_word, whole_number};

/// What a line says that begins with `#`.
#[derive(Clone, Copy)]
pub(crate) enum Comment<'a> {
    /// It is a comment.
    Nothing,
    /// The rule text.
    Rule(&'a [u8]),
    /// The generation.
    Generation(u64),
}

/// What the words after `#R` say: the first is the rule text.
fn rule(rest: &[u8]) -> Comment<'_>
    requires { Every (λ b. not (is_line_end b)) rest.now }
    ensures { MacrocellWordsSay (codes "#R" ∷ words_of rest.now) (said_of result) }
{
    match next_word(rest) {
        Some((text, _)) => Comment::Rule(text),
        None => Comment::Nothing,
    }
}

/// What the words after `#G` say: one number is the generation.
fn generation(rest: &[u8]) -> Result<Comment<'_>, MacroFault>
    requires { Every (λ b. not (is_line_end b)) rest.now }
    ensures said { IfOk result (λ s. MacrocellWordsSay (codes "#G" ∷ words_of rest.now) (said_of s)) }
    ensures fault { IfErr result (λ f. (earlier : List Node)
        → AreFaulty f earlier (codes "#G" ∷ words_of rest.now)) }
{
    let Some((digits, more)) = next_word(rest) else {
        return Ok(Comment::Nothing);
    };
    if next_word(more).is_some() {
        return Err(MacroFault::Syntax);
    }
    let Some(count) = whole_number(digits) else {
        return Err(MacroFault::Syntax);
    };
    if count >= ca_plane::limits::GENERATION_LIMIT {
        return Err(MacroFault::GenTooLarge);
    }
    Ok(Comment::Generation(count))
}

/// What a line says by its first word, which begins with `#`, and the words after it.
///
/// # Errors
///
/// `Timeline` where the word begins with `#FRAME`. After `#G`: `Syntax` where the words aren't one number,
/// `GenTooLarge` where that is above 2^63 - 1.
pub(crate) fn said_by<'a>(word: &[u8], rest: &'a [u8]) -> Result<Comment<'a>, MacroFault>
    requires comment { starts_with nat_eq word.now (codes "#") ≡ true }
    requires line { Every (λ b. not (is_line_end b)) rest.now }
    ensures said { IfOk result (λ s. MacrocellWordsSay (word.now ∷ words_of rest.now) (said_of s)) }
    ensures fault { IfErr result (λ f. (earlier : List Node)
        → AreFaulty f earlier (word.now ∷ words_of rest.now)) }
{
    if word.starts_with(b"#FRAME") {
        return Err(MacroFault::Timeline);
    }
    if word == b"#R".as_slice() {
        return Ok(rule(rest));
    }
    if word == b"#G".as_slice() {
        return generation(rest);
    }
    Ok(Comment::Nothing)
}
