//! The lines that are printed for answers, and the exit status.

ghost use Rattle.std.specs.Prelude.{◌≡◌, ◌≢◌, ◌++◌, List, ◌∷◌, [], IfOk, OnErr};
ghost use Rattle.std.specs.List.{list_any};
ghost use Rattle.ca_answers.specs.declared.verdict.Answer.{Answer as AnswerValue};
ghost use Rattle.ca_answers.specs.declared.verdict.Verdict.TheVariants.{No, Refused};
ghost use Rattle.ca_verify_lines.specs.Verdicts.{return_text, refutation_text, verdict_text, answer_line};
ghost use Rattle.ca_verify_lines.specs.Verdicts.{answer_lines, status_of, is_refusal, is_no};
ghost use Rattle.ca_report.specs.Prelude.{pieces_text};

use ca_answers::{Answer, Cause, Refutation, Verdict};
use ca_plane::Memory;
use ca_report::{Piece, in_pieces, push_pieces};
use std::alloc::Global;

fn return_pieces<'a>(generations: u64, dx: i64, dy: i64) -> [Piece<'a>; 6]
    ensures { pieces_text result ≡ return_text generations dx dy }
{
    in_pieces![
        text b"the same after ", number generations, text b", shifted by ", integer dx, text b",", integer dy,
    ]
}

fn refutation_pieces<'a>(refutation: Refutation) -> [Piece<'a>; 6]
    ensures { pieces_text result ≡ refutation_text refutation }
{
    match refutation {
        Refutation::Empty => in_pieces![6; text b"empty"],
        Refutation::Differs { gens, .. } => in_pieces![6; text b"cells differ after ", number gens],
        Refutation::Earlier { m, dx, dy } => return_pieces(m, dx, dy),
        Refutation::Died { m } => in_pieces![6; text b"empty after ", number m],
    }
}

fn refusal_pieces<'a>(cause: Cause) -> [Piece<'a>; 7]
    ensures { pieces_text result ≡ verdict_text (Refused cause) }
{
    let (first, second) = cause.words();
    in_pieces![7; text b"refused, ", text first, text second]
}

fn no_pieces<'a>(refutation: Refutation) -> [Piece<'a>; 7]
    ensures { pieces_text result ≡ verdict_text (No refutation) }
{
    let [a, b, c, d, e, f] = refutation_pieces(refutation);
    [Piece::Text(b"no, "), a, b, c, d, e, f]
}

fn verdict_pieces<'a>(verdict: Verdict) -> [Piece<'a>; 7]
    ensures { pieces_text result ≡ verdict_text verdict }
{
    match verdict {
        Verdict::Yes => in_pieces![7; text b"yes"],
        Verdict::No(refutation) => no_pieces(refutation),
        Verdict::Refused(cause) => refusal_pieces(cause),
    }
}

/// The line of an answer in pieces, after a text that stands before it.
pub(crate) fn answer_pieces<'a>(before: &'a [u8], answer: &Answer) -> [Piece<'a>; 12]
    ensures { pieces_text result ≡ before.now ++ answer_line answer.now }
{
    let [a, b, c, d, e, f, g] = verdict_pieces(answer.verdict);
    in_pieces![
        text before, text b"line ", number answer.line, text b": ",
        piece a, piece b, piece c, piece d, piece e, piece f, piece g, text b"\n",
    ]
}

/// The lines that are printed for the answers: one for each, in order.
///
/// # Errors
///
/// Fails where there is no memory for the lines. Without answers it needs none.
pub fn lines(alloc: Global, answers: &[Answer]) -> Result<Vec<u8>, Memory>
    ensures lines { IfOk result (λ text. text.items ≡ answer_lines answers.now) }
    ensures memory { OnErr result (answers.now ≢ []) }
{
    let mut text = Vec::new(alloc);
    'answers: for answer in answers {
        push_pieces(&mut text, &answer_pieces(b"", answer))?;
    }
    Ok(text)
}

fn is_refusal(verdict: &Verdict) -> bool
    ensures { result ≡ is_refusal verdict.now }
{
    matches!(verdict, Verdict::Refused(_))
}

fn is_no(verdict: &Verdict) -> bool
    ensures { result ≡ is_no verdict.now }
{
    matches!(verdict, Verdict::No(_))
}

fn has_refusal(answers: &[Answer]) -> bool
    ensures { result ≡ list_any (λ a. is_refusal a.verdict) answers.now }
{
    answers.iter().any(|answer| is_refusal(&answer.verdict))
}

fn has_no(answers: &[Answer]) -> bool
    ensures { result ≡ list_any (λ a. is_no a.verdict) answers.now }
{
    answers.iter().any(|answer| is_no(&answer.verdict))
}

/// The exit status: 2 where an answer is refused, else 1 where one is no, else 0.
pub fn status(answers: &[Answer]) -> u8
    ensures { result ≡ status_of answers.now }
{
    if has_refusal(answers) {
        return 2;
    }
    if has_no(answers) { 1 } else { 0 }
}

/// The exit status of some answers and one more, `code` being that of the others.
pub fn worse_status(code: u8, answer: Answer) -> u8
    ensures { (answers : List AnswerValue) → code ≡ status_of answers
        → result ≡ status_of (answers ++ answer ∷ []) }
{
    code.max(status(&[answer]))
}
