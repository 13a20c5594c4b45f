//! The lines that explain what came of a file that was to be identified.

ghost use Rattle.std.specs.Prelude.{◌≡◌};
ghost use Rattle.ca_identify_lines.specs.Catalog.{cause_explanation, is_in_file, outcome_explanation};
ghost use Rattle.ca_identify_lines.specs.Catalog.{outcome_has_explanation, outcome_remedy_line};
ghost use Rattle.ca_report.specs.Prelude.{pieces_text};

use crate::entry::Outcome;
use ca_answers::Cause;
use ca_pattern::File;
use ca_report::{
    DetailedFault, NOTHING, Piece, bytes_of, cause_remedy, pattern_pieces, remedy_line_pieces,
    rule_file_pieces,
};

// The line that explains why the pattern of a file isn't identified, where there is something to tell.
fn cause_explanation_pieces<'a>(
    path: &'a [u8],
    refused: &'a DetailedFault<Cause>,
) -> [Piece<'a>; 16]
    ensures { pieces_text result ≡ cause_explanation path.now refused.now }
{
    let (Cause::BadPattern(_) | Cause::BadRule(_) | Cause::StateTooLarge) = refused.fault else {
        return [NOTHING; 16];
    };
    pattern_pieces(path, refused.line, &refused.rule_text)
}

// Whether the cause lies in the file.
fn is_in_file(cause: Cause) -> bool
    ensures { result ≡ is_in_file cause }
{
    matches!(
        cause,
        Cause::BadPattern(_) | Cause::BadRule(_) | Cause::StateTooLarge
    )
}

/// Whether there is a line that explains what came of a file that was to be identified.
pub(crate) fn outcome_has_explanation(outcome: &Outcome<'_>) -> bool
    ensures { result ≡ outcome_has_explanation outcome.now }
{
    match outcome {
        Outcome::Refused(why) => is_in_file(why.fault),
        Outcome::FaultyRule(_) => true,
        Outcome::Unnameable | Outcome::Identified(..) => false,
    }
}

/// The line that explains what came of the file of a path that was to be identified, where there is something to
/// tell.
pub(crate) fn outcome_explanation_pieces<'a>(
    path: &'a [u8],
    outcome: &'a Outcome<'a>,
) -> [Piece<'a>; 16]
    ensures { pieces_text result ≡ outcome_explanation path.now outcome.now }
{
    match outcome {
        Outcome::Refused(why) => cause_explanation_pieces(path, why),
        Outcome::FaultyRule(rule) => rule_file_pieces(rule.path, rule.fault),
        Outcome::Unnameable | Outcome::Identified(..) => [NOTHING; 16],
    }
}

/// The line that says what helps against what came of the file of a path that was to be identified, where something
/// does. The file is the first of `files` with that path.
pub(crate) fn outcome_remedy_pieces<'a>(
    files: &[File<'a>],
    path: &'a [u8],
    outcome: &'a Outcome<'a>,
) -> [Piece<'a>; 6]
    ensures { pieces_text result ≡ outcome_remedy_line files.now path.now outcome.now }
{
    match outcome {
        Outcome::Refused(why) => {
            let remedy = cause_remedy(why.fault, bytes_of(files, path), &why.rule_text);
            remedy_line_pieces(b"", remedy, path, &why.rule_text)
        }
        _ => [NOTHING; 6],
    }
}
