//! Notes on verdicts.

ghost use Rattle.std.specs.Prelude.{◌≡◌, ◌<◌, length};
ghost use Rattle.ca_text.specs.Prelude.{path_at, named_path, map_both, HoldsOfBoth};
ghost use Rattle.ca_answers.specs.Prelude.{SuppliedFiles, IsNote, HasItsNote};
ghost use Rattle.ca_verify.specs.inner.Patterns.{part_of};
ghost use Rattle.ca_verify.specs.inner.Refusals.{IsOnVerdict};

use crate::refusal::{About, JudgedClaim, WhichPattern};
use ca_answers::{Note, Refutation, Verdict};
use ca_text::{Both, Claims, NamedPath};

/// The note on a verdict on a claim about these patterns.
pub(crate) fn note_on<'a>(
    claims: &'a Claims,
    patterns: &Both<NamedPath<'a>>,
    judged: JudgedClaim,
) -> Note<'a>
    requires within { HoldsOfBoth (λ n. n.path < length claims.now.paths) patterns.now }
    ensures { (files : SuppliedFiles) → IsOnVerdict files claims.now.paths claims.now.rules
        (map_both (λ n. path_at claims.now.paths n.path) patterns.now) judged.verdict judged.about
        → IsNote files claims.now.rules (map_both (named_path claims.now.paths) patterns.now)
        judged.verdict result × HasItsNote judged.verdict result }
{
    match (judged.verdict, judged.about) {
        (Verdict::No(Refutation::Differs { .. }), _) => Note::Cell {
            name: patterns.first.name,
        },
        (
            Verdict::Refused(_),
            About::Pattern {
                part,
                line,
                rule_text,
            },
        ) => {
            let pattern = named_part(patterns, part);
            Note::Pattern {
                name: pattern.name,
                path: claims.path(pattern.path),
                line,
                rule_text,
            }
        }
        (Verdict::Refused(_), About::RuleFile(place)) => match claims.path_at(place) {
            Some(path) => Note::RuleFile { path },
            None => Note::Nothing,
        },
        _ => Note::Nothing,
    }
}

/// This one of a claim's patterns.
fn named_part<'a>(patterns: &Both<NamedPath<'a>>, part: WhichPattern) -> NamedPath<'a>
    ensures { result ≡ part_of part patterns.now }
{
    match part {
        WhichPattern::First => patterns.first,
        WhichPattern::Second => patterns.second,
    }
}
