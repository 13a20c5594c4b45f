//! The lines of Life 1.05. Nothing here takes memory.

ghost use Rattle.std.specs.Prelude.{◌≡◌, not, true, ◌∷◌, codes, nat_eq, IfOk, IfErr, MatchResult};
ghost use Rattle.std.specs.List.{starts_with};
ghost use Rattle.ca_plane.specs.Prelude.{Every, is_line_end, words_of};
ghost use Rattle.ca_rule.specs.Prelude.{NamesBsRule};
ghost use Rattle.ca_import.specs.declared.fault.ImportFault.TheVariants.{Syntax};
ghost use Rattle.ca_import.specs.CellLines.{Rule};
ghost use Rattle.ca_import.specs.Life105.{Life105Says, Life105WordsSay};
ghost use Rattle.ca_import.specs.inner.Lines.{said_of, IsSaid, IsAloneFault};

use crate::cell_line::Line;
use crate::fault::ImportFault;
use crate::point::point;
use crate::rows::star_row;
use ca_plane::Point;
use ca_plane::bytes::next_word;
use ca_rule::BsRule;

/// The corner that the words after `#P` write: 0,0 where there are none.
fn corner_line(line: &[u8]) -> Result<Line<'_>, ImportFault>
    requires { Every (λ b. not (is_line_end b)) line.now }
    ensures said { IfOk result (IsSaid (Life105WordsSay (codes "#P" ∷ words_of line.now))) }
    ensures fault { IfErr result (IsAloneFault (Life105WordsSay (codes "#P" ∷ words_of line.now))) }
{
    let Some((x, rest)) = next_word(line) else {
        return Ok(Line::Corner(Point { y: 0, x: 0 }));
    };
    let Some((y, rest)) = next_word(rest) else {
        return Err(ImportFault::Syntax);
    };
    match next_word(rest) {
        Some(_) => Err(ImportFault::Syntax),
        None => Ok(Line::Corner(point(x, y)?)),
    }
}

/// The rule that the text names.
fn rule_line<'a>(text: &[u8]) -> Result<Line<'a>, ImportFault>
    ensures { MatchResult result (λ l. (rule : BsRule) × (said_of l ≡ Rule rule) × NamesBsRule text.now rule)
        (λ f. (f ≡ Syntax) × ((rule : BsRule) → NamesBsRule text.now rule → ⊥)) }
{
    match BsRule::parse(text) {
        Ok(rule) => Ok(Line::Rule(rule)),
        Err(_) => Err(ImportFault::Syntax),
    }
}

/// The rule that `#N` names, whatever follows it.
fn life_line(line: &[u8]) -> Result<Line<'_>, ImportFault>
    ensures said { IfOk result (IsSaid (Life105WordsSay (codes "#N" ∷ words_of line.now))) }
    ensures fault { IfErr result (IsAloneFault (Life105WordsSay (codes "#N" ∷ words_of line.now))) }
{
    let _ = line;
    rule_line(b"B3/S23")
}

/// The rule that the words after `#R` name.
fn named_rule_line(line: &[u8]) -> Result<Line<'_>, ImportFault>
    requires { Every (λ b. not (is_line_end b)) line.now }
    ensures said { IfOk result (IsSaid (Life105WordsSay (codes "#R" ∷ words_of line.now))) }
    ensures fault { IfErr result (IsAloneFault (Life105WordsSay (codes "#R" ∷ words_of line.now))) }
{
    let Some((text, rest)) = next_word(line) else {
        return Err(ImportFault::Syntax);
    };
    match next_word(rest) {
        Some(_) => Err(ImportFault::Syntax),
        None => rule_line(text),
    }
}

/// What a line says that begins with `#`, by its first word and the bytes after it.
fn mark_line<'a>(word: &[u8], rest: &'a [u8]) -> Result<Line<'a>, ImportFault>
    requires begins { starts_with nat_eq word.now (codes "#") ≡ true }
    requires line { Every (λ b. not (is_line_end b)) rest.now }
    ensures said { IfOk result (IsSaid (Life105WordsSay (word.now ∷ words_of rest.now))) }
    ensures fault { IfErr result (IsAloneFault (Life105WordsSay (word.now ∷ words_of rest.now))) }
{
    if word == b"#P".as_slice() {
        return corner_line(rest);
    }
    if word == b"#N".as_slice() {
        return life_line(rest);
    }
    if word == b"#R".as_slice() {
        return named_rule_line(rest);
    }
    Ok(Line::Nothing)
}

/// What a line of a Life 1.05 says.
///
/// # Errors
///
/// `Syntax` where the line says nothing that the format knows; else `Range` where its corner is out of range.
pub(crate) fn life105_line(line: &[u8]) -> Result<Line<'_>, ImportFault>
    requires { Every (λ b. not (is_line_end b)) line.now }
    ensures said { IfOk result (IsSaid (Life105Says line.now)) }
    ensures fault { IfErr result (IsAloneFault (Life105Says line.now)) }
{
    let Some((word, rest)) = next_word(line) else {
        return Ok(Line::Nothing);
    };
    if word.starts_with(b"#") {
        return mark_line(word, rest);
    }
    match star_row(line) {
        Some([]) | None => Err(ImportFault::Syntax),
        Some(cells) => Ok(Line::Row(cells)),
    }
}
