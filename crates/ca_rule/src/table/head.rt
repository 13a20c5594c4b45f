//! The head of a rule file: its name, and where its table begins.

ghost use Rattle.std.specs.Prelude.{◌≡◌, false, IfSome, IfOk, IfErr, MatchOption};
ghost use Rattle.std.specs.List.{list_any};
ghost use Rattle.ca_plane.specs.Prelude.{IsWord};
ghost use Rattle.ca_rule.specs.TableLines.{lines_said, begins_table};
ghost use Rattle.ca_rule.specs.TableText.{HasTable};
ghost use Rattle.ca_rule.specs.TableFaults.{IsTableTextFault};
ghost use Rattle.ca_rule.specs.inner.TableReading.{said_text, left_of, HasRuleName, IsBehindTable};

use crate::table::fault::TableFault;
use crate::table::lines::{begins_table, rule_name};
use crate::table::said_lines::SaidLines;

/// The name that the text's first line gives, and the lines after that.
fn name_of<'a>(lines: &SaidLines<'a>) -> Result<(&'a [u8], SaidLines<'a>), TableFault>
    requires { left_of lines.now ≡ lines_said (said_text lines.now) }
    ensures named { IfOk result (λ r. HasRuleName (said_text lines.now) r.0.now (left_of r.1)) }
    ensures word { IfOk result (λ r. IsWord r.0.now) }
    ensures text { IfOk result (λ r. said_text r.1 ≡ said_text lines.now) }
    ensures fault { IfErr result (λ f. IsTableTextFault (said_text lines.now) f) }
{
    let Some((line, later)) = lines.next() else {
        let line = lines.number();
        return Err(TableFault::NoRuleLine { line });
    };
    let Some(name) = rule_name(line.content) else {
        return Err(TableFault::NoRuleLine { line: line.number });
    };
    Ok((name, later))
}

/// The lines after the first that begins a table.
fn tail_after_table<'a>(lines: &SaidLines<'a>) -> Option<SaidLines<'a>>
    ensures found { MatchOption result (list_any begins_table (left_of lines.now) ≡ false)
        (λ r. IsBehindTable (left_of lines.now) (left_of r)) }
    ensures text { IfSome result (λ r. said_text r ≡ said_text lines.now) }
{
    let mut left = *lines;
    'lines: while let Some((line, later)) = left.next() {
        if begins_table(line.content) {
            return Some(later);
        }
        left = later;
    }
    None
}

/// The name of the text, and the lines after that which begins its table.
pub(crate) fn table_lines(text: &[u8]) -> Result<(&[u8], SaidLines<'_>), TableFault>
    ensures found { IfOk result (λ r. HasTable text.now r.0.now (left_of r.1)) }
    ensures word { IfOk result (λ r. IsWord r.0.now) }
    ensures text { IfOk result (λ r. said_text r.1 ≡ text.now) }
    ensures fault { IfErr result (λ f. IsTableTextFault text.now f) }
{
    let lines = SaidLines::of_text(text);
    let (name, tail_after) = name_of(&lines)?;
    let Some(left) = tail_after_table(&tail_after) else {
        let line = lines.last_line();
        return Err(TableFault::NoTable { line });
    };
    Ok((name, left))
}
