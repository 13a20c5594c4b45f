//! How the statements of a rule table are read.

ghost use Rattle.std.specs.Prelude.{◌≡◌, ◌≤◌, ◌++◌, ℕ, List, true, IfOk, IfErr};
ghost use Rattle.ca_rule.specs.TableLines.{NumberedLine};
ghost use Rattle.ca_rule.specs.TableText.{HasTable, SettingsMean};
ghost use Rattle.ca_rule.specs.TableFaults.{follows_settings, IsTableTextFault};
ghost use Rattle.ca_rule.specs.inner.TableReading.{left_of};
ghost use Rattle.ca_rule.specs.inner.TableSettings.{meaning_of};
ghost use Rattle.ca_rule.specs.inner.TableSaying.{AreAllSaid};

use crate::table::fault::TableFault;
use crate::table::lines::begins_section;
use crate::table::said_lines::SaidLines;
use crate::table::settings::TableSettings;
use crate::table::statements::Statements;
use std::alloc::Global;

/// What the lines say, up to the next section or the end.
pub(crate) fn read_statements<'a>(
    alloc: Global,
    settings: &TableSettings,
    lines: &SaidLines<'a>,
) -> Result<Statements<'a>, TableFault>
    requires low { settings.now.states ≤ 256 }
    ensures found { IfOk result (AreAllSaid (meaning_of settings.now) (left_of lines.now)) }
    ensures fault { IfErr result (λ f. (bytes name : List ℕ) (head : List NumberedLine)
        → HasTable bytes name (head ++ left_of lines.now) → SettingsMean head (meaning_of settings.now)
        → follows_settings (left_of lines.now) ≡ true → IsTableTextFault bytes f) }
{
    let mut statements = Statements::new(alloc);
    let mut left = *lines;
    'lines: while let Some((line, later)) = left.next() {
        if begins_section(line.content) {
            return Ok(statements);
        }
        if let Err(fault) = statements.add(settings, line.content) {
            return Err(fault.at(line.number));
        }
        left = later;
    }
    Ok(statements)
}
