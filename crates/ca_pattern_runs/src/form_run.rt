//! What is written of a pattern file, after some generations.

ghost use Rattle.std.specs.Prelude.{◌≡◌, ℕ, ◌≤◌, List, IfOk, IfErr};
ghost use Rattle.ca_plane.specs.Prelude.{most_generations};
ghost use Rattle.ca_rule.specs.Prelude.{TableRule};
ghost use Rattle.ca_pattern.specs.Prelude.{IsPatternAfter, AreGoodLimits};
ghost use Rattle.ca_pattern_runs.specs.Details.{HasRunDetail, fault_alone};
ghost use Rattle.ca_report.specs.declared.form.Form.TheVariants.{Text};
ghost use Rattle.ca_pattern_runs.specs.Runs.{IsFormAfter, IsFormCaption, IsFormFaultAfter, IsTextFault, reported, WritesText};

use crate::drawing::picture;
use crate::form::{Evolution, FormText};
use crate::pattern_run::write;
use crate::summary::summary_lines;
use ca_evolution::{Observer, open_evolved};
use ca_pattern::{ConvertFault, LocatedFault, Pattern};
use ca_plane::Dev;
use ca_report::{DetailedFault, Form, TextForm, ToolFault};
use ca_rule::Table;
use std::alloc::Global;
use std::io::Write;

/// Writes what is asked of the pattern file with these bytes, after some generations, under these tables. It
/// answers the exit status 0. The observer sees how far the generations are. A fault comes with what is known of it.
///
/// Nothing is written before all is judged.
pub fn write_form<W: Write, O: Observer>(
    alloc: Global,
    bytes: &[u8],
    form: Form,
    tables: &[Table],
    evolution: Evolution,
    observer: &mut O,
    output: &mut Dev<W>,
) -> Result<u8, DetailedFault<ToolFault>>
    requires limits { AreGoodLimits evolution.limits }
    requires few { evolution.generations ≤ most_generations }
    // That text is written, or a first part of it and then a write fails, or nothing for another fault.
    ensures writes { WritesText W.contents output.old output.new
        (IsFormAfter form bytes.now tables.now evolution.generations)
        (IsFormFaultAfter form bytes.now tables.now evolution.generations evolution.limits.work)
        (fault_alone result) }
    ensures detail { IfErr result (HasRunDetail bytes.now) }
{
    let written = match form_text(alloc, bytes, form, tables, evolution, observer) {
        Ok(written) => written,
        Err(refused) => return Err(refused),
    };
    match write(output, &written.text) {
        Ok(status) => Ok(status),
        Err(fault) => Err(DetailedFault::of(fault)),
    }
}

/// The text that `write_form` writes, and the line that tells of it.
///
/// # Errors
///
/// As for `write_form`, but no write fails.
pub fn form_text<O: Observer>(
    alloc: Global,
    bytes: &[u8],
    form: Form,
    tables: &[Table],
    evolution: Evolution,
    observer: &mut O,
) -> Result<FormText, DetailedFault<ToolFault>>
    requires limits { AreGoodLimits evolution.limits }
    requires few { evolution.generations ≤ most_generations }
    ensures text { IfOk result
        (λ written. IsFormAfter form bytes.now tables.now evolution.generations written.text.items) }
    ensures caption { IfOk result
        (λ written. IsFormCaption form bytes.now tables.now evolution.generations written.caption.items) }
    ensures fault { IfErr result (λ refused. IsFormFaultAfter form bytes.now tables.now
        evolution.generations evolution.limits.work refused.fault) }
    ensures detail { IfErr result (HasRunDetail bytes.now) }
{
    let Evolution {
        generations,
        limits,
    } = evolution;
    let pattern = match open_evolved(alloc, bytes, tables, generations, limits, observer) {
        Ok(pattern) => pattern,
        Err(refused) => return Err(reported(refused)),
    };
    match form {
        Form::Text(form) => {
            match text_of_pattern(alloc, pattern, form) {
                Ok(text) => Ok(FormText {
                    text,
                    caption: Vec::new(alloc),
                }),
                Err(refused) => Err(reported(refused)),
            }
        }
        Form::Picture(request) => match picture(alloc, pattern, request) {
            Ok(written) => Ok(written),
            Err(fault) => Err(DetailedFault::of(fault)),
        },
    }
}

// What is reported where a pattern isn't opened, taken on or written.
fn reported(refused: LocatedFault) -> DetailedFault<ToolFault>
    ensures { result ≡ reported refused }
{
    match refused {
        LocatedFault::Unread(bad) => DetailedFault {
            fault: ToolFault::Convert(ConvertFault::BadPattern(bad.fault)),
            line: bad.line,
            rule_text: None,
        },
        LocatedFault::UnnamedRule(unnamed) => DetailedFault {
            fault: ToolFault::Convert(ConvertFault::BadRule(unnamed.fault)),
            line: None,
            rule_text: Some(unnamed.rule_text),
        },
        LocatedFault::StateTooLarge => DetailedFault::of(ToolFault::Convert(
            ConvertFault::StateTooLarge,
        )),
        LocatedFault::TooManyCells => DetailedFault::of(ToolFault::Convert(
            ConvertFault::TooManyCells,
        )),
        LocatedFault::GenTooLarge => DetailedFault::of(ToolFault::GenTooLarge),
        LocatedFault::Work => DetailedFault::of(ToolFault::Work),
        LocatedFault::Range => DetailedFault::of(ToolFault::Range),
        LocatedFault::Memory => DetailedFault::of(ToolFault::Memory),
    }
}

// The text that tells all of a pattern.
fn text_of_pattern(
    alloc: Global,
    pattern: Pattern<'_, '_>,
    form: TextForm,
) -> Result<Vec<u8>, LocatedFault>
    requires { (bytes : List ℕ) × (tables : List TableRule) × (n : ℕ) × IsPatternAfter bytes tables n pattern }
    ensures text { (bytes : List ℕ) (tables : List TableRule) (n : ℕ) → IsPatternAfter bytes tables n pattern.entry
        → IfOk result (λ text. IsFormAfter (Text form) bytes tables n text.items) }
    ensures fault { (bytes : List ℕ) (tables : List TableRule) (n work : ℕ)
        → IsPatternAfter bytes tables n pattern.entry → IfErr result (IsTextFault form bytes tables n work) }
{
    match form {
        TextForm::Summary => {
            let Ok(summary) = pattern.summary(alloc) else {
                return Err(LocatedFault::Memory);
            };
            let Ok(text) = summary_lines(alloc, &summary) else {
                return Err(LocatedFault::Memory);
            };
            Ok(text)
        }
        TextForm::File(target) => pattern.text(alloc, target),
    }
}
