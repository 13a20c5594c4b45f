//! Runs of `show` and of `convert`: a pattern file in, what is shown of it or another pattern file out.

ghost use Rattle.std.specs.Prelude.{◌≡◌, IfOk, IfErr};
ghost use Rattle.std.specs.Option.{option_copied, option_to_list};
ghost use Rattle.ca_pattern.specs.Prelude.{IsConverted, IsSummaryFault, IsConvertFault};
ghost use Rattle.ca_report.specs.declared.fault.InputFault.TheVariants as inputs;
ghost use Rattle.ca_report.specs.Prelude.{Sends, ReadsAll, TakesFile};
ghost use Rattle.ca_pattern_runs.specs.Runs.{AreKnownTables, IsShown, IsRuleFileFault, RunsOver, TellsTable};
ghost use Rattle.ca_pattern_runs.specs.Runs.{TellsConvert, IsFormOf, IsFormFault, WritesUnder};
ghost use Rattle.ca_pattern_runs.specs.inner.Refusals.{IsReadingFault};

use crate::summary::summary_lines;
use ca_pattern::{ConvertFault, Target, convert, summary};
use ca_plane::{Dev, send};
use ca_report::{TextForm, ToolFault, read_all};
use ca_rule::{Table, TableFault};
use std::alloc::Global;
use std::io::{Read, Write};

/// Reads a pattern file and writes the five lines that are shown of it, under the table of the rule file, if
/// there is one. It answers the exit status 0.
///
/// The file is read whole before the table is judged, and nothing is written before all is judged.
pub fn show_run<R: Read, W: Write>(
    alloc: Global,
    input: &mut Dev<R>,
    table: Option<&[u8]>,
    output: &mut Dev<W>,
) -> Result<u8, ToolFault>
    // The lines of a true summary are written, or a first part of them and then a write fails, or none for
    // another fault.
    ensures runs { RunsOver R.remaining W.contents input.old input.new (option_copied table.entry)
        output.old output.new IsShown IsSummaryFault result }
{
    form_run(alloc, input, TextForm::Summary, table, output)
}

/// Reads a pattern file and writes the file of the target's format that it is converted to, under the table
/// of the rule file, if there is one. It answers the exit status 0.
///
/// The file is read whole before the table is judged, and nothing is written before all is judged.
pub fn convert_run<R: Read, W: Write>(
    alloc: Global,
    input: &mut Dev<R>,
    target: Target,
    table: Option<&[u8]>,
    output: &mut Dev<W>,
) -> Result<u8, ToolFault>
    // What it is converted to is written, or a first part of that and then a write fails, or nothing for
    // another fault.
    ensures runs { RunsOver R.remaining W.contents input.old input.new (option_copied table.entry)
        output.old output.new (λ bytes tables text. IsConverted bytes tables target text)
        (λ bytes tables fault. IsConvertFault bytes tables target fault) result }
{
    form_run(alloc, input, TextForm::File(target), table, output)
}

fn form_run<R: Read, W: Write>(
    alloc: Global,
    input: &mut Dev<R>,
    form: TextForm,
    table: Option<&[u8]>,
    output: &mut Dev<W>,
) -> Result<u8, ToolFault>
    ensures { RunsOver R.remaining W.contents input.old input.new (option_copied table.entry)
        output.old output.new (IsFormOf form) (IsFormFault form) result }
{
    let bytes = read(alloc, input)?;
    write_text(alloc, &bytes, form, table, output)
}

// Writes what is asked of the bytes of a pattern file.
fn write_text<W: Write>(
    alloc: Global,
    bytes: &[u8],
    form: TextForm,
    table: Option<&[u8]>,
    output: &mut Dev<W>,
) -> Result<u8, ToolFault>
    ensures { WritesUnder W.contents output.old output.new (option_copied table.entry)
        (IsFormOf form bytes.now) (λ tables. TellsConvert (IsFormFault form bytes.now tables)) result }
{
    let table = match rule_table(alloc, table) {
        Ok(table) => table,
        Err(fault) => return Err(table_fault(fault)),
    };
    let text = match form_text(alloc, bytes, form, table_slice(&table)) {
        Ok(text) => text,
        Err(fault) => return Err(convert_fault(fault)),
    };
    write(output, &text)
}

// All bytes of the file.
fn read<R: Read>(alloc: Global, input: &mut Dev<R>) -> Result<Vec<u8>, ToolFault>
    ensures read { IfOk result (λ v.
        ReadsAll (R.remaining input.old.inner) (R.remaining input.new.inner) v.items) }
    ensures fault { IfErr result
        (IsReadingFault (R.remaining input.old.inner) (R.remaining input.new.inner)) }
    ensures takes { TakesFile R.remaining input.old input.new (ToolFault.Input inputs.Read) result }
{
    match read_all(alloc, input) {
        Ok(bytes) => Ok(bytes),
        Err(fault) => Err(ToolFault::Input(fault)),
    }
}

// The table of the rule file's text, if there is one.
fn rule_table(alloc: Global, rule: Option<&[u8]>) -> Result<Option<Table>, TableFault>
    ensures known { IfOk result (λ table. AreKnownTables (option_copied rule.entry) (option_to_list table)) }
    ensures fault { IfErr result (IsRuleFileFault (option_copied rule.entry)) }
{
    let Some(text) = rule else {
        return Ok(None);
    };
    let table = Table::parse(alloc, text)?;
    Ok(Some(table))
}

// The table, if there is one, as a list.
fn table_slice(table: &Option<Table>) -> &[Table]
    ensures { result.now ≡ option_to_list table.now }
{
    table.as_slice()
}

// What a run answers where the rule file holds no good table.
fn table_fault(fault: TableFault) -> ToolFault
    ensures { TellsTable (λ f. f ≡ fault) result }
{
    match fault {
        TableFault::Memory => ToolFault::Memory,
        _ => ToolFault::BadTable(fault),
    }
}

// What a run answers where the pattern is refused.
fn convert_fault(fault: ConvertFault) -> ToolFault
    ensures { TellsConvert (λ f. f ≡ fault) result }
{
    match fault {
        ConvertFault::Memory => ToolFault::Memory,
        fault => ToolFault::Convert(fault),
    }
}

// The text that is written of a pattern file.
fn form_text(
    alloc: Global,
    bytes: &[u8],
    form: TextForm,
    tables: &[Table],
) -> Result<Vec<u8>, ConvertFault>
    ensures text { IfOk result (λ text. IsFormOf form bytes.now tables.now text.items) }
    ensures fault { IfErr result (IsFormFault form bytes.now tables.now) }
{
    match form {
        TextForm::Summary => {
            let summary = summary(alloc, bytes, tables)?;
            let Ok(text) = summary_lines(alloc, &summary) else {
                return Err(ConvertFault::Memory);
            };
            Ok(text)
        }
        TextForm::File(target) => convert(alloc, bytes, target, tables),
    }
}

/// Writes the whole text, and answers the exit status.
pub(crate) fn write<W: Write>(output: &mut Dev<W>, text: &[u8]) -> Result<u8, ToolFault>
    ensures status { IfOk result (λ status. status ≡ 0) }
    ensures sends { Sends W.contents output.old output.new text.now ToolFault.Write result }
{
    if send(output, text).is_err() {
        return Err(ToolFault::Write);
    }
    Ok(0)
}
