//! Runs of `verify`: claims in, the lines of their answers out, each before the next claim is judged.

ghost use Rattle.std.specs.Prelude.{MatchOption, ◌∷◌, []};
ghost use Rattle.ca_answers.specs.Prelude.{contents, IsDone};
ghost use Rattle.ca_pattern.specs.Prelude.{AreGoodLimits};
ghost use Rattle.ca_report.specs.Prelude.{WritesOneOf};
ghost use Rattle.ca_verify_lines.specs.Prelude.{all_claims, IsReport, NeedsMemory, WritesReport, WritesPlainReport};
ghost use Rattle.ca_tool.specs.inner.Judged.{WereJudged, IsReportPart, WereAllJudged};

use ca_evolution::Observer;
use ca_pattern::{File, Limits};
use ca_plane::Dev;
use ca_report::ToolFault;
use ca_run::Unwatched;
use ca_text::Claims;
use ca_verify::Judge;
use ca_verify_lines::{Finding, ReportStyle, remember_note, send_finding, worse_status};
use std::alloc::Global;
use std::io::Write;

/// The lines of the answers alone.
const PLAIN: ReportStyle<'static> = ReportStyle {
    before: b"",
    explained: false,
    faulty: &[],
    missing: &[],
    files: &[],
};

/// Judges each claim, in order and within the limits, and writes the line of its answer before the next is
/// judged. It answers the exit status: 2 where a claim is refused, else 1 where one is false, else 0.
///
/// Where memory is refused to the list of the files or to the rule tables, nothing is written. A text without
/// claims needs neither. After a failed write the other claims are judged all the same, and nothing more is
/// written.
pub fn verify_run<W: Write>(
    alloc: Global,
    claims: &Claims,
    files: &[File<'_>],
    limits: Limits,
    device: &mut Dev<W>,
) -> Result<u8, ToolFault>
    requires limits { AreGoodLimits limits }
    ensures answers { WritesPlainReport W.contents device.old device.new
        (all_claims (contents files.now) claims.now limits.work) result }
{
    let Ok(mut judge) = Judge::new(alloc, claims, files, limits) else {
        return Err(ToolFault::Memory);
    };
    let result = report_all(
        alloc,
        &mut judge,
        &PLAIN,
        device,
        &mut Unwatched,
        &mut false,
    );
    judge_rest(&mut judge);
    result
}

/// Judges each claim, in order and within the limits, while someone watches, and writes the lines for it before
/// the next is judged. It answers the exit status: 2 where a claim is refused, else 1 where one is false, else 0.
///
/// Where memory is refused to the list of the files or to the rule tables, nothing is written. A text without
/// claims needs neither. After a failed write no other claim is judged. `has_note` becomes true where a claim is refused
/// of which an explained report tells more.
pub fn verify_watched<W: Write, O: Observer>(
    alloc: Global,
    claims: &Claims,
    files: &[File<'_>],
    limits: Limits,
    style: &ReportStyle<'_>,
    device: &mut Dev<W>,
    observer: &mut O,
    has_note: &mut bool,
) -> Result<u8, ToolFault>
    requires limits { AreGoodLimits limits }
    ensures tells { WritesReport W.contents device.old device.new
        (all_claims (contents files.now) claims.now limits.work) style.now result }
{
    let Ok(mut judge) = Judge::new(alloc, claims, files, limits) else {
        return Err(ToolFault::Memory);
    };
    report_all(alloc, &mut judge, style, device, observer, has_note)
}

// Judges the claims that are left, and writes the lines for each, up to a write that fails.
fn report_all<W: Write, O: Observer>(
    alloc: Global,
    judge: &mut Judge<'_>,
    style: &ReportStyle<'_>,
    device: &mut Dev<W>,
    observer: &mut O,
    has_note: &mut bool,
) -> Result<u8, ToolFault>
    ensures { WritesOneOf W.contents device.old device.new (IsReport judge.old style.now)
        (IsReportPart judge.old judge.new style.now) (NeedsMemory judge.old) result }
{
    let mut text = Vec::new(alloc);
    let mut code = 0;
    'claims: while let Some(finding) = next_finding(judge, observer) {
        remember_note(has_note, &finding);
        if send_finding(device, &mut text, style, &finding).is_err() {
            return Err(ToolFault::Write);
        }
        code = worse_status(code, finding.answer);
    }
    Ok(code)
}

// Judges the claims that are left.
fn judge_rest(judge: &mut Judge<'_>)
    ensures { WereAllJudged judge.old judge.new }
{
    'claims: while let Some(_) = judge.next_noted() {}
}

// The answer to the next claim, and its note.
fn next_finding<'a, O: Observer>(judge: &mut Judge<'a>, observer: &mut O) -> Option<Finding<'a>>
    ensures { MatchOption result (IsDone judge.old judge.new)
        (λ finding. WereJudged judge.old judge.new (finding ∷ [])) }
{
    let (answer, note) = judge.next_noted_watched(observer)?;
    Some(Finding { answer, note })
}
