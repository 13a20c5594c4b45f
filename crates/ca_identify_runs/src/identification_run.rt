//! Runs of `identify`: pattern files in, a claim text out with the claims that are true of them, those of each file
//! before the next one is identified.

ghost use Rattle.std.specs.Prelude.{◌≡◌, ◌≤◌, ◌++◌, ◌∷◌, [], IfOk, IfErr, OnOk};
ghost use Rattle.ca_pattern.specs.Prelude.{AreGoodLimits};
ghost use Rattle.ca_plane.specs.Prelude.{longest_period, most_generations};
ghost use Rattle.ca_identify_lines.specs.Prelude.{entry_lines, IsOutcome, IsEntry, WritesCatalog, EndsCatalog, IsFoundIn, IsUnfoundFor, IsSettlesOf};
ghost use Rattle.ca_identify_lines.specs.Prelude.{WritesOn, IsWithin};
ghost use Rattle.ca_identify_runs.specs.inner.Searches.{IsGoodSearch, AreLines, EndsLines};

use crate::coded_files::identify_with_code;
use ca_answers::{CodedLook, Identity};
use ca_census::{Reach, census_of_file};
use ca_evolution::{Observer, RunSubject};
use ca_identify::identify;
use ca_identify_lines::{
    Catalog, Content, Entry, KnownRules, Outcome, Settles, Subject, TakenNames, Task, add_name,
    head_pieces, is_claim_path, push_entry, report_of, rules_text,
};
use ca_pattern::LocatedFault;
use ca_plane::limits::MOST_GENERATIONS;
use ca_plane::{Dev, Memory, send};
use ca_report::{DetailedFault, ToolFault, send_pieces};
use ca_rule::Table;
use ca_run::Unwatched;
use std::alloc::Global;
use std::io::Write;

/// Identifies the patterns of files, and writes a claim text: for each file, in order, a `load` line and the claim
/// that is true of its pattern, or a comment; and a comment with its code (LifeWiki, "Apgcode"), where it has one and the
/// task asks for codes. The lines on a file are written before the next one is identified. It answers what came of the
/// files, with their exit status. Where the task asks for some generations, the planes that the patterns have then are
/// identified in place of them, and the text says of these in comments alone.
///
/// The limit of the task's scope is from 1 to 4294967295 generations. Rules are looked for among the tables of the rule
/// files, which the text names too, before the files. No two files have one name in the text. The observer hears of each
/// file before it is identified, and of its end before its lines are written.
///
/// # Errors
///
/// Fails where there is no memory for the lines of the rule files; then nothing is written. Where there is none for the
/// name or the lines of a file, what was written is the text on the files before it.
pub fn identify_run<'a, W: Write, O: Observer>(
    alloc: Global,
    subjects: &[Subject<'a>],
    rules: &KnownRules<'_>,
    task: Task,
    device: &mut Dev<W>,
    observer: &mut O,
) -> Result<Catalog<'a>, ToolFault>
    requires few { task.generations ≤ most_generations }
    requires limits { AreGoodLimits task.limits }
    requires some { 1 ≤ task.scope.limit }
    requires most { task.scope.limit ≤ longest_period }
    ensures writes { IfOk result (WritesCatalog W.contents device.old device.new rules.now task subjects.now) }
    ensures ends { IfErr result (EndsCatalog W.contents device.old device.new rules.now task subjects.now) }
{
    let Ok(rule_lines) = rules_text(alloc, rules.paths) else {
        return Err(ToolFault::Memory);
    };
    if send_pieces(device, &head_pieces(&rule_lines)).is_err() {
        return Err(ToolFault::Write);
    }
    let search = Search {
        tables: rules.tables,
        task,
    };
    let entries = match write_entries(alloc, subjects, &search, device, observer) {
        Ok(entries) => entries,
        Err(fault) => return Err(fault),
    };
    Ok(Catalog::of(entries))
}

// How files are identified, and under which tables.
#[derive(Clone, Copy)]
struct Search<'a> {
    tables: &'a [Table],
    task: Task,
}

// Writes the lines on each file, in order, before the next one is identified, and answers the entries.
fn write_entries<'a, W: Write, O: Observer>(
    alloc: Global,
    subjects: &[Subject<'a>],
    search: &Search<'_>,
    device: &mut Dev<W>,
    observer: &mut O,
) -> Result<Vec<Entry<'a>>, ToolFault>
    requires { IsGoodSearch search.now }
    ensures writes { IfOk result (λ entries. WritesOn W.contents device.old device.new
        (AreLines search.now) subjects.now entries.items) }
    ensures ends { IfErr result (EndsLines W.contents device.old device.new search.now subjects.now) }
{
    let mut names = TakenNames::new(alloc);
    let mut text = Vec::new(alloc);
    let mut entries = Vec::new(alloc);
    'subjects: for subject in subjects {
        let index = entries.len();
        let Ok(entry) = entry_of(alloc, &mut names, index, subject, search, observer) else {
            return Err(ToolFault::Memory);
        };
        if put_entry(&mut text, search, &entry).is_err() || entries.push(entry).is_err() {
            return Err(ToolFault::Memory);
        }
        if send(device, &text).is_err() {
            return Err(ToolFault::Write);
        }
    }
    Ok(entries)
}

// Puts the lines on a file in place of what `out` holds.
fn put_entry(out: &mut Vec<u8>, search: &Search<'_>, entry: &Entry<'_>) -> Result<(), Memory>
    requires { IsWithin search.now.task.generations entry.now.outcome }
    ensures { OnOk result (out.new.items ≡ entry_lines search.now.task.generations entry.now) }
{
    out.clear();
    push_entry(out, search.task.generations, entry)
}

// The entry on the file at this index, under a name that is put after the others. The observer hears of its end in
// any case.
fn entry_of<'a, O: Observer>(
    alloc: Global,
    names: &mut TakenNames,
    index: usize,
    subject: &Subject<'a>,
    search: &Search<'_>,
    observer: &mut O,
) -> Result<Entry<'a>, Memory>
    requires { IsGoodSearch search.now }
    ensures entry { IfOk result (IsEntry search.now.tables.now search.now.task names.old subject.now) }
    ensures names { IfOk result (λ entry. names.new ≡ names.old ++ entry.name.items ∷ []) }
{
    observer.begins(RunSubject::File { index });
    let outcome = outcome_of(alloc, subject, search, observer);
    observer.ends();
    let name = add_name(alloc, names, subject.path)?;
    Ok(Entry {
        name,
        path: subject.path,
        outcome,
    })
}

// What comes of a file.
#[tactic(auto, using(crate::proofs::FaultReports::has_report))]
fn outcome_of<'a, O: Observer>(
    alloc: Global,
    subject: &Subject<'a>,
    search: &Search<'_>,
    observer: &mut O,
) -> Outcome<'a>
    requires { IsGoodSearch search.now }
    ensures { IsOutcome search.now.tables.now search.now.task subject.now result }
{
    if !is_claim_path(subject.path) {
        return Outcome::Unnameable;
    }
    let bytes = match subject.content {
        Content::Bytes(bytes) => bytes,
        Content::Missing(cause) => return Outcome::Refused(DetailedFault::of(cause)),
        Content::FaultyRule(rule) => return Outcome::FaultyRule(rule),
    };
    match found_in(alloc, bytes, search, observer) {
        Ok(found) => {
            let settles = settles_in(alloc, bytes, search, found.look.identity);
            Outcome::Identified(found, settles)
        }
        Err(refused) => Outcome::Refused(report_of(refused)),
    }
}

// What is found in the bytes of a file, with its code, where that is asked for.
fn found_in<O: Observer>(
    alloc: Global,
    bytes: &[u8],
    search: &Search<'_>,
    observer: &mut O,
) -> Result<CodedLook, LocatedFault>
    requires { IsGoodSearch search.now }
    ensures found { IfOk result (IsFoundIn bytes.now search.now.tables.now search.now.task) }
    ensures unfound { IfErr result
        (IsUnfoundFor search.now.task.codes bytes.now search.now.tables.now search.now.task) }
{
    let Search { tables, task } = *search;
    let Task {
        generations,
        limits,
        scope,
        codes,
    } = task;
    if codes {
        return identify_with_code(alloc, bytes, tables, generations, limits, scope, observer);
    }
    let look = identify(alloc, bytes, tables, generations, limits, scope, observer)?;
    Ok(CodedLook { look, code: None })
}

// How many cells of its parts may be stepped for that.
const BUDGET: u64 = 500000;

// When the plane of a file settles, and into how many objects, where it is none of the kinds that are looked for, and
// that is found within the patience of the look. Where it has no patience, only what is asked for is looked for.
fn settles_in(
    alloc: Global,
    bytes: &[u8],
    search: &Search<'_>,
    identity: Identity,
) -> Option<Settles>
    requires { IsGoodSearch search.now }
    ensures { IsSettlesOf bytes.now search.now.tables.now search.now.task.generations identity result }
{
    let Identity::Unknown { .. } = identity else {
        return None;
    };
    let Search { tables, task } = *search;
    if task.scope.patience.is_none() {
        return None;
    }
    let reach = Reach {
        start: task.generations,
        limit: task.scope.limit.min(MOST_GENERATIONS - task.generations),
        budget: BUDGET,
        patience: task.scope.patience,
    };
    let mut unwatched = Unwatched;
    match census_of_file(alloc, bytes, tables, task.limits, reach, &mut unwatched) {
        Ok(Some(found)) => Some(Settles {
            generations: found.census.generations,
            objects: found.census.objects.len() as u64,
        }),
        Ok(None) | Err(_) => None,
    }
}
