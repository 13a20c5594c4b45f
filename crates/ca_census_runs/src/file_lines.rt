//! The lines on a file, whatever came of it.

ghost use Rattle.std.specs.Prelude.{◌≡◌, ◌+◌, ◌≤◌, None, Some, List, ℕ, [], IfOk, IfErr, OnOk};
ghost use Rattle.ca_plane.specs.Prelude.{longest_period, most_generations, Puts};
ghost use Rattle.ca_pattern.specs.Prelude.{AreGoodLimits};
ghost use Rattle.ca_identify_lines.specs.Prelude.{IsWithin};
ghost use Rattle.ca_census.specs.Prelude.{IsFileable};
ghost use Rattle.ca_census_runs.specs.Files.{AreFilesIfAsked, HasNoFilesOf};
ghost use Rattle.ca_census_runs.specs.Lines.{unsettled_line, AreCensusLines};
ghost use Rattle.ca_census_runs.specs.Runs.{IsCensusOutcome, TellsOutcome, TellsRefusal, IsUnfiled};
ghost use Rattle.ca_census_runs.specs.inner.Tasks.{IsGoodTask, IsFileableOutcome, HasNoOutcomeFiles, TellsNext};

use crate::lines::{push_census, push_unsettled};
use crate::outcome::CensusOutcome;
use crate::task::CensusTask;
use ca_census::{FileCensus, census_of_file};
use ca_census_files::{FilesFault, FilesTask, NewFile, files_of_census};
use ca_evolution::{Observer, RunSubject};
use ca_identify_lines::{
    Content, Entry, KnownRules, Outcome, Subject, TakenNames, add_name, is_claim_path, push_entry,
    report_of,
};
use ca_plane::Memory;
use ca_report::DetailedFault;
use std::alloc::Global;

// What comes of the census of a file.
#[tactic(auto, using(crate::proofs::Uncounted::has_report))]
fn outcome_of<'a, O: Observer>(
    alloc: Global,
    subject: &Subject<'a>,
    rules: &KnownRules<'_>,
    task: CensusTask<'_>,
    observer: &mut O,
) -> CensusOutcome<'a>
    requires { IsGoodTask task }
    ensures outcome { IsCensusOutcome rules.now task.entry subject.now result }
    ensures fileable { IsFileableOutcome task.entry result }
{
    if task.folder.is_some() && !is_claim_path(subject.path) {
        return CensusOutcome::Unnameable;
    }
    let bytes = match subject.content {
        Content::Bytes(bytes) => bytes,
        Content::Missing(cause) => return CensusOutcome::Refused(DetailedFault::of(cause)),
        Content::FaultyRule(rule) => return CensusOutcome::FaultyRule(rule),
    };
    match census_of_file(
        alloc,
        bytes,
        rules.tables,
        task.limits,
        task.reach,
        observer,
    ) {
        Ok(Some(census)) => CensusOutcome::Settled(census),
        Ok(None) => CensusOutcome::Unsettled,
        Err(refused) => CensusOutcome::Refused(report_of(refused)),
    }
}

// Puts the comment on a file of which there is no census in place of what `out` holds, and answers the entry on it.
fn put_refused<'a>(
    out: &mut Vec<u8>,
    name: Vec<u8>,
    path: &'a [u8],
    outcome: Outcome<'a>,
) -> Result<Entry<'a>, Memory>
    requires { IsWithin 0 outcome }
    ensures { IfOk result (λ entry. TellsRefusal path.now outcome.entry
        (record { name = name.items; text = out.new.items; refused = Some entry; files = [] })) }
{
    let entry = Entry {
        name,
        path,
        outcome,
    };
    out.clear();
    push_entry(out, 0, &entry)?;
    Ok(entry)
}

/// What is told of a file besides its lines: the entry on it, where there is no census of it, and the files of its
/// census, where they are asked for.
#[derive(Drop)]
pub(crate) struct FileResults<'a> {
    pub refused: Option<Entry<'a>>,
    pub files: Vec<NewFile>,
}

// Puts the lines on a census after what `out` holds, and answers its files, where they are asked for.
fn put_census(
    alloc: Global,
    out: &mut Vec<u8>,
    rules: &[Vec<u8>],
    task: CensusTask<'_>,
    name: &[u8],
    path: &[u8],
    found: FileCensus,
) -> Result<Vec<NewFile>, FilesFault>
    requires fileable { IsFileable found.origin found.census }
    requires few { task.reach.start + found.census.generations ≤ most_generations }
    ensures text { OnOk result ((text : List ℕ) × AreCensusLines task.entry name.now found.census text
        × Puts out.old.items out.new.items text) }
    ensures files { IfOk result (λ files. AreFilesIfAsked task.entry rules.now name.now path.now found files.items) }
    ensures none { IfErr result (HasNoFilesOf task.entry found) }
{
    let FileCensus { mut census, origin } = found;
    let Ok(()) = push_census(alloc, out, task, name, &mut census) else {
        return Err(FilesFault::Memory);
    };
    match task.folder {
        Some(folder) => {
            let files = FilesTask { folder, rules };
            files_of_census(alloc, files, task.reach.start, name, path, &origin, &census)
        }
        None => Ok(Vec::new(alloc)),
    }
}

// Puts the line on a file that isn't found to settle in place of what `out` holds.
fn put_unsettled<'a>(
    alloc: Global,
    out: &mut Vec<u8>,
    task: CensusTask<'_>,
    name: &[u8],
) -> Result<FileResults<'a>, FilesFault>
    ensures text { OnOk result (out.new.items ≡ unsettled_line task.entry.reach name.now) }
    ensures nothing { IfOk result (λ results. (results.refused ≡ None) × (results.files.items ≡ [])) }
    ensures memory { IfErr result (λ fault. fault ≡ FilesFault.Memory) }
{
    out.clear();
    if push_unsettled(out, task.reach, name).is_err() {
        return Err(FilesFault::Memory);
    }
    Ok(FileResults {
        refused: None,
        files: Vec::new(alloc),
    })
}

// Puts the comment on a file of which there is no census in place of what `out` holds, with the entry on it.
fn refused_results<'a>(
    alloc: Global,
    out: &mut Vec<u8>,
    name: Vec<u8>,
    path: &'a [u8],
    outcome: Outcome<'a>,
) -> Result<FileResults<'a>, FilesFault>
    requires { IsWithin 0 outcome }
    ensures told { IfOk result (λ results. TellsRefusal path.now outcome.entry (record {
      name = name.items;
      text = out.new.items;
      refused = results.refused;
      files = results.files.items;
    })) }
    ensures memory { IfErr result (λ fault. fault ≡ FilesFault.Memory) }
{
    match put_refused(out, name, path, outcome) {
        Ok(entry) => Ok(FileResults {
            refused: Some(entry),
            files: Vec::new(alloc),
        }),
        Err(_) => Err(FilesFault::Memory),
    }
}

// Puts the lines on a file in place of what `out` holds, and answers what is told of it besides.
fn put_outcome<'a>(
    alloc: Global,
    out: &mut Vec<u8>,
    rules: &[Vec<u8>],
    task: CensusTask<'_>,
    name: Vec<u8>,
    path: &'a [u8],
    outcome: CensusOutcome<'a>,
) -> Result<FileResults<'a>, FilesFault>
    requires { IsFileableOutcome task outcome }
    ensures told { IfOk result (λ results. TellsOutcome task.entry rules.now path.now outcome.entry (record {
      name = name.items;
      text = out.new.items;
      refused = results.refused;
      files = results.files.items;
    })) }
    ensures none { IfErr result (HasNoOutcomeFiles task.entry outcome.entry) }
{
    match outcome {
        CensusOutcome::Settled(found) => {
            out.clear();
            let files = put_census(alloc, out, rules, task, &name, path, found)?;
            Ok(FileResults {
                refused: None,
                files,
            })
        }
        CensusOutcome::Unsettled => put_unsettled(alloc, out, task, &name),
        CensusOutcome::Unnameable => {
            refused_results(alloc, out, name, path, Outcome::Unnameable)
        }
        CensusOutcome::Refused(why) => {
            refused_results(alloc, out, name, path, Outcome::Refused(why))
        }
        CensusOutcome::FaultyRule(rule) => {
            refused_results(alloc, out, name, path, Outcome::FaultyRule(rule))
        }
    }
}

/// Puts the lines on the file at this index in place of what `out` holds, under a name that is put after the others, and
/// answers what is told of it besides. The observer hears of its end in any case.
///
/// # Errors
///
/// Fails where there is no memory for its name or the lines, or where there are no files of its census.
pub(crate) fn put_file<'a, O: Observer>(
    alloc: Global,
    out: &mut Vec<u8>,
    names: &mut TakenNames,
    index: usize,
    subject: &Subject<'a>,
    rules: &KnownRules<'_>,
    task: CensusTask<'_>,
    observer: &mut O,
) -> Result<FileResults<'a>, FilesFault>
    requires { IsGoodTask task }
    ensures told { IfOk result (TellsNext rules.now task.entry subject.now names.old names.new out.new.items) }
    ensures none { IfErr result (IsUnfiled rules.now task.entry subject.now) }
{
    observer.begins(RunSubject::File { index });
    let outcome = outcome_of(alloc, subject, rules, task, observer);
    observer.ends();
    let Ok(name) = add_name(alloc, names, subject.path) else {
        return Err(FilesFault::Memory);
    };
    put_outcome(alloc, out, rules.paths, task, name, subject.path, outcome)
}
