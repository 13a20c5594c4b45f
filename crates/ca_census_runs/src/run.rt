//! Runs of `census`: pattern files in, and lines out that tell what each settles into, those on each file before the next
//! one is looked at.

ghost use Rattle.std.specs.Prelude.{◌≡◌, ◌+◌, ◌≤◌, ◌<◌, ◌++◌, [], IfOk, IfErr, OnOk};
ghost use Rattle.std.specs.List.{cons_option};
ghost use Rattle.ca_plane.specs.Prelude.{longest_period, most_generations};
ghost use Rattle.ca_pattern.specs.Prelude.{AreGoodLimits};
ghost use Rattle.ca_census_runs.specs.Runs.{WritesCensus, EndsCensus};
ghost use Rattle.ca_census_runs.specs.inner.Tasks.{IsGoodTask};

use crate::fault::CensusFault;
use crate::file_lines::{FileResults, put_file};
use crate::task::CensusTask;
use ca_census_files::Folder;
use ca_evolution::Observer;
use ca_identify_lines::{Catalog, Entry, KnownRules, Subject, TakenNames};
use ca_plane::{Dev, Memory, send};
use std::alloc::Global;
use std::io::Write;

/// Takes the census of files, and writes for each, in order, when its plane settles, and the objects that it consists of then:
/// how many have each label, or where each is, as the task asks. Where it isn't found to settle, a line says so; and where there is no
/// census of a file, the comment that `identify` writes of it says why. The lines on a file are written before the next one is
/// looked at. It answers what came of the files of which there is no census. Where the task has a folder, the files of each
/// census are added to it before its lines are written.
///
/// The reach starts and ends within 1152921504606846976 generations, and its budget is less than 4294967295. Rules are looked
/// for among the tables of the rule files too, which the claim texts of files name. No two files have one name in the text. The observer hears of each file before its
/// census is taken, and of its end before its lines are written.
///
/// # Errors
///
/// Where there is no memory for the name, the lines or the files of a file's census, where there can't be such files, or
/// where they aren't added, what was written is the text on the files before it, and theirs were added. Where a write of
/// lines fails, the files of that census were added too.
pub fn census_run<'a, F: Folder, W: Write, O: Observer>(
    alloc: Global,
    subjects: &[Subject<'a>],
    rules: &KnownRules<'_>,
    task: CensusTask<'_>,
    folder: &mut F,
    device: &mut Dev<W>,
    observer: &mut O,
) -> Result<Catalog<'a>, CensusFault>
    requires limits { AreGoodLimits task.limits }
    requires few { task.reach.start + task.reach.limit ≤ most_generations }
    requires budget { task.reach.budget < longest_period }
    ensures writes { IfOk result (WritesCensus F.files W.contents folder.old folder.new device.old device.new
        rules.now task.entry subjects.now) }
    ensures ends { IfErr result (EndsCensus F.files W.contents folder.old folder.new device.old device.new
        rules.now task.entry subjects.now) }
{
    match write_files(alloc, subjects, rules, task, folder, device, observer) {
        Ok(refused) => Ok(Catalog::of(refused)),
        Err(fault) => Err(fault),
    }
}

// Puts an entry, where there is one, after the others.
fn keep<'a>(entries: &mut Vec<Entry<'a>>, entry: Option<Entry<'a>>) -> Result<(), Memory>
    ensures { OnOk result (entries.new.items ≡ entries.old.items ++ cons_option entry.entry []) }
{
    if let Some(entry) = entry {
        entries.push(entry)?;
    }
    Ok(())
}

// Writes the lines on each file, in order, before the next one is looked at, and answers the entries on those of which
// there is no census.
fn write_files<'a, F: Folder, W: Write, O: Observer>(
    alloc: Global,
    subjects: &[Subject<'a>],
    rules: &KnownRules<'_>,
    task: CensusTask<'_>,
    folder: &mut F,
    device: &mut Dev<W>,
    observer: &mut O,
) -> Result<Vec<Entry<'a>>, CensusFault>
    requires { IsGoodTask task }
    ensures writes { IfOk result (λ refused. WritesCensus F.files W.contents folder.old folder.new device.old device.new
        rules.now task.entry subjects.now refused.items) }
    ensures ends { IfErr result (EndsCensus F.files W.contents folder.old folder.new device.old device.new
        rules.now task.entry subjects.now) }
{
    let mut names = TakenNames::new(alloc);
    let mut text = Vec::new(alloc);
    let mut refused = Vec::new(alloc);
    let mut index = 0;
    'subjects: for subject in subjects {
        let told = match put_file(
            alloc, &mut text, &mut names, index, subject, rules, task, observer,
        ) {
            Ok(told) => told,
            Err(fault) => return Err(CensusFault::of_files(fault, index)),
        };
        let FileResults {
            refused: entry,
            files,
        } = told;
        if keep(&mut refused, entry).is_err() {
            return Err(CensusFault::Memory);
        }
        if let Err(fault) = folder.add(&files) {
            return Err(CensusFault::of_folder(fault));
        }
        if send(device, &text).is_err() {
            return Err(CensusFault::Write);
        }
        index += 1;
    }
    Ok(refused)
}
