//! The command `census`.

ghost use Rattle.std.specs.Prelude.{◌≡◌, ◌≤◌, ◌<◌, ◌+◌};
ghost use Rattle.ca_plane.specs.Prelude.{longest_period, most_generations};
ghost use Rattle.ca_pattern.specs.Prelude.{AreGoodLimits};
ghost use Rattle.cafile.specs.Reaches.{IsCensusTask, limited_reach, reach_of};

use crate::FAULT;
use crate::folder_rules::find_rules;
use crate::identify::{
    Failure, OUT_OF_MEMORY, PathContent, check_path, explain_failure, load_rules, read_content,
    read_files, subjects,
};
use crate::new_files::DiskFolder;
use crate::ties::tell_ties;
use ca_census::Reach;
use ca_census_runs::{CensusFault, CensusTask, census_run};
use ca_cli::{CensusSearch, PatternExtras};
use ca_host::{Heading, Progress, RuleFiles, Streams};
use ca_plane::Memory;
use ca_plane::limits::{LONGEST_PERIOD, MOST_GENERATIONS};
use ca_tool::{Catalog, Fault, KnownRules, ToolFault, complain, complain_with_path};
use std::rt::{Clock, Files};

/// Takes the census of the pattern files of these paths, writes what each settles into, and answers the exit status.
pub fn census_files<R: Files + Clock + AllocGlobal>(
    rt: &R,
    paths: &[Vec<u8>],
    search: CensusSearch,
    into: &Option<String>,
    extras: &PatternExtras,
    streams: &mut Streams,
) -> u8 {
    let mut folder = DiskFolder::new(rt, folder_path(into));
    match write_censuses(rt, paths, search, into, extras, &mut folder, streams) {
        Ok(status) => status,
        Err(Ending::Failed(Failure { fault, path })) => {
            let _ = complain(&fault, path.as_bytes(), &mut streams.errors);
            explain_failure(fault, extras, streams);
            FAULT
        }
        Err(Ending::Broken(fault)) => {
            complain_of_run(fault, paths, folder.left_out(), streams);
            FAULT
        }
    }
}

// Why not all is written: nothing is, or the run ended before its last file.
enum Ending<'a> {
    Failed(Failure<'a>),
    Broken(CensusFault),
}

// Tells why a run ended before its last file: it has files at these paths, and one at the last path wasn't added.
fn complain_of_run(fault: CensusFault, paths: &[Vec<u8>], left_out: &str, streams: &mut Streams) {
    let (fault, path): (Fault, &[u8]) = match fault {
        CensusFault::GenTooLarge { index } => {
            return complain_of_file(ToolFault::GenTooLarge, paths.get(index), streams);
        }
        CensusFault::Range { index } => {
            return complain_of_file(ToolFault::Range, paths.get(index), streams);
        }
        CensusFault::Taken => (Fault::Taken, left_out.as_bytes()),
        CensusFault::Unwritten => (Fault::Unwritten, left_out.as_bytes()),
        CensusFault::Write => (Fault::Tool(ToolFault::Write), b""),
        CensusFault::Memory => (OUT_OF_MEMORY, b""),
    };
    let _ = complain(&fault, path, &mut streams.errors);
}

// Tells the fault of the file at a path.
fn complain_of_file(fault: ToolFault, path: Option<&Vec<u8>>, streams: &mut Streams) {
    if let Some(path) = path {
        let _ = complain_with_path(&Fault::Tool(fault), path, &mut streams.errors);
    }
}

// Reads the files, writes the text, and explains what is refused, where that is asked for.
fn write_censuses<'a, R: Files + Clock + AllocGlobal>(
    rt: &R,
    paths: &[Vec<u8>],
    search: CensusSearch,
    into: &'a Option<String>,
    extras: &'a PatternExtras,
    folder: &mut DiskFolder<'_, R>,
    streams: &mut Streams,
) -> Result<u8, Ending<'a>> {
    if let Err(failure) = check_claim_paths(into, extras) {
        return Err(Ending::Failed(failure));
    }
    let mut rules = match load_rules(rt, &extras.rule) {
        Ok(rules) => rules,
        Err(failure) => return Err(Ending::Failed(failure)),
    };
    let Ok(mut loaded) = read_contents(rt, paths) else {
        return Err(Ending::Broken(CensusFault::Memory));
    };
    if let Some(folder) = &extras.folder {
        find_rules(rt.alloc(), rt, folder.as_str(), &mut loaded, &mut rules);
    }
    let Ok(files) = read_files(rt.alloc(), &loaded) else {
        return Err(Ending::Broken(CensusFault::Memory));
    };
    tell_ties(&rules.tables, extras.extras.explained, streams);
    let task = task_of(search, into, extras);
    let catalog = match run(rt, paths, &loaded, &rules, task, extras, folder, streams) {
        Ok(catalog) => catalog,
        Err(fault) => return Err(Ending::Broken(fault)),
    };
    if extras.extras.explained {
        let _ = catalog.explain(&files, &mut streams.errors);
    } else if catalog.has_explanation() {
        streams.suggest_explain();
    }
    Ok(catalog.status())
}

// The path of the folder of files, or an empty one where none is written.
fn folder_path(into: &Option<String>) -> &str {
    match into {
        Some(path) => path.as_str(),
        None => "",
    }
}

// Where a claim text is written, it names the folder of its files, and the rule files.
fn check_claim_paths<'a>(
    into: &'a Option<String>,
    extras: &'a PatternExtras,
) -> Result<(), Failure<'a>> {
    if into.is_none() {
        return Ok(());
    }
    'paths: for path in [into, &extras.folder, &extras.rule] {
        if let Some(path) = path {
            check_path(path.as_str())?;
        }
    }
    Ok(())
}

// What the files of the paths gave, in order.
fn read_contents<'a, R: Files + AllocGlobal>(
    rt: &R,
    paths: &'a [Vec<u8>],
) -> Result<Vec<PathContent<'a>>, Memory> {
    let mut loaded = Vec::new(rt.alloc());
    'paths: for path in paths {
        let content = read_content(rt, path);
        loaded.push(PathContent { path, content })?;
    }
    Ok(loaded)
}

// Up to which generation a settled plane is looked for, unless that is set.
const USUAL_LIMIT: u64 = 65536;

// How many units of work the runs of a plane may take then.
const USUAL_PATIENCE: u64 = 3000000;

// How many cells of parts may be stepped, and how many more for each generation of a limit that is set.
const USUAL_BUDGET: u64 = 5000000;

const MORE_BUDGET: u64 = 64;

// What is done with each file by the words.
fn task_of<'a>(
    search: CensusSearch,
    into: &'a Option<String>,
    extras: &PatternExtras,
) -> CensusTask<'a>
    ensures asked { IsCensusTask search into.now extras.now result }
    ensures limits { AreGoodLimits result.limits }
    ensures few { result.reach.start + result.reach.limit ≤ most_generations }
    ensures budget { result.reach.budget < longest_period }
{
    CensusTask {
        limits: extras.extras.limits(),
        reach: reach_of(search.limit, extras.after()),
        listed: search.listed,
        folder: match into {
            Some(folder) => Some(folder.as_bytes()),
            None => None,
        },
    }
}

// How far each plane is looked at: the sum of generations is brought within its limit.
fn reach_of(limit: Option<u64>, start: u64) -> Reach
    requires { start ≤ most_generations }
    ensures value { result ≡ reach_of limit start }
    ensures few { result.start + result.limit ≤ most_generations }
    ensures budget { result.budget < longest_period }
{
    let most = LONGEST_PERIOD.min(MOST_GENERATIONS - start);
    match limit {
        Some(limit) => limited_reach(limit.min(most), start),
        None => Reach {
            start,
            limit: USUAL_LIMIT.min(most),
            budget: USUAL_BUDGET,
            patience: Some(USUAL_PATIENCE),
        },
    }
}

fn limited_reach(limit: u64, start: u64) -> Reach
    requires { limit ≤ longest_period }
    ensures { result ≡ limited_reach limit start }
{
    Reach {
        start,
        limit,
        budget: (USUAL_BUDGET + MORE_BUDGET * limit).min(LONGEST_PERIOD - 1),
        patience: None,
    }
}

// Writes the text, and answers what came of the files that are refused.
fn run<'a, R: Files + Clock + AllocGlobal>(
    rt: &R,
    paths: &'a [Vec<u8>],
    loaded: &'a [PathContent<'a>],
    rules: &RuleFiles,
    task: CensusTask<'_>,
    extras: &PatternExtras,
    folder: &mut DiskFolder<'_, R>,
    streams: &mut Streams,
) -> Result<Catalog<'a>, CensusFault>
    requires limits { AreGoodLimits task.limits }
    requires few { task.reach.start + task.reach.limit ≤ most_generations }
    requires budget { task.reach.budget < longest_period }
{
    if task.folder.is_some() && !folder.make() {
        return Err(CensusFault::Unwritten);
    }
    let heading = Heading::Files {
        paths,
        after: task.reach.start,
        limit: task.reach.limit,
    };
    let squares = extras.extras.most_squares();
    let errors = &mut streams.errors;
    let mut observer = Progress::new(rt, errors, heading, extras.extras.progress, squares);
    let Ok(subjects) = subjects(rt.alloc(), loaded) else {
        return Err(CensusFault::Memory);
    };
    let known = KnownRules {
        paths: &rules.paths,
        tables: &rules.tables,
    };
    census_run(
        rt.alloc(),
        &subjects,
        &known,
        task,
        folder,
        &mut streams.output,
        &mut observer,
    )
}
