//! The command `identify`.

ghost use Rattle.std.specs.Prelude.{◌≡◌, ◌≢◌, ◌≤◌, ◌⊎◌, ◌++◌, ◌∷◌, ℕ, [], map, false, IfOk, IfErr, OnOk, OnErr};
ghost use Rattle.std.specs.List.{filter_map};
ghost use Rattle.ca_plane.specs.Prelude.{longest_period, most_generations};
ghost use Rattle.ca_pattern.specs.Prelude.{AreGoodLimits};
ghost use Rattle.ca_identify_lines.specs.Prelude.{is_claim_path};
ghost use Rattle.cafile.specs.Scopes.{scope_of};
ghost use Rattle.cafile.specs.Contents.{loaded_at, handed_at, file_at, read_at};
ghost use Rattle.cafile.specs.Runs.{IsTask, WritesClaims, EndsClaims};
ghost use Rattle.cafile.specs.declared.identify.PathContent.{PathContent};
ghost use Rattle.cafile.specs.declared.identify.FileContent.{FileContent};

use crate::FAULT;
use crate::folder_rules::find_rules;
use crate::ties::tell_ties;
use ca_answers::{Cause, Scope};
use ca_cli::{PatternExtras, Search};
use ca_evolution::Observer;
use ca_host::{FaultyFile, Heading, Progress, RuleFiles, Streams, read_file};
use ca_identify_runs::identify_run;
use ca_pattern::File;
use ca_plane::limits::LONGEST_PERIOD;
use ca_plane::{Dev, Memory};
use ca_report::DetailedFault;
use ca_tool::{
    Catalog, Content, Fault, InputFault, KnownRules, RunFiles, Subject, Task, ToolFault, complain,
    explain, has_explanation, is_claim_path,
};
use std::alloc::Global;
use std::io::Write;
use std::rt::{Clock, Files};

/// What the file of a path gave.
#[derive(Drop)]
pub enum FileContent {
    Bytes(Vec<u8>),
    Missing(Cause),
    /// The rule file that has the name of its rule isn't good.
    FaultyRule(FaultyFile),
}

/// A path of the words, and what its file gave.
#[derive(Drop)]
pub struct PathContent<'a> {
    pub path: &'a [u8],
    pub content: FileContent,
}

/// Why nothing is written, and the path of the file that this is about.
#[derive(Clone, Copy)]
pub struct Failure<'a> {
    pub fault: Fault,
    pub path: &'a str,
}

impl<'a> Failure<'a> {
    /// The failure that is about no file.
    pub fn of(fault: Fault) -> Failure<'a> {
        Failure { fault, path: "" }
    }
}

/// The fault where memory is out.
pub const OUT_OF_MEMORY: Fault = Fault::Tool(ToolFault::Memory);

/// Identifies the patterns of the files of these paths, writes the claim text on them, and answers the exit status.
pub fn identify_files<R: Files + Clock + AllocGlobal>(
    rt: &R,
    paths: &[Vec<u8>],
    search: Search,
    extras: &PatternExtras,
    streams: &mut Streams,
) -> u8 {
    match write_claims(rt, paths, search, extras, streams) {
        Ok(status) => status,
        Err(Failure { fault, path }) => {
            let _ = complain(&fault, path.as_bytes(), &mut streams.errors);
            explain_failure(fault, extras, streams);
            FAULT
        }
    }
}

// Reads the files, writes the claim text, and explains what is refused, where that is asked for.
fn write_claims<'a, R: Files + Clock + AllocGlobal>(
    rt: &R,
    paths: &[Vec<u8>],
    search: Search,
    extras: &'a PatternExtras,
    streams: &mut Streams,
) -> Result<u8, Failure<'a>> {
    'paths: for path in [&extras.folder, &extras.rule] {
        if let Some(path) = path {
            check_path(path.as_str())?;
        }
    }
    let mut rules = load_rules(rt, &extras.rule)?;
    let Ok(mut loaded) = load_contents(rt, paths) else {
        return Err(Failure::of(OUT_OF_MEMORY));
    };
    if let Some(folder) = &extras.folder {
        find_rules(rt.alloc(), rt, folder.as_str(), &mut loaded, &mut rules);
    }
    let Ok(files) = read_files(rt.alloc(), &loaded) else {
        return Err(Failure::of(OUT_OF_MEMORY));
    };
    tell_ties(&rules.tables, extras.extras.explained, streams);
    let catalog = match run(rt, paths, &loaded, &rules, search, extras, streams) {
        Ok(catalog) => catalog,
        Err(fault) => return Err(Failure::of(Fault::Tool(fault))),
    };
    if extras.extras.explained {
        let _ = catalog.explain(&files, &mut streams.errors);
    } else if catalog.has_explanation() {
        streams.suggest_explain();
    }
    Ok(catalog.status())
}

/// A path of a rule file, or of a folder of such, is one that a claim text can name.
pub fn check_path(path: &str) -> Result<(), Failure<'_>> {
    if is_claim_path(path.as_bytes()) {
        return Ok(());
    }
    let fault = Fault::Unnameable;
    Err(Failure { fault, path })
}

/// The rule file that is named, if there is one, and its table.
pub fn load_rules<'a, R: Files + AllocGlobal>(
    rt: &R,
    rule: &'a Option<String>,
) -> Result<RuleFiles, Failure<'a>> {
    let mut rules = RuleFiles::new(rt.alloc());
    let Some(path) = rule else {
        return Ok(rules);
    };
    let path = path.as_str();
    let bytes = match read_file(rt, path) {
        Ok(bytes) => bytes,
        Err(fault) => {
            let fault = Fault::Input(fault);
            return Err(Failure { fault, path });
        }
    };
    match rules.add(rt.alloc(), path.as_bytes(), &bytes) {
        Ok(()) => Ok(rules),
        Err(fault) => Err(Failure::of(Fault::Tool(fault))),
    }
}

// What the files of the paths gave, in order.
fn load_contents<'a, R: Files + AllocGlobal>(
    rt: &R,
    paths: &'a [Vec<u8>],
) -> Result<Vec<PathContent<'a>>, Memory>
    ensures { IfOk result (λ loaded. map (λ f. f.path.now) loaded.items ≡ map (λ p. p.items) paths.now) }
{
    let mut loaded = Vec::new(rt.alloc());
    'paths: for path in paths {
        let content = load_content(rt, path);
        loaded.push(PathContent { path, content })?;
    }
    Ok(loaded)
}

// What the file of a path gave. One that no claim text can name isn't opened, nor is one whose path isn't UTF-8.
fn load_content<R: Files + AllocGlobal>(rt: &R, path: &[u8]) -> FileContent
    ensures { is_claim_path path.now ≡ false → result ≡ FileContent.Missing Cause.NoFile }
{
    if !is_claim_path(path) {
        return FileContent::Missing(Cause::NoFile);
    }
    read_content(rt, path)
}

/// What the file of a path gave. One whose path isn't UTF-8 isn't opened.
pub fn read_content<R: Files + AllocGlobal>(rt: &R, path: &[u8]) -> FileContent {
    let Ok(text) = str::from_utf8(path) else {
        return FileContent::Missing(Cause::NoFile);
    };
    match read_file(rt, text) {
        Ok(bytes) => FileContent::Bytes(bytes),
        Err(InputFault::Memory) => FileContent::Missing(Cause::Memory),
        Err(InputFault::Read | InputFault::TooLong) => FileContent::Missing(Cause::NoFile),
    }
}

// How many generations of a pattern are looked at, unless that is set.
const USUAL_LIMIT: u64 = 65536;

// How many units of work they may take then, after the first two. That is a second or less on most machines.
const USUAL_PATIENCE: u64 = 300000;

// How far each pattern is looked at: as many generations as the words set, which keep them within their limits (a number
// outside is brought within), whatever they take; or the usual number, while patience lasts.
fn scope_of(limit: Option<u64>) -> Scope
    ensures some { 1 ≤ result.limit }
    ensures most { result.limit ≤ longest_period }
    ensures value { result ≡ scope_of limit }
{
    match limit {
        Some(limit) => Scope::whole(limit.clamp(1, LONGEST_PERIOD)),
        None => Scope {
            limit: USUAL_LIMIT,
            patience: Some(USUAL_PATIENCE),
        },
    }
}

// What is done with each file by the words.
fn task_of(search: Search, extras: &PatternExtras) -> Task
    ensures asked { IsTask search extras.now result }
    ensures few { result.generations ≤ most_generations }
    ensures limits { AreGoodLimits result.limits }
    ensures some { 1 ≤ result.scope.limit }
    ensures most { result.scope.limit ≤ longest_period }
{
    Task {
        generations: extras.after(),
        limits: extras.extras.limits(),
        scope: scope_of(search.limit),
        codes: search.codes,
    }
}

// Writes the claim text, and answers what came of the files.
fn run<'a, R: Files + Clock + AllocGlobal>(
    rt: &R,
    paths: &'a [Vec<u8>],
    loaded: &'a [PathContent<'a>],
    rules: &RuleFiles,
    search: Search,
    extras: &PatternExtras,
    streams: &mut Streams,
) -> Result<Catalog<'a>, ToolFault> {
    let task = task_of(search, extras);
    let heading = Heading::Files {
        paths,
        after: task.generations,
        limit: task.scope.limit,
    };
    let squares = extras.extras.most_squares();
    let errors = &mut streams.errors;
    let mut observer = Progress::new(rt, errors, heading, extras.extras.progress, squares);
    let output = &mut streams.output;
    write_text_of(rt.alloc(), loaded, rules, task, output, &mut observer)
}

// Writes the claim text on these files, under these rule files.
fn write_text_of<'a, W: Write, O: Observer>(
    alloc: Global,
    loaded: &'a [PathContent<'a>],
    rules: &RuleFiles,
    task: Task,
    output: &mut Dev<W>,
    observer: &mut O,
) -> Result<Catalog<'a>, ToolFault>
    requires few { task.generations ≤ most_generations }
    requires limits { AreGoodLimits task.limits }
    requires some { 1 ≤ task.scope.limit }
    requires most { task.scope.limit ≤ longest_period }
    ensures writes { IfOk result (WritesClaims W.contents output.old output.new rules.now task loaded.now) }
    ensures ends { IfErr result (λ fault. (fault ≡ ToolFault.Memory) ⊎ EndsClaims W.contents output.old output.new
        rules.now task loaded.now fault) }
{
    let Ok(subjects) = subjects(alloc, loaded) else {
        return Err(ToolFault::Memory);
    };
    let known = KnownRules {
        paths: &rules.paths,
        tables: &rules.tables,
    };
    identify_run(alloc, &subjects, &known, task, output, observer)
}

/// The files as runs take them.
pub fn subjects<'a>(
    alloc: Global,
    loaded: &'a [PathContent<'a>],
) -> Result<Vec<Subject<'a>>, Memory>
    ensures each { IfOk result (λ subjects. map handed_at subjects.items ≡ map loaded_at loaded.now) }
    ensures memory { OnErr result (loaded.now ≢ []) }
{
    let mut subjects = Vec::new(alloc);
    'files: for file in loaded {
        subjects.push(subject_of(file))?;
    }
    Ok(subjects)
}

fn subject_of<'a>(file: &'a PathContent<'a>) -> Subject<'a>
    ensures { handed_at result ≡ loaded_at file.now }
{
    let content = match &file.content {
        FileContent::Bytes(bytes) => Content::Bytes(bytes),
        FileContent::Missing(cause) => Content::Missing(*cause),
        FileContent::FaultyRule(faulty) => Content::FaultyRule(faulty.view()),
    };
    Subject {
        path: file.path,
        content,
    }
}

/// The files that were read.
pub fn read_files<'a>(alloc: Global, loaded: &'a [PathContent<'a>]) -> Result<Vec<File<'a>>, Memory>
    ensures each { IfOk result (λ files. map file_at files.items ≡ filter_map read_at loaded.now) }
    ensures memory { OnErr result (loaded.now ≢ []) }
{
    let mut files = Vec::new(alloc);
    'files: for file in loaded {
        put_read(file, &mut files)?;
    }
    Ok(files)
}

// Puts the file of a path after the others, if it was read.
fn put_read<'a>(file: &'a PathContent<'a>, files: &mut Vec<File<'a>>) -> Result<(), Memory>
    ensures { OnOk result (map file_at files.new.items
        ≡ map file_at files.old.items ++ filter_map read_at (file.now ∷ [])) }
{
    if let FileContent::Bytes(bytes) = &file.content {
        files.push(File {
            path: file.path,
            bytes,
        })?;
    }
    Ok(())
}

/// Tells the line of a faulty rule file that the words name, where that is asked for.
pub fn explain_failure(fault: Fault, extras: &PatternExtras, streams: &mut Streams) {
    if let (Fault::Tool(fault), Some(rule)) = (fault, &extras.rule) {
        if !extras.extras.explained {
            if has_explanation(fault) {
                streams.suggest_explain();
            }
            return;
        }
        let files = RunFiles {
            pattern: File {
                path: b"",
                bytes: b"",
            },
            rule_path: rule.as_bytes(),
        };
        let _ = explain(&DetailedFault::of(fault), &files, &mut streams.errors);
    }
}
