//! Files that are read whole.

ghost use Rattle.std.specs.Prelude.{◌≡◌, ◌≢◌, ⊤, [], map, true, Some, None, IfOk, OnOk, IfErr, OnErr, MatchOption};
ghost use Rattle.ca_report.specs.declared.absence.Absence.{Absence};
ghost use Rattle.ca_host.specs.Files.{bytes_at, place_of, IsFoundAt, IsAbsentAt, GathersFiles, AddsOutcome};
ghost use Rattle.ca_host.specs.Files.{LoadsOnce};
ghost use Rattle.ca_host.specs.Unread.{IsWholeFile, IsUnread};
ghost use Rattle.ca_host.specs.Sources.{source_remaining, IsSourceOf};

use crate::streams::Source;
use crate::whole_files::{Unread, WholeFiles};
use ca_pattern::File;
use ca_plane::{Dev, Memory};
use ca_report::{Absence, FaultyRule, InputFault, MissingFile, path_in, read_all};
use ca_rule::TableFault;
use ca_text::Claims;
use std::alloc::Global;
use std::fs;
use std::io::ErrorKind;
use std::rt::{Files, Stdin};

/// A file that was read: one that a claim text names, or a rule file.
#[derive(Drop)]
pub struct LoadedFile {
    path: Vec<u8>,
    bytes: Vec<u8>,
}

impl LoadedFile {
    // A file with this path and these bytes.
    fn new(alloc: Global, path: &[u8], bytes: Vec<u8>) -> Result<LoadedFile, Memory>
        ensures path { IfOk result (λ f. f.path.items ≡ path.now) }
        ensures bytes { IfOk result (λ f. f.bytes.items ≡ bytes.items) }
    {
        let path = Vec::from_slice(alloc, path)?;
        Ok(LoadedFile { path, bytes })
    }

    /// The path and the bytes, which stay here.
    pub fn view(&self) -> File<'_>
        ensures path { result.path.now ≡ self.now.path.items }
        ensures bytes { result.bytes.now ≡ self.now.bytes.items }
    {
        File {
            path: self.path.as_slice(),
            bytes: self.bytes.as_slice(),
        }
    }
}

/// The file of a path, or standard input where the path is `-`. A file that can't be opened can't be read.
pub fn open_source<R: Files>(
    rt: &R,
    path: &str,
    input: Stdin,
) -> Result<Dev<Source<R::File>>, InputFault>
    ensures { IfOk result (λ source. IsSourceOf path.now source.inner) }
{
    if path == "-" {
        return Ok(Dev::new(Source::Input(input)));
    }
    let file = open(rt, path)?;
    Ok(Dev::new(Source::File(file)))
}

/// All bytes of a file, or of standard input where the path is `-`.
pub fn read_source<R: Files + AllocGlobal>(
    rt: &R,
    path: &str,
    input: Stdin,
) -> Result<Vec<u8>, InputFault>
    ensures { IfOk result (λ v. IsWholeFile (source_remaining R.File.remaining) v.items) }
{
    let mut source = open_source(rt, path, input)?;
    read_all(rt.alloc(), &mut source)
}

/// All bytes of a file.
pub fn read_file<R: Files + AllocGlobal>(rt: &R, path: &str) -> Result<Vec<u8>, InputFault>
    ensures { IfOk result (λ v. IsWholeFile R.File.remaining v.items) }
{
    let mut file = Dev::new(open(rt, path)?);
    read_all(rt.alloc(), &mut file)
}

fn open<R: Files>(rt: &R, path: &str) -> Result<R::File, InputFault> {
    match fs::open(rt, path) {
        Ok(file) => Ok(file),
        Err(error) if error.kind() == ErrorKind::OutOfMemory => Err(InputFault::Memory),
        Err(_) => Err(InputFault::Read),
    }
}

/// Fails where the path isn't that of a folder.
pub fn check_folder<R: Files>(rt: &R, path: &str) -> Result<(), InputFault> {
    match fs::metadata(rt, path) {
        Ok(found) if found.is_dir() => Ok(()),
        Err(error) if error.kind() == ErrorKind::OutOfMemory => Err(InputFault::Memory),
        _ => Err(InputFault::Read),
    }
}

/// The files of a claim text's paths: those that were read, and those that weren't.
#[derive(Drop)]
pub struct NeededFiles {
    pub loaded: Vec<LoadedFile>,
    pub missing: Vec<LostFile>,
}

/// A path of a claim text whose file wasn't read.
#[derive(Drop)]
pub struct LostFile {
    path: Vec<u8>,
    why: Absence,
}

impl LostFile {
    /// The same for a run, whose bytes stay here.
    pub fn view(&self) -> MissingFile<'_>
        ensures path { result.path.now ≡ self.now.path.items }
        ensures why { result.why ≡ self.now.why }
    {
        MissingFile {
            path: self.path.as_slice(),
            why: self.why,
        }
    }
}

/// The files that a claim text needs, in the order of its paths: those that can be read, and the others with the
/// reason. No other file is opened. Where there is a root, they are looked for there, and none whose path may lead out
/// of it is opened. Fails where there is no memory for them, of a text that makes a claim.
pub fn load_needed<R: Files + AllocGlobal>(
    rt: &R,
    claims: &Claims,
    root: &Option<String>,
) -> Result<NeededFiles, Memory>
    ensures files { IfOk result (GathersFiles (λ _ bytes. IsWholeFile R.File.remaining bytes) (λ _ _. ⊤)
        root.now claims.now) }
    ensures memory { OnErr result (claims.now.claims ≢ []) }
{
    gather(rt.alloc(), rt, claims, root)
}

// The same of whatever gives files.
fn gather<D: WholeFiles>(
    alloc: Global,
    disk: &D,
    claims: &Claims,
    root: &Option<String>,
) -> Result<NeededFiles, Memory>
    ensures files { IfOk result (GathersFiles D.gives D.lacks root.now claims.now) }
    ensures memory { OnErr result (claims.now.claims ≢ []) }
{
    let mut files = NeededFiles {
        loaded: Vec::new(alloc),
        missing: Vec::new(alloc),
    };
    if claims.claim_count() == 0 {
        return Ok(files);
    }
    let needed = claims.needed(alloc)?;
    'paths: for index in 0..claims.path_count() {
        add_if_needed(
            alloc,
            disk,
            root,
            claims.path(index),
            needed[index],
            &mut files,
        )?;
    }
    Ok(files)
}

// Adds the file of a text's path, or why it isn't read, where it is needed.
fn add_if_needed<D: WholeFiles>(
    alloc: Global,
    disk: &D,
    root: &Option<String>,
    path: &[u8],
    is_needed: bool,
    files: &mut NeededFiles,
) -> Result<(), Memory>
    ensures { OnOk result (AddsOutcome D.gives D.lacks root.now path.now is_needed files.old files.new) }
{
    if is_needed {
        return add_file(alloc, disk, root, path, files);
    }
    Ok(())
}

// Adds the file of a text's path, or why it isn't read.
fn add_file<D: WholeFiles>(
    alloc: Global,
    disk: &D,
    root: &Option<String>,
    path: &[u8],
    files: &mut NeededFiles,
) -> Result<(), Memory>
    ensures { OnOk result (AddsOutcome D.gives D.lacks root.now path.now true files.old files.new) }
{
    match bytes_below(alloc, disk, root, path) {
        Ok(bytes) => {
            let file = LoadedFile::new(alloc, path, bytes)?;
            files.loaded.push(file)?;
            Ok(())
        }
        Err(Unread::Absent(why)) => {
            let path = Vec::from_slice(alloc, path)?;
            files.missing.push(LostFile { path, why })?;
            Ok(())
        }
        Err(Unread::Memory) => Err(Memory),
    }
}

// The bytes of a text's file. Where there is a root, it is looked for there, and isn't opened where its path may lead
// out of it.
fn bytes_below<D: WholeFiles>(
    alloc: Global,
    disk: &D,
    root: &Option<String>,
    path: &[u8],
) -> Result<Vec<u8>, Unread>
    ensures found { IfOk result (λ v. IsFoundAt D.gives (place_of root.now path.now) v.items) }
    ensures absent { IfErr result (IsUnread (IsAbsentAt D.lacks (place_of root.now path.now))) }
{
    let Some(root) = root else {
        return disk.bytes_of(path);
    };
    match path_in(alloc, root.as_bytes(), path) {
        Ok(Some(place)) => disk.bytes_of(&place),
        Ok(None) => Err(Unread::Absent(Absence::Outside)),
        Err(_) => Err(Unread::Memory),
    }
}

// The bytes of the file of a path, if it can be read.
pub(crate) fn found_bytes<D: WholeFiles>(disk: &D, path: &[u8]) -> Result<Option<Vec<u8>>, Memory>
    ensures { IfOk result (λ found. MatchOption found ((why : Absence) × D.lacks path.now why)
        (λ v. D.gives path.now v.items)) }
{
    match disk.bytes_of(path) {
        Ok(bytes) => Ok(Some(bytes)),
        Err(Unread::Absent(_)) => Ok(None),
        Err(Unread::Memory) => Err(Memory),
    }
}

/// The claims of a text, the files that they need, those of them that weren't read, and the rule files that were looked
/// for by the names of their patterns' rules, and aren't good.
#[derive(Drop)]
pub struct LoadedText {
    pub claims: Claims,
    pub files: Vec<LoadedFile>,
    pub missing: Vec<LostFile>,
    pub faulty: Vec<FaultyFile>,
}

/// A rule file that was looked for by the name of a rule, and isn't good.
#[derive(Drop)]
pub struct FaultyFile {
    name: Vec<u8>,
    path: Vec<u8>,
    fault: TableFault,
}

impl FaultyFile {
    /// The rule file at this path, with the name for which it was found, and its fault.
    pub fn new(
        alloc: Global,
        name: &[u8],
        path: &[u8],
        fault: TableFault,
    ) -> Result<FaultyFile, Memory>
        ensures name { IfOk result (λ f. f.name.items ≡ name.now) }
        ensures path { IfOk result (λ f. f.path.items ≡ path.now) }
        ensures fault { IfOk result (λ f. f.fault ≡ fault) }
    {
        let name = Vec::from_slice(alloc, name)?;
        let path = Vec::from_slice(alloc, path)?;
        Ok(FaultyFile { name, path, fault })
    }

    /// The same for a run, whose bytes stay here.
    pub fn view(&self) -> FaultyRule<'_>
        ensures name { result.name.now ≡ self.now.name.items }
        ensures path { result.path.now ≡ self.now.path.items }
        ensures fault { result.fault ≡ self.now.fault }
    {
        FaultyRule {
            name: self.name.as_slice(),
            path: self.path.as_slice(),
            fault: self.fault,
        }
    }
}

/// Adds the file of a path under another one, if it isn't there yet and can be read.
pub fn load_once<R: Files + AllocGlobal>(
    rt: &R,
    path: &[u8],
    label: &[u8],
    files: &mut Vec<LoadedFile>,
) -> Result<(), Memory>
    ensures ok { OnOk result (LoadsOnce (λ _ bytes. IsWholeFile R.File.remaining bytes) (λ _ _. ⊤)
        path.now label.now files.old.items files.new.items) }
    ensures err { OnErr result (files.new.items ≡ files.old.items) }
{
    add_once(rt.alloc(), rt, path, label, files)
}

// The same of whatever gives files.
fn add_once<D: WholeFiles>(
    alloc: Global,
    disk: &D,
    path: &[u8],
    label: &[u8],
    files: &mut Vec<LoadedFile>,
) -> Result<(), Memory>
    ensures ok { OnOk result (LoadsOnce D.gives D.lacks path.now label.now files.old.items files.new.items) }
    ensures err { OnErr result (files.new.items ≡ files.old.items) }
{
    if bytes_at(files, label).is_some() {
        return Ok(());
    }
    let Some(bytes) = found_bytes(disk, path)? else {
        return Ok(());
    };
    let file = LoadedFile::new(alloc, label, bytes)?;
    files.push(file)?;
    Ok(())
}

/// The bytes of the first file with this path.
pub fn bytes_at<'a>(files: &'a [LoadedFile], path: &[u8]) -> Option<&'a [u8]>
    ensures { MatchOption result (bytes_at files.now path.now ≡ None)
        (λ bytes. bytes_at files.now path.now ≡ Some bytes.now) }
{
    'files: for file in files {
        if file.path.as_slice() == path {
            return Some(file.bytes.as_slice());
        }
    }
    None
}

/// The files as `verify` takes them. It takes memory only where there are some.
pub fn views<'a>(alloc: Global, loaded: &'a [LoadedFile]) -> Result<Vec<File<'a>>, Memory>
    ensures paths { IfOk result (λ views.
        map (λ f. f.path.now) views.items ≡ map (λ f. f.path.items) loaded.now) }
    ensures bytes { IfOk result (λ views.
        map (λ f. f.bytes.now) views.items ≡ map (λ f. f.bytes.items) loaded.now) }
    ensures memory { OnErr result (loaded.now ≢ []) }
{
    let mut views = Vec::new(alloc);
    'files: for file in loaded {
        views.push(file.view())?;
    }
    Ok(views)
}

/// The files that weren't read as `verify` takes them.
pub fn missing_files<'a>(
    alloc: Global,
    lost: &'a [LostFile],
) -> Result<Vec<MissingFile<'a>>, Memory>
    ensures paths { IfOk result (λ missing.
        map (λ f. f.path.now) missing.items ≡ map (λ f. f.path.items) lost.now) }
    ensures reasons { IfOk result (λ missing.
        map (λ f. f.why) missing.items ≡ map (λ f. f.why) lost.now) }
    ensures memory { OnErr result (lost.now ≢ []) }
{
    let mut missing = Vec::new(alloc);
    'files: for file in lost {
        missing.push(file.view())?;
    }
    Ok(missing)
}

/// The faulty rule files as `verify` takes them.
pub fn faulty_rules<'a>(
    alloc: Global,
    faulty: &'a [FaultyFile],
) -> Result<Vec<FaultyRule<'a>>, Memory>
    ensures names { IfOk result (λ rules.
        map (λ f. f.name.now) rules.items ≡ map (λ f. f.name.items) faulty.now) }
    ensures paths { IfOk result (λ rules.
        map (λ f. f.path.now) rules.items ≡ map (λ f. f.path.items) faulty.now) }
    ensures faults { IfOk result (λ rules.
        map (λ f. f.fault) rules.items ≡ map (λ f. f.fault) faulty.now) }
    ensures memory { OnErr result (faulty.now ≢ []) }
{
    let mut rules = Vec::new(alloc);
    'files: for file in faulty {
        rules.push(file.view())?;
    }
    Ok(rules)
}
