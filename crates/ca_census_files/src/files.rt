//! The files of a census.

ghost use Rattle.std.specs.Prelude.{◌≡◌, ◌+◌, ◌<◌, ◌≤◌, ◌++◌, ◌∷◌, [], map, IfOk, IfErr, OnOk, IfSome, IsNone};
ghost use Rattle.std.specs.List.{All};
ghost use Rattle.ca_plane.specs.Prelude.{IsWord, generation_limit, most_generations};
ghost use Rattle.ca_census.specs.Prelude.{FitsFile, IsFileable};
ghost use Rattle.ca_census_files.specs.Names.{object_name, settled_name, claims_file};
ghost use Rattle.ca_census_files.specs.Files.{IsPatternFile, AreObjectFiles, AreCensusFiles, files_text, HasNoFiles};
ghost use Rattle.ca_census_files.specs.inner.Unwritten.{IsUnwritable, IsUnwritten};
ghost use Rattle.ca_census_files.specs.declared.files.FilesFault.TheVariants as faults;

use crate::claims_text::claims_text;
use crate::folder::NewFile;
use crate::names::{claims_file, object_name, settled_name};
use crate::pattern_file::pattern_file;
use ca_census::{Census, CensusObject, Origin};
use ca_plane::limits::GENERATION_LIMIT;
use ca_plane::{Memory, Plane};
use std::alloc::Global;

/// Into which folder the files of a census are to be written, and which rule files their claim text names.
#[derive(Clone, Copy)]
pub struct FilesTask<'a> {
    /// The path of the folder, as the claim text names it.
    pub folder: &'a [u8],
    /// The paths of the rule files.
    pub rules: &'a [Vec<u8>],
}

/// Why there are no files of a census: the first of these that holds, but that `Memory` may come before any other.
#[derive(Clone, Copy, Debug, PartialEq, Eq)]
pub enum FilesFault {
    /// The generation of the settled plane is more than 2^63 - 1, the greatest that a file may name.
    GenTooLarge,
    /// A cell is live where no file may have one.
    Range,
    /// An allocation failed.
    Memory,
}

/// The files of the census of a pattern file of this path, which has this name in the text: one of each object, one of
/// the settled plane, and last a claim text that says what each object is, and what the file's pattern becomes.
///
/// # Errors
///
/// Fails where a file can't have the generation, or the cells, or where there is no memory for them.
pub fn files_of_census(
    alloc: Global,
    task: FilesTask<'_>,
    start: u64,
    name: &[u8],
    path: &[u8],
    origin: &Origin,
    census: &Census,
) -> Result<Vec<NewFile>, FilesFault>
    requires fileable { IsFileable origin.now census.now }
    requires few { start + census.now.generations ≤ most_generations }
    ensures files { IfOk result (λ files. AreCensusFiles task.entry.folder.now task.entry.rules.now start name.now path.now origin.now census.now files.items) }
    ensures none { IfErr result (HasNoFiles start origin.now census.now) }
{
    let later = start + census.generations;
    let Some(generation) = later_generation(origin.generation, later) else {
        return Err(FilesFault::GenTooLarge);
    };
    let mut files = object_files(alloc, name, origin, generation, &census.objects)?;
    let settled = settled_file(alloc, name, origin, generation, &census.plane)?;
    let Ok(claims) = claims_of(alloc, task, name, path, later, &census.objects) else {
        return Err(FilesFault::Memory);
    };
    put(&mut files, settled)?;
    put(&mut files, claims)?;
    Ok(files)
}

// The generation of the settled plane, if a file may have it.
fn later_generation(generation: u64, later: u64) -> Option<u64>
    requires generation { generation < generation_limit }
    requires later { later ≤ most_generations }
    ensures some { IfSome result (λ sum. (sum ≡ generation + later) × (sum < generation_limit)) }
    ensures none { IsNone result → generation_limit ≤ generation + later }
{
    let sum = generation + later;
    if sum < GENERATION_LIMIT {
        Some(sum)
    } else {
        None
    }
}

// Puts a file after the others.
fn put(files: &mut Vec<NewFile>, file: NewFile) -> Result<(), FilesFault>
    ensures put { OnOk result (files.new.items ≡ files.old.items ++ file ∷ []) }
    ensures memory { IfErr result (λ fault. fault ≡ faults.Memory) }
{
    match files.push(file) {
        Ok(()) => Ok(()),
        Err(_) => Err(FilesFault::Memory),
    }
}

// The files of all objects.
fn object_files(
    alloc: Global,
    name: &[u8],
    origin: &Origin,
    generation: u64,
    objects: &[CensusObject],
) -> Result<Vec<NewFile>, FilesFault>
    requires word { IsWord origin.now.rule_text.items }
    requires generation { generation < generation_limit }
    requires fits { All (λ o. FitsFile origin.now.states o.plane) objects.now }
    ensures files { IfOk result (λ files. AreObjectFiles name.now 1 objects.now origin.now generation files.items) }
    ensures none { IfErr result (IsUnwritten (map (λ o. o.plane) objects.now)) }
{
    let mut files = Vec::new(alloc);
    let mut number = 0;
    'objects: for object in objects {
        number += 1;
        let file = object_file(alloc, name, number, origin, generation, object)?;
        put(&mut files, file)?;
    }
    Ok(files)
}

// The file of the object with this number.
fn object_file(
    alloc: Global,
    name: &[u8],
    number: u64,
    origin: &Origin,
    generation: u64,
    object: &CensusObject,
) -> Result<NewFile, FilesFault>
    requires word { IsWord origin.now.rule_text.items }
    requires generation { generation < generation_limit }
    requires fits { FitsFile origin.now.states object.now.plane }
    ensures file { IfOk result (IsPatternFile (object_name name.now number) object.now.plane origin.now generation) }
    ensures none { IfErr result (IsUnwritable object.now.plane) }
{
    let Ok(own) = object_name(alloc, name, number) else {
        return Err(FilesFault::Memory);
    };
    pattern_file(alloc, &own, &object.plane, origin, generation)
}

// The file of the settled plane.
fn settled_file(
    alloc: Global,
    name: &[u8],
    origin: &Origin,
    generation: u64,
    plane: &Plane,
) -> Result<NewFile, FilesFault>
    requires word { IsWord origin.now.rule_text.items }
    requires generation { generation < generation_limit }
    requires fits { FitsFile origin.now.states plane.now }
    ensures file { IfOk result (IsPatternFile (settled_name name.now) plane.now origin.now generation) }
    ensures none { IfErr result (IsUnwritable plane.now) }
{
    let Ok(own) = settled_name(alloc, name) else {
        return Err(FilesFault::Memory);
    };
    pattern_file(alloc, &own, plane, origin, generation)
}

// The claim text, where the file's pattern settles after so many generations.
fn claims_of(
    alloc: Global,
    task: FilesTask<'_>,
    name: &[u8],
    path: &[u8],
    generations: u64,
    objects: &[CensusObject],
) -> Result<NewFile, Memory>
    ensures name { IfOk result (λ file. file.name.items ≡ claims_file name.now) }
    ensures text { IfOk result (λ file. file.bytes.items ≡ files_text task.entry.folder.now task.entry.rules.now name.now path.now generations objects.now) }
{
    let bytes = claims_text(alloc, task, name, path, generations, objects)?;
    let name = claims_file(alloc, name)?;
    Ok(NewFile { name, bytes })
}
