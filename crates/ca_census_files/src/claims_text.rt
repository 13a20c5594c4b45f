//! The claim text over the files of a census.

ghost use Rattle.std.specs.Prelude.{◌≡◌, IfOk, OnOk};
ghost use Rattle.ca_plane.specs.Prelude.{Puts};
ghost use Rattle.ca_identify_lines.specs.Prelude.{load_line, code_lines};
ghost use Rattle.ca_census_files.specs.Names.{object_name};
ghost use Rattle.ca_census_files.specs.Files.{pattern_load_line, becomes_lines, object_claim_lines, all_object_claims, files_text};

use crate::files::FilesTask;
use crate::names::{file_path, object_name, rle_file, settled_name};
use ca_census::CensusObject;
use ca_identify_lines::{push_claim, push_code, push_load, rules_text};
use ca_plane::Memory;
use ca_plane::text::push_text;
use ca_text::Kind;
use std::alloc::Global;

// Puts the line that gives a name to the file of this name's pattern in the folder.
fn push_file(alloc: Global, out: &mut Vec<u8>, folder: &[u8], name: &[u8]) -> Result<(), Memory>
    ensures { OnOk result (Puts out.old.items out.new.items (pattern_load_line folder.now name.now)) }
{
    let file = rle_file(alloc, name)?;
    let path = file_path(alloc, folder, &file)?;
    push_load(out, name, &path)
}

// Puts the comment with the code of an object, where it has one.
fn push_codes(out: &mut Vec<u8>, name: &[u8], code: &Option<Vec<u8>>) -> Result<(), Memory>
    ensures { OnOk result (Puts out.old.items out.new.items (code_lines 0 name.now code.now)) }
{
    match code {
        Some(code) => push_code(out, 0, name, code),
        None => Ok(()),
    }
}

// Puts the lines on the object with this number.
fn push_object_claim(
    alloc: Global,
    out: &mut Vec<u8>,
    folder: &[u8],
    name: &[u8],
    number: u64,
    object: &CensusObject,
) -> Result<(), Memory>
    ensures { OnOk result (Puts out.old.items out.new.items
        (object_claim_lines folder.now (object_name name.now number) object.now)) }
{
    let own = object_name(alloc, name, number)?;
    push_file(alloc, out, folder, &own)?;
    push_claim(out, &own, &own, object.kind)?;
    push_codes(out, &own, &object.code)
}

// Puts the lines on all objects.
fn push_object_claims(
    alloc: Global,
    out: &mut Vec<u8>,
    folder: &[u8],
    name: &[u8],
    objects: &[CensusObject],
) -> Result<(), Memory>
    ensures { OnOk result (Puts out.old.items out.new.items (all_object_claims folder.now name.now 1 objects.now)) }
{
    let mut number = 0;
    'objects: for object in objects {
        number += 1;
        push_object_claim(alloc, out, folder, name, number, object)?;
    }
    Ok(())
}

// Puts the lines on the settled plane: the file's pattern becomes that.
fn push_becomes(
    alloc: Global,
    out: &mut Vec<u8>,
    folder: &[u8],
    name: &[u8],
    path: &[u8],
    generations: u64,
) -> Result<(), Memory>
    ensures { OnOk result (Puts out.old.items out.new.items
        (becomes_lines folder.now name.now path.now generations)) }
{
    let settled = settled_name(alloc, name)?;
    push_load(out, name, path)?;
    push_file(alloc, out, folder, &settled)?;
    push_claim(out, name, &settled, Kind::Becomes { generations })
}

/// The claim text over the files of a census: what the file of this path becomes after so many generations, and what each
/// object is.
///
/// # Errors
///
/// Fails where there is no memory for it.
pub(crate) fn claims_text(
    alloc: Global,
    task: FilesTask<'_>,
    name: &[u8],
    path: &[u8],
    generations: u64,
    objects: &[CensusObject],
) -> Result<Vec<u8>, Memory>
    ensures { IfOk result (λ text. text.items ≡ files_text task.entry.folder.now task.entry.rules.now name.now path.now generations objects.now) }
{
    let rules = rules_text(alloc, task.rules)?;
    let mut out = Vec::new(alloc);
    push_text(&mut out, b"claims 2\n")?;
    push_text(&mut out, &rules)?;
    push_becomes(alloc, &mut out, task.folder, name, path, generations)?;
    push_object_claims(alloc, &mut out, task.folder, name, objects)?;
    Ok(out)
}
