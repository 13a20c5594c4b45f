//! The names of the files of a census, and of their patterns in its claim text.

ghost use Rattle.std.specs.Prelude.{◌≡◌, ◌++◌, IfOk};
ghost use Rattle.ca_census_files.specs.Names.{object_name, settled_name, rle_file, claims_file};
ghost use Rattle.ca_report.specs.Outside.{path_in};

use ca_plane::Memory;
use ca_plane::text::{push_number, push_text};
use std::alloc::Global;

/// The name of the object with this number, as `r_pentomino-1`.
///
/// # Errors
///
/// Fails where there is no memory for it.
pub(crate) fn object_name(alloc: Global, name: &[u8], number: u64) -> Result<Vec<u8>, Memory>
    ensures { IfOk result (λ text. text.items ≡ object_name name.now number) }
{
    let mut text = Vec::from_slice(alloc, name)?;
    push_text(&mut text, b"-")?;
    push_number(&mut text, number)?;
    Ok(text)
}

/// The name of the settled plane, as `r_pentomino-settled`.
///
/// # Errors
///
/// Fails where there is no memory for it.
pub(crate) fn settled_name(alloc: Global, name: &[u8]) -> Result<Vec<u8>, Memory>
    ensures { IfOk result (λ text. text.items ≡ settled_name name.now) }
{
    joined(alloc, name, b"-settled")
}

/// The name of the file of the pattern with this name.
///
/// # Errors
///
/// Fails where there is no memory for it.
pub(crate) fn rle_file(alloc: Global, name: &[u8]) -> Result<Vec<u8>, Memory>
    ensures { IfOk result (λ text. text.items ≡ rle_file name.now) }
{
    joined(alloc, name, b".rle")
}

/// The name of the claim text on the pattern with this name.
///
/// # Errors
///
/// Fails where there is no memory for it.
pub(crate) fn claims_file(alloc: Global, name: &[u8]) -> Result<Vec<u8>, Memory>
    ensures { IfOk result (λ text. text.items ≡ claims_file name.now) }
{
    joined(alloc, name, b".claims")
}

/// The path of the file with this name in a folder.
///
/// # Errors
///
/// Fails where there is no memory for it.
pub(crate) fn file_path(alloc: Global, folder: &[u8], file: &[u8]) -> Result<Vec<u8>, Memory>
    ensures { IfOk result (λ text. text.items ≡ path_in folder.now file.now) }
{
    let mut text = Vec::from_slice(alloc, folder)?;
    push_text(&mut text, b"/")?;
    push_text(&mut text, file)?;
    Ok(text)
}

// Two texts, one after the other.
fn joined(alloc: Global, front: &[u8], back: &[u8]) -> Result<Vec<u8>, Memory>
    ensures { IfOk result (λ text. text.items ≡ front.now ++ back.now) }
{
    let mut text = Vec::from_slice(alloc, front)?;
    push_text(&mut text, back)?;
    Ok(text)
}
