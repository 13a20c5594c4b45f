//! Paths that are looked for in a folder, and those that may lead out of it.

ghost use Rattle.std.specs.Prelude.{◌≡◌, true, false, IfOk, OnOk, OnErr, MatchOption};
ghost use Rattle.ca_plane.specs.Prelude.{Puts};
ghost use Rattle.ca_report.specs.Outside.{is_absolute, begins_with_parent, has_later_parent, lies_outside, path_in};

use crate::in_pieces;
use crate::pieces::push_pieces;
use ca_plane::Memory;
use std::alloc::Global;

// Whether a path begins with a slash.
fn is_absolute(path: &[u8]) -> bool
    ensures { result ≡ is_absolute path.now }
{
    match path.split_first() {
        Some((first, _)) => *first == b'/',
        None => false,
    }
}

// Whether the first part of a path is `..`.
fn begins_with_parent(path: &[u8]) -> bool
    ensures { result ≡ begins_with_parent path.now }
{
    path == b"..".as_slice() || path.starts_with(b"../")
}

// Whether a later part of a path is `..`.
fn has_later_parent(path: &[u8]) -> bool
    ensures { result ≡ has_later_parent path.now }
{
    let mut left = path;
    'bytes: while let Some((first, later)) = left.split_first() {
        if *first == b'/' && begins_with_parent(later) {
            return true;
        }
        left = later;
    }
    false
}

/// Whether a path may lead out of the folder in which it is looked for: it is absolute, or one of its parts is `..`.
/// That says nothing of links in the folder.
pub fn lies_outside(path: &[u8]) -> bool
    ensures { result ≡ lies_outside path.now }
{
    is_absolute(path) || begins_with_parent(path) || has_later_parent(path)
}

/// The path at which the file of a path is looked for in a folder, `FOLDER/PATH`. None where the path may lead out
/// of the folder.
///
/// # Errors
///
/// Fails where there is no memory for the path.
pub fn path_in(alloc: Global, folder: &[u8], path: &[u8]) -> Result<Option<Vec<u8>>, Memory>
    ensures path { IfOk result (λ found. MatchOption found (lies_outside path.now ≡ true)
        (λ place. (lies_outside path.now ≡ false) × (place.items ≡ path_in folder.now path.now))) }
    ensures memory { OnErr result (lies_outside path.now ≡ false) }
{
    if lies_outside(path) {
        return Ok(None);
    }
    let mut place = Vec::new(alloc);
    push_place(&mut place, folder, path)?;
    Ok(Some(place))
}

fn push_place<'a>(out: &mut Vec<u8>, folder: &'a [u8], path: &'a [u8]) -> Result<(), Memory>
    ensures { OnOk result (Puts out.old.items out.new.items (path_in folder.now path.now)) }
{
    push_pieces(out, &in_pieces![text folder, text b"/", text path])
}
