//! The lines on the census of a file.

ghost use Rattle.std.specs.Prelude.{◌≡◌, ◌*◌, ◌≤◌, ◌^◌, List, ℕ, length, OnOk};
ghost use Rattle.ca_plane.specs.Prelude.{Puts};
ghost use Rattle.ca_census_runs.specs.Lines.{all_cells, objects_words, settled_line, unsettled_line, AreObjectLines, AreCensusLines};
ghost use Rattle.ca_census_runs.specs.Places.{ArePlaced, IsPlacedCensus};

use crate::counts::push_counts;
use crate::objects::push_size;
use crate::places::{push_objects, sort_by_place};
use crate::task::CensusTask;
use ca_census::{Census, CensusObject, Reach};
use ca_identify_lines::{objects_word, push_comment_head};
use ca_plane::Memory;
use ca_plane::text::{push_number, push_text};
use ca_report::{generations_word, push_counted};
use std::alloc::Global;

// How many cells all the objects have.
fn all_cells(objects: &[CensusObject]) -> u128
    ensures { result ≡ all_cells objects.now }
{
    let mut cells = 0;
    'objects: for object in objects {
        cells += u128::from(object.cells);
    }
    cells
}

// Puts how many objects there are, and how many cells they have.
fn push_numbers(out: &mut Vec<u8>, objects: &[CensusObject]) -> Result<(), Memory>
    ensures { OnOk result (Puts out.old.items out.new.items (objects_words objects.now)) }
{
    let count = objects.len() as u64;
    push_number(out, count)?;
    push_text(out, objects_word(count))?;
    push_text(out, b", ")?;
    push_size(out, all_cells(objects))
}

// Puts the first line on a file whose plane settles.
fn push_settled(out: &mut Vec<u8>, start: u64, name: &[u8], census: &Census) -> Result<(), Memory>
    ensures { OnOk result (Puts out.old.items out.new.items (settled_line start name.now census.now)) }
{
    push_comment_head(out, start, name)?;
    push_counted(out, b"settles after ", census.generations)?;
    push_text(out, generations_word(census.generations))?;
    push_text(out, b": ")?;
    push_numbers(out, &census.objects)?;
    push_text(out, b"\n")
}

/// Puts the line on a file whose plane isn't found to settle within the reach.
///
/// # Errors
///
/// Fails where there is no memory for it.
pub(crate) fn push_unsettled(out: &mut Vec<u8>, reach: Reach, name: &[u8]) -> Result<(), Memory>
    ensures { OnOk result (Puts out.old.items out.new.items (unsettled_line reach name.now)) }
{
    push_comment_head(out, reach.start, name)?;
    push_counted(out, b"not found to settle within ", reach.limit)?;
    push_text(out, generations_word(reach.limit))?;
    push_text(out, b"\n")
}

// Puts the lines on the objects: one for each, where they are listed, or else one for each label. It sorts them by the
// upper left corners of their boxes, row by row.
fn push_all(
    alloc: Global,
    out: &mut Vec<u8>,
    listed: bool,
    objects: &mut Vec<CensusObject>,
) -> Result<(), Memory>
    ensures lines { OnOk result ((lines : List ℕ) × AreObjectLines listed objects.old.items lines
        × Puts out.old.items out.new.items lines) }
    ensures sorted { OnOk result (ArePlaced objects.old.items objects.new.items) }
{
    if listed {
        sort_by_place(objects)?;
        return push_objects(out, objects);
    }
    push_counts(alloc, out, objects)?;
    sort_by_place(objects)
}

/// Puts the lines on the census of a file with this name after what `out` holds, and sorts its objects by the upper left
/// corners of their boxes, row by row.
///
/// # Errors
///
/// Fails where there is no memory for them.
pub fn push_census(
    alloc: Global,
    out: &mut Vec<u8>,
    task: CensusTask<'_>,
    name: &[u8],
    census: &mut Census,
) -> Result<(), Memory>
    ensures text { OnOk result ((text : List ℕ) × AreCensusLines task.entry name.now census.old text
        × Puts out.old.items out.new.items text) }
    ensures sorted { OnOk result (IsPlacedCensus census.old census.new) }
{
    push_settled(out, task.reach.start, name, census)?;
    push_all(alloc, out, task.listed, &mut census.objects)
}
