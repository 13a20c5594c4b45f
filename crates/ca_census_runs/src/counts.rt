//! How often objects have the same label.

ghost use Rattle.std.specs.Prelude.{◌≡◌, IfOk, OnOk, List, ℕ, map, unwrap_or};
ghost use Rattle.std.specs.List.{flat_map};
ghost use Rattle.std.specs.Map.{lookup};
ghost use Rattle.std.specs.Str.{bytes_eq};
ghost use Rattle.ca_plane.specs.Prelude.{Puts};
ghost use Rattle.ca_census_runs.specs.Counts.{IsTally, AreCounts, count_line};
ghost use Rattle.ca_census_runs.specs.Objects.{label};
ghost use Rattle.ca_census_runs.specs.inner.Entries.{counts_of};

use crate::objects::label;
use ca_census::CensusObject;
use ca_plane::Memory;
use ca_plane::text::{push_number, push_text};
use indexmap::IndexMap;
use std::alloc::Global;

// How many objects have this label.
fn number_of(counts: &IndexMap<Vec<u8>, u64>, label: &[u8]) -> u64
    ensures { result ≡ unwrap_or (lookup (bytes_eq label.now) (counts_of counts.now.entries)) 0 }
{
    match counts.get(label) {
        Some(number) => *number,
        None => 0,
    }
}

// How many objects have each label.
fn tally(alloc: Global, objects: &[CensusObject]) -> Result<IndexMap<Vec<u8>, u64>, Memory>
    ensures { IfOk result (λ counts. IsTally (map label objects.now) (counts_of counts.entries)) }
{
    let mut counts = IndexMap::new(alloc);
    'objects: for object in objects {
        let label = label(alloc, object)?;
        let number = number_of(&counts, &label);
        counts.insert(label, number + 1)?;
    }
    Ok(counts)
}

// How many objects have each label, the most frequent first.
fn sorted_tally(alloc: Global, objects: &[CensusObject]) -> Result<IndexMap<Vec<u8>, u64>, Memory>
    ensures { IfOk result (λ counts. AreCounts (map label objects.now) (counts_of counts.entries)) }
{
    let mut counts = tally(alloc, objects)?;
    counts.sort_by(|label, number, other, others| others.cmp(number).then(label.cmp(other)))?;
    Ok(counts)
}

// Puts the line of a label.
fn push_count(out: &mut Vec<u8>, label: &[u8], number: u64) -> Result<(), Memory>
    ensures { OnOk result (Puts out.old.items out.new.items (count_line (label.now, number))) }
{
    push_number(out, number)?;
    push_text(out, b" ")?;
    push_text(out, label)?;
    push_text(out, b"\n")
}

// Puts the lines of the labels.
fn push_tally(out: &mut Vec<u8>, counts: &IndexMap<Vec<u8>, u64>) -> Result<(), Memory>
    ensures { OnOk result (Puts out.old.items out.new.items
        (flat_map count_line (counts_of counts.now.entries))) }
{
    'counts: for (label, number) in counts {
        push_count(out, label, *number)?;
    }
    Ok(())
}

/// Puts a line for each label of these objects, with the number of objects that have it, the most frequent first.
///
/// # Errors
///
/// Fails where there is no memory for them.
pub(crate) fn push_counts(
    alloc: Global,
    out: &mut Vec<u8>,
    objects: &[CensusObject],
) -> Result<(), Memory>
    ensures { OnOk result ((counts : List (List ℕ × ℕ)) × AreCounts (map label objects.now) counts
        × Puts out.old.items out.new.items (flat_map count_line counts)) }
{
    let counts = sorted_tally(alloc, objects)?;
    push_tally(out, &counts)
}
