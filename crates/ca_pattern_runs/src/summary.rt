//! What is shown of a pattern.

ghost use Rattle.std.specs.Prelude.{◌≡◌, codes, OnOk, IfOk};
ghost use Rattle.ca_plane.specs.Prelude.{Puts};
ghost use Rattle.ca_pattern_runs.specs.Shown.{pair_text, bounds_text, box_text, word_line, summary_text};
ghost use Rattle.ca_report.specs.Prelude.{side_length};

use ca_pattern::Summary;
use ca_plane::text::{push_integer, push_text};
use ca_plane::{Bounds, Memory};
use ca_report::push_side;
use itoa::Buffer;
use std::alloc::Global;

/// The five lines that are shown of a pattern.
pub(crate) fn summary_lines(alloc: Global, summary: &Summary) -> Result<Vec<u8>, Memory>
    ensures { IfOk result (λ text. text.items ≡ summary_text summary.now) }
{
    let mut text = Vec::new(alloc);
    push_summary(&mut text, summary)?;
    Ok(text)
}

fn push_summary(out: &mut Vec<u8>, summary: &Summary) -> Result<(), Memory>
    ensures { OnOk result (Puts out.old.items out.new.items (summary_text summary.now)) }
{
    let mut generation = Buffer::new();
    let mut cells = Buffer::new();
    push_word_line(out, b"format", summary.kind.name())?;
    push_word_line(out, b"rule", &summary.rule_text)?;
    push_word_line(
        out,
        b"gen",
        generation.format(summary.generation).as_bytes(),
    )?;
    push_word_line(out, b"cells", cells.format(summary.cells).as_bytes())?;
    push_box_line(out, summary.bounds)
}

fn push_word_line(out: &mut Vec<u8>, word: &[u8], text: &[u8]) -> Result<(), Memory>
    ensures { OnOk result (Puts out.old.items out.new.items (word_line word.now text.now)) }
{
    push_text(out, word)?;
    push_text(out, b" ")?;
    push_text(out, text)?;
    push_text(out, b"\n")
}

fn push_box_line(out: &mut Vec<u8>, bounds: Option<Bounds>) -> Result<(), Memory>
    ensures { OnOk result (Puts out.old.items out.new.items (word_line (codes "box") (box_text bounds))) }
{
    push_text(out, b"box ")?;
    push_box(out, bounds)?;
    push_text(out, b"\n")
}

fn push_box(out: &mut Vec<u8>, bounds: Option<Bounds>) -> Result<(), Memory>
    ensures { OnOk result (Puts out.old.items out.new.items (box_text bounds)) }
{
    match bounds {
        Some(bounds) => push_bounds(out, bounds),
        None => push_text(out, b"none"),
    }
}

fn push_bounds(out: &mut Vec<u8>, bounds: Bounds) -> Result<(), Memory>
    ensures { OnOk result (Puts out.old.items out.new.items (bounds_text bounds)) }
{
    push_corner(out, bounds)?;
    push_text(out, b" ")?;
    push_sides(out, bounds)
}

fn push_corner(out: &mut Vec<u8>, bounds: Bounds) -> Result<(), Memory>
    ensures { OnOk result (Puts out.old.items out.new.items (pair_text bounds.x0 bounds.y0)) }
{
    push_integer(out, bounds.x0)?;
    push_text(out, b" ")?;
    push_integer(out, bounds.y0)
}

fn push_sides(out: &mut Vec<u8>, bounds: Bounds) -> Result<(), Memory>
    ensures { OnOk result (Puts out.old.items out.new.items
        (pair_text (side_length bounds.x0 bounds.x1) (side_length bounds.y0 bounds.y1))) }
{
    push_side(out, bounds.x0, bounds.x1)?;
    push_text(out, b" ")?;
    push_side(out, bounds.y0, bounds.y1)
}
