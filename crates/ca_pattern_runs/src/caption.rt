//! The caption of a picture.

ghost use Rattle.std.specs.Prelude.{◌≡◌, ◌^◌, ◌≤ℤ◌, ◌<ℤ◌, pos, neg_ℤ, IfSome, IfOk, OnOk};
ghost use Rattle.std.specs.Fmt.{signed_decimal};
ghost use Rattle.ca_plane.specs.Prelude.{Puts};
ghost use Rattle.ca_draw.specs.Prelude.{IsBox, IsTreeBox};
ghost use Rattle.ca_pattern_runs.specs.Shown.{pair_text};
ghost use Rattle.ca_report.specs.Prelude.{side_length};
ghost use Rattle.ca_pattern_runs.specs.Captions.{wide_bounds_text, wide_box_text, caption_text};

use ca_plane::Memory;
use ca_plane::text::push_text;
use ca_quad::WideBounds;
use ca_report::push_counted;
use itoa::Buffer;
use std::alloc::Global;

/// The line that tells the box of the live cells, if there are any, the scale and the generation.
///
/// # Errors
///
/// Fails where there is no memory for it.
pub(crate) fn caption(
    alloc: Global,
    bounds: Option<WideBounds>,
    scale: u8,
    generation: u64,
) -> Result<Vec<u8>, Memory>
    requires { IfSome bounds (λ box. IsBox box × IsTreeBox box) }
    ensures { IfOk result (λ text. text.items ≡ caption_text bounds scale generation) }
{
    let mut text = Vec::new(alloc);
    push_caption(&mut text, bounds, scale, generation)?;
    Ok(text)
}

fn push_caption(
    out: &mut Vec<u8>,
    bounds: Option<WideBounds>,
    scale: u8,
    generation: u64,
) -> Result<(), Memory>
    requires { IfSome bounds (λ box. IsBox box × IsTreeBox box) }
    ensures { OnOk result (Puts out.old.items out.new.items (caption_text bounds scale generation)) }
{
    push_text(out, b"box ")?;
    push_box(out, bounds)?;
    push_counted(out, b", scale ", u64::from(scale))?;
    push_counted(out, b", gen ", generation)?;
    push_text(out, b"\n")
}

fn push_box(out: &mut Vec<u8>, bounds: Option<WideBounds>) -> Result<(), Memory>
    requires { IfSome bounds (λ box. IsBox box × IsTreeBox box) }
    ensures { OnOk result (Puts out.old.items out.new.items (wide_box_text bounds)) }
{
    match bounds {
        Some(bounds) => push_bounds(out, bounds),
        None => push_text(out, b"none"),
    }
}

fn push_bounds(out: &mut Vec<u8>, bounds: WideBounds) -> Result<(), Memory>
    requires cells { IsBox bounds }
    requires reach { IsTreeBox bounds }
    ensures { OnOk result (Puts out.old.items out.new.items (wide_bounds_text bounds)) }
{
    push_corner(out, bounds)?;
    push_text(out, b" ")?;
    push_sides(out, bounds)
}

fn push_corner(out: &mut Vec<u8>, bounds: WideBounds) -> Result<(), Memory>
    ensures { OnOk result (Puts out.old.items out.new.items (pair_text bounds.x0 bounds.y0)) }
{
    push_wide(out, bounds.x0)?;
    push_text(out, b" ")?;
    push_wide(out, bounds.y0)
}

fn push_wide(out: &mut Vec<u8>, number: i128) -> Result<(), Memory>
    ensures { OnOk result (Puts out.old.items out.new.items (signed_decimal number)) }
{
    let mut buffer = Buffer::new();
    push_text(out, buffer.format(number).as_bytes())
}

fn push_sides(out: &mut Vec<u8>, bounds: WideBounds) -> Result<(), Memory>
    requires cells { IsBox bounds }
    requires reach { IsTreeBox bounds }
    ensures { OnOk result (Puts out.old.items out.new.items
        (pair_text (side_length bounds.x0 bounds.x1) (side_length bounds.y0 bounds.y1))) }
{
    push_side(out, bounds.x0, bounds.x1)?;
    push_text(out, b" ")?;
    push_side(out, bounds.y0, bounds.y1)
}

// Puts how long the side of a box is that goes from the first coordinate to the last.
fn push_side(out: &mut Vec<u8>, first: i128, last: i128) -> Result<(), Memory>
    requires order { first ≤ℤ last }
    requires first { neg_ℤ (pos (2 ^ 124)) ≤ℤ first }
    requires last { last <ℤ pos (2 ^ 124) }
    ensures { OnOk result (Puts out.old.items out.new.items (signed_decimal (side_length first last))) }
{
    let mut buffer = Buffer::new();
    let length = last - first + 1;
    push_text(out, buffer.format(length).as_bytes())
}
