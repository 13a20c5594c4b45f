//! The two lines before the items.

ghost use Rattle.std.specs.Prelude.{◌++◌, codes, OnOk};
ghost use Rattle.std.specs.Fmt.{signed_decimal};
ghost use Rattle.ca_plane.specs.Prelude.{Puts};
ghost use Rattle.ca_rle.specs.File.{line_with_lf};
ghost use Rattle.ca_rle.specs.Tidy.{generation_text, corner_line, header_line};

use ca_plane::text::{push_integer, push_number, push_text};
use ca_plane::{Memory, Point};

fn push_generation(out: &mut Vec<u8>, generation: u64) -> Result<(), Memory>
    ensures { OnOk result (Puts out.old.items out.new.items (generation_text generation)) }
{
    if generation == 0 {
        return Ok(());
    }
    push_text(out, b" Gen=")?;
    push_number(out, generation)
}

fn push_position(out: &mut Vec<u8>, at: Point) -> Result<(), Memory>
    ensures { OnOk result (Puts out.old.items out.new.items
        (signed_decimal at.x ++ (codes "," ++ signed_decimal at.y))) }
{
    push_integer(out, at.x)?;
    push_text(out, b",")?;
    push_integer(out, at.y)
}

/// Puts the first line after the others: the corner, and the generation where it isn't 0.
pub(super) fn push_corner_line(
    out: &mut Vec<u8>,
    corner: Point,
    generation: u64,
) -> Result<(), Memory>
    ensures { OnOk result (Puts out.old.items out.new.items (line_with_lf (corner_line corner generation))) }
{
    push_text(out, b"#CXRLE Pos=")?;
    push_position(out, corner)?;
    push_generation(out, generation)?;
    push_text(out, b"\n")
}

/// Puts the header after the others: the size and the rule text.
pub(super) fn push_header_line(
    out: &mut Vec<u8>,
    width: u64,
    height: u64,
    rule_text: &[u8],
) -> Result<(), Memory>
    ensures { OnOk result (Puts out.old.items out.new.items
        (line_with_lf (header_line width height rule_text.now))) }
{
    push_text(out, b"x = ")?;
    push_number(out, width)?;
    push_text(out, b", y = ")?;
    push_number(out, height)?;
    push_text(out, b", rule = ")?;
    push_text(out, rule_text)?;
    push_text(out, b"\n")
}
