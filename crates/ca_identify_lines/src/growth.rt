//! How far a plane has grown of which no claim is true within a limit.

ghost use Rattle.std.specs.Prelude.{◌≡◌, OnOk};
ghost use Rattle.ca_plane.specs.Prelude.{Puts};
ghost use Rattle.ca_identify_lines.specs.Catalog.{cells_word, growth_text, none_text};

use ca_answers::Growth;
use ca_plane::Memory;
use ca_plane::text::push_text;
use ca_report::{generations_word, push_counted, push_side};
use itoa::Buffer;

/// Puts that no claim is true within the limit, and how far the plane has grown by the last generation.
///
/// # Errors
///
/// Fails where there is no memory for it.
pub(crate) fn push_none(
    out: &mut Vec<u8>,
    limit: u64,
    last: u64,
    growth: Growth,
) -> Result<(), Memory>
    ensures { OnOk result (Puts out.old.items out.new.items (none_text limit last growth)) }
{
    push_counted(out, b"none of these within ", limit)?;
    push_text(out, generations_word(limit))?;
    push_text(out, b": ")?;
    push_growth(out, growth)?;
    push_counted(out, b", after ", last)
}

// Puts how many cells are live, and the width and height of the box round them.
fn push_growth(out: &mut Vec<u8>, growth: Growth) -> Result<(), Memory>
    ensures { OnOk result (Puts out.old.items out.new.items (growth_text growth)) }
{
    let bounds = growth.bounds;
    let mut digits = Buffer::new();
    push_text(out, digits.format(growth.cells).as_bytes())?;
    push_text(out, cells_word(growth.cells))?;
    push_text(out, b", in a box of ")?;
    push_side(out, bounds.x0, bounds.x1)?;
    push_text(out, b" by ")?;
    push_side(out, bounds.y0, bounds.y1)
}

fn cells_word<'a>(cells: u128) -> &'a [u8]
    ensures { result.now ≡ cells_word cells }
{
    if cells == 1 {
        return b" cell";
    }
    b" cells"
}
