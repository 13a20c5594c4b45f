//! The writer of extended RLE: one tidy text for a plane.

ghost use Rattle.std.specs.Prelude.{◌≡◌, ℕ, ◌<◌, List, OnOk, IfOk, IsErrOf};
ghost use Rattle.std.specs.Io.KnownBytes.{Appends};
ghost use Rattle.ca_plane.specs.Prelude.{Rises, AppendsPrefix, IsWord};
ghost use Rattle.ca_rle.specs.declared.item.Item.{Item};
ghost use Rattle.ca_rle.specs.Items.{Items};
ghost use Rattle.ca_rle.specs.Judged.{IsRleText};
ghost use Rattle.ca_rle.specs.Shown.{picture_of_items};
ghost use Rattle.ca_rle.specs.Pattern.{IsWritableRle, IsWrittenRle};
ghost use Rattle.ca_rle.specs.Tidy.{IsTidyRle};

use crate::rle_text::RleText;
use ca_plane::{Dev, Memory, Plane, WriteFault, send};
use std::alloc::Global;
use std::io::Write;

mod again;
mod frame;
mod head;
mod layout;
mod runs;

/// The one tidy text of the plane, with its rule text, its generation count, and its rule's number of states.
///
/// The first line is `#CXRLE Pos=X,Y`, the upper left corner of the smallest box round the live cells, with
/// ` Gen=G` after it where the generation isn't 0. The second is `x = W, y = H, rule = R`, the size of that
/// box. For the empty plane the corner is 0,0 and the size 0 by 0. Then come the items and `!`, in lines of
/// at most 70 characters, none of which is ended earlier than it has to be: `b` and `o` where there are two
/// states, else `.` and letters; no count of 1, no dead cells at the end of a row, no row end after the last
/// row, and no two items side by side that could be one. Each line ends with LF.
///
/// The text's list of cells is the plane's own, so the reader takes it where the plane has at most 16777216
/// live cells, and refuses that of any other.
///
/// # Errors
///
/// Fails where there is no memory for the text.
pub fn write_rle(
    alloc: Global,
    cells: &Plane,
    rule_text: &[u8],
    generation: u64,
    states: u16,
) -> Result<Vec<u8>, Memory>
    requires { IsWritableRle cells.now rule_text.now generation states }
    ensures { IfOk result (λ text. IsWrittenRle text.items cells.now rule_text.now generation states) }
{
    let frame = frame::of(cells.bounds());
    let mut text = Vec::new(alloc);
    head::push_corner_line(&mut text, frame.corner, generation)?;
    head::push_header_line(&mut text, frame.width, frame.height, rule_text)?;
    let items = runs::items(alloc, cells, frame.corner)?;
    layout::push_items(&mut text, states, &items)?;
    Ok(text)
}

/// The same text of the cells of a text that was judged, under another rule text and number of states. It
/// takes memory for the new text alone.
///
/// # Errors
///
/// Fails where there is no memory for the new text.
pub fn rewrite_rle(
    alloc: Global,
    text: RleText<'_>,
    rule_text: &[u8],
    states: u16,
) -> Result<Vec<u8>, Memory>
    requires text { (bytes : List ℕ) × IsRleText bytes text }
    requires low_states { text.greatest < states }
    requires is_word { IsWord rule_text.now }
    ensures { IfOk result (λ written. (items : List Item) → Items text.entry.body.now items
        → IsWrittenRle written.items (picture_of_items text.entry.corner items) rule_text.now
        text.entry.generation states) }
{
    let frame = frame::of(text.bounds);
    let mut written = Vec::new(alloc);
    head::push_corner_line(&mut written, frame.corner, text.generation)?;
    head::push_header_line(&mut written, frame.width, frame.height, rule_text)?;
    again::push_items_of(&mut written, states, frame.corner, text)?;
    Ok(written)
}

/// Writes that text. The whole text is made before its first byte is written.
///
/// # Errors
///
/// `Memory` where there is no memory for the text: nothing was written. `Write` where a write failed: some
/// first part of the text was written, but not all.
pub fn write_rle_to<W: Write>(
    alloc: Global,
    cells: &Plane,
    rule_text: &[u8],
    generation: u64,
    states: u16,
    out: &mut Dev<W>,
) -> Result<(), WriteFault>
    requires { IsWritableRle cells.now rule_text.now generation states }
    // The text that `write_rle` gives is written whole.
    ensures all { OnOk result ((text : List ℕ) × IsWrittenRle text cells.now rule_text.now generation states
        × Appends (W.contents out.old.inner) (W.contents out.new.inner) text) }
    // No failure is counted.
    ensures kept { OnOk result (out.new.failures ≡ out.old.failures) }
    // Without memory the device is as it was.
    ensures memory { IsErrOf result WriteFault.Memory → out.new ≡ out.old }
    // A write failed after some first part of the tidy text, which isn't the whole.
    ensures front { IsErrOf result WriteFault.Write → (text : List ℕ)
        × IsTidyRle text cells.now rule_text.now generation states
        × AppendsPrefix (W.contents out.old.inner) (W.contents out.new.inner) text }
    ensures counted { IsErrOf result WriteFault.Write → Rises out.old.failures out.new.failures }
{
    let Ok(text) = write_rle(alloc, cells, rule_text, generation, states) else {
        return Err(WriteFault::Memory);
    };
    send(out, &text)
}
