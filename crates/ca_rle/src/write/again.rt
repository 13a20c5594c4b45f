//! The tidy items of a text, run by run, without a list of cells or of items.

ghost use Rattle.std.specs.Prelude.{◌≡◌, ◌≢◌, ℕ, ◌≤◌, ◌≤ℤ◌, List, OnOk, IfOk};
ghost use Rattle.ca_plane.specs.Prelude.{IsInRange};
ghost use Rattle.ca_rle.specs.declared.item.Item.{Item};
ghost use Rattle.ca_rle.specs.declared.item.Tag.TheVariants.{Cell};
ghost use Rattle.ca_rle.specs.Items.{Items};
ghost use Rattle.ca_rle.specs.Judged.{IsRleText};
ghost use Rattle.ca_rle.specs.Shown.{tag_state, picture_of_items};
ghost use Rattle.ca_rle.specs.inner.Extent.{point_from, HasRoomRight, cells_from};
ghost use Rattle.ca_rle.specs.inner.Written.{some_of};
ghost use Rattle.ca_rle.specs.inner.RunByRun.{AddsCells, AddsRun, ComesAfter, IsCorner, Lays, LaysGap, LaysRun};
ghost use Rattle.ca_rle.specs.inner.RunByRun.{EndsAfter, PutsItemsOf};

use super::frame::distance;
use super::layout::{place_end, place_item};
use super::runs::Run;
use crate::drawing::good_item;
use crate::extent::Offset;
use crate::item::{Item, Tag};
use crate::rle_text::RleText;
use ca_plane::text::push_text;
use ca_plane::{Memory, Point};

/// How far the items are written: all but the last run, and how many characters the last line has.
#[derive(Clone, Copy)]
struct Pending {
    run: Run,
    filled: usize,
}

/// Puts `count` of a tag as one item, and nothing where `count` is 0.
fn place_some(
    out: &mut Vec<u8>,
    states: u16,
    tag: Tag,
    count: u64,
    filled: usize,
) -> Result<usize, Memory>
    requires { filled ≤ 70 }
    ensures { IfOk result (Lays states out.old.items filled (some_of tag count) out.new.items) }
{
    if count == 0 {
        return Ok(filled);
    }
    place_item(out, states, Item { count, tag }, filled)
}

/// Puts what leads from one place to a later one: row ends, and then dead cells.
fn place_gap(
    out: &mut Vec<u8>,
    states: u16,
    left: i64,
    from: Point,
    to: Point,
    filled: usize,
) -> Result<usize, Memory>
    requires filled { filled ≤ 70 }
    requires below { from.y ≤ℤ to.y }
    requires right { to.y ≡ from.y → from.x ≤ℤ to.x }
    requires left { left ≤ℤ to.x }
    ensures { IfOk result (LaysGap states left from to out.old.items filled out.new.items) }
{
    let rows = distance(from.y, to.y);
    if rows == 0 {
        return place_some(out, states, Tag::Cell(0), distance(from.x, to.x), filled);
    }
    let filled = place_some(out, states, Tag::RowEnd, rows, filled)?;
    place_some(out, states, Tag::Cell(0), distance(left, to.x), filled)
}

/// Puts a run, and nothing where it has no cell.
fn place_run(out: &mut Vec<u8>, states: u16, run: Run, filled: usize) -> Result<usize, Memory>
    requires filled { filled ≤ 70 }
    requires whole { run.from.x ≤ℤ run.past }
    ensures { IfOk result (LaysRun states run out.old.items filled out.new.items) }
{
    let Item { count, tag } = run.item();
    place_some(out, states, tag, count, filled)
}

/// Goes on to a later run: with the last one, or with what leads there.
fn place_next(
    out: &mut Vec<u8>,
    states: u16,
    corner: Point,
    pending: Pending,
    next: Run,
) -> Result<Pending, Memory>
    requires filled { pending.filled ≤ 70 }
    requires after { ComesAfter corner pending.run next.from }
    ensures cells { IfOk result (AddsRun states corner out.old.items pending next out.new.items) }
    ensures end { IfOk result (λ p. (p.run.from.y ≡ next.from.y) × (p.run.past ≡ next.past)) }
{
    let Pending { run, filled } = pending;
    if run.goes_on(next.from, next.state) {
        return Ok(Pending {
            run: Run {
                past: next.past,
                ..run
            },
            filled,
        });
    }
    let filled = place_run(out, states, run, filled)?;
    let filled = place_gap(out, states, corner.x, run.end(), next.from, filled)?;
    Ok(Pending { run: next, filled })
}

/// Goes on with the cells of an item that begins at an offset from where the text's first cell stands.
fn place_cells(
    out: &mut Vec<u8>,
    states: u16,
    corner: Point,
    pending: Pending,
    start: Point,
    at: Offset,
    item: Item,
) -> Result<Pending, Memory>
    requires start { IsInRange start }
    requires filled { pending.filled ≤ 70 }
    requires some { 1 ≤ item.count }
    requires room { tag_state item.tag ≢ 0 → HasRoomRight (point_from start at) item.count }
    requires after { tag_state item.tag ≢ 0 → ComesAfter corner pending.run (point_from start at) }
    ensures cells { IfOk result (AddsCells states corner out.old.items pending
        (cells_from (point_from start at) item) out.new.items) }
    ensures dead { tag_state item.tag ≡ 0 → IfOk result (λ p. p.run ≡ pending.run) }
    ensures live { tag_state item.tag ≢ 0
        → IfOk result (λ p. EndsAfter (point_from start at) item.count p.run) }
{
    let state = item.tag.state();
    if state == 0 {
        return Ok(pending);
    }
    let from = at.point(start);
    let past = from.x + item.count as i64;
    place_next(out, states, corner, pending, Run { from, past, state })
}

/// Puts the tidy items of the text's cells and `!` after the others, in lines of at most 70 characters, each
/// ended no earlier than it has to be.
pub(super) fn push_items_of(
    out: &mut Vec<u8>,
    states: u16,
    corner: Point,
    text: RleText<'_>,
) -> Result<(), Memory>
    requires text { (bytes : List ℕ) × IsRleText bytes text }
    requires corner { (items : List Item) → Items text.body.now items
        → IsCorner (picture_of_items text.corner items) corner }
    ensures { OnOk result ((items : List Item) → Items text.entry.body.now items
        → PutsItemsOf states corner (picture_of_items text.entry.corner items) out.old.items out.new.items) }
{
    let mut pending = Pending {
        run: Run {
            from: corner,
            past: corner.x,
            state: 0,
        },
        filled: 0,
    };
    let mut at = Offset::start();
    let mut rest = text.body;
    'items: while let Some((item, more)) = good_item(rest) {
        pending = place_cells(out, states, corner, pending, text.corner, at, item)?;
        at = at.after_item(item);
        rest = more;
    }
    let filled = place_run(out, states, pending.run, pending.filled)?;
    place_end(out, filled)?;
    push_text(out, b"\n")
}
