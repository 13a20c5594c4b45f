//! How far the items of an RLE text reach, which is judged before anything is drawn. Nothing here takes
//! memory.

ghost use Rattle.std.specs.Prelude.{◌≡◌, ◌≢◌, ℕ, ◌+◌, ◌-◌, ◌≤◌, min, max, pos, neg_ℤ, ◌+ℤ◌, ◌≤ℤ◌, ◌<ℤ◌, List, [], Some, None};
ghost use Rattle.std.specs.Prelude.{IfSome, ◌==◌, IsTrue, ◌↔◌, IfOk, IfErr, MatchOption, MatchResult, if◌then◌else◌};
ghost use Rattle.ca_rle.specs.declared.{item.Item.Item, extent.Span.Span};
ghost use Rattle.ca_rle.specs.Items.{InLine, IsEnd, Items};
ghost use Rattle.ca_rle.specs.Faults.{after_white, item_fault};
ghost use Rattle.ca_rle.specs.Shown.{ends_row, tag_state};
ghost use Rattle.ca_plane.specs.Prelude.{IsInRange, range, nearest_u64};
ghost use Rattle.ca_rle.specs.inner.BodyFaults.{IsItemAtFront, HasBadUnitAt};
ghost use Rattle.ca_rle.specs.inner.Extent.{live_count_of_item, point_from, IsOffsetOf, IsItemsExtent, IsExtentInRange};
ghost use Rattle.ca_rle.specs.inner.Boxes.{IsBoxInRange, IsSpanOf, IsSpanWith, bounds_at, box_at};

use crate::faulty::FaultPlace;
use crate::item::{Item, Tag};
use crate::unit::{after_white, next_item};
use ca_plane::{Bounds, Point, limits};

/// Where an item begins: `rows` below the corner, and `columns` right of it. At 2^64 - 1 each of them stays.
#[derive(Clone, Copy)]
pub(crate) struct Offset {
    pub(crate) rows: u64,
    pub(crate) columns: u64,
}

impl Offset {
    /// Where the first item begins.
    pub(crate) fn start() -> Offset
        ensures { IsOffsetOf [] result }
    {
        Offset {
            rows: 0,
            columns: 0,
        }
    }

    /// Where the item after this one begins.
    pub(crate) fn after_item(self, item: Item) -> Offset
        ensures rows { result.rows ≡ nearest_u64 (self.rows + (if ends_row item.tag then item.count else 0)) }
        ensures columns { result.columns ≡ (if ends_row item.tag then 0
            else nearest_u64 (self.columns + item.count)) }
    {
        match item.tag {
            Tag::Cell(_) => Offset {
                rows: self.rows,
                columns: self.columns.saturating_add(item.count),
            },
            Tag::RowEnd => Offset {
                rows: self.rows.saturating_add(item.count),
                columns: 0,
            },
        }
    }

    /// The point at this offset from the corner.
    pub(crate) fn point(self, corner: Point) -> Point
        requires corner { IsInRange corner }
        requires point { IsInRange (point_from corner self) }
        ensures { result ≡ point_from corner self }
    {
        Point {
            y: corner.y + self.rows as i64,
            x: corner.x + self.columns as i64,
        }
    }
}

/// The smallest box round live cells, both ends included: from `left` to `right` columns right of the corner,
/// and from `top` to `bottom` rows below it. At 2^64 - 1 each number stays.
#[derive(Clone, Copy)]
pub(crate) struct Span {
    pub(crate) left: u64,
    pub(crate) top: u64,
    pub(crate) right: u64,
    pub(crate) bottom: u64,
}

impl Span {
    /// The span with a run as well, from an offset up to the one with this column.
    fn with_run(self, at: Offset, last: u64) -> Span
        ensures left { result.left ≡ min self.left at.columns }
        ensures top { result.top ≡ min self.top at.rows }
        ensures right { result.right ≡ max self.right last }
        ensures bottom { result.bottom ≡ max self.bottom at.rows }
    {
        Span {
            left: self.left.min(at.columns),
            top: self.top.min(at.rows),
            right: self.right.max(last),
            bottom: self.bottom.max(at.rows),
        }
    }

    /// The box that it is from a corner.
    fn bounds(self, corner: Point) -> Bounds
        requires corner { IsInRange corner }
        requires near { IsBoxInRange (box_at corner self) }
        ensures { result ≡ box_at corner self }
    {
        Bounds {
            x0: corner.x + self.left as i64,
            y0: corner.y + self.top as i64,
            x1: corner.x + self.right as i64,
            y1: corner.y + self.bottom as i64,
        }
    }
}

/// The span of a run and of what there was before.
fn span_with(span: Option<Span>, at: Offset, last: u64) -> Span
    ensures { IsSpanWith at last span result }
{
    match span {
        Some(span) => span.with_run(at, last),
        None => Span {
            left: at.columns,
            top: at.rows,
            right: last,
            bottom: at.rows,
        },
    }
}

/// How far items reach. At 2^64 - 1 each number stays.
#[derive(Clone, Copy)]
pub(crate) struct Extent {
    /// The greatest count.
    pub(crate) longest: u64,
    /// The rows and columns from the corner onwards that live cells take.
    pub(crate) reach: Offset,
    /// The smallest box round the live cells, where there are any.
    pub(crate) span: Option<Span>,
    /// How many live cells there are.
    pub(crate) cells: u64,
    /// The greatest state of a cell.
    pub(crate) greatest: u8,
}

impl Extent {
    /// The extent of no items.
    fn none() -> Extent
        ensures items { IsItemsExtent [] result }
        ensures span { result.span ≡ None }
    {
        Extent {
            longest: 0,
            reach: Offset::start(),
            span: None,
            cells: 0,
            greatest: 0,
        }
    }

    /// The extent with one more item, which begins at an offset.
    fn with_item(self, at: Offset, item: Item) -> Extent
        ensures longest { result.longest ≡ max self.longest item.count }
        ensures right { result.reach.columns ≡ max self.reach.columns (if tag_state item.tag == 0 then 0
            else nearest_u64 (at.columns + item.count)) }
        ensures bottom { result.reach.rows ≡ max self.reach.rows (if tag_state item.tag == 0 then 0
            else nearest_u64 (at.rows + 1)) }
        ensures cells { result.cells ≡ nearest_u64 (self.cells + live_count_of_item item) }
        ensures greatest { result.greatest ≡ max self.greatest (tag_state item.tag) }
        ensures dead { tag_state item.tag ≡ 0 → result.span ≡ self.span }
        ensures live { tag_state item.tag ≢ 0 → (span : Span) × (result.span ≡ Some span)
            × IsSpanWith at (nearest_u64 (at.columns + (item.count - 1))) self.span span }
    {
        let longest = self.longest.max(item.count);
        let state = item.tag.state();
        if state == 0 {
            return Extent { longest, ..self };
        }
        let Offset { rows, columns } = self.reach;
        let last = at.columns.saturating_add(item.count.saturating_sub(1));
        Extent {
            longest,
            reach: Offset {
                rows: rows.max(at.rows.saturating_add(1)),
                columns: columns.max(at.columns.saturating_add(item.count)),
            },
            span: Some(span_with(self.span, at, last)),
            cells: self.cells.saturating_add(item.count),
            greatest: self.greatest.max(state),
        }
    }

    /// Whether items of this extent are in range from this corner.
    pub(crate) fn is_in_range(self, corner: Point) -> bool
        ensures { IsTrue result ↔ IsExtentInRange self corner }
    {
        self.longest <= limits::LONGEST_COUNT
            && has_room(corner.x, self.reach.columns)
            && has_room(corner.y, self.reach.rows)
    }
}

/// The smallest box round the live cells of items of this span, whose first cell is at the corner.
pub(crate) fn bounds_of(span: Option<Span>, corner: Point) -> Option<Bounds>
    requires corner { IsInRange corner }
    requires near { IfSome (bounds_at corner span) IsBoxInRange }
    ensures { result ≡ bounds_at corner span }
{
    match span {
        Some(span) => Some(span.bounds(corner)),
        None => None,
    }
}

/// Whether a coordinate is in range, and so are `length` cells from it onwards.
fn has_room(coordinate: i64, length: u64) -> bool
    ensures { IsTrue result ↔ (neg_ℤ (pos range) ≤ℤ coordinate) × (coordinate <ℤ pos range)
        × ((coordinate +ℤ pos length) ≤ℤ pos range) }
{
    let start = i128::from(coordinate);
    let end = start + i128::from(length);
    -limits::RANGE <= start && start < limits::RANGE && end <= limits::RANGE
}

/// The item at the front and the bytes after it, or nothing where the pattern ends there.
///
/// # Errors
///
/// The fault of that item, with the bytes after the white space before it.
fn item_at(bytes: &[u8]) -> Result<Option<(Item, &[u8])>, FaultPlace<'_>>
    ensures { MatchResult result (λ o. MatchOption o (IsEnd bytes.now)
        (λ r. IsItemAtFront bytes.now r.0 r.1.now))
        (λ f. (item_fault bytes.now ≡ Some f.fault) × (f.rest.now ≡ after_white InLine bytes.now)) }
{
    match next_item(bytes) {
        Ok(found) => Ok(found),
        Err(fault) => Err(FaultPlace {
            fault,
            rest: after_white(bytes),
        }),
    }
}

/// How far the items of a body reach.
///
/// # Errors
///
/// The fault of the first item that has one.
pub(crate) fn measure(body: &[u8]) -> Result<Extent, FaultPlace<'_>>
    ensures found { IfOk result (λ e. (items : List Item) × Items body.now items × IsItemsExtent items e
        × IsSpanOf items e.span) }
    ensures fault { IfErr result (λ f. (bad : List ℕ) × HasBadUnitAt body.now f.fault bad
        × (f.rest.now ≡ after_white InLine bad)) }
{
    let mut extent = Extent::none();
    let mut at = Offset::start();
    let mut rest = body;
    'items: while let Some((item, more)) = item_at(rest)? {
        extent = extent.with_item(at, item);
        at = at.after_item(item);
        rest = more;
    }
    Ok(extent)
}
