//! Pictures of windows of a pattern's plane.

ghost use Rattle.std.specs.Prelude.{◌≡◌, ℕ, List, IfSome, IfOk, IfErr, MatchOption};
ghost use Rattle.ca_quad.specs.Prelude.{IsTree, cell, IsDead, IsLeastWideBox};
ghost use Rattle.ca_draw.specs.Prelude.{IsBoxShown, box_shown, IsBox, IsTreeBox};
ghost use Rattle.ca_rule.specs.Prelude.{TableRule};
ghost use Rattle.ca_pattern.specs.Prelude.{IsPatternAfter};
ghost use Rattle.ca_pattern_runs.specs.Drawn.{IsPictureOf, IsCaptionOf, IsDrawnAfter, IsCaptionAfter};
ghost use Rattle.ca_pattern_runs.specs.inner.Refusals.{IsUndrawn, IsUndrawnAfter};

use crate::caption::caption;
use crate::form::FormText;
use ca_draw::laws::least_boxes;
use ca_draw::{Style, draw};
use ca_pattern::{Pattern, StoredTree};
use ca_plane::{Automaton, Memory};
use ca_quad::{Store, Tree, WideBounds};
use ca_report::{DrawRequest, ToolFault};
use std::alloc::Global;

/// The box that is drawn of an empty plane.
const ORIGIN: WideBounds = WideBounds {
    x0: 0,
    y0: 0,
    x1: 0,
    y1: 0,
};

/// The picture of a pattern, and its caption.
pub(crate) fn picture(
    alloc: Global,
    pattern: Pattern<'_, '_>,
    request: DrawRequest,
) -> Result<FormText, ToolFault>
    requires { (bytes : List ℕ) × (tables : List TableRule) × (n : ℕ) × IsPatternAfter bytes tables n pattern }
    ensures drawn { (bytes : List ℕ) (tables : List TableRule) (n : ℕ) → IsPatternAfter bytes tables n pattern.entry
        → IfOk result (λ drawn. IsDrawnAfter bytes tables n request drawn.text.items) }
    ensures caption { (bytes : List ℕ) (tables : List TableRule) (n : ℕ)
        → IsPatternAfter bytes tables n pattern.entry
        → IfOk result (λ drawn. IsCaptionAfter bytes tables n request drawn.caption.items) }
    ensures fault { (bytes : List ℕ) (tables : List TableRule) (n : ℕ) → IsPatternAfter bytes tables n pattern.entry
        → IfErr result (IsUndrawnAfter bytes tables n request) }
{
    let Pattern {
        cells,
        rule,
        generation,
        ..
    } = pattern;
    let Ok(StoredTree { store, tree }) = cells.into_squares(alloc) else {
        return Err(ToolFault::Memory);
    };
    match picture_of(alloc, &store, &tree, rule.states(), generation, request) {
        Ok(drawn) => Ok(drawn),
        Err(fault) => Err(fault),
    }
}

// The picture of a tree's cells, of `states` states, and its caption, at this generation.
fn picture_of(
    alloc: Global,
    store: &Store,
    tree: &Tree,
    states: u16,
    generation: u64,
    request: DrawRequest,
) -> Result<FormText, ToolFault>
    requires { IsTree store.now tree.now }
    ensures drawn { IfOk result
        (λ drawn. IsPictureOf request states (cell store.now tree.now) drawn.text.items) }
    ensures caption { IfOk result
        (λ drawn. IsCaptionOf request generation (cell store.now tree.now) drawn.caption.items) }
    ensures fault { IfErr result (IsUndrawn request (cell store.now tree.now)) }
{
    let Ok(bounds) = bounds_of(alloc, store, tree) else {
        return Err(ToolFault::Memory);
    };
    let format = request.format;
    let window = match request.view.window(format, box_shown(bounds)) {
        Ok(window) => window,
        Err(fault) => return Err(ToolFault::Window(fault)),
    };
    let Ok(caption) = caption(alloc, bounds, window.scale, generation) else {
        return Err(ToolFault::Memory);
    };
    let style = Style {
        format,
        states,
        zoom: request.view.zoom,
    };
    match draw(alloc, store, copy(tree), window, style) {
        Ok(text) => Ok(FormText { text, caption }),
        Err(_) => Err(ToolFault::Memory),
    }
}

// The smallest box round a tree's live cells, if there are any.
fn bounds_of(alloc: Global, store: &Store, tree: &Tree) -> Result<Option<WideBounds>, Memory>
    requires { IsTree store.now tree.now }
    ensures least { IfOk result (λ bounds. MatchOption bounds (IsDead (cell store.now tree.now))
        (IsLeastWideBox (cell store.now tree.now))) }
    ensures reach { IfOk result (λ bounds. IfSome bounds (λ box. IsBox box × IsTreeBox box)) }
    ensures shown { IfOk result (λ bounds. IsBoxShown (cell store.now tree.now) (box_shown bounds)) }
    ensures cells { IfOk result (λ bounds. IsBox (box_shown bounds)) }
{
    least_boxes(store, copy(tree));
    match store.bounds(alloc, copy(tree))? {
        Some(bounds) => Ok(Some(bounds)),
        None => Ok(None),
    }
}

// The box that is drawn.
fn box_shown(bounds: Option<WideBounds>) -> WideBounds
    ensures { result ≡ box_shown bounds }
{
    bounds.unwrap_or(ORIGIN)
}

// The same tree.
fn copy(tree: &Tree) -> Tree
    ensures { result ≡ tree.now }
{
    Tree {
        root: tree.root,
        level: tree.level,
    }
}
