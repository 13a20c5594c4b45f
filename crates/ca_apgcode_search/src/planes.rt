//! The code of an object whose planes over one period are at hand.

ghost use Rattle.std.specs.Prelude.{◌≡◌, ◌<◌, ◌+◌, ℕ, ℤ, List, [], length, slice_index_or, option_map};
ghost use Rattle.std.specs.Prelude.{IfOk, IfSome, MatchOption};
ghost use Rattle.ca_plane.specs.Prelude.{Picture, IsAfter, cell};
ghost use Rattle.ca_quad.specs.Prelude.{IsDead, IsLeastWideBox};
ghost use Rattle.ca_pattern.specs.Prelude.{IsWideBox};
ghost use Rattle.ca_apgcode.specs.Prelude.{IsBoxRound, IsLeastOfPhases};
ghost use Rattle.ca_answers.specs.Prelude.{IsCodeOf};
ghost use Rattle.ca_answers.specs.declared.identity.Identity.TheVariants.{Claim};
ghost use Rattle.ca_apgcode_search.specs.ObjectPlanes.{IsObjectOf};
ghost use Rattle.ca_apgcode_search.specs.inner.Drawn.{HasNoText};
ghost use Rattle.ca_apgcode_search.specs.inner.Shown.{ShowPhases};

use crate::boxes::window_of;
use crate::drawing::draw;
use ca_apgcode::{Grid, ObjectKind, least_with, object_code};
use ca_plane::{Bounds, Memory, Plane};
use ca_quad::WideBounds;
use ca_text::Kind;
use std::alloc::Global;

/// The code of a still life, an oscillator or a spaceship (LifeWiki, "Apgcode"), from its planes over one period,
/// generation by generation.
///
/// # Errors
///
/// Fails where there is no memory for it.
pub fn code_of_planes(alloc: Global, planes: &[Plane], kind: Kind) -> Result<Vec<u8>, Memory>
    requires { IsObjectOf kind (length planes.now) }
    ensures { (next : List ℕ → ℕ) (cells : Picture)
        → ((k : ℕ) → k < length planes.now → IsAfter next cells k (slice_index_or planes.now k []))
        → IfOk result (λ code. IsCodeOf next cells (Claim kind) code.items) }
{
    let least = least_of_planes(alloc, planes)?;
    match kind {
        Kind::Still => {
            let cells = planes[0].len() as u128;
            object_code(alloc, ObjectKind::StillLife, cells, least)
        }
        Kind::Oscillator { period } => {
            object_code(alloc, ObjectKind::Oscillator, u128::from(period), least)
        }
        Kind::Spaceship { period, .. } => {
            object_code(alloc, ObjectKind::Spaceship, u128::from(period), least)
        }
        _ => unreachable!(),
    }
}

// The least text of the planes, if one of them fits into 40 by 40 cells.
fn least_of_planes(alloc: Global, planes: &[Plane]) -> Result<Option<Vec<u8>>, Memory>
    ensures { (phases : ℕ → ℤ → ℤ → ℕ) → ShowPhases planes.now phases → IfOk result
        (λ least. IsLeastOfPhases phases (length planes.now) (option_map (λ text. text.items) least)) }
{
    let mut least = None;
    'planes: for plane in planes {
        least = least_up_to_plane(alloc, plane, least)?;
    }
    Ok(least)
}

// The least text of the planes up to this one, from that of the planes before it.
fn least_up_to_plane(
    alloc: Global,
    plane: &Plane,
    least: Option<Vec<u8>>,
) -> Result<Option<Vec<u8>>, Memory>
    ensures { (phases : ℕ → ℤ → ℤ → ℕ) (n : ℕ) → ((x y : ℤ) → cell plane.now x y ≡ phases n x y)
        → IsLeastOfPhases phases n (option_map (λ text. text.items) least)
        → IfOk result (λ now. IsLeastOfPhases phases (n + 1) (option_map (λ text. text.items) now)) }
{
    match box_of_plane(alloc, plane)? {
        Some(grid) => {
            let least = least_with(alloc, least, &grid)?;
            Ok(Some(least))
        }
        None => Ok(least),
    }
}

// The smallest box round the live cells of a plane, where it fits into 40 by 40 cells.
fn box_of_plane(alloc: Global, plane: &Plane) -> Result<Option<Grid>, Memory>
    ensures { IfOk result (λ found. MatchOption found (HasNoText (cell plane.now))
        (IsBoxRound (cell plane.now))) }
{
    let Some(bounds) = wide_bounds(plane) else {
        return Ok(None);
    };
    let Some(window) = window_of(&bounds) else {
        return Ok(None);
    };
    let grid = draw(alloc, plane, &window)?;
    Ok(Some(grid))
}

// The smallest box round the live cells of a plane, where there are any.
fn wide_bounds(plane: &Plane) -> Option<WideBounds>
    ensures least { MatchOption result (IsDead (cell plane.now)) (IsLeastWideBox (cell plane.now)) }
    ensures wide { IfSome result IsWideBox }
{
    // Says what holds of every plane.
    let _ = plane.as_slice();
    match plane.bounds() {
        Some(bounds) => Some(widened(bounds)),
        None => None,
    }
}

// The same box.
fn widened(bounds: Bounds) -> WideBounds
    ensures x0 { result.x0 ≡ bounds.x0 }
    ensures y0 { result.y0 ≡ bounds.y0 }
    ensures x1 { result.x1 ≡ bounds.x1 }
    ensures y1 { result.y1 ≡ bounds.y1 }
{
    WideBounds {
        x0: i128::from(bounds.x0),
        y0: i128::from(bounds.y0),
        x1: i128::from(bounds.x1),
        y1: i128::from(bounds.y1),
    }
}
