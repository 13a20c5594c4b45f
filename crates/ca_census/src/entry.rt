//! The objects of a census.

ghost use Rattle.std.specs.Prelude.{◌≡◌, ◌↔◌, ℕ, List, pos, length, option_map, IfOk, IsTrue};
ghost use Rattle.ca_plane.specs.Prelude.{IsLive, IsLeastBox, IsSparse, longest_period};
ghost use Rattle.ca_parts.specs.Prelude.{ArePhases};
ghost use Rattle.ca_clusters.specs.Prelude.{first_plane, GoesRound};
ghost use Rattle.ca_answers.specs.Prelude.{IsCodeOf, IsIdentity};
ghost use Rattle.ca_answers.specs.declared.identity.Identity.TheVariants.{Claim};
ghost use Rattle.ca_apgcode_search.specs.ObjectPlanes.{IsObjectOf};
ghost use Rattle.ca_census.specs.Censuses.{IsCodeIfAsked, IsEntryOf};

use ca_apgcode_search::code_of_planes;
use ca_parts::Phases;
use ca_plane::{Bounds, Memory, Plane};
use ca_text::Kind;
use std::alloc::Global;

/// An object, as it is when the plane is settled first.
#[derive(Drop)]
pub struct CensusObject {
    /// What it is alone: a still life, an oscillator or a spaceship.
    pub kind: Kind,
    /// Its cells.
    pub plane: Plane,
    /// How many of them are live.
    pub cells: u64,
    /// The smallest box round them.
    pub bounds: Bounds,
    /// Its code (LifeWiki, "Apgcode"), where codes are asked for.
    pub code: Option<Vec<u8>>,
}

/// The entry on the object with this course, with its code if that is asked for.
///
/// # Errors
///
/// Fails where there is no memory for the cells or the code.
pub fn entry_of(alloc: Global, course: &Phases, coded: bool) -> Result<CensusObject, Memory>
    ensures entry { (next : List ℕ → ℕ) → GoesRound next course.now
        → IfOk result (IsEntryOf next coded course.now) }
    ensures sparse { IfOk result (λ entry. IsSparse entry.plane) }
{
    // Says what holds of every course.
    let _ = course.period();
    let kind = kind_of(course);
    let code = code_if_asked(alloc, course, kind, coded)?;
    let plane = course.plane(0);
    Ok(CensusObject {
        kind,
        plane: plane.copy(alloc)?,
        cells: plane.len() as u64,
        bounds: bounds_of(plane),
        code,
    })
}

// What the object with this course is.
fn kind_of(course: &Phases) -> Kind
    ensures object { IsObjectOf result (length course.now.planes) }
    ensures identity { (next : List ℕ → ℕ) → GoesRound next course.now
        → IsIdentity next (first_plane course.now) longest_period (Claim result) }
{
    let period = course.period();
    let (dx, dy) = course.vector();
    if !is_in_place(dx, dy) {
        return Kind::Spaceship { period, dx, dy };
    }
    if period == 1 {
        return Kind::Still;
    }
    Kind::Oscillator { period }
}

// Whether nothing is moved by the vector.
fn is_in_place(dx: i64, dy: i64) -> bool
    ensures { IsTrue result ↔ (dx ≡ pos 0) × (dy ≡ pos 0) }
{
    dx == 0 && dy == 0
}

// The code of the object with this course, which is one of this kind, if it is asked for.
fn code_if_asked(
    alloc: Global,
    course: &Phases,
    kind: Kind,
    coded: bool,
) -> Result<Option<Vec<u8>>, Memory>
    requires { IsObjectOf kind (length course.now.planes) }
    ensures { (next : List ℕ → ℕ) → ArePhases next (first_plane course.now) course.now
        → IfOk result (λ found. IsCodeIfAsked coded (IsCodeOf next (first_plane course.now) (Claim kind))
        (option_map (λ code. code.items) found)) }
{
    if !coded {
        return Ok(None);
    }
    let code = code_of_planes(alloc, course.planes(), kind)?;
    Ok(Some(code))
}

// The smallest box round the live cells of a plane. Where there are none, any box does.
fn bounds_of(plane: &Plane) -> Bounds
    ensures { IsLive plane.now → IsLeastBox plane.now result }
{
    match plane.bounds() {
        Some(bounds) => bounds,
        None => Bounds {
            x0: 0,
            y0: 0,
            x1: 0,
            y1: 0,
        },
    }
}
