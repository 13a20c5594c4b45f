//! Parts that come back, by what they show over one period.

ghost use Rattle.std.specs.Prelude.{◌≡◌, ◌≢◌, ℕ, ◌%◌, ◌<◌, ◌≤◌, ◌↔◌, ℤ, length, slice_index_or, []};
ghost use Rattle.std.specs.Prelude.{IsNone, IsTrue, IfSome};
ghost use Rattle.std.specs.Int.{int_min, int_max};
ghost use Rattle.ca_plane.specs.Prelude.{Picture, cell, longest_period, IsInBox, IsLeastBox};
ghost use Rattle.ca_parts.specs.Phases.{IsCourse, IsShortStep, plane_at};
ghost use Rattle.ca_parts.specs.inner.Courses.{HoldsBefore, IsNearBox};
ghost use Rattle.ca_parts.specs.inner.Courses.{SweepsBefore, IsInSweep};
ghost use Rattle.ca_parts.specs.Partings.{IsCovered};
ghost use Rattle.ca_parts.specs.inner.Sides.{IsLiveIn, TouchesEach, HasSidesOf};
ghost use Rattle.ca_parts.specs.inner.Tracks.{IsTrack, IsAcross, IsDown, ReachesAcross, ReachesDown};

use crate::track::Track;
use ca_plane::limits::{GREATEST_SHIFT, LONGEST_PERIOD};
use ca_plane::{Bounds, Plane};
use std::marker::Model;

/// Planes that are given as those of one period of a part that comes back, and the vector by which it is moved after
/// each period.
#[derive(Drop)]
pub struct Phases {
    planes: Vec<Plane>,
    dx: i64,
    dy: i64,
    // The smallest box that holds all that the planes show.
    sweep: Bounds,
}

impl Model for Phases {
    ghost use Rattle.ca_parts.specs.Phases.{Course};

    ghost Value = { Course };

    ghost use Rattle.ca_parts.specs.inner.Sweeps.{course_of, IsSwept};

    ghost view = { course_of };

    ghost invariant = { IsSwept };
}

impl Phases {
    /// The part with these planes, generation by generation, which is moved by `dx` to the right and `dy` downward
    /// after as many generations.
    ///
    /// There is none where no plane is given, or more than a claim's longest period has generations, or where the
    /// vector is longer than a claim's may be.
    pub fn new(planes: Vec<Plane>, dx: i64, dy: i64) -> Option<Phases>
        ensures some { IfSome result (λ p. p ≡ record { planes = planes.items; dx = dx; dy = dy }) }
        ensures none { IsNone result ↔ (IsCourse (record { planes = planes.items; dx = dx; dy = dy }) → ⊥) }
    {
        if !is_period(planes.len()) || !is_short(dx) || !is_short(dy) {
            return None;
        }
        let sweep = sweep_of(&planes);
        Some(Phases {
            planes,
            dx,
            dy,
            sweep,
        })
    }

    /// The generations of one period.
    pub fn period(&self) -> u64
        ensures value { result ≡ length self.now.planes }
        ensures some { 1 ≤ result }
        ensures most { result ≤ longest_period }
    {
        self.planes.len() as u64
    }

    /// The plane after `k` generations of a period.
    pub fn plane(&self, k: usize) -> &Plane
        requires { k < length self.now.planes }
        ensures { result.now ≡ slice_index_or self.now.planes k [] }
    {
        &self.planes[k]
    }

    /// The way to the right and downward by which the part is moved after each period.
    pub fn vector(&self) -> (i64, i64)
        ensures across { result.0 ≡ self.now.dx }
        ensures down { result.1 ≡ self.now.dy }
        ensures short_across { IsShortStep result.0 }
        ensures short_down { IsShortStep result.1 }
    {
        (self.dx, self.dy)
    }

    /// The planes of the period, generation by generation.
    pub fn planes(&self) -> &[Plane]
        ensures { result.now ≡ self.now.planes }
    {
        &self.planes
    }

    /// The planes of the period, in memory of their own.
    pub fn into_planes(self) -> Vec<Plane>
        ensures { result.items ≡ self.planes }
    {
        self.planes
    }

    // The plane that shows the part after n generations, but for the way that it has gone.
    pub(crate) fn plane_after(&self, n: u64) -> &Plane
        ensures { result.now ≡ plane_at self.now.planes (n % length self.now.planes) }
    {
        self.plane((n % self.period()) as usize)
    }

    // How the part moves across.
    pub(crate) fn across(&self) -> Track
        ensures bounded { IsTrack result }
        ensures across { IsAcross self.now result }
        ensures ends { (x y : ℤ) → IsCovered self.now x y → ReachesAcross self.now result }
    {
        Track {
            first: self.sweep.x0,
            last: self.sweep.x1,
            step: self.dx,
            period: self.planes.len() as u64,
        }
    }

    // How the part moves downward.
    pub(crate) fn down(&self) -> Track
        ensures bounded { IsTrack result }
        ensures down { IsDown self.now result }
        ensures ends { (x y : ℤ) → IsCovered self.now x y → ReachesDown self.now result }
    {
        Track {
            first: self.sweep.y0,
            last: self.sweep.y1,
            step: self.dy,
            period: self.planes.len() as u64,
        }
    }
}

// Whether a claim's period may be that long.
fn is_period(period: usize) -> bool
    ensures { IsTrue result ↔ (1 ≤ period) × (period ≤ longest_period) }
{
    0 < period && period as u64 <= LONGEST_PERIOD
}

// Whether the way is no longer than that of a claim may be.
fn is_short(step: i64) -> bool
    ensures { IsTrue result ↔ IsShortStep step }
{
    -GREATEST_SHIFT <= step && step <= GREATEST_SHIFT
}

// The box round all live cells of the planes. Where there are none, any box does.
fn sweep_of(planes: &[Plane]) -> Bounds
    ensures near { IsNearBox result }
    ensures all { HoldsBefore planes.now (length planes.now) result }
    ensures least { (x y : ℤ) → IsLiveIn planes.now (length planes.now) x y
        → TouchesEach planes.now (length planes.now) result }
{
    match live_sweep(planes) {
        Some(sweep) => sweep,
        None => Bounds {
            x0: 0,
            y0: 0,
            x1: 0,
            y1: 0,
        },
    }
}

// The box round all live cells of the planes, where there are any.
fn live_sweep(planes: &[Plane]) -> Option<Bounds>
    ensures near { IfSome result IsNearBox }
    ensures all { SweepsBefore planes.now (length planes.now) result }
    ensures least { IfSome result (TouchesEach planes.now (length planes.now)) }
{
    let mut sweep = None;
    'planes: for plane in planes {
        sweep = with_plane(sweep, plane);
    }
    sweep
}

// The box round what was in the box and all live cells of the plane.
fn with_plane(sweep: Option<Bounds>, plane: &Plane) -> Option<Bounds>
    requires near { IfSome sweep IsNearBox }
    ensures near { IfSome result IsNearBox }
    ensures old { (x y : ℤ) → IsInSweep sweep x y → IsInSweep result x y }
    ensures new { (x y : ℤ) → cell plane.now x y ≢ 0 → IsInSweep result x y }
    ensures least { IfSome result (HasSidesOf sweep plane.now) }
{
    match near_bounds(plane) {
        Some(bounds) => Some(with_box(sweep, bounds)),
        None => sweep,
    }
}

// The box round what was in the one box, where there was any, and in the other.
fn with_box(sweep: Option<Bounds>, bounds: Bounds) -> Bounds
    requires near { IfSome sweep IsNearBox }
    requires other_near { IsNearBox bounds }
    ensures near { IsNearBox result }
    ensures old { (x y : ℤ) → IsInSweep sweep x y → IsInBox result x y }
    ensures new { (x y : ℤ) → IsInBox bounds x y → IsInBox result x y }
    ensures least { (p : Picture) → IsLeastBox p bounds → HasSidesOf sweep p result }
{
    match sweep {
        Some(one) => joined(one, bounds),
        None => bounds,
    }
}

// The box round the live cells of the plane, where there are any.
fn near_bounds(plane: &Plane) -> Option<Bounds>
    ensures near { IfSome result IsNearBox }
    ensures all { (x y : ℤ) → cell plane.now x y ≢ 0 → IsInSweep result x y }
    ensures least { IfSome result (IsLeastBox plane.now) }
{
    let _ = plane.as_slice();
    plane.bounds()
}

// The smallest box round both.
fn joined(one: Bounds, other: Bounds) -> Bounds
    requires near { IsNearBox one }
    requires other_near { IsNearBox other }
    ensures near { IsNearBox result }
    ensures one { (x y : ℤ) → IsInBox one x y → IsInBox result x y }
    ensures other { (x y : ℤ) → IsInBox other x y → IsInBox result x y }
    ensures x0 { result.x0 ≡ int_min one.x0 other.x0 }
    ensures y0 { result.y0 ≡ int_min one.y0 other.y0 }
    ensures x1 { result.x1 ≡ int_max one.x1 other.x1 }
    ensures y1 { result.y1 ≡ int_max one.y1 other.y1 }
{
    Bounds {
        x0: one.x0.min(other.x0),
        y0: one.y0.min(other.y0),
        x1: one.x1.max(other.x1),
        y1: one.y1.max(other.y1),
    }
}
