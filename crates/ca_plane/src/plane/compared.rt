//! Planes that are compared.

ghost use Rattle.std.specs.Prelude.{IsTrue, IsNone, IfSome, ◌↔◌};
ghost use Rattle.ca_plane.specs.Plane.{IsSame};
ghost use Rattle.ca_plane.specs.Change.{DifferAt};

use crate::plane::Plane;
use crate::point::Point;
use std::cmp::Ordering;

impl Plane {
    /// Whether every cell is the same in both planes.
    pub fn same(&self, other: &Plane) -> bool
        ensures { IsTrue result ↔ IsSame self.now other.now }
    {
        self.difference(other).is_none()
    }

    /// A point whose cell differs in the two planes, if there is one.
    pub fn difference(&self, other: &Plane) -> Option<Point>
        ensures none { IsNone result ↔ IsSame self.now other.now }
        ensures some { IfSome result (DifferAt self.now other.now) }
    {
        let mut others = other.cells();
        'cells: for (point, state) in self.cells() {
            let Some((other_point, other_state)) = others.next() else {
                return Some(point);
            };
            match point.cmp(&other_point) {
                Ordering::Less => return Some(point),
                Ordering::Greater => return Some(other_point),
                Ordering::Equal => {}
            }
            if state != other_state {
                return Some(point);
            }
        }
        let (point, _) = others.next()?;
        Some(point)
    }
}
