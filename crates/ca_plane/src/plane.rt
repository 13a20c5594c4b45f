//! The sparse plane: the cells that aren't 0, by their points.
ghost use Rattle.std.specs.Prelude.{◌≡◌, ◌≢◌, ◌+◌, ◌≤◌, ◌↔◌, [], length, IsTrue, IsFalse, IsOk, OnOk, OnErr};
ghost use Rattle.std.specs.Prelude.{IfOk, IfErr, IsNone, IfSome};
ghost use Rattle.std.specs.Iterator.{YieldsFirst, item_count};
ghost use Rattle.ca_plane.specs.Plane.{cell, IsLive};
ghost use Rattle.ca_plane.specs.Box.{IsLeastBox};
ghost use Rattle.ca_plane.specs.Change.{Sets};
ghost use Rattle.ca_plane.specs.Population.{HasPopulation};
ghost use Rattle.ca_plane.specs.Sparse.{IsInPlane, IsSparse};
ghost use Rattle.ca_plane.specs.inner.Places.{ComeBefore, IsAt, IsGap};

use crate::memory::Memory;
use crate::point::{Bounds, Point};
use std::alloc::Global;
use std::marker::Model;
use std::slice;

mod compared;
mod gathered;
mod moved;

/// A plane that keeps its cells of the states 1 to 255, by their points. Every other cell is 0.
#[derive(Drop)]
pub struct Plane {
    // Row by row from the top, and in a row by rising x.
    cells: Vec<(Point, u8)>,
}

impl Model for Plane {
    ghost use Rattle.ca_plane.specs.Plane.{Picture};
    ghost use Rattle.ca_plane.specs.Sparse.{IsSparse};

    ghost Value = { Picture };

    ghost view = { λ p. p.cells.items };

    ghost invariant = { λ p. IsSparse p.cells.items };
}

impl Plane {
    /// The plane whose cells are all 0.
    pub fn new(alloc: Global) -> Plane
        ensures { result ≡ [] }
    {
        Plane {
            cells: Vec::new(alloc),
        }
    }

    /// The state of the cell at the point.
    pub fn get(&self, at: Point) -> u8
        ensures { result ≡ cell self.now at.x at.y }
    {
        match self.search(at) {
            Ok(place) => self.cells[place].1,
            Err(_) => 0,
        }
    }

    /// Writes one cell.
    ///
    /// # Errors
    ///
    /// Fails where there is no memory for one more cell, and then leaves the plane as it was. A write of 0
    /// never fails, nor does one to a cell that isn't 0.
    pub fn set(&mut self, at: Point, state: u8) -> Result<(), Memory>
        requires { IsInPlane at }
        ensures ok { OnOk result (Sets self.old self.new at state) }
        ensures zero { state ≡ 0 → IsOk result }
        ensures over { cell self.old at.x at.y ≢ 0 → IsOk result }
        ensures err { OnErr result (self.new ≡ self.old) }
        ensures room { length self.new ≤ length self.old + 1 }
        ensures sparse { IsSparse self.new }
    {
        match self.search(at) {
            Ok(place) => {
                self.write(place, at, state);
                Ok(())
            }
            Err(place) => self.put(place, at, state),
        }
    }

    // Writes the state of the cell that is there.
    fn write(&mut self, place: usize, at: Point, state: u8)
        requires there { IsAt self.old at place }
        requires within { IsInPlane at }
        ensures sets { Sets self.old self.new at state }
        ensures room { length self.new ≤ length self.old }
        ensures sparse { IsSparse self.new }
    {
        if state == 0 {
            self.cells.remove(place);
            return;
        }
        self.cells[place] = (at, state);
    }

    // Puts the cell there, where its state isn't 0.
    fn put(&mut self, place: usize, at: Point, state: u8) -> Result<(), Memory>
        requires gap { IsGap self.old at place }
        requires within { IsInPlane at }
        ensures ok { OnOk result (Sets self.old self.new at state) }
        ensures zero { state ≡ 0 → IsOk result }
        ensures err { OnErr result (self.new ≡ self.old) }
        ensures room { length self.new ≤ length self.old + 1 }
        ensures sparse { IsSparse self.old → IsSparse self.new }
    {
        if state == 0 {
            return Ok(());
        }
        self.cells.insert(place, (at, state))?;
        Ok(())
    }

    // The place of the cell at the point, or else the place for it.
    fn search(&self, at: Point) -> Result<usize, usize>
        ensures found { IfOk result (IsAt self.now at) }
        ensures absent { IfErr result (IsGap self.now at) }
        ensures sparse { IsSparse self.now }
    {
        if self.ends_before(at) {
            return Err(self.cells.len());
        }
        self.cells.binary_search_by_key(&at, |&(point, _)| point)
    }

    // Whether every cell comes before the point.
    fn ends_before(&self, at: Point) -> bool
        ensures { IsTrue result → ComeBefore at self.now }
    {
        match self.cells.split_last() {
            Some(((last, _), _)) => last.cmp(&at).is_lt(),
            None => true,
        }
    }

    /// How many cells aren't 0.
    pub fn len(&self) -> usize
        ensures count { result ≡ length self.now }
        ensures population { HasPopulation (cell self.now) result }
        ensures sparse { IsSparse self.now }
    {
        self.cells.len()
    }

    /// Whether every cell is 0.
    pub fn is_empty(&self) -> bool
        ensures empty { IsTrue result ↔ (self.now ≡ []) }
        ensures live { IsFalse result → IsLive self.now }
    {
        self.cells.is_empty()
    }

    /// The cells that aren't 0, row by row from the top, and in a row by rising x.
    pub fn cells(&self) -> Cells<'_>
        ensures all { result ≡ self.now }
        ensures sparse { IsSparse self.now }
    {
        Cells {
            cells: self.cells.iter(),
        }
    }

    /// The cells that aren't 0, in the same order.
    pub fn as_slice(&self) -> &[(Point, u8)]
        ensures all { result.now ≡ self.now }
        ensures sparse { IsSparse self.now }
    {
        &self.cells
    }

    /// The smallest box round the cells that aren't 0, where there are any.
    pub fn bounds(&self) -> Option<Bounds>
        ensures none { IsNone result ↔ (IsLive self.now → ⊥) }
        ensures some { IfSome result (IsLeastBox self.now) }
    {
        let mut cells = self.cells();
        let (first, _) = cells.next()?;
        let mut bounds = Bounds::of(first);
        'cells: for (point, _) in cells {
            bounds = bounds.with_point(point);
        }
        Some(bounds)
    }

    /// The same plane in memory of its own.
    ///
    /// # Errors
    ///
    /// Fails where there is no memory for it.
    pub fn copy(&self, alloc: Global) -> Result<Plane, Memory>
        ensures same { IfOk result (λ q. q ≡ self.now) }
        ensures sparse { IfOk result IsSparse }
    {
        let mut cells = Vec::with_capacity(alloc, self.cells.len())?;
        cells.extend_from_slice(&self.cells)?;
        Ok(Plane { cells })
    }
}

/// The cells of a plane that are still to come.
#[derive(Drop)]
pub struct Cells<'a> {
    cells: slice::Iter<'a, (Point, u8)>,
}

impl<'a> Model for Cells<'a> {
    ghost use Rattle.std.specs.Slice.Iter.{iter_rest};
    ghost use Rattle.ca_plane.specs.Plane.{Picture};

    ghost Value = { Picture };

    ghost view = { λ c. iter_rest c.cells };
}

impl<'a> Iterator for Cells<'a> {
    type Item = (Point, u8);

    ghost next_gives = { YieldsFirst (λ c. c) };

    ghost remaining = { item_count (λ c. c) };

    fn next(&mut self) -> Option<(Point, u8)> {
        self.cells.next().copied()
    }
}
