//! Live cells of squares, written to a plane row by row.

ghost use Rattle.std.specs.Prelude.{◌≡◌, ℕ, ◌-◌, ◌≤◌, ℤ, pos, ◌+ℤ◌, OnOk, IfOk};
ghost use Rattle.ca_quad.specs.Squares.{one_cell};
ghost use Rattle.ca_quad.specs.Trees.{IsIn, IsTree, cell};
ghost use Rattle.ca_quad.specs.Expanded.{FitsPlane};
ghost use Rattle.ca_plane.specs.Prelude.{cell as plane_cell, IsSparse};
ghost use Rattle.ca_quad.specs.inner.Drawn.{cells_at_corner, CanDraw, Agrees, IsLiveAt, IsReadyToDraw, AreReady, placed_cells};
ghost use Rattle.ca_quad.specs.inner.Drawn.{IsLiveIn, IsLiveInRow, Paints, IsAdded, ArePushed, AreHalves};

use super::Store;
use super::read::half_side;
use super::to_plane::{first_corner, part_corners, point};
use crate::id::Id;
use crate::square::Square;
use crate::tree::{Spot, Tree};
use ca_plane::{Memory, Plane};
use std::alloc::Global;

// A square and its corner.
#[derive(Clone, Copy, Drop)]
pub(crate) struct PlacedSquare {
    pub id: Id,
    pub at: Spot,
}

// The upper and the lower halves of squares.
#[derive(Drop)]
pub(crate) struct Halves {
    pub north: Vec<PlacedSquare>,
    pub south: Vec<PlacedSquare>,
}

impl Store {
    // The plane with the cells of a tree, which all lie in its square.
    pub(super) fn draw_plane(&self, alloc: Global, tree: Tree) -> Result<Plane, Memory>
        requires tree { IsTree self.now tree }
        requires fits { FitsPlane (cell self.now tree) }
        ensures shows { IfOk result (λ p. (x y : ℤ) → plane_cell p x y ≡ cell self.now tree x y) }
        ensures sparse { IfOk result IsSparse }
    {
        let level = self.level(tree.root);
        let root = PlacedSquare {
            id: tree.root,
            at: first_corner(half_side(level)),
        };
        let mut squares = Vec::new(alloc);
        squares.push(root)?;
        let mut plane = Plane::new(alloc);
        self.draw_band(alloc, &squares, level, &mut plane)?;
        let _ = plane.len();
        Ok(plane)
    }

    // Writes the live cells of squares of one level to a plane. Squares of one height are written row by row.
    pub(super) fn draw_band(
        &self,
        alloc: Global,
        squares: &[PlacedSquare],
        level: u8,
        plane: &mut Plane,
    ) -> Result<(), Memory>
        requires least { 1 ≤ level }
        requires most { level ≤ 125 }
        requires ready { (all : ℤ → ℤ → ℕ) × AreReady self.now all level squares.now }
        ensures { (all : ℤ → ℤ → ℕ) → AreReady self.now all level squares.now
            → OnOk result (Paints all plane.old plane.new (IsLiveIn self.now squares.now)) }
    {
        if squares.is_empty() {
            return Ok(());
        }
        if level == 1 {
            self.draw_row(squares, 0, plane)?;
            return self.draw_row(squares, 1, plane);
        }
        let halves = self.halves_of(alloc, squares, level)?;
        self.draw_band(alloc, &halves.north, level - 1, plane)?;
        self.draw_band(alloc, &halves.south, level - 1, plane)
    }

    // The parts of squares that have live cells.
    fn halves_of(
        &self,
        alloc: Global,
        squares: &[PlacedSquare],
        level: u8,
    ) -> Result<Halves, Memory>
        requires least { 2 ≤ level }
        requires most { level ≤ 125 }
        requires ready { (all : ℤ → ℤ → ℕ) × AreReady self.now all level squares.now }
        ensures { IfOk result (AreHalves self.now level squares.now) }
    {
        let mut halves = Halves {
            north: Vec::new(alloc),
            south: Vec::new(alloc),
        };
        'squares: for &square in squares {
            self.push_parts(square, level, &mut halves)?;
        }
        Ok(halves)
    }

    // Adds the parts of a square that have live cells.
    fn push_parts(&self, square: PlacedSquare, level: u8, halves: &mut Halves) -> Result<(), Memory>
        requires least { 2 ≤ level }
        requires most { level ≤ 125 }
        requires ready { (all : ℤ → ℤ → ℕ) × IsReadyToDraw self.now all level square }
        ensures { OnOk result (ArePushed self.now level square halves.old halves.new) }
    {
        match self.square(square.id) {
            Square::Four(_, _, _, _) => unreachable!(),
            Square::Parts(_, nw, ne, sw, se) => {
                let at = square.at;
                let corners = part_corners(at, half_side(level));
                self.push_live(PlacedSquare { id: nw, at }, &mut halves.north)?;
                self.push_live(
                    PlacedSquare {
                        id: ne,
                        at: corners.ne,
                    },
                    &mut halves.north,
                )?;
                self.push_live(
                    PlacedSquare {
                        id: sw,
                        at: corners.sw,
                    },
                    &mut halves.south,
                )?;
                self.push_live(
                    PlacedSquare {
                        id: se,
                        at: corners.se,
                    },
                    &mut halves.south,
                )?;
                Ok(())
            }
        }
    }

    // Adds a square, where it has live cells.
    fn push_live(&self, square: PlacedSquare, squares: &mut Vec<PlacedSquare>) -> Result<(), Memory>
        requires { IsIn self.now square.id }
        ensures { OnOk result (IsAdded self.now square squares.old.items squares.new.items) }
    {
        if self.is_empty(square.id) {
            return Ok(());
        }
        squares.push(square)?;
        Ok(())
    }

    // Writes the live cells of one row of 2 by 2 squares.
    fn draw_row(&self, squares: &[PlacedSquare], row: u8, plane: &mut Plane) -> Result<(), Memory>
        requires row { row ≤ 1 }
        requires ready { (all : ℤ → ℤ → ℕ) × AreReady self.now all 1 squares.now }
        ensures { (all : ℤ → ℤ → ℕ) → AreReady self.now all 1 squares.now
            → OnOk result (Paints all plane.old plane.new (IsLiveInRow self.now row squares.now)) }
    {
        'squares: for &square in squares {
            self.draw_two(square, row, plane)?;
        }
        Ok(())
    }

    // Writes the live cells of one row of a 2 by 2 square.
    fn draw_two(&self, square: PlacedSquare, row: u8, plane: &mut Plane) -> Result<(), Memory>
        requires row { row ≤ 1 }
        requires ready { (all : ℤ → ℤ → ℕ) × IsReadyToDraw self.now all 1 square }
        ensures { (all : ℤ → ℤ → ℕ) → IsReadyToDraw self.now all 1 square
            → OnOk result (Paints all plane.old plane.new
            (λ x y. IsLiveAt (placed_cells self.now square) x y × (y ≡ square.at.y +ℤ pos row))) }
    {
        let corners = part_corners(square.at, 1);
        match self.square(square.id) {
            Square::Four(nw, ne, sw, se) => {
                if row == 0 {
                    draw_cell(nw, square.at, plane)?;
                    return draw_cell(ne, corners.ne, plane);
                }
                draw_cell(sw, corners.sw, plane)?;
                draw_cell(se, corners.se, plane)
            }
            Square::Parts(_, _, _, _, _) => unreachable!(),
        }
    }
}

// Writes a cell, where it is live.
fn draw_cell(state: u8, at: Spot, plane: &mut Plane) -> Result<(), Memory>
    requires near { CanDraw (one_cell state) 1 at }
    ensures { (all : ℤ → ℤ → ℕ) → Agrees all (cells_at_corner (one_cell state) at)
        → OnOk result (Paints all plane.old plane.new (IsLiveAt (cells_at_corner (one_cell state) at))) }
{
    if state == 0 {
        return Ok(());
    }
    plane.set(point(at), state)?;
    Ok(())
}
