//! A text, read a line at a time.

ghost use Rattle.std.specs.Prelude.{◌≡◌, ◌↔◌, ℤ, pos, ◌+ℤ◌, ◌<ℤ◌, [], not, length, if◌then◌else◌, IsTrue, OnOk, IfOk, IfErr};
ghost use Rattle.ca_plane.specs.Prelude.{bit_cell, Every, is_line_end, range, IsInRange};
ghost use Rattle.ca_import.specs.CellLines.{CellLine, LiveCell, Row, IsRowInRange, east, south, is_live_in_row};
ghost use Rattle.ca_import.specs.Import.{LineSays, IsLineFault};
ghost use Rattle.ca_import.specs.inner.Lines.{IsSaid, IsAloneFault, IsBounded, said_of};
ghost use Rattle.ca_import.specs.inner.Reading.{IsPlace, IsRowPlace, IsReady, Takes, IsRefused, IsReading};

use crate::cell_line::Line;
use crate::fault::ImportFault;
use crate::format::LineFormat;
use crate::life105::life105_line;
use crate::life106::life106_line;
use crate::plaintext::plaintext_line;
use crate::rows::{is_live_byte, live_count};
use ca_plane::limits::{MOST_CELLS, RANGE};
use ca_plane::{BitPlane, Memory, Point};
use ca_rule::BsRule;
use std::alloc::Global;

/// What a line of the format says.
///
/// # Errors
///
/// `Syntax` where the line says nothing that the format knows; else `Range` where its cell or its corner is
/// out of range.
fn read_line(format: LineFormat, line: &[u8]) -> Result<Line<'_>, ImportFault>
    requires { Every (λ b. not (is_line_end b)) line.now }
    ensures said { IfOk result (IsSaid (LineSays format line.now)) }
    ensures fault { IfErr result (IsAloneFault (LineSays format line.now)) }
{
    match format {
        LineFormat::Life106 => life106_line(line),
        LineFormat::Life105 => life105_line(line),
        LineFormat::Plaintext => plaintext_line(line),
    }
}

/// The x of the point after a row's last cell, where the row begins at a point.
fn row_end(at: Point, cells: &[u8]) -> i128
    ensures { result ≡ at.x +ℤ pos (length cells.now) }
{
    i128::from(at.x) + cells.len() as i128
}

/// Whether a row that begins at a point lies in the range of a file to the east and the south.
fn is_row_in_range(at: Point, cells: &[u8]) -> bool
    ensures { IsTrue result ↔ IsRowInRange at cells.now }
{
    i128::from(at.y) < RANGE && row_end(at, cells) <= RANGE
}

/// The next point to the east.
fn east(at: Point) -> Point
    requires { at.x <ℤ pos range }
    ensures { result ≡ east at }
{
    Point {
        y: at.y,
        x: at.x + 1,
    }
}

/// The next point to the south.
fn south(at: Point) -> Point
    requires { at.y <ℤ pos range }
    ensures { result ≡ south at }
{
    Point {
        y: at.y + 1,
        x: at.x,
    }
}

/// Makes the live cells of a row live, from a point to the east.
fn draw_row(plane: &mut BitPlane, first: Point, cells: &[u8]) -> Result<(), Memory>
    requires place { IsRowPlace first }
    requires range { IsRowInRange first cells.now }
    ensures { OnOk result ((x y : ℤ) → bit_cell plane.new x y
        ≡ (if is_live_in_row first cells.now x y then 1 else bit_cell plane.old x y)) }
{
    let mut at = first;
    let mut rest = cells;
    'cells: while let Some((cell, later)) = rest.split_first() {
        if is_live_byte(*cell) {
            plane.add_run(at, 1)?;
        }
        at = east(at);
        rest = later;
    }
    Ok(())
}

/// What the lines of a text have said so far.
#[derive(Drop)]
pub(crate) struct Reading {
    /// The live cells.
    pub(crate) cells: BitPlane,
    /// Where the next row begins, if rows may come.
    pub(crate) place: Option<Point>,
    /// How many live cells were named.
    pub(crate) count: u64,
    /// The last rule.
    pub(crate) rule: Option<BsRule>,
}

impl Reading {
    /// Before the first line.
    pub(crate) fn new(alloc: Global, first: Option<Point>) -> Reading
        requires { IsPlace first }
        ensures { IsReading first [] result }
    {
        Reading {
            cells: BitPlane::new(alloc),
            place: first,
            count: 0,
            rule: None,
        }
    }

    /// A line names one live cell.
    fn add_cell(&mut self, at: Point) -> Result<(), ImportFault>
        requires ready { IsReady self.old }
        requires range { IsInRange at }
        ensures takes { OnOk result (Takes (LiveCell at) self.old self.new) }
        ensures fault { IfErr result (λ f. IsRefused f (LiveCell at) self.old.place self.old.count) }
    {
        if self.count >= MOST_CELLS {
            return Err(ImportFault::TooManyCells);
        }
        self.cells.add_run(at, 1)?;
        self.count += 1;
        Ok(())
    }

    /// A line is a row of cells.
    fn add_row(&mut self, cells: &[u8]) -> Result<(), ImportFault>
        requires { IsReady self.old }
        ensures takes { OnOk result (Takes (Row cells.now) self.old self.new) }
        ensures fault { IfErr result (λ f. IsRefused f (Row cells.now) self.old.place self.old.count) }
    {
        let Some(at) = self.place else {
            return Err(ImportFault::NoCorner);
        };
        if !is_row_in_range(at, cells) {
            return Err(ImportFault::Range);
        }
        let count = live_count(cells);
        if count > MOST_CELLS - self.count {
            return Err(ImportFault::TooManyCells);
        }
        draw_row(&mut self.cells, at, cells)?;
        self.count += count;
        self.place = Some(south(at));
        Ok(())
    }

    /// A line says this.
    fn take(&mut self, line: Line<'_>) -> Result<(), ImportFault>
        requires ready { IsReady self.old }
        requires bounded { IsBounded (said_of line) }
        ensures takes { OnOk result (Takes (said_of line.entry) self.old self.new) }
        ensures fault { IfErr result (λ f. IsRefused f (said_of line.entry) self.old.place self.old.count) }
    {
        match line {
            Line::Nothing => Ok(()),
            Line::LiveCell(at) => self.add_cell(at),
            Line::Row(cells) => self.add_row(cells),
            Line::Corner(at) => {
                self.place = Some(at);
                Ok(())
            }
            Line::Rule(rule) => {
                self.rule = Some(rule);
                Ok(())
            }
        }
    }

    /// Reads the next line of a text.
    ///
    /// # Errors
    ///
    /// The line's fault; and `Memory` where there is no memory for the cells of a good line.
    pub(crate) fn read(&mut self, format: LineFormat, line: &[u8]) -> Result<(), ImportFault>
        requires ready { IsReady self.old }
        requires line { Every (λ b. not (is_line_end b)) line.now }
        ensures takes { OnOk result ((s : CellLine) × LineSays format line.now s × Takes s self.old self.new) }
        ensures fault { IfErr result (λ f. IsLineFault f format self.old.place self.old.count line.now) }
    {
        let said = read_line(format, line)?;
        self.take(said)
    }
}
