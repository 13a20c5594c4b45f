//! Cells that are drawn while a text is read.

ghost use Rattle.std.specs.Prelude.{◌≡◌, ◌<◌, ◌≤◌, ◌+◌, ◌⊎◌, ◌∷◌, length, replicate, IfOk, MatchOption, None};
ghost use Rattle.ca_apgcode.specs.inner.Drawing.{Draws, IsStuck, EndsStrip, DrawsStep, LacksColumns};
ghost use Rattle.ca_apgcode.specs.inner.Reading.{step_at};

use crate::front::step_at;
use crate::grid::MOST_SIDE;
use ca_plane::Memory;
use std::alloc::Global;

// Columns of cells. Those of the strips above the row y are drawn, and in the strip from that row onwards those
// west of the column x.
#[derive(Drop)]
pub(crate) struct Drawing {
    pub(crate) columns: Vec<u64>,
    pub(crate) x: u8,
    pub(crate) y: u8,
}

impl Drawing {
    /// Nothing is drawn.
    pub(crate) fn new(alloc: Global) -> Result<Drawing, Memory>
        ensures columns { IfOk result (λ d. d.columns.items ≡ replicate 40 0) }
        ensures x { IfOk result (λ d. d.x ≡ 0) }
        ensures y { IfOk result (λ d. d.y ≡ 0) }
    {
        let columns = vec![in alloc; 0u64; usize::from(MOST_SIDE)]?;
        Ok(Drawing {
            columns,
            x: 0,
            y: 0,
        })
    }

    /// Draws what is at the front of a text, a step or the `z` before the next strip. Gives what follows it.
    pub(crate) fn take<'a>(&mut self, bytes: &'a [u8]) -> Option<&'a [u8]>
        requires x { self.old.x ≤ 40 }
        requires y { self.old.y < 40 }
        requires columns { length self.old.columns.items ≡ 40 }
        ensures { MatchOption result (IsStuck self.old bytes.now)
            (λ rest. Draws self.old self.new bytes.now rest.now) }
    {
        match bytes.split_first() {
            Some((b'z', rest)) => self.end_strip(rest),
            _ => self.draw_step(bytes),
        }
    }

    // Begins the next strip, after the `z` before it.
    fn end_strip<'a>(&mut self, rest: &'a [u8]) -> Option<&'a [u8]>
        requires y { self.old.y < 40 }
        ensures { MatchOption result (40 ≤ self.old.y + 5)
            (λ left. (left.now ≡ rest.now) × EndsStrip self.old self.new (122 ∷ rest.now) left.now) }
    {
        if MOST_SIDE <= self.y + 5 {
            return None;
        }
        self.x = 0;
        self.y += 5;
        Some(rest)
    }

    // Draws the step at the front of a text.
    fn draw_step<'a>(&mut self, bytes: &'a [u8]) -> Option<&'a [u8]>
        requires x { self.old.x ≤ 40 }
        requires y { self.old.y < 40 }
        requires columns { length self.old.columns.items ≡ 40 }
        ensures { MatchOption result (LacksColumns self.old bytes.now ⊎ (step_at bytes.now ≡ None))
            (λ rest. DrawsStep self.old self.new bytes.now rest.now) }
    {
        let step = step_at(bytes)?;
        let x = self.x + step.gap;
        if MOST_SIDE <= x {
            return None;
        }
        let column = self.columns[usize::from(x)];
        self.columns[usize::from(x)] = column | (u64::from(step.column) << self.y);
        self.x = x + 1;
        Some(step.rest)
    }
}
