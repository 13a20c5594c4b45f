//! How rules of two states tell next states, for many cells at once.

ghost use Rattle.std.specs.Prelude.{IfOk, IfSome};
ghost use Rattle.ca_bricks.specs.CellRules.{GoesByCells};

use crate::diagram::Diagram;
use crate::found_counting::counting_of;
use crate::next_states::next_states;
use ca_plane::{Automaton, Counting, Memory};
use std::alloc::Global;

/// What gives the next states of cells of two states, many at once.
#[derive(Drop)]
pub enum CellRule {
    /// The number of live cells among some neighbours.
    ByCounting(Counting),
    /// The nine cells, one after the other.
    ByDiagram(Diagram),
}

impl CellRule {
    /// That of a rule of two states, and none of one of more.
    ///
    /// # Errors
    ///
    /// Fails where there is no memory for it.
    pub fn of<A: Automaton>(alloc: Global, rule: &A) -> Result<Option<CellRule>, Memory>
        ensures { IfOk result (λ found. IfSome found (GoesByCells (A.next_of rule.now))) }
    {
        if let Some(counting) = rule.counting() {
            return Ok(Some(CellRule::ByCounting(counting)));
        }
        if rule.states() != 2 {
            return Ok(None);
        }
        let states = next_states(alloc, rule)?;
        if let Some(counting) = counting_of(&states) {
            return Ok(Some(CellRule::ByCounting(counting)));
        }
        let Some(diagram) = Diagram::of(alloc, &states)? else {
            return Ok(None);
        };
        Ok(Some(CellRule::ByDiagram(diagram)))
    }
}
