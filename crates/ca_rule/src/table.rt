//! Rule tables: the rules of files with an `@TABLE` section.

pub(crate) mod choice;
mod crowd;
pub(crate) mod fault;
pub(crate) mod fields;
mod head;
mod indexed;
mod laws;
mod lines;
pub(crate) mod names;
pub(crate) mod neighbourhood;
mod parts_fault;
mod placement;
mod reading;
pub(crate) mod said_lines;
pub(crate) mod settings;
pub(crate) mod slot;
mod state_set;
pub(crate) mod statement;
pub(crate) mod statement_fault;
pub(crate) mod statements;
mod text_laws;
mod ties;
mod transition;
mod transition_index;
pub(crate) mod transition_slots;
pub(crate) mod variable_line;

use ca_plane::{Automaton, Nine};
pub use fault::TableFault;
use head::table_lines;
use indexed::{IndexedTransitions, first_outcome};
pub use laws::{untied_tables, worked_cells, worked_orders, worked_texts, worked_transitions};
pub use neighbourhood::{Neighbourhood, Symmetry};
pub(crate) use parts_fault::PartsFault;
use placement::Orders;
use reading::read_statements;
use settings::read_settings;
pub use slot::Slot;
use state_set::StateSet;
use std::alloc::Global;
use std::marker::Model;
pub use text_laws::{one_table, table_or_fault};
use transition::Transition;

/// A rule table: the rule of a file with an `@TABLE` section (Golly Help, File Formats: rule tables). It
/// leaves the empty plane empty.
#[derive(Drop)]
pub struct Table {
    name: Vec<u8>,
    states: u16,
    neighbourhood: Neighbourhood,
    symmetry: Symmetry,
    indexed: IndexedTransitions,
}

impl Model for Table {
    ghost use Rattle.ca_rule.specs.TableNext.{TableRule};
    ghost use Rattle.ca_rule.specs.inner.TableStored.{stored_table, IsStoredTable};

    ghost Value = { TableRule };

    ghost view = { λ t. stored_table t.name.items t.states t.neighbourhood t.symmetry t.indexed.variables
        t.indexed.transitions };

    ghost invariant = { λ t. IsStoredTable
        (stored_table t.name.items t.states t.neighbourhood t.symmetry
        t.indexed.variables t.indexed.transitions) };
}

impl Table {
    ghost use Rattle.std.specs.Prelude.{◌≡◌, ◌≤◌, true, replicate, IfOk, IfErr};
    ghost use Rattle.std.specs.List.{list_all};
    ghost use Rattle.ca_plane.specs.Prelude.{IsWord};
    ghost use Rattle.ca_rule.specs.TableNext.{Transition as TransitionValue, table_next};
    ghost use Rattle.ca_rule.specs.TableText.{IsTable};
    ghost use Rattle.ca_rule.specs.TableFaults.{IsTableTextFault};
    ghost use Rattle.ca_rule.specs.TableTies.{has_ties};
    ghost use Rattle.ca_rule.specs.inner.TableStored.{stored_table, is_below, IsPartsFault};

    /// The table of a rule file's text, or what is wrong with its first faulty line. Out of memory comes only
    /// where a good statement or the whole table was read.
    pub fn parse(alloc: Global, text: &[u8]) -> Result<Table, TableFault>
        ensures found { IfOk result (IsTable text.now) }
        ensures quiet { IfOk result (λ t. table_next t (replicate 9 0) ≡ 0) }
        ensures fault { IfErr result (IsTableTextFault text.now) }
    {
        let (name, lines) = table_lines(text)?;
        let (settings, tail_after) = read_settings(&lines)?;
        let statements = read_statements(alloc, &settings, &tail_after)?;
        let Ok(name) = name.to_vec(alloc) else {
            return Err(TableFault::Memory);
        };
        let (variables, transitions) = statements.into_parts();
        let made = Table::of_parts(
            alloc,
            name,
            settings.states,
            settings.neighbourhood,
            settings.symmetry,
            variables,
            transitions,
        );
        match made {
            Ok(table) => Ok(table),
            Err(fault) => Err(fault.at(lines.last_line())),
        }
    }

    /// The table of these parts.
    ///
    /// # Errors
    ///
    /// `Wakes` where it would turn nine zeros into another state, however much memory there is. Else fails
    /// where there is no memory for indices of the transitions.
    pub(crate) fn of_parts(
        alloc: Global,
        name: Vec<u8>,
        states: u16,
        neighbourhood: Neighbourhood,
        symmetry: Symmetry,
        variables: Vec<StateSet>,
        transitions: Vec<Transition>,
    ) -> Result<Table, PartsFault>
        requires named { IsWord name.items }
        requires low { 2 ≤ states }
        requires high { states ≤ 256 }
        requires results { list_all
            (λ (t : TransitionValue). is_below states t.result) transitions.items ≡ true }
        ensures parts { IfOk result
            (λ t. t ≡ stored_table name.items states neighbourhood symmetry
            variables.items transitions.items) }
        ensures quiet { IfOk result (λ t. table_next t (replicate 9 0) ≡ 0) }
        ensures fault { IfErr result
            (IsPartsFault
            (stored_table name.items states neighbourhood symmetry variables.items transitions.items)) }
    {
        let orders = Orders::of(neighbourhood, symmetry);
        if first_outcome(&variables, &transitions, orders, &[0; 9]) != 0 {
            return Err(PartsFault::Wakes);
        }
        let Ok(indexed) = IndexedTransitions::of(alloc, states, variables, transitions) else {
            return Err(PartsFault::Memory);
        };
        Ok(Table {
            name,
            states,
            neighbourhood,
            symmetry,
            indexed,
        })
    }

    /// Whether the table has a tie: a transition that may give one neighbourhood two states, by a result
    /// variable, each under an order in which it fits. The first of these orders decides here; Golly may take
    /// the state of another. No table without a tie has such a transition.
    pub fn has_ties(&self) -> bool
        ensures { result ≡ has_ties self.now }
    {
        self.indexed
            .have_ties(self.states, self.neighbourhood, self.symmetry)
    }

    /// The name that the file's `@RULE` line gives.
    pub fn name(&self) -> &[u8]
        ensures name { result.now ≡ self.now.name }
        ensures word { IsWord result.now }
    {
        &self.name
    }
}

impl Automaton for Table {
    ghost use Rattle.std.specs.Prelude.{◌≡◌, None};
    ghost use Rattle.ca_rule.specs.TableNext.{IsSoundTable, table_next};

    ghost state_count = { λ table. table.states };

    ghost next_of = { table_next };

    ghost sound = { IsSoundTable };

    fn states(&self) -> u16 {
        self.states
    }

    fn next(&self, nine: &Nine) -> u8 {
        let orders = Orders::of(self.neighbourhood, self.symmetry);
        self.indexed.next(orders, nine)
    }

    /// None: whether a table goes by the number of live neighbours isn't looked for.
    fn masks(&self) -> Option<(u16, u16)>
        ensures { result ≡ None }
    {
        None
    }

    ghost closed = { λ table nine sound. sound.closed nine };

    ghost quiet = { λ table sound. sound.quiet };
}
