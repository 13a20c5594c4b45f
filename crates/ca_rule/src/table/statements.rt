//! What the statements of a rule table say, one after another.

ghost use Rattle.std.specs.Prelude.{◌≡◌, ◌≤◌, ◌∷◌, [], ◌++◌, ℕ, true, List, OnOk, IfErr};
ghost use Rattle.std.specs.List.{list_all, list_any, AllZip};
ghost use Rattle.ca_rule.specs.declared.table.slot.Slot.{Slot as SlotValue};
ghost use Rattle.ca_rule.specs.TableLines.{is_field, fields_between};
ghost use Rattle.ca_rule.specs.TableNext.{is_variable};
ghost use Rattle.ca_rule.specs.TableText.{Settings, SaidStatements, StandsFor, is_bound};
ghost use Rattle.ca_rule.specs.inner.TableFields.{fields_left, AreTransitionFields};
ghost use Rattle.ca_rule.specs.inner.TableNames.{number_in, IsFaultAmong, IsFaultOfTransition};
ghost use Rattle.ca_rule.specs.inner.TableSettings.{meaning_of};

use crate::table::fields::FieldsLeft;
use crate::table::names::Names;
use crate::table::settings::TableSettings;
use crate::table::slot::Slot;
use crate::table::state_set::{StateSet, states_among};
use crate::table::statement::{Statement, field_count, read_statement};
use crate::table::statement_fault::StatementFault;
use crate::table::transition::{Transition, is_variable};
use crate::table::variable_line::VariableLine;
use std::alloc::Global;

/// What statements have said so far.
#[derive(Drop)]
pub(crate) struct Statements<'a> {
    names: Names<'a>,
    variables: Vec<StateSet>,
    transitions: Vec<Transition>,
}

impl<'a> Statements<'a> {
    ghost use Rattle.ca_rule.specs.TableText.{no_statements};
    ghost use Rattle.ca_rule.specs.inner.TableSaid.{KeepsStatements, with_variable, with_transition};
    ghost use Rattle.ca_rule.specs.inner.TableSaying.{IsKeptBehind, IsFaultOfLine};

    /// Before the first statement.
    pub(crate) fn new(alloc: Global) -> Statements<'a>
        ensures { KeepsStatements no_statements result }
    {
        Statements {
            names: Names::new(alloc),
            variables: Vec::new(alloc),
            transitions: Vec::new(alloc),
        }
    }

    /// The line says one more variable, in a table with this many states.
    fn add_variable(&mut self, states: u16, line: &VariableLine<'a>) -> Result<(), StatementFault>
        requires low { states ≤ 256 }
        requires fields { list_all is_field (fields_between line.now.inside.now) ≡ true }
        ensures said { OnOk result ((settings : Settings) (said : SaidStatements) → settings.states ≡ states
            → KeepsStatements said self.old → (slots : List SlotValue)
            × AllZip (StandsFor settings said) (fields_between line.now.inside.now) slots
            × KeepsStatements (with_variable settings said line.now.name.now slots) self.new) }
        ensures fault { IfErr result
            (IsFaultAmong states (number_in self.old.names) (fields_between line.now.inside.now)) }
    {
        let fields = FieldsLeft::inside(line.inside);
        let alloc = *self.variables.allocator();
        let slots = self.names.slots(alloc, states, &fields)?;
        let set = states_among(states, &self.variables, &slots);
        let number = self.variables.len();
        if self.variables.push(set).is_err() {
            return Err(StatementFault::Memory);
        }
        if self.names.put(line.name, number).is_err() {
            return Err(StatementFault::Memory);
        }
        Ok(())
    }

    /// The fields say one more transition, in a table with this many states.
    fn add_transition(&mut self, states: u16, fields: &FieldsLeft<'_>) -> Result<(), StatementFault>
        requires low { states ≤ 256 }
        requires fields { AreTransitionFields (fields_left fields.now) }
        ensures said { OnOk result ((settings : Settings) (said : SaidStatements) → settings.states ≡ states
            → KeepsStatements said self.old → (inputs : List SlotValue) × (becomes : SlotValue)
            × AllZip (StandsFor settings said) (fields_left fields.now) (inputs ++ becomes ∷ [])
            × (is_bound becomes inputs ≡ true)
            × KeepsStatements (with_transition said inputs becomes) self.new) }
        ensures fault { IfErr result
            (IsFaultOfTransition states (number_in self.old.names) (fields_left fields.now)) }
    {
        let slots = self.names.transition_slots(states, fields)?;
        let Some((becomes, inputs)) = slots.all().split_last() else {
            // A transition has a result, so that this isn't reached.
            return Err(StatementFault::Syntax);
        };
        if !is_bound(*becomes, inputs) {
            return Err(StatementFault::Unbound);
        }
        let Ok(inputs) = inputs.to_vec(*self.transitions.allocator()) else {
            return Err(StatementFault::Memory);
        };
        let transition = Transition::new(inputs, *becomes);
        if self.transitions.push(transition).is_err() {
            return Err(StatementFault::Memory);
        }
        Ok(())
    }

    /// The line says one more variable or transition.
    pub(crate) fn add(
        &mut self,
        settings: &TableSettings,
        content: &'a [u8],
    ) -> Result<(), StatementFault>
        requires low { settings.now.states ≤ 256 }
        ensures said { OnOk result ((n : ℕ) (said : SaidStatements) → KeepsStatements said self.old
            → IsKeptBehind (meaning_of settings.now) said (n, content.now) self.new) }
        ensures fault { IfErr result (λ f. (n : ℕ) (said : SaidStatements) → KeepsStatements said self.old
            → IsFaultOfLine (meaning_of settings.now) said (n, content.now) f) }
    {
        let count = field_count(settings.neighbourhood);
        let Some(statement) = read_statement(content, count) else {
            return Err(StatementFault::Syntax);
        };
        match statement {
            Statement::Variable(line) => self.add_variable(settings.states, &line),
            Statement::Transition(fields) => self.add_transition(settings.states, &fields),
        }
    }

    /// The sets of the variables, and the transitions.
    pub(crate) fn into_parts(self) -> (Vec<StateSet>, Vec<Transition>)
        ensures variables { result.0.items ≡ self.entry.variables.items }
        ensures transitions { result.1.items ≡ self.entry.transitions.items }
    {
        (self.variables, self.transitions)
    }
}

/// Whether the result is a number, or a variable among the inputs.
fn is_bound(becomes: Slot, inputs: &[Slot]) -> bool
    ensures { result ≡ is_bound becomes inputs.now }
{
    match becomes {
        Slot::Number(_) => true,
        Slot::Variable(number) => has_variable(number, inputs),
    }
}

/// Whether the variable is one of the slots.
fn has_variable(number: usize, slots: &[Slot]) -> bool
    ensures { result ≡ list_any (is_variable number) slots.now }
{
    slots.iter().any(|slot| is_variable(number, *slot))
}
