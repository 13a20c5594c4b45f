//! The statements of a rule table, by their spelling.

ghost use Rattle.std.specs.Prelude.{◌≡◌, ◌≤◌, ◌+◌, ℕ, List, MatchOption};
ghost use Rattle.ca_rule.specs.TableLines.{IsTransitionLine};
ghost use Rattle.ca_rule.specs.TableOrders.{ring_size};
ghost use Rattle.ca_rule.specs.TableText.{Settings, SaidStatements, field_count};
ghost use Rattle.ca_rule.specs.TableFaults.{IsMisspelled};
ghost use Rattle.ca_rule.specs.inner.TableFields.{fields_left};
ghost use Rattle.ca_rule.specs.inner.TableStatements.{IsStatement};

use crate::table::fields::FieldsLeft;
use crate::table::lines::begins_variable;
use crate::table::neighbourhood::Neighbourhood;
use crate::table::variable_line::{VariableLine, variable_line};

/// A statement, by its spelling.
#[derive(Clone, Copy)]
pub(crate) enum Statement<'a> {
    Variable(VariableLine<'a>),
    /// A transition, with its fields: the result is the last.
    Transition(FieldsLeft<'a>),
}

/// How many fields a transition has: the centre, the ring, and the result.
pub(crate) fn field_count(neighbourhood: Neighbourhood) -> usize
    ensures count { result ≡ ring_size neighbourhood + 2 }
    ensures some { 1 ≤ result }
    ensures few { result ≤ 10 }
{
    match neighbourhood {
        Neighbourhood::VonNeumann => 6,
        Neighbourhood::Moore => 10,
        Neighbourhood::Hexagonal => 8,
        Neighbourhood::OneDimensional => 4,
    }
}

/// The fields of a transition, where the line is spelled as one of this many slots.
fn transition_fields(content: &[u8], slots: usize) -> Option<FieldsLeft<'_>>
    ensures { (n : ℕ)
        → MatchOption result ((fields : List (List ℕ)) → IsTransitionLine (n, content.now) slots fields → ⊥)
        (λ f. IsTransitionLine (n, content.now) slots (fields_left f)) }
{
    if begins_variable(content) {
        return None;
    }
    let fields = FieldsLeft::of_line(content);
    if !fields.are_as_many_as(slots) {
        return None;
    }
    if !fields.are_spelled() {
        return None;
    }
    Some(fields)
}

/// What the line states, by its spelling, in a table whose transitions have this many slots.
pub(crate) fn read_statement(content: &[u8], slots: usize) -> Option<Statement<'_>>
    ensures { (n : ℕ) (settings : Settings) (said : SaidStatements) → slots ≡ field_count settings
        → MatchOption result (IsMisspelled settings said (n, content.now))
        (IsStatement (n, content.now) slots) }
{
    if let Some(line) = variable_line(content) {
        return Some(Statement::Variable(line));
    }
    let Some(fields) = transition_fields(content, slots) else {
        return None;
    };
    Some(Statement::Transition(fields))
}
