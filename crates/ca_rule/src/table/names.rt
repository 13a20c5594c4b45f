//! The names of variables, and what the fields of lines stand for.

ghost use Rattle.std.specs.Prelude.{◌≡◌, ◌≤◌, ℕ, List, length, true, IfOk, IfErr};
ghost use Rattle.std.specs.List.{list_all, AllZip};
ghost use Rattle.ca_rule.specs.TableLines.{is_field};
ghost use Rattle.ca_rule.specs.inner.TableFields.{fields_left};

use crate::digits::are_digits;
use crate::table::fields::FieldsLeft;
use crate::table::slot::Slot;
use crate::table::statement_fault::StatementFault;
use crate::table::transition_slots::TransitionSlots;
use ca_plane::bytes::number;
use std::alloc::Global;
use std::collections::HashMap;

/// The numbers of the last variables of each name.
#[derive(Drop)]
pub(crate) struct Names<'a> {
    numbers: HashMap<&'a [u8], usize>,
}

impl<'a> Names<'a> {
    ghost use Rattle.std.specs.Prelude.{None, Some, OnOk};
    ghost use Rattle.std.specs.Map.{update};
    ghost use Rattle.std.specs.Str.{bytes_eq};
    ghost use Rattle.ca_rule.specs.declared.table.slot.Slot.{Slot as SlotValue};
    ghost use Rattle.ca_rule.specs.inner.TableNames.{number_in, IsSlot, IsNoSlot, HasNoSlot, IsFaultAmong};
    ghost use Rattle.ca_rule.specs.inner.TableSlots.{slots_of};

    /// Before the first variable.
    pub(crate) fn new(alloc: Global) -> Names<'a>
        ensures { (name : List ℕ) → number_in result name ≡ None }
    {
        Names {
            numbers: HashMap::new(alloc),
        }
    }

    /// The number of the last variable of this name.
    fn number(&self, name: &[u8]) -> Option<usize>
        ensures { result ≡ number_in self.now name.now }
    {
        self.numbers.get(name).copied()
    }

    /// Gives the name this number.
    pub(crate) fn put(&mut self, name: &'a [u8], number: usize) -> Result<(), StatementFault>
        ensures { OnOk result ((other : List ℕ)
            → number_in self.new other ≡ update bytes_eq (number_in self.old) name.now (Some number) other) }
    {
        if self.numbers.insert(name, number).is_err() {
            return Err(StatementFault::Memory);
        }
        Ok(())
    }

    /// What the field stands for in a table with this many states.
    fn slot(&self, states: u16, field: &[u8]) -> Result<Slot, StatementFault>
        requires low { states ≤ 256 }
        requires field { is_field field.now ≡ true }
        ensures stands { IfOk result (IsSlot states (number_in self.now) field.now) }
        ensures fault { IfErr result (IsNoSlot states (number_in self.now) field.now) }
    {
        if are_digits(field) {
            let state = number(field);
            if state >= u64::from(states) {
                return Err(StatementFault::State);
            }
            return Ok(Slot::Number(state as u8));
        }
        match self.number(field) {
            Some(number) => Ok(Slot::Variable(number)),
            None => Err(StatementFault::Name),
        }
    }

    /// Whether each of the fields stands for something in a table with this many states.
    fn judge(&self, states: u16, fields: &FieldsLeft<'_>) -> Result<(), StatementFault>
        requires low { states ≤ 256 }
        requires fields { list_all is_field (fields_left fields.now) ≡ true }
        ensures stand { OnOk result ((slots : List SlotValue)
            × AllZip (IsSlot states (number_in self.now)) (fields_left fields.now) slots) }
        ensures fault { IfErr result (HasNoSlot states (number_in self.now) (fields_left fields.now)) }
    {
        let mut left = *fields;
        'fields: while let Some((field, later)) = left.next() {
            self.slot(states, field)?;
            left = later;
        }
        Ok(())
    }

    /// What the fields of a transition stand for in a table with this many states.
    pub(crate) fn transition_slots(
        &self,
        states: u16,
        fields: &FieldsLeft<'_>,
    ) -> Result<TransitionSlots, StatementFault>
        requires low { states ≤ 256 }
        requires few { length (fields_left fields.now) ≤ 10 }
        requires fields { list_all is_field (fields_left fields.now) ≡ true }
        ensures stand { IfOk result
            (λ s. AllZip (IsSlot states (number_in self.now)) (fields_left fields.now) (slots_of s)) }
        ensures fault { IfErr result (HasNoSlot states (number_in self.now) (fields_left fields.now)) }
    {
        let mut slots = TransitionSlots::new();
        let mut left = *fields;
        'fields: while let Some((field, later)) = left.next() {
            let slot = self.slot(states, field)?;
            slots.push(slot);
            left = later;
        }
        Ok(slots)
    }

    /// What the fields stand for in a table with this many states. All are judged before anything grows.
    pub(crate) fn slots(
        &self,
        alloc: Global,
        states: u16,
        fields: &FieldsLeft<'_>,
    ) -> Result<Vec<Slot>, StatementFault>
        requires low { states ≤ 256 }
        requires fields { list_all is_field (fields_left fields.now) ≡ true }
        ensures stand { IfOk result
            (λ v. AllZip (IsSlot states (number_in self.now)) (fields_left fields.now) v.items) }
        ensures fault { IfErr result (IsFaultAmong states (number_in self.now) (fields_left fields.now)) }
    {
        self.judge(states, fields)?;
        let mut slots = Vec::new(alloc);
        let mut left = *fields;
        'fields: while let Some((field, later)) = left.next() {
            let slot = self.slot(states, field)?;
            if slots.push(slot).is_err() {
                return Err(StatementFault::Memory);
            }
            left = later;
        }
        Ok(slots)
    }
}
