//! The texts of rules' and rule tables' faults.

ghost use Rattle.std.specs.Prelude.{◌≡◌, ◌≢◌, ℕ, List, ◌++◌};
ghost use Rattle.ca_rule.specs.declared.table.fault.TableFault.TheVariants as table_fault;
ghost use Rattle.ca_pattern.specs.FaultTexts.{table_text, table_line, rule_fault_text};

use ca_rule::{RuleFault, TableFault};

/// Why a text names no rule.
pub fn rule_fault_text<'a>(fault: RuleFault) -> &'a [u8]
    ensures { result.now ≡ rule_fault_text fault }
{
    match fault {
        RuleFault::Bounded => b"bounded",
        RuleFault::Wakes => b"wakes",
        RuleFault::Unknown => b"unknown",
    }
}

/// The number of the line at which a rule table is faulty, or 0 where memory is out.
pub fn table_line(fault: TableFault) -> u64
    ensures { result ≡ table_line fault }
{
    match fault {
        TableFault::NoRuleLine { line }
        | TableFault::NoTable { line }
        | TableFault::Syntax { line }
        | TableFault::States { line }
        | TableFault::Neighborhood { line }
        | TableFault::Symmetries { line }
        | TableFault::Variable { line }
        | TableFault::Unbound { line }
        | TableFault::Wakes { line } => line,
        TableFault::Memory => 0,
    }
}

/// What is wrong with a rule table, after a space, where it isn't that memory is out.
pub fn table_kind<'a>(fault: TableFault) -> &'a [u8]
    ensures { (words : ℕ → List ℕ) → fault ≢ table_fault.Memory
        → table_text words fault ≡ words (table_line fault) ++ result.now }
{
    match fault {
        TableFault::NoRuleLine { .. } => b" no rule line",
        TableFault::NoTable { .. } => b" no table",
        TableFault::Syntax { .. } => b" syntax",
        TableFault::States { .. } => b" states",
        TableFault::Neighborhood { .. } => b" neighborhood",
        TableFault::Symmetries { .. } => b" symmetries",
        TableFault::Variable { .. } => b" variable",
        TableFault::Unbound { .. } => b" unbound",
        TableFault::Wakes { .. } => b" wakes",
        TableFault::Memory => b"",
    }
}
