//! What is wrong with a statement of a rule table.

use crate::table::fault::TableFault;

/// What is wrong with a statement.
#[derive(Clone, Copy)]
pub(crate) enum StatementFault {
    /// The line is spelled neither as a variable's nor as a transition.
    Syntax,
    /// The number is no state of the table.
    State,
    /// No earlier variable has the name.
    Name,
    /// The result is a variable that is no input.
    Unbound,
    /// An allocation failed.
    Memory,
}

impl StatementFault {
    ghost use Rattle.std.specs.Prelude.{◌≡◌};
    ghost use Rattle.ca_rule.specs.inner.TableSaying.{fault_at};

    /// The fault of the text, where the statement is in the line with this number.
    pub(crate) fn at(self, line: u64) -> TableFault
        ensures { result ≡ fault_at line self }
    {
        match self {
            StatementFault::Syntax => TableFault::Syntax { line },
            StatementFault::State => TableFault::States { line },
            StatementFault::Name => TableFault::Variable { line },
            StatementFault::Unbound => TableFault::Unbound { line },
            StatementFault::Memory => TableFault::Memory,
        }
    }
}
