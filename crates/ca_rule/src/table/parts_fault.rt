//! Why parts make no rule table.

ghost use Rattle.std.specs.Prelude.{◌≡◌, ℕ, List};
ghost use Rattle.ca_rule.specs.TableNext.{TableRule};
ghost use Rattle.ca_rule.specs.TableLines.{last_line};
ghost use Rattle.ca_rule.specs.TableText.{IsTable};
ghost use Rattle.ca_rule.specs.TableFaults.{IsTableTextFault};
ghost use Rattle.ca_rule.specs.inner.TableStored.{IsPartsFault};

use crate::table::fault::TableFault;

/// Why parts make no rule table.
#[derive(Clone, Copy)]
pub(crate) enum PartsFault {
    /// Nine zeros would turn into another state.
    Wakes,
    /// An allocation failed.
    Memory,
}

impl PartsFault {
    /// The fault of a text of these parts, whose last line has this number.
    pub(crate) fn at(self, line: u64) -> TableFault
        ensures { (bytes : List ℕ) (table : TableRule) → IsTable bytes table → line ≡ last_line bytes
            → IsPartsFault table self → IsTableTextFault bytes result }
    {
        match self {
            PartsFault::Wakes => TableFault::Wakes { line },
            PartsFault::Memory => TableFault::Memory,
        }
    }
}
