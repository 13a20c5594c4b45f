//! What holds of the texts of rule tables, said of the definitions alone: a text has one meaning or one
//! fault. These functions are of no use to a program: each has laws for its contract.

ghost use Rattle.std.specs.Prelude.{◌≡◌, ◌≢◌, ◌⊎◌, ℕ, List, replicate};
ghost use Rattle.ca_rule.specs.OneMeaning.{HasAtMostOne};
ghost use Rattle.ca_rule.specs.TableNext.{TableRule, table_next};
ghost use Rattle.ca_rule.specs.TableLines.{last_line};
ghost use Rattle.ca_rule.specs.TableText.{IsTable};
ghost use Rattle.ca_rule.specs.TableFaults.{DoesWake, IsTableTextFault};
ghost use Rattle.ca_rule.specs.declared.table.fault.TableFault.{TableFault};
ghost use Rattle.ca_rule.specs.declared.table.fault.TableFault.TheVariants.{Wakes, Memory};

/// A text is the text of one table at most.
pub fn one_table()
    ensures { HasAtMostOne IsTable }
{}

/// Every text is the text of a table that leaves nine zeros 0, or has a fault; the text of a table has no
/// fault but that the table wakes, and each text has one fault at most. Out of memory is left out: it says
/// nothing about a text.
pub fn table_or_fault()
    ensures none_of_a_table { (bytes : List ℕ) (t : TableRule) (f : TableFault) → IsTable bytes t
        → IsTableTextFault bytes f → (f ≡ Memory) ⊎ ((f ≡ Wakes (last_line bytes)) × DoesWake t) }
    ensures one_fault { (bytes : List ℕ) (f g : TableFault) → f ≢ Memory → g ≢ Memory
        → IsTableTextFault bytes f → IsTableTextFault bytes g → f ≡ g }
    ensures one_or_the_other { (bytes : List ℕ)
        → ((t : TableRule) × IsTable bytes t × (table_next t (replicate 9 0) ≡ 0))
        ⊎ ((f : TableFault) × (f ≢ Memory) × IsTableTextFault bytes f) }
{}
