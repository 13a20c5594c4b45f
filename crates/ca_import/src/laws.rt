//! Laws of the formats: a text holds one pattern or has a fault, and codes of objects hold their cells.

ghost use Rattle.std.specs.Prelude.{◌≡◌, ◌≢◌, ℕ, ◌<◌, ◌^◌, ℤ, List, Option, None, Some};
ghost use Rattle.ca_plane.specs.Prelude.{from_corner};
ghost use Rattle.ca_apgcode.specs.Prelude.{GridCells, cell, code_text, IsCode};
ghost use Rattle.ca_apgcode.specs.declared.object.ObjectKind.{ObjectKind};
ghost use Rattle.ca_rule.specs.declared.bs_rule.BsRule.{BsRule};
ghost use Rattle.ca_import.specs.declared.fault.ImportFault.{ImportFault};
ghost use Rattle.ca_import.specs.declared.fault.ImportFault.TheVariants.{Memory};
ghost use Rattle.ca_import.specs.Import.{IsImport, IsImportFaultOn};
ghost use Rattle.ca_import.specs.Laws.{NameSameRule};

/// A text holds one pattern at most: its cells, and the rule that it names.
pub fn one_pattern()
    ensures cells { (bytes : List ℕ) (cells others : ℤ → ℤ → ℕ) (rule other : Option BsRule)
        → IsImport bytes cells rule → IsImport bytes others other → (x y : ℤ) → cells x y ≡ others x y }
    ensures rule { (bytes : List ℕ) (cells others : ℤ → ℤ → ℕ) (rule other : Option BsRule)
        → IsImport bytes cells rule → IsImport bytes others other → NameSameRule rule other }
{}

/// A text that holds a pattern has no fault but `Memory`.
pub fn no_fault_in_a_pattern()
    ensures { (bytes : List ℕ) (cells : ℤ → ℤ → ℕ) (rule : Option BsRule) (fault : ImportFault)
        (line : Option ℕ) → fault ≢ Memory → IsImport bytes cells rule
        → IsImportFaultOn bytes fault line → ⊥ }
{}

/// A code that `ca_apgcode::object_code` writes with the representation of some cells, and a number of 64 bits, holds
/// these cells. So do all that `identify` writes but those without a representation.
pub fn codes_hold_their_cells()
    ensures { (kind : ObjectKind) (number : ℕ) (box : GridCells) (text : List ℕ) → number < 2 ^ 64
        → IsCode box text → IsImport (code_text kind number (Some text)) (from_corner (cell box)) None }
{}
