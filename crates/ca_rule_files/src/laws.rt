//! What holds of kinds of neighbourhoods, isotropic rules and MAP strings, said of the definitions alone. These
//! functions are of no use to a program: each has laws for its contract.

ghost use Rattle.std.specs.Prelude.{◌≡◌, ◌++◌, ℕ, List, length, Some, None, IsTrue, codes, if◌then◌else◌};
ghost use Rattle.ca_plane.specs.Prelude.{letter};
ghost use Rattle.ca_rule.specs.Prelude.{are_digits_up_to, HasAtMostOne};
ghost use Rattle.ca_rule_files.specs.Kinds.{cells, turned, mirrored, letter_of, kinds_of, has_no_letter};
ghost use Rattle.ca_rule_files.specs.Isotropic.{isotropic_next, SpellsIsotropicRule};
ghost use Rattle.ca_rule_files.specs.TextRules.{TextRule, NamesTextRule, IsTextRuleFault};
ghost use Rattle.ca_rule.specs.declared.fault.RuleFault.{RuleFault};
ghost use Rattle.ca_rule_files.specs.Map.{IsMap, map_next};
ghost use Rattle.ca_rule_files.specs.Examples.{AreNineCells, HaveSameKinds, isotropic_cell, counted_next, life_characters};

/// Each neighbourhood is of exactly one kind, which its turns and reflections are of too; those with no live
/// neighbours and with eight have no letter.
pub fn one_kind()
    ensures one { (nine : List ℕ) → AreNineCells nine
        → length (kinds_of nine) ≡ (if has_no_letter nine then 0 else 1) }
    ensures turned { (nine : List ℕ) → AreNineCells nine → letter_of (turned nine) ≡ letter_of nine }
    ensures mirrored { (nine : List ℕ) → AreNineCells nine → letter_of (mirrored nine) ≡ letter_of nine }
{}

/// A digit with all its letters stands for what the digit alone stands for.
pub fn all_letters()
    ensures one { HaveSameKinds (codes "1ce") (codes "1") }
    ensures two { HaveSameKinds (codes "2ceaikn") (codes "2") }
    ensures three { HaveSameKinds (codes "3ceaiknjqry") (codes "3") }
    ensures four { HaveSameKinds (codes "4ceaiknjqrytwz") (codes "4") }
    ensures five { HaveSameKinds (codes "5ceaiknjqry") (codes "5") }
    ensures six { HaveSameKinds (codes "6ceaikn") (codes "6") }
    ensures seven { HaveSameKinds (codes "7ce") (codes "7") }
{}

/// An isotropic rule without letters does what the B/S rule of the same digits does.
pub fn digits_alone()
    ensures { (birth survival nine : List ℕ) → IsTrue (are_digits_up_to 8 birth)
        → IsTrue (are_digits_up_to 8 survival) → AreNineCells nine
        → isotropic_next birth survival nine ≡ counted_next birth survival nine }
{}

/// A text names one rule at most, or has one fault, and not both.
pub fn one_text_rule()
    ensures one_rule { HasAtMostOne NamesTextRule }
    ensures rule_alone { (text : List ℕ) (rule : TextRule) (fault : RuleFault) → NamesTextRule text rule
        → IsTextRuleFault text fault → ⊥ }
    ensures one_fault { (text : List ℕ) (f g : RuleFault) → IsTextRuleFault text f → IsTextRuleFault text g
        → f ≡ g }
{}

/// Some neighbourhoods and rules. Life's MAP string does what B3/S23 does.
pub fn worked_rules()
    ensures corner_and_side { letter_of (cells (codes ".......OO")) ≡ Some (letter "a") }
    ensures all_but_a_corner { letter_of (cells (codes "OOOO.OOO.")) ≡ Some (letter "c") }
    ensures alone { letter_of (cells (codes "....O....")) ≡ None }
    ensures corner_and_side_give_no_birth { isotropic_cell (codes "2-a") (codes "12") (codes ".......OO") ≡ 0 }
    ensures two_corners_give_birth { isotropic_cell (codes "2-a") (codes "12") (codes "......O.O") ≡ 1 }
    ensures corner_and_side_survive { isotropic_cell (codes "2-a") (codes "12") (codes "....O..OO") ≡ 1 }
    ensures below_a_row_of_three { isotropic_cell (codes "3") (codes "23") (codes "OOO......") ≡ 1 }
    ensures text_is_spelled { SpellsIsotropicRule (codes "B2-a/S12") (codes "2-a") (codes "12") }
    ensures survival_may_come_first { SpellsIsotropicRule (codes "s12b2-A") (codes "2-A") (codes "12") }
    ensures letters_may_be_left_out { SpellsIsotropicRule (codes "12/2-a") (codes "2-a") (codes "12") }
    ensures life_is_a_map { IsMap (codes "MAP" ++ life_characters) life_characters }
    ensures life_as_a_map { (nine : List ℕ) → AreNineCells nine
        → map_next life_characters nine ≡ counted_next (codes "3") (codes "23") nine }
{}
