//! What holds of rule texts, of printed rules and of next cells, said of the definitions alone. These
//! functions are of no use to a program: each has a law for its contract.

ghost use Rattle.std.specs.Prelude.{◌≡◌, ◌↔◌, ℕ, List, [], ◌∷◌, true, false, codes, Some, None};
ghost use Rattle.std.specs.List.{AllByRecursion};
ghost use Rattle.ca_plane.specs.Prelude.{counting_next, moore_next};
ghost use Rattle.ca_plane.specs.declared.counting.Neighbourhood.TheVariants as counted;
ghost use Rattle.ca_rule.specs.Counts.{is_count, counts_of};
ghost use Rattle.ca_rule.specs.Masks.{masks_by_hood, counting_by_hood};
ghost use Rattle.ca_rule.specs.OneMeaning.{HasAtMostOne, NeverHasBoth};
ghost use Rattle.ca_rule.specs.Rule.{Bs, IsSameRule, printed_form};
ghost use Rattle.ca_rule.specs.Spelling.{SpellsBsRule, NamesBsRule, IsBsRuleFault, printed_bs_rule};
ghost use Rattle.ca_rule.specs.TableExamples.{digits, bs_cell};
ghost use Rattle.ca_rule.specs.declared.bs_rule.BsRule.{BsRule};
ghost use Rattle.ca_rule.specs.declared.fault.RuleFault.TheVariants.{Bounded, Wakes, Unknown};
ghost use Rattle.ca_rule.specs.declared.hood.Hood.TheVariants.{Moore, VonNeumann, Hex};

use crate::bs_rule::BsRule;

/// A text names one rule at most.
pub fn one_rule()
    ensures { (text : List ℕ) (r s : BsRule) → NamesBsRule text r → NamesBsRule text s
        → IsSameRule (Bs r) (Bs s) }
{}

/// A text that names a rule has no fault, and another has one fault at most.
pub fn rule_or_fault()
    ensures rule_alone { NeverHasBoth NamesBsRule IsBsRuleFault }
    ensures one_fault { HasAtMostOne IsBsRuleFault }
{}

/// The printed form of a rule names that rule.
pub fn names_itself(rule: &BsRule)
    ensures { NamesBsRule (printed_form (Bs rule.now)) rule.now }
{
    let _ = rule.birth.places();
    let _ = rule.survival.places();
}

/// Two rules are printed alike exactly where they are equal.
pub fn alike(a: &BsRule, b: &BsRule)
    ensures { (printed_form (Bs a.now) ≡ printed_form (Bs b.now)) ↔ IsSameRule (Bs a.now) (Bs b.now) }
{
    names_itself(a);
    names_itself(b);
}

/// Some texts that name rules, and printed rules.
pub fn worked_examples()
    ensures life_is_spelled { SpellsBsRule (codes "B3/S23") (codes "3") (codes "23") Moore }
    ensures life_is_spelled_survival_first { SpellsBsRule (codes "S32/B33") (codes "33") (codes "32") Moore }
    ensures life_is_spelled_in_lower_case { SpellsBsRule (codes "s23b3") (codes "3") (codes "23") Moore }
    ensures life_is_spelled_without_letters { SpellsBsRule (codes "23/3") (codes "3") (codes "23") Moore }
    ensures slash_alone_spells_no_counts { SpellsBsRule (codes "/") [] [] Moore }
    ensures four_neighbours_are_spelled { SpellsBsRule (codes "b1sv") (codes "1") [] VonNeumann }
    ensures six_neighbours_are_spelled { SpellsBsRule (codes "B6/S6h") (codes "6") (codes "6") Hex }
    ensures life_is_named { (rule : BsRule) → rule.hood ≡ Moore → rule.birth ≡ counts_of (codes "3")
        → rule.survival ≡ counts_of (codes "23") → NamesBsRule (codes "B3/S23") rule }
    ensures life_is_printed { printed_bs_rule Moore (counts_of (codes "33")) (counts_of (codes "32"))
        ≡ codes "B3/S23" }
    ensures four_neighbours_are_printed { printed_bs_rule VonNeumann (counts_of (codes "1")) (counts_of [])
        ≡ codes "B1/SV" }
    ensures six_neighbours_are_printed { printed_bs_rule Hex (counts_of (codes "6")) (counts_of (codes "6"))
        ≡ codes "B6/S6H" }
{}

/// Some texts that name no rule: some wake the empty plane, with letters and without; one is of a torus, and
/// a `:` alone bounds a grid too. Of the others one is a rule's name and one is empty, and some have a count
/// above the number of neighbours, with birth on 0 or without.
pub fn worked_faults()
    ensures wakes { AllByRecursion (λ text. IsBsRuleFault text Wakes) (codes "b03s23" ∷ codes "/0" ∷ []) }
    ensures bounded { AllByRecursion (λ text. IsBsRuleFault text Bounded)
        (codes "B3/S23:T30,20" ∷ codes "B0:" ∷ []) }
    ensures unknown { AllByRecursion (λ text. IsBsRuleFault text Unknown)
        (codes "Life" ∷ [] ∷ codes "B9/S" ∷ codes "B5/SV" ∷ codes "B7/SH" ∷ codes "B08/S9" ∷ []) }
{}

/// Some counts, and some cells under B/S rules.
pub fn worked_next_cells()
    ensures two_is_a_count { is_count (counts_of (codes "23")) 2 ≡ true }
    ensures nine_is_no_count { is_count (counts_of (codes "012345678")) 9 ≡ false }
    ensures centre_of_a_blinker_survives { bs_cell Moore (codes "3") (codes "23") (codes "000111000") ≡ 1 }
    ensures north_of_a_blinker_is_born { bs_cell Moore (codes "3") (codes "23") (codes "000000111") ≡ 1 }
    ensures four_neighbours_are_too_many { bs_cell Moore (codes "3") (codes "23") (codes "101010101") ≡ 0 }
    ensures north_west_is_not_among_four { bs_cell VonNeumann (codes "1") [] (codes "100000000") ≡ 0 }
    ensures north_is_among_four { bs_cell VonNeumann (codes "1") [] (codes "010000000") ≡ 1 }
    ensures north_east_is_not_among_six { bs_cell Hex (codes "1") [] (codes "001000000") ≡ 0 }
    ensures north_west_is_among_six { bs_cell Hex (codes "1") [] (codes "100000000") ≡ 1 }
{}

/// Some masks.
pub fn worked_masks()
    ensures life_has_masks { masks_by_hood Moore (counts_of (codes "3")) (counts_of (codes "23"))
        ≡ Some (8, 12) }
    ensures no_birth_sets_no_bit { masks_by_hood Moore (counts_of []) (counts_of (codes "8"))
        ≡ Some (0, 256) }
    ensures four_neighbours_have_none { masks_by_hood VonNeumann (counts_of (codes "1")) (counts_of [])
        ≡ None }
    ensures six_neighbours_have_none { masks_by_hood Hex (counts_of (codes "6")) (counts_of (codes "6"))
        ≡ None }
    ensures life_goes_by_its_masks { moore_next 8 12 (digits (codes "000111000")) ≡ 1 }
    ensures dead_cells_are_born_on_three { moore_next 8 12 (digits (codes "000000111")) ≡ 1 }
    ensures dead_cells_are_not_born_on_two { moore_next 8 12 (digits (codes "000101000")) ≡ 0 }
{}

/// Some countings, and some cells by them.
pub fn worked_countings()
    ensures four_neighbours_are_counted { counting_by_hood VonNeumann (counts_of (codes "1"))
        (counts_of (codes "04")) ≡ record { neighbourhood = counted.VonNeumann; birth = 2; survival = 17 } }
    ensures six_neighbours_are_counted { counting_by_hood Hex (counts_of (codes "2")) (counts_of (codes "34"))
        ≡ record { neighbourhood = counted.Hexagonal; birth = 4; survival = 24 } }
    ensures north_is_among_four { counting_next
        (record { neighbourhood = counted.VonNeumann; birth = 2; survival = 0 })
        (digits (codes "110000000")) ≡ 1 }
    ensures north_east_is_not_among_six { counting_next
        (record { neighbourhood = counted.Hexagonal; birth = 2; survival = 0 })
        (digits (codes "001000100")) ≡ 0 }
    ensures south_east_is_among_six { counting_next
        (record { neighbourhood = counted.Hexagonal; birth = 2; survival = 0 })
        (digits (codes "000000001")) ≡ 1 }
{}
