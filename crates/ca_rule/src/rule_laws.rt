//! What holds of rules of every kind, of those of the family Generations, and of the texts that name them,
//! said of the definitions alone. These functions are of no use to a program: each has laws for its contract.

ghost use Rattle.std.specs.Prelude.{◌≡◌, ◌↔◌, ◌<◌, ℕ, List, [], ◌∷◌, length, codes};
ghost use Rattle.std.specs.List.{All};
ghost use Rattle.ca_rule.specs.Counts.{counts_of};
ghost use Rattle.ca_rule.specs.Generations.{SpellsGenerationsRule, NamesGenerationsRule, IsGenerationsRuleFault};
ghost use Rattle.ca_rule.specs.Generations.{printed_generations_rule, generations_next};
ghost use Rattle.ca_rule.specs.Next.{bs_next};
ghost use Rattle.ca_rule.specs.OneMeaning.{HasAtMostOne, NeverHasBoth};
ghost use Rattle.ca_rule.specs.Rule.{RuleValue, Bs, Gen, Tab, next_of, IsSameRule, NamesRule, IsRuleFault, printed_form};
ghost use Rattle.ca_rule.specs.Spelling.{SpellsNoBsRule};
ghost use Rattle.ca_rule.specs.TableExamples.{table_of, example_table, one_neighbour, north_of_one, generations_cell};
ghost use Rattle.ca_rule.specs.TableNext.{TableRule};
ghost use Rattle.ca_rule.specs.declared.{bs_rule.BsRule.BsRule, counts.Counts.Counts, fault.RuleFault.RuleFault};
ghost use Rattle.ca_rule.specs.declared.gen_rule.GenRule.{GenRule};
ghost use Rattle.ca_rule.specs.declared.fault.RuleFault.TheVariants.{Bounded, Wakes, Unknown};
ghost use Rattle.ca_rule.specs.declared.hood.Hood.TheVariants.{Moore};
ghost use Rattle.ca_rule.specs.declared.table.neighbourhood.Neighbourhood.TheVariants.{VonNeumann};
ghost use Rattle.ca_rule.specs.declared.table.neighbourhood.Symmetry.TheVariants.{Rotate4};

use crate::gen_rule::GenRule;

/// The printed form of a Generations rule names that rule.
pub fn generations_names_itself(rule: &GenRule)
    ensures { NamesGenerationsRule (printed_form (Gen rule.now)) rule.now }
{
    let _ = rule.survival.places();
    let _ = rule.birth.places();
}

/// Two Generations rules are printed alike exactly where they are equal.
pub fn generations_alike(a: &GenRule, b: &GenRule)
    ensures { (printed_form (Gen a.now) ≡ printed_form (Gen b.now)) ↔ IsSameRule (Gen a.now) (Gen b.now) }
{
    generations_names_itself(a);
    generations_names_itself(b);
}

/// Two Generations rules have as many states, and every cell of such states is next the same under both,
/// exactly where they are equal.
pub fn generations_do_alike(a: &GenRule, b: &GenRule)
    ensures { ((a.now.states ≡ b.now.states)
        × ((nine : List ℕ) → length nine ≡ 9 → All (λ s. s < a.now.states) nine
        → next_of (Gen a.now) nine ≡ next_of (Gen b.now) nine)) ↔ IsSameRule (Gen a.now) (Gen b.now) }
{
    let _ = a.survival.places();
    let _ = a.birth.places();
    let _ = b.survival.places();
    let _ = b.birth.places();
}

/// A text names one rule at most among tables, or has one fault, and not both. The printed form of a rule
/// that it names names that rule too. Two rules that are named among the same tables are the same only where
/// they are equal.
pub fn named_rules()
    ensures one_rule { (text : List ℕ) (tables : List TableRule) (r s : RuleValue) → NamesRule text tables r
        → NamesRule text tables s → r ≡ s }
    ensures rule_alone { (text : List ℕ) (tables : List TableRule) (rule : RuleValue) (fault : RuleFault)
        → NamesRule text tables rule → IsRuleFault text tables fault → ⊥ }
    ensures one_fault { (text : List ℕ) (tables : List TableRule) (f g : RuleFault)
        → IsRuleFault text tables f → IsRuleFault text tables g → f ≡ g }
    ensures printed { (text : List ℕ) (tables : List TableRule) (rule : RuleValue)
        → NamesRule text tables rule → NamesRule (printed_form rule) tables rule }
    ensures same_are_equal { (text other : List ℕ) (tables : List TableRule) (r s : RuleValue)
        → NamesRule text tables r → NamesRule other tables s → IsSameRule r s → r ≡ s }
{}

/// Each rule is the same as itself, whichever of two comes first, and by way of a third. B/S rules that are
/// the same have the same next cells, and so have Generations rules; of tables only the names are compared.
pub fn same_rules()
    ensures next { (r s : BsRule) (nine : List ℕ) → IsSameRule (Bs r) (Bs s)
        → next_of (Bs r) nine ≡ next_of (Bs s) nine }
    ensures next_generations { (r s : GenRule) (nine : List ℕ) → IsSameRule (Gen r) (Gen s)
        → next_of (Gen r) nine ≡ next_of (Gen s) nine }
    ensures reflexive { (r : RuleValue) → IsSameRule r r }
    ensures symmetric { (r s : RuleValue) → IsSameRule r s → IsSameRule s r }
    ensures transitive { (r s t : RuleValue) → IsSameRule r s → IsSameRule s t → IsSameRule r t }
{}

/// Some texts among tables.
pub fn worked_names()
    ensures table_is_named { NamesRule (codes "Spread") (table_of VonNeumann Rotate4 [] ∷ [])
        (Tab (table_of VonNeumann Rotate4 [])) }
    ensures other_names_are_passed_over { NamesRule (codes "Spread")
        (example_table (codes "Spreads") ∷ table_of VonNeumann Rotate4 [] ∷ [])
        (Tab (table_of VonNeumann Rotate4 [])) }
    ensures first_of_a_name_is_named { NamesRule (codes "Spread")
        (table_of VonNeumann Rotate4 (one_neighbour ∷ [])
        ∷ table_of VonNeumann Rotate4 (north_of_one ∷ []) ∷ [])
        (Tab (table_of VonNeumann Rotate4 (one_neighbour ∷ []))) }
    ensures life_is_no_table { (rule : BsRule) → rule.hood ≡ Moore → rule.birth ≡ counts_of (codes "3")
        → rule.survival ≡ counts_of (codes "23")
        → NamesRule (codes "23/3") (example_table (codes "23/3") ∷ []) (Bs rule) }
    ensures brians_brain_is_no_table { (rule : GenRule) → rule.survival ≡ counts_of []
        → rule.birth ≡ counts_of (codes "2") → rule.states ≡ 3
        → NamesRule (codes "/2/3") (example_table (codes "/2/3") ∷ []) (Gen rule) }
    ensures lower_case_is_another_name { IsRuleFault (codes "spread")
        (table_of VonNeumann Rotate4 [] ∷ []) Unknown }
    ensures empty_text_is_no_name { IsRuleFault [] (table_of VonNeumann Rotate4 [] ∷ []) Unknown }
    ensures waking_rule_is_no_table { IsRuleFault (codes "b03s23") (example_table (codes "b03s23") ∷ []) Wakes }
    ensures waking_generations_are_no_table { IsRuleFault (codes "2/0/3")
        (example_table (codes "2/0/3") ∷ []) Wakes }
    ensures too_many_states_may_be_a_name { NamesRule (codes "2/3/257") (example_table (codes "2/3/257") ∷ [])
        (Tab (example_table (codes "2/3/257"))) }
    ensures life_of_two_states_is_another_rule { (r : BsRule) (s : GenRule) → IsSameRule (Bs r) (Gen s) → ⊥ }
    ensures colon_is_no_table { IsRuleFault (codes "Spread:T9")
        (example_table (codes "Spread:T9") ∷ []) Bounded }
{}

/// A text names one Generations rule at most.
pub fn one_generations_rule()
    ensures { (text : List ℕ) (r s : GenRule) → NamesGenerationsRule text r → NamesGenerationsRule text s
        → IsSameRule (Gen r) (Gen s) }
{}

/// A text that names a Generations rule has no fault, and another has one fault at most. A text that
/// spells such a rule spells none in B/S notation.
pub fn generations_rule_or_fault()
    ensures rule_alone { NeverHasBoth NamesGenerationsRule IsGenerationsRuleFault }
    ensures one_fault { HasAtMostOne IsGenerationsRuleFault }
    ensures one_notation { (text survival birth : List ℕ) (states : ℕ)
        → SpellsGenerationsRule text survival birth states → SpellsNoBsRule text }
{}

/// Under a Generations rule of two states, each cell is next what it is under the B/S rule of the same counts
/// over all eight neighbours.
pub fn two_states_do_as_bs()
    ensures { (survival birth : Counts) (nine : List ℕ) → length nine ≡ 9 → All (λ s. s < 2) nine
        → generations_next survival birth 2 nine ≡ bs_next Moore birth survival nine }
{}

/// Some texts that name Generations rules, and printed ones.
pub fn worked_generations()
    ensures brians_brain_is_spelled { SpellsGenerationsRule (codes "/2/3") [] (codes "2") 3 }
    ensures star_wars_is_spelled { SpellsGenerationsRule (codes "345/2/4") (codes "345") (codes "2") 4 }
    ensures digits_may_stand_in_any_order { SpellsGenerationsRule (codes "332/33/03") (codes "332")
        (codes "33") 3 }
    ensures slashes_may_stand_alone { SpellsGenerationsRule (codes "//256") [] [] 256 }
    ensures brians_brain_is_named { (rule : GenRule) → rule.survival ≡ counts_of []
        → rule.birth ≡ counts_of (codes "2") → rule.states ≡ 3 → NamesGenerationsRule (codes "/2/3") rule }
    ensures brians_brain_is_printed { printed_generations_rule (counts_of []) (counts_of (codes "2")) 3
        ≡ codes "/2/3" }
    ensures star_wars_is_printed { printed_generations_rule (counts_of (codes "534"))
        (counts_of (codes "22")) 4 ≡ codes "345/2/4" }
    ensures most_states_are_printed { printed_generations_rule (counts_of (codes "23"))
        (counts_of (codes "3")) 256 ≡ codes "23/3/256" }
{}

/// Some texts that name no Generations rule: one wakes the empty plane, one is of a torus. Of the others some
/// have too few or too many states, or no number of states; some have a count above 8, with birth on 0 or
/// without; and some have a letter, a blank, or other slashes.
pub fn worked_generations_faults()
    ensures wakes { IsGenerationsRuleFault (codes "2/0/3") Wakes }
    ensures bounded { IsGenerationsRuleFault (codes "/2/3:T30,20") Bounded }
    ensures unknown { All (λ text. IsGenerationsRuleFault text Unknown) (
        codes "2/3/1" ∷ codes "2/3/257" ∷ codes "2/3/4294967298" ∷ codes "2/3/" ∷ codes "9/3/3"
        ∷ codes "9/0/3" ∷ codes "S2/B3/3" ∷ codes "2/3/ 3" ∷ codes "2/3/3/" ∷ codes "23/3" ∷ []) }
{}

/// Some cells under Brian's Brain, Star Wars, and Life written with two states.
pub fn worked_generations_cells()
    ensures two_live_cells_give_birth { generations_cell [] (codes "2") 3 (codes "100000001") ≡ 1 }
    ensures dying_cells_are_not_counted { generations_cell [] (codes "2") 3 (codes "100202001") ≡ 1 }
    ensures two_dying_cells_give_no_birth { generations_cell [] (codes "2") 3 (codes "200000002") ≡ 0 }
    ensures live_cell_begins_to_die { generations_cell [] (codes "2") 3 (codes "100010001") ≡ 2 }
    ensures dying_cell_is_not_born { generations_cell [] (codes "2") 3 (codes "100020001") ≡ 0 }
    ensures three_live_cells_keep_one { generations_cell (codes "345") (codes "2") 4 (codes "111010023") ≡ 1 }
    ensures two_live_cells_do_not { generations_cell (codes "345") (codes "2") 4 (codes "112010023") ≡ 2 }
    ensures dying_cell_goes_on { generations_cell (codes "345") (codes "2") 4 (codes "111020000") ≡ 3 }
    ensures last_state_dies { generations_cell (codes "345") (codes "2") 4 (codes "111030000") ≡ 0 }
    ensures of_two_states_none_is_dying { generations_cell (codes "23") (codes "3") 2
        (codes "000010000") ≡ 0 }
{}
