//! What holds of the orders of symmetries and of next cells under rule tables, said of the definitions alone.
//! These functions are of no use to a program: each has laws for its contract.

ghost use Rattle.std.specs.Prelude.{◌≡◌, ◌<◌, ℕ, List, [], ◌∷◌, ◌++◌, true, false, length, Some, codes};
ghost use Rattle.std.specs.List.{All, AllByRecursion};
ghost use Rattle.ca_rule.specs.TableOrders.{orders};
ghost use Rattle.ca_rule.specs.TableLines.{lines_said, setting, is_setting, begins_variable, is_name, fields_of, IsVariableLine};
ghost use Rattle.ca_rule.specs.TableText.{IsTable};
ghost use Rattle.ca_rule.specs.TableFaults.{IsTableTextFault};
ghost use Rattle.ca_rule.specs.declared.table.fault.TableFault.TheVariants.{NoRuleLine, NoTable, States, Neighborhood};
ghost use Rattle.ca_rule.specs.declared.table.fault.TableFault.TheVariants.{Symmetries};
ghost use Rattle.ca_rule.specs.TableNext.{TableRule};
ghost use Rattle.ca_rule.specs.TableTies.{has_ties, GivesOneState};
ghost use Rattle.ca_plane.specs.Prelude.{text_of};
ghost use Rattle.ca_rule.specs.TableExamples.{file_with, file_of, digits, digit_lists, table_cells, HasOrders, unturned_cells};
ghost use Rattle.ca_rule.specs.TableExamples.{cells_by_one, cells_by_two, cells_south, one_neighbour, like_neighbours};
ghost use Rattle.ca_rule.specs.TableExamples.{north_of_one, second_of_eight, second_of_six, second_of_two};
ghost use Rattle.ca_rule.specs.declared.table.neighbourhood.Neighbourhood.TheVariants.{VonNeumann, Moore, Hexagonal};
ghost use Rattle.ca_rule.specs.declared.table.neighbourhood.Neighbourhood.TheVariants.{OneDimensional};
ghost use Rattle.ca_rule.specs.declared.table.neighbourhood.Symmetry.TheVariants.{Identity, Rotate4, Rotate4Reflect};
ghost use Rattle.ca_rule.specs.declared.table.neighbourhood.Symmetry.TheVariants.{ReflectHorizontal, Rotate8, Rotate8Reflect};
ghost use Rattle.ca_rule.specs.declared.table.neighbourhood.Symmetry.TheVariants.{Rotate2, Rotate3, Rotate6, Rotate6Reflect};
ghost use Rattle.ca_rule.specs.declared.table.neighbourhood.Symmetry.TheVariants.{Reflect, Permute};

/// The orders of each symmetry.
pub fn worked_orders()
    ensures four_as_they_stand { HasOrders VonNeumann Identity (codes "0123") }
    ensures four_by_quarters { HasOrders VonNeumann Rotate4 (codes "0123 1230 2301 3012") }
    ensures four_by_quarters_and_mirrored { HasOrders VonNeumann Rotate4Reflect
        (codes "0123 0321 1032 1230 2103 2301 3012 3210") }
    ensures four_with_east_and_west_exchanged { HasOrders VonNeumann ReflectHorizontal (codes "0123 0321") }
    ensures four_permuted { orders VonNeumann Permute ≡
        digit_lists (codes "0123 0132 0213 0231 0312 0321 1023 1032 1203 1230 1302 1320")
        ++ digit_lists (codes "2013 2031 2103 2130 2301 2310 3012 3021 3102 3120 3201 3210") }
    ensures eight_as_they_stand { HasOrders Moore Identity (codes "01234567") }
    ensures eight_by_quarters { HasOrders Moore Rotate4 (codes "01234567 23456701 45670123 67012345") }
    ensures eight_by_quarters_and_mirrored { HasOrders Moore Rotate4Reflect
        (codes "01234567 07654321 21076543 23456701 43210765 45670123 65432107 67012345") }
    ensures eight_with_east_and_west_exchanged { HasOrders Moore ReflectHorizontal
        (codes "01234567 07654321") }
    ensures eight_by_eighths { HasOrders Moore Rotate8
        (codes "01234567 12345670 23456701 34567012 45670123 56701234 67012345 70123456") }
    ensures eight_by_eighths_and_mirrored { orders Moore Rotate8Reflect ≡
        digit_lists (codes "01234567 07654321 10765432 12345670 21076543 23456701 32107654 34567012")
        ++ digit_lists (codes "43210765 45670123 54321076 56701234 65432107 67012345 70123456 76543210") }
    ensures six_as_they_stand { HasOrders Hexagonal Identity (codes "012345") }
    ensures six_by_halves { HasOrders Hexagonal Rotate2 (codes "012345 345012") }
    ensures six_by_thirds { HasOrders Hexagonal Rotate3 (codes "012345 234501 450123") }
    ensures six_by_sixths { HasOrders Hexagonal Rotate6 (codes "012345 123450 234501 345012 450123 501234") }
    ensures six_by_sixths_and_mirrored { HasOrders Hexagonal Rotate6Reflect
        (codes "012345 054321 105432 123450 210543 234501 321054 345012 432105 450123 501234 543210") }
    ensures two_as_they_stand { HasOrders OneDimensional Identity (codes "01") }
    ensures two_exchanged { HasOrders OneDimensional Reflect (codes "01 10") }
    ensures two_permuted { HasOrders OneDimensional Permute (codes "01 10") }
    ensures quarters_are_not_of_six { orders Hexagonal Rotate4 ≡ [] }
{}

/// Some cells under small tables. What one neighbour does: each of the four spreads, corners don't count,
/// two are too many, and where no order fits the centre stays. Without turns only the north spreads.
pub fn worked_cells()
    ensures each_neighbour_spreads { cells_by_one Rotate4 ≡ digits (codes "2112") }
    ensures one_neighbour_alone_spreads { table_cells VonNeumann Rotate4 (one_neighbour ∷ [])
        (codes "120000201 010100000 010020000") ≡ digits (codes "202") }
    ensures only_the_north_spreads_without_turns { cells_by_one Identity ≡ digits (codes "2000") }
    ensures centre_stays_without_transitions { table_cells VonNeumann Rotate4 []
        (codes "111121111 111101111") ≡ digits (codes "20") }

    // The smallest order decides, of the four, of those mirrored too, and of all. Opposite cells are only
    // permuted.
    ensures four_orders { cells_by_two Rotate4 ≡ digits (codes "20") }
    ensures eight_orders { cells_by_two Rotate4Reflect ≡ digits (codes "10") }
    ensures all_orders { cells_by_two Permute ≡ digits (codes "12") }
{}

/// Some cells where a variable, the first line that fits or the neighbourhood's ring decides.
pub fn worked_transitions()
    ensures variable_has_one_cell { table_cells VonNeumann Permute (like_neighbours ∷ [])
        (codes "000102000 000202000") ≡ digits (codes "02") }
    ensures first_line_decides { cells_south (one_neighbour ∷ north_of_one ∷ []) ≡ digits (codes "12") }
    ensures first_line_that_fits_decides { cells_south (north_of_one ∷ one_neighbour ∷ [])
        ≡ digits (codes "22") }

    ensures second_of_eight_is_north_east { unturned_cells Moore second_of_eight
        (codes "001000000") ≡ digits (codes "1") }
    // The cell to the north-east is not among six, and neither row beside the cell's own is among two.
    ensures second_of_six_is_east { unturned_cells Hexagonal second_of_six
        (codes "000001000 001001100") ≡ digits (codes "11") }
    ensures second_of_two_is_east { unturned_cells OneDimensional second_of_two
        (codes "000001000 111001111") ≡ digits (codes "11") }
{}

/// Some lines and texts of rule tables.
pub fn worked_texts()
    ensures comments_and_blanks_are_dropped { lines_said (codes " @RULE A # b\r\n\n# c\n\t@TABLE")
        ≡ (1, codes "@RULE A") ∷ (4, codes "@TABLE") ∷ [] }
    ensures blanks_may_stand_round_the_colon { setting (codes "n_states") (3, codes "n_states : 3")
        ≡ Some (codes "3") }
    ensures all_behind_the_colon_is_the_value { setting (codes "n_states") (3, codes "n_states:3 4")
        ≡ Some (codes "3 4") }
    ensures other_words_are_no_settings { is_setting (3, codes "states:3") ≡ false }
    ensures var_alone_is_no_variable { begins_variable (6, codes "var") ≡ false }
    ensures var_and_a_blank_is_one { begins_variable (6, codes "var a") ≡ true }
    ensures variable_is_spelled { IsVariableLine (6, codes "var a = { 1 , b }") (codes "a")
        (codes "1" ∷ codes "b" ∷ []) }
    ensures names_begin_with_no_digit { is_name (codes "1a") ≡ false }
    ensures names_may_hold_digits { is_name (codes "a1") ≡ true }
    ensures fields_stand_between_commas { fields_of (7, codes "0,a, 12 ,a")
        ≡ codes "0" ∷ codes "a" ∷ codes "12" ∷ codes "a" ∷ [] }
    ensures each_byte_is_a_field { fields_of (7, codes "0a0") ≡ codes "0" ∷ codes "a" ∷ codes "0" ∷ [] }
    ensures table_is_read { (table : TableRule) × IsTable (file_of (codes "0,a,0,0,0,a")) table
        × (table.transitions ≡ one_neighbour ∷ []) }
    ensures table_is_read_without_commas { (table : TableRule) × IsTable (file_of (codes "0a000a")) table
        × (table.transitions ≡ one_neighbour ∷ []) }
    ensures rule_line_is_missing { IsTableTextFault
        (text_of (codes "# a" ∷ codes "@RUL Spread" ∷ codes "@TABLE" ∷ [])) (NoRuleLine 2) }
    ensures rule_line_wants_a_name { IsTableTextFault (text_of (codes "@RULE" ∷ codes "@TABLE" ∷ []))
        (NoRuleLine 1) }
    ensures empty_text_has_no_rule_line { IsTableTextFault [] (NoRuleLine 1) }
    ensures table_is_missing { IsTableTextFault
        (text_of (codes "@RULE Spread" ∷ codes "@TABLES" ∷ codes "n_states:3" ∷ [])) (NoTable 3) }
    ensures one_state_is_too_few { IsTableTextFault
        (file_with (codes "1") (codes "vonNeumann") (codes "rotate4") (codes "0a000a")) (States 6) }
    ensures neighbourhood_is_unknown { IsTableTextFault
        (file_with (codes "3") (codes "Margolus") (codes "rotate4") (codes "0a000a")) (Neighborhood 6) }
    ensures symmetry_is_unknown { IsTableTextFault
        (file_with (codes "3") (codes "vonNeumann") (codes "rotate8") (codes "0a000a")) (Symmetries 6) }
{}

/// A transition of a table without ties gives a neighbourhood one state, whichever of the orders decides under
/// which it fits.
pub fn untied_tables()
    ensures { (bytes : List ℕ) (table : TableRule) (nine : List ℕ) → IsTable bytes table → length nine ≡ 9
        → All (λ s. s < table.states) nine → has_ties table ≡ false
        → AllByRecursion (GivesOneState table nine) table.transitions }
{}
