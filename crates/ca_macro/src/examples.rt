//! Worked examples: what the definitions say of small texts.

ghost use Rattle.std.specs.Prelude.{◌≡◌, [], ◌∷◌, codes};
ghost use Rattle.ca_plane.specs.Prelude.{cell, text_of};
ghost use Rattle.ca_macro.specs.declared.fault.MacroFault.TheVariants.{NotMacro, Timeline, Syntax, Forward, Level, LeafSize};
ghost use Rattle.ca_macro.specs.declared.fault.MacroFault.TheVariants.{GenTooLarge};
ghost use Rattle.ca_macro.specs.Nodes.{Parts};
ghost use Rattle.ca_macro.specs.File.{IsMacrocellFile};
ghost use Rattle.ca_macro.specs.Shown.{picture_of_nodes};
ghost use Rattle.ca_macro.specs.Faults.{IsFirstMacrocellFault, IsFaultyMacrocellLine};
ghost use Rattle.ca_macro.specs.Tidy.{IsTidyMacrocell};
ghost use Rattle.ca_macro.specs.Examples.{after_first, glider_text, glider_file, glider, cut_text, cut_file, cut};
ghost use Rattle.ca_macro.specs.Examples.{cut_numbers_text, golly_text, golly_file, golly_glider, cross_text, cross_file, cross};
ghost use Rattle.ca_macro.specs.Examples.{empty_text, empty_text_of_states, mixed_text, mixed_file, mixed};

/// What whole texts hold, and the pictures that they show.
pub fn worked_files()
    ensures glider { IsMacrocellFile glider_text glider_file × (picture_of_nodes glider_file.nodes ≡ glider) }
    ensures cut { IsMacrocellFile cut_text cut_file × (picture_of_nodes cut_file.nodes ≡ cut) }
    ensures golly { IsMacrocellFile golly_text golly_file
        × (picture_of_nodes golly_file.nodes ≡ golly_glider) }
    ensures cross { IsMacrocellFile cross_text cross_file × (picture_of_nodes cross_file.nodes ≡ cross) }
    ensures mixed { IsMacrocellFile mixed_text mixed_file × (picture_of_nodes mixed_file.nodes ≡ mixed) }
    ensures no_node { IsMacrocellFile (codes "[M2]")
        (record { nodes = []; rule_text = codes "B3/S23"; generation = 0 }) × (picture_of_nodes [] ≡ []) }
    ensures highest { IsMacrocellFile (after_first (codes "120 0 0 0 0"))
        (record { nodes = Parts 120 0 0 0 0 ∷ []; rule_text = codes "B3/S23"; generation = 0 })
        × (picture_of_nodes (Parts 120 0 0 0 0 ∷ []) ≡ []) }
{}

/// The first fault of texts.
pub fn worked_faults()
    ensures not_macro { IsFirstMacrocellFault (text_of (codes "x = 0, y = 0" ∷ codes "!" ∷ [])) NotMacro }
    ensures blank_first { IsFirstMacrocellFault (codes " [M2]") NotMacro }
    ensures timeline { IsFirstMacrocellFault (after_first (codes "#FRAMES 2")) Timeline }
    ensures own_number { IsFirstMacrocellFault (after_first (codes "4 0 0 0 1")) Forward }
    ensures later_number { IsFirstMacrocellFault (after_first (codes "4 0 0 0 2")) Forward }
    ensures gap { IsFirstMacrocellFault (text_of (codes "[M2]" ∷ codes "*$" ∷ codes "5 0 0 0 1" ∷ [])) Level }
    ensures level_first { IsFirstMacrocellFault
        (text_of (codes "[M2]" ∷ codes "*$" ∷ codes "5 0 1 9 0" ∷ [])) Level }
    ensures forward_first { IsFirstMacrocellFault
        (text_of (codes "[M2]" ∷ codes "*$" ∷ codes "5 0 9 1 0" ∷ [])) Forward }
    ensures too_high { IsFirstMacrocellFault (after_first (codes "121 0 0 0 0")) Level }
    ensures no_level { IsFirstMacrocellFault (after_first (codes "0 0 0 0 256")) Level }
    ensures ninth_cell { IsFirstMacrocellFault (after_first (codes "*********$")) LeafSize }
    ensures ninth_cell_first { IsFirstMacrocellFault (after_first (codes "*********x")) LeafSize }
    ensures ninth_row { IsFirstMacrocellFault (after_first (codes "$$$$$$$$.")) LeafSize }
    ensures other_byte_first { IsFirstMacrocellFault (after_first (codes "$$$$$$$$x")) Syntax }
    ensures blank_inside { IsFirstMacrocellFault (after_first (codes "*$ *$")) Syntax }
    ensures state { IsFirstMacrocellFault (after_first (codes "1 0 0 0 256")) Syntax }
    ensures four_numbers { IsFirstMacrocellFault (after_first (codes "4 0 0 0")) Syntax }
    ensures cut { IsFirstMacrocellFault cut_numbers_text Syntax }
    ensures two_generations { IsFirstMacrocellFault (after_first (codes "#G 4 5")) Syntax }
    ensures generation { IsFirstMacrocellFault (after_first (codes "#G 9223372036854775808")) GenTooLarge }
    ensures first_line { IsFirstMacrocellFault
        (text_of (codes "[M2]" ∷ codes "4 0 0 0" ∷ codes "#FRAMES 2" ∷ [])) Syntax }
{}

/// The faulty lines of texts.
pub fn worked_faulty_lines()
    ensures not_macro { IsFaultyMacrocellLine (text_of (codes "x = 0, y = 0" ∷ codes "!" ∷ [])) 1 }
    ensures no_text { IsFaultyMacrocellLine [] 1 }
    ensures second_line { IsFaultyMacrocellLine (after_first (codes "4 0 0 0 1")) 2 }
    ensures blank_lines_count { IsFaultyMacrocellLine
        (text_of (codes "[M2]" ∷ [] ∷ [] ∷ codes "4 0 0 0 1" ∷ [])) 4 }
    ensures comments_count { IsFaultyMacrocellLine
        (text_of (codes "[M2]" ∷ codes "# a comment" ∷ codes "#R B3/S23" ∷ codes "4 0 0 0 1" ∷ [])) 4 }
    ensures first_of_two { IsFaultyMacrocellLine
        (text_of (codes "[M2]" ∷ codes "4 0 0 0" ∷ codes "#FRAMES 2" ∷ [])) 2 }
    ensures cut { IsFaultyMacrocellLine cut_numbers_text 3 }
{}

/// The tidy texts of small planes.
pub fn worked_tidy_texts()
    ensures glider { IsTidyMacrocell glider_text (cell glider) (codes "B3/S23") 0 2 }
    ensures cross { IsTidyMacrocell cross_text (cell cross) (codes "Spread") 0 3 }
    ensures empty { IsTidyMacrocell empty_text (cell []) (codes "B3/S23") 0 2 }
    ensures empty_of_states { IsTidyMacrocell empty_text_of_states (cell []) (codes "Spread") 0 3 }
{}
