//! Worked examples: what the definitions say of small texts.

ghost use Rattle.std.specs.Prelude.{◌≡◌, pos, negsuc, [], ◌∷◌, true, false, codes, None, Some};
ghost use Rattle.ca_plane.specs.Prelude.{lines_of};
ghost use Rattle.ca_import.specs.declared.fault.ImportFault.TheVariants.{NoCorner};
ghost use Rattle.ca_import.specs.declared.format.ImportFormat.TheVariants.{Lines, Apgcode};
ghost use Rattle.ca_import.specs.declared.format.LineFormat.TheVariants.{Life106, Life105, Plaintext};
ghost use Rattle.ca_import.specs.CellLines.{Nothing, LiveCell, Row, Corner, is_live_in};
ghost use Rattle.ca_import.specs.Import.{import_format, first_row, LinesSay, HasFaultOn, representation_text};

/// The formats of small texts.
pub fn worked_formats()
    ensures life106 { import_format (codes "#Life 1.06\r\n1 1\n") ≡ Some (Lines Life106) }
    ensures life105 { import_format (codes "#Life 1.05\n#P 0 0\n*\n") ≡ Some (Lines Life105) }
    ensures comment { import_format (codes "!Name: Block\nOO\nOO\n") ≡ Some (Lines Plaintext) }
    ensures row { import_format (codes "\n.O\n") ≡ Some (Lines Plaintext) }
    ensures apgcode { import_format (codes "\r\n xq4_153\n") ≡ Some Apgcode }
    ensures two_words { import_format (codes "xq4_153 xp2_7") ≡ None }
    ensures too_large { import_format (codes "ov_p57960") ≡ None }
    ensures rle { import_format (codes "x = 1, y = 1\no!\n") ≡ None }
    ensures no_text { import_format [] ≡ None }
{}

/// What follows the head of an apgcode.
pub fn worked_codes()
    ensures glider { representation_text (codes "xq4_153\n") ≡ Some (codes "153") }
    ensures empty { representation_text (codes "xs4_") ≡ Some [] }
    ensures no_number { representation_text (codes "xs_33") ≡ None }
    ensures no_kind { representation_text (codes "yl1_33") ≡ None }
{}

/// What the lines of small texts say, and which cells are live.
pub fn worked_lines()
    ensures life106 { LinesSay Life106 (first_row Life106) 0 (lines_of (codes "#Life 1.06\n-1 0\n"))
        (Nothing ∷ LiveCell (record { y = pos 0; x = negsuc 0 }) ∷ []) }
    ensures plaintext { LinesSay Plaintext (first_row Plaintext) 0 (lines_of (codes "!\n.O\n\nO\n"))
        (Nothing ∷ Row (codes ".O") ∷ Row [] ∷ Row (codes "O") ∷ []) }
    ensures plaintext_cells { let said = Nothing ∷ Row (codes ".O") ∷ Row [] ∷ Row (codes "O") ∷ [] in
        (is_live_in (first_row Plaintext) said (pos 1) (pos 0) ≡ true)
        × (is_live_in (first_row Plaintext) said (pos 0) (pos 2) ≡ true)
        × (is_live_in (first_row Plaintext) said (pos 0) (pos 1) ≡ false) }
    ensures life105 { LinesSay Life105 (first_row Life105) 0 (lines_of (codes "#Life 1.05\n#P 5 -1\n.*\n"))
        (Nothing ∷ Corner (record { y = negsuc 0; x = pos 5 }) ∷ Row (codes ".*") ∷ []) }
    ensures life105_cells { is_live_in (first_row Life105)
        (Nothing ∷ Corner (record { y = negsuc 0; x = pos 5 }) ∷ Row (codes ".*") ∷ []) (pos 6) (negsuc 0)
        ≡ true }
{}

/// The fault of a small text.
pub fn worked_faults()
    ensures no_corner { HasFaultOn (codes "#Life 1.05\n*\n") NoCorner 2 }
{}
