//! Worked examples: what the definitions say of small texts.

ghost use Rattle.std.specs.Prelude.{◌≡◌, [], ◌∷◌, pos, negsuc, codes};
ghost use Rattle.ca_plane.specs.declared.point.Point.{Point};
ghost use Rattle.ca_rle.specs.declared.item.Tag.TheVariants.{Cell, RowEnd};
ghost use Rattle.ca_rle.specs.declared.fault.RleFault.TheVariants.{Syntax, Header, XlifeRule, NoEnd, BadState, GenTooLarge};
ghost use Rattle.ca_rle.specs.Faults.{IsFirstRleFault};
ghost use Rattle.ca_rle.specs.FaultyLine.{IsFirstRleFaultOn};
ghost use Rattle.ca_rle.specs.Items.{Items};
ghost use Rattle.ca_rle.specs.File.{IsRleFile};
ghost use Rattle.ca_rle.specs.Shown.{picture_of_items};

/// What items mean, and white space among them.
pub fn worked_items()
    ensures block { Items (codes "2o$2o!") (record { count = 2; tag = Cell 1 }
        ∷ record { count = 1; tag = RowEnd } ∷ record { count = 2; tag = Cell 1 } ∷ []) }
    ensures states { Items (codes "pAxXyO!") (record { count = 1; tag = Cell 25 }
        ∷ record { count = 1; tag = Cell 240 } ∷ record { count = 1; tag = Cell 255 } ∷ []) }
    ensures comment { Items (codes "3\n# c!\no!") (record { count = 3; tag = Cell 1 } ∷ []) }
    ensures glider { let is = record { count = 1; tag = Cell 0 } ∷ record { count = 1; tag = Cell 1 }
        ∷ record { count = 1; tag = RowEnd }
        ∷ record { count = 2; tag = Cell 0 } ∷ record { count = 1; tag = Cell 1 }
        ∷ record { count = 1; tag = RowEnd }
        ∷ record { count = 3; tag = Cell 1 } ∷ [] in
        Items (codes "bo$2bo$3o!") is × (picture_of_items (record { y = pos 0; x = pos 0 }) is
        ≡ (record { y = pos 0; x = pos 1 }, 1) ∷ (record { y = pos 1; x = pos 2 }, 1)
        ∷ (record { y = pos 2; x = pos 0 }, 1) ∷ (record { y = pos 2; x = pos 1 }, 1)
        ∷ (record { y = pos 2; x = pos 2 }, 1) ∷ []) }
{}

/// What whole texts hold.
pub fn worked_files()
    ensures r_pentomino { let is = record { count = 1; tag = Cell 0 } ∷ record { count = 2; tag = Cell 1 }
        ∷ record { count = 1; tag = RowEnd }
        ∷ record { count = 2; tag = Cell 1 } ∷ record { count = 1; tag = RowEnd }
        ∷ record { count = 1; tag = Cell 0 } ∷ record { count = 1; tag = Cell 1 } ∷ [] in
        let corner : Point = record { y = negsuc 0; x = negsuc 0 } in
        IsRleFile (codes "#CXRLE Pos=-1,-1 Gen=7\r\nx = 3, y = 3, rule = B3/S23\r\nb2o$2o$bo!\r\n")
        (record { corner = corner; generation = 7; rule_text = codes "B3/S23"; items = is })
        × (picture_of_items corner is
        ≡ (record { y = negsuc 0; x = pos 0 }, 1) ∷ (record { y = negsuc 0; x = pos 1 }, 1)
        ∷ (record { y = pos 0; x = negsuc 0 }, 1) ∷ (record { y = pos 0; x = pos 0 }, 1)
        ∷ (record { y = pos 1; x = pos 0 }, 1) ∷ []) }
    ensures empty { let corner : Point = record { y = pos 0; x = pos 0 } in
        IsRleFile (codes "x = 0, y = 0\n!")
        (record { corner = corner; generation = 0; rule_text = codes "B3/S23"; items = [] }) }
    ensures corner { let is = record { count = 3; tag = Cell 1 } ∷ record { count = 2; tag = RowEnd }
        ∷ record { count = 1; tag = Cell 7 } ∷ [] in
        let corner : Point = record { y = pos 4; x = negsuc 2 } in
        IsRleFile (codes "#CXRLE Pos=-3,4\nx = 3, y = 3, rule = Star\n3o2$G!")
        (record { corner = corner; generation = 0; rule_text = codes "Star"; items = is })
        × (picture_of_items corner is
        ≡ (record { y = pos 4; x = negsuc 2 }, 1) ∷ (record { y = pos 4; x = negsuc 1 }, 1)
        ∷ (record { y = pos 4; x = negsuc 0 }, 1) ∷ (record { y = pos 6; x = negsuc 2 }, 7) ∷ []) }
{}

/// The first fault of texts, one of each kind.
pub fn worked_faults()
    ensures count { IsFirstRleFault (codes "x = 1, y = 1\n0b!") Syntax }
    ensures word { IsFirstRleFault (codes "#CXRLE Pos=1\nx = 1, y = 1\no!") Syntax }
    ensures empty { IsFirstRleFault [] Header }
    ensures comma { IsFirstRleFault (codes "x = 3, y = 3,\n3o!") Header }
    ensures xlife { IsFirstRleFault (codes "#r 23/3\nx = 1, y = 1\no!") XlifeRule }
    ensures cut_off { IsFirstRleFault (codes "x = 3, y = 1\n3o") NoEnd }
    ensures state { IsFirstRleFault (codes "x = 1, y = 1, rule = Star\nyP!") BadState }
    ensures generation { IsFirstRleFault
        (codes "#CXRLE Gen=9223372036854775808\nx = 1, y = 1\no!") GenTooLarge }
{}

/// The line on which the first fault of a text stands.
pub fn worked_lines()
    ensures item { IsFirstRleFaultOn (codes "x = 1, y = 1\n2o$\nz!") Syntax 3 }
    ensures white { IsFirstRleFaultOn (codes "x = 1, y = 1\n# c!\n\n2\nz!") Syntax 4 }
    ensures header { IsFirstRleFaultOn (codes "#C c\nx = 3, y = 3,\n3o!") Header 2 }
    ensures cut_off { IsFirstRleFaultOn (codes "x = 3, y = 1\n3o\n# c\n") NoEnd 3 }
    ensures comments { IsFirstRleFaultOn (codes "#C c\n#C d\n") Header 2 }
    ensures empty { IsFirstRleFaultOn [] Header 1 }
{}
