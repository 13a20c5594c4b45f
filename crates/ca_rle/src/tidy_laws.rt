//! Laws of tidy texts: what a tidy text says, and that a plane has one at most.

ghost use Rattle.std.specs.Prelude.{◌≡◌, ◌≢◌, ℕ, ◌<◌, ℤ, List};
ghost use Rattle.ca_plane.specs.Prelude.{IsWord, Picture, cell, IsSame, IsInPlane, IsInRange, generation_limit};
ghost use Rattle.ca_rle.specs.File.{RleFile, IsRleFile};
ghost use Rattle.ca_rle.specs.Limits.{IsRleWithinRange};
ghost use Rattle.ca_rle.specs.Shown.{picture_of_items};
ghost use Rattle.ca_rle.specs.Tidy.{IsTidyRle};

/// A tidy text is an RLE file of its plane, its rule text and its generation, and of no other. The live cells
/// are where a plane keeps cells. Of cells anywhere this is false, since a decimal form has at most 64
/// digits.
pub fn tidy_means()
    ensures file { (text : List ℕ) (cells : Picture) (rule_text : List ℕ) (generation states : ℕ)
        → IsTidyRle text cells rule_text generation states → IsWord rule_text → generation < generation_limit
        → ((x y : ℤ) → cell cells x y ≢ 0 → IsInPlane (record { y = y; x = x }))
        → (file : RleFile) × IsRleFile text file × IsSame cells (picture_of_items file.corner file.items)
        × (file.rule_text ≡ rule_text) × (file.generation ≡ generation) }
    ensures only { (text : List ℕ) (cells : Picture) (rule_text : List ℕ) (generation states : ℕ)
        → IsTidyRle text cells rule_text generation states → IsWord rule_text → generation < generation_limit
        → ((x y : ℤ) → cell cells x y ≢ 0 → IsInPlane (record { y = y; x = x }))
        → (file : RleFile) → IsRleFile text file → IsSame cells (picture_of_items file.corner file.items)
        × (file.rule_text ≡ rule_text) × (file.generation ≡ generation) }
{}

/// A tidy text of a plane in range is within the range of the reader.
pub fn tidy_in_range()
    ensures file { (text : List ℕ) (cells : Picture) (rule_text : List ℕ) (generation states : ℕ)
        → IsTidyRle text cells rule_text generation states → IsWord rule_text → generation < generation_limit
        → ((x y : ℤ) → cell cells x y ≢ 0 → IsInRange (record { y = y; x = x }))
        → (file : RleFile) × IsRleFile text file × IsRleWithinRange file }
    ensures only { (text : List ℕ) (cells : Picture) (rule_text : List ℕ) (generation states : ℕ)
        → IsTidyRle text cells rule_text generation states → IsWord rule_text → generation < generation_limit
        → ((x y : ℤ) → cell cells x y ≢ 0 → IsInRange (record { y = y; x = x }))
        → (file : RleFile) → IsRleFile text file → IsRleWithinRange file }
{}

/// A plane, with its rule text, generation and number of states, has one tidy text at most.
pub fn one_tidy_text()
    ensures { (t u : List ℕ) (cells : Picture) (rule_text : List ℕ) (generation states : ℕ)
        → IsTidyRle t cells rule_text generation states
        → IsTidyRle u cells rule_text generation states → t ≡ u }
{}
