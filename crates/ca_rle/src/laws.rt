//! Laws of the format: a text has one meaning or one fault.

ghost use Rattle.std.specs.Prelude.{◌≡◌, ◌≢◌, ◌⊎◌, ℕ, ◌+◌, ◌<◌, max, List, [], ◌∷◌, ◌++◌, length, None};
ghost use Rattle.std.specs.List.{flat_map, AllByRecursion};
ghost use Rattle.ca_plane.specs.Prelude.{lines_of};
ghost use Rattle.ca_rle.specs.declared.{item.Item.Item, fault.RleFault.RleFault};
ghost use Rattle.ca_rle.specs.declared.fault.RleFault.TheVariants.{Memory};
ghost use Rattle.ca_rle.specs.Items.{Items, IsEnd, Run};
ghost use Rattle.ca_rle.specs.Faults.{item_fault, IsFirstRleFault, IsRleFault};
ghost use Rattle.ca_rle.specs.FaultyLine.{IsFirstRleFaultOn, IsFaultyRleLine, line_number_of};
ghost use Rattle.ca_rle.specs.File.{RleFile, IsRleFile, IsLine, line_with_lf};
ghost use Rattle.ca_rle.specs.Limits.{IsWithinLimits};

/// Bytes spell one list of items at most.
pub fn one_list_of_items()
    ensures { (bytes : List ℕ) (is js : List Item) → Items bytes is → Items bytes js → is ≡ js }
{}

/// No bad item stands after items of a spelled list.
pub fn no_fault_in_items()
    ensures { (bytes bad : List ℕ) (is js : List Item) (f : RleFault) → Items bytes is → Run bytes js bad
        → item_fault bad ≡ Some f → ⊥ }
{}

/// At the front of bytes stands an item, or the end of the pattern, where it has no fault.
pub fn item_or_end()
    ensures { (bytes : List ℕ) → item_fault bytes ≡ None
        → ((i : Item) × (more : List ℕ) × Run bytes (i ∷ []) more) ⊎ IsEnd bytes }
{}

/// A text is a file in one way at most.
pub fn one_file()
    ensures { (bytes : List ℕ) (f g : RleFile) → IsRleFile bytes f → IsRleFile bytes g → f ≡ g }
{}

/// A text that is a file has no fault in its spelling.
pub fn no_fault_in_a_file()
    ensures { (bytes : List ℕ) (file : RleFile) (f : RleFault) → IsRleFile bytes file
        → IsFirstRleFault bytes f → ⊥ }
{}

/// A text has one first fault at most in its spelling.
pub fn one_first_fault()
    ensures { (bytes : List ℕ) (f g : RleFault) → IsFirstRleFault bytes f → IsFirstRleFault bytes g → f ≡ g }
{}

/// A text has one fault at most, besides running out of memory.
pub fn one_fault()
    ensures { (bytes : List ℕ) (f g : RleFault) → f ≢ Memory → g ≢ Memory → IsRleFault bytes f
        → IsRleFault bytes g → f ≡ g }
{}

/// Every text is a file, or has a first fault in its spelling.
pub fn file_or_fault()
    ensures { (bytes : List ℕ) → ((file : RleFile) × IsRleFile bytes file)
        ⊎ ((f : RleFault) × IsFirstRleFault bytes f) }
{}

/// A text that is a file within the limits has no fault, besides running out of memory.
pub fn no_fault_within_limits()
    ensures { (bytes : List ℕ) (file : RleFile) (f : RleFault) → IsRleFile bytes file → IsWithinLimits file
        → f ≢ Memory → IsRleFault bytes f → ⊥ }
{}

/// The fault on a faulty line is the text's first, and each first fault stands on a line.
pub fn line_of_a_fault()
    ensures fault { (bytes : List ℕ) (f : RleFault) (line : ℕ) → IsFirstRleFaultOn bytes f line
        → IsFirstRleFault bytes f }
    ensures line { (bytes : List ℕ) (f : RleFault) → IsFirstRleFault bytes f
        → (line : ℕ) × IsFirstRleFaultOn bytes f line }
{}

/// A text has one faulty line at most.
pub fn one_faulty_line()
    ensures { (bytes : List ℕ) (m n : ℕ) → IsFaultyRleLine bytes m → IsFaultyRleLine bytes n → m ≡ n }
{}

/// How lines are counted: what stands after whole lines and the start of another is on that other line, and
/// the end of a text is on its last line.
pub fn counted_lines()
    ensures rest { (lines : List (List ℕ)) (before rest : List ℕ) → AllByRecursion IsLine lines
        → IsLine before → 0 < length rest
        → line_number_of (flat_map line_with_lf lines ++ (before ++ rest)) rest ≡ length lines + 1 }
    ensures end { (text : List ℕ) → line_number_of text [] ≡ max 1 (length (lines_of text)) }
{}
