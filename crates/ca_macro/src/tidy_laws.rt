//! Laws of tidy texts: what a tidy text says, and that a plane has one at most.

ghost use Rattle.std.specs.Prelude.{◌≡◌, ℕ, ◌<◌, ◌^◌, ℤ, List, length};
ghost use Rattle.ca_plane.specs.Prelude.{IsWord, generation_limit};
ghost use Rattle.ca_macro.specs.File.{MacrocellFile, IsMacrocellFile};
ghost use Rattle.ca_macro.specs.Pattern.{AreInRange, Holds, IsFileOf};
ghost use Rattle.ca_macro.specs.Tidy.{IsTidyMacrocell};

/// A tidy text is a macrocell file of its cells, its rule text and its generation, and it is within the range
/// of the reader where the cells are. The text is shorter than 2^64 bytes. Of longer ones this is false,
/// since a decimal form has at most 64 digits.
pub fn tidy_means()
    ensures file { (text : List ℕ) (cells : ℤ → ℤ → ℕ) (rule_text : List ℕ) (generation states : ℕ)
        → IsTidyMacrocell text cells rule_text generation states
        → IsWord rule_text → generation < generation_limit → length text < 2 ^ 64
        → (file : MacrocellFile) × IsMacrocellFile text file × Holds file cells rule_text generation }
    ensures range { (text : List ℕ) (cells : ℤ → ℤ → ℕ) (rule_text : List ℕ) (generation states : ℕ)
        → IsTidyMacrocell text cells rule_text generation states
        → IsWord rule_text → generation < generation_limit → length text < 2 ^ 64 → AreInRange cells
        → IsFileOf text cells rule_text generation }
{}

/// A plane, with its rule text, generation and number of states, has one tidy text at most. The plane is
/// given by its cells at every x and y.
pub fn one_tidy_text()
    ensures { (t u : List ℕ) (cells : ℤ → ℤ → ℕ) (rule_text : List ℕ) (generation states : ℕ)
        → IsTidyMacrocell t cells rule_text generation states
        → IsTidyMacrocell u cells rule_text generation states → t ≡ u }
{}
