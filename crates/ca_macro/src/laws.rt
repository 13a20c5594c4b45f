//! Laws of the format: a text has one meaning or one fault.

ghost use Rattle.std.specs.Prelude.{◌≡◌, ◌≢◌, ◌⊎◌, ℕ, List};
ghost use Rattle.ca_macro.specs.declared.fault.MacroFault.{MacroFault};
ghost use Rattle.ca_macro.specs.declared.fault.MacroFault.TheVariants.{Memory};
ghost use Rattle.ca_macro.specs.File.{MacrocellFile, IsMacrocellFile};
ghost use Rattle.ca_macro.specs.Limits.{IsMacrocellWithinRange};
ghost use Rattle.ca_macro.specs.Faults.{IsFirstMacrocellFault, IsFirstMacrocellFaultOn, IsFaultyMacrocellLine, IsMacrocellFault};

/// A text is a file in one way at most: its nodes, its rule text and its generation.
pub fn one_file()
    ensures { (bytes : List ℕ) (f g : MacrocellFile) → IsMacrocellFile bytes f → IsMacrocellFile bytes g
        → f ≡ g }
{}

/// A text has one first fault at most in its spelling.
pub fn one_first_fault()
    ensures { (bytes : List ℕ) (f g : MacroFault) → IsFirstMacrocellFault bytes f
        → IsFirstMacrocellFault bytes g → f ≡ g }
{}

/// The first fault of a text is on one line, and a fault that is on a line is the first one.
pub fn one_faulty_line()
    ensures line { (bytes : List ℕ) (f : MacroFault) → IsFirstMacrocellFault bytes f
        → (n : ℕ) × IsFirstMacrocellFaultOn bytes f n }
    ensures fault { (bytes : List ℕ) (f : MacroFault) (n : ℕ) → IsFirstMacrocellFaultOn bytes f n
        → IsFirstMacrocellFault bytes f }
    ensures one { (bytes : List ℕ) (m n : ℕ) → IsFaultyMacrocellLine bytes m → IsFaultyMacrocellLine bytes n
        → m ≡ n }
{}

/// A text that is a file has no fault in its spelling.
pub fn no_fault_in_a_file()
    ensures { (bytes : List ℕ) (file : MacrocellFile) (f : MacroFault) → IsMacrocellFile bytes file
        → IsFirstMacrocellFault bytes f → ⊥ }
{}

/// Every text is a file, or has a first fault in its spelling.
pub fn file_or_fault()
    ensures { (bytes : List ℕ) → ((file : MacrocellFile) × IsMacrocellFile bytes file)
        ⊎ ((f : MacroFault) × IsFirstMacrocellFault bytes f) }
{}

/// A text has one fault at most, besides `Memory`.
pub fn one_fault()
    ensures { (bytes : List ℕ) (f g : MacroFault) → f ≢ Memory → g ≢ Memory → IsMacrocellFault bytes f
        → IsMacrocellFault bytes g → f ≡ g }
{}

/// A text that is a file within the range has no fault but `Memory`.
pub fn no_fault_within_range()
    ensures { (bytes : List ℕ) (file : MacrocellFile) (f : MacroFault) → IsMacrocellFile bytes file
        → IsMacrocellWithinRange file → f ≢ Memory → IsMacrocellFault bytes f → ⊥ }
{}
