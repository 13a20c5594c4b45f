//! Laws of patterns after some generations, which no call needs to run: out of work and memory apart, one
//! pattern at most is reached from a file, with one summary and one text in each format, or there is one
//! fault, in one place, for which it isn't.

ghost use Rattle.std.specs.Prelude.{◌≡◌, ◌≢◌, ℕ, List};
ghost use Rattle.ca_rule.specs.Prelude.{TableRule};
ghost use Rattle.ca_pattern.specs.declared.{format.Format.Format, pattern.Summary.Summary, pattern.Pattern.Pattern};
ghost use Rattle.ca_pattern.specs.declared.located_fault.LocatedFault.{LocatedFault};
ghost use Rattle.ca_pattern.specs.declared.located_fault.LocatedFault.TheVariants.{Work, Memory};
ghost use Rattle.ca_pattern.specs.Evolved.{IsPatternAfter, IsReachFault, IsSamePattern, IsSummaryAfter};
ghost use Rattle.ca_pattern.specs.Evolved.{IsConvertedAfter, IsConvertFaultAfter};
ghost use Rattle.ca_pattern.specs.LocatedFaults.{IsSameFault};
ghost use Rattle.ca_pattern.specs.Converted.{IsSameSummary};

/// After a number of generations one pattern at most is reached from a file, or none for one fault, and not
/// both; out of work and memory apart.
pub fn one_kind_of_run()
    ensures one_pattern { (bytes : List ℕ) (tables : List TableRule) (n : ℕ) (one two : Pattern)
        → IsPatternAfter bytes tables n one → IsPatternAfter bytes tables n two → IsSamePattern one two }
    ensures pattern_or_fault { (bytes : List ℕ) (tables : List TableRule) (n work : ℕ) (pattern : Pattern)
        (fault : LocatedFault) → fault ≢ Memory → fault ≢ Work
        → IsPatternAfter bytes tables n pattern → IsReachFault bytes tables n work fault → ⊥ }
    ensures one_fault { (bytes : List ℕ) (tables : List TableRule) (n work : ℕ) (one two : LocatedFault)
        → one ≢ Memory → one ≢ Work → two ≢ Memory → two ≢ Work
        → IsReachFault bytes tables n work one → IsReachFault bytes tables n work two → IsSameFault one two }
{}

/// That plane has one summary at most, or none for one cause, and not both; out of work and memory apart.
pub fn one_kind_of_later_summary()
    ensures one_summary { (bytes : List ℕ) (tables : List TableRule) (n : ℕ) (one two : Summary)
        → IsSummaryAfter bytes tables n one → IsSummaryAfter bytes tables n two → IsSameSummary one two }
    // That there is one cause is a clause of `one_kind_of_run`.
    ensures summary_or_fault { (bytes : List ℕ) (tables : List TableRule) (n work : ℕ) (summary : Summary)
        (fault : LocatedFault) → fault ≢ Memory → fault ≢ Work
        → IsSummaryAfter bytes tables n summary → IsReachFault bytes tables n work fault → ⊥ }
{}

/// That plane is written as one text at most, or not for one cause, and not both; out of work and memory
/// apart.
pub fn one_kind_of_later_conversion()
    ensures one_text { (bytes : List ℕ) (tables : List TableRule) (n : ℕ) (target : Format)
        (one two : List ℕ) → IsConvertedAfter bytes tables n target one
        → IsConvertedAfter bytes tables n target two → one ≡ two }
    ensures text_or_fault { (bytes : List ℕ) (tables : List TableRule) (n work : ℕ) (target : Format)
        (text : List ℕ) (fault : LocatedFault) → fault ≢ Memory → fault ≢ Work
        → IsConvertedAfter bytes tables n target text
        → IsConvertFaultAfter bytes tables n work target fault → ⊥ }
    ensures one_fault { (bytes : List ℕ) (tables : List TableRule) (n work : ℕ) (target : Format)
        (one two : LocatedFault) → one ≢ Memory → one ≢ Work → two ≢ Memory → two ≢ Work
        → IsConvertFaultAfter bytes tables n work target one
        → IsConvertFaultAfter bytes tables n work target two → IsSameFault one two }
{}
