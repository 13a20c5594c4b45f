//! Laws of conversions and summaries, which no call needs to run: out of memory apart, a file is converted to
//! one text at most and has one summary at most, and one cause for which it is refused.

ghost use Rattle.std.specs.Prelude.{◌≡◌, ◌≢◌, ℕ, List};
ghost use Rattle.ca_rule.specs.Prelude.{TableRule};
ghost use Rattle.ca_pattern.specs.declared.{format.Format.Format, pattern.Summary.Summary};
ghost use Rattle.ca_pattern.specs.declared.convert_fault.ConvertFault.{ConvertFault};
ghost use Rattle.ca_pattern.specs.declared.convert_fault.ConvertFault.TheVariants.{Memory};
ghost use Rattle.ca_pattern.specs.Converted.{IsConverted, IsConvertFault, IsSummary, IsSummaryFault, IsSameSummary};

/// A file is converted to one text at most, or refused for one cause, and not both; out of memory apart.
pub fn one_kind_of_conversion()
    ensures one_text { (bytes : List ℕ) (tables : List TableRule) (target : Format) (one two : List ℕ)
        → IsConverted bytes tables target one → IsConverted bytes tables target two → one ≡ two }
    ensures text_or_fault { (bytes : List ℕ) (tables : List TableRule) (target : Format) (text : List ℕ)
        (fault : ConvertFault) → fault ≢ Memory
        → IsConverted bytes tables target text → IsConvertFault bytes tables target fault → ⊥ }
    ensures one_fault { (bytes : List ℕ) (tables : List TableRule) (target : Format) (one two : ConvertFault)
        → one ≢ Memory → two ≢ Memory
        → IsConvertFault bytes tables target one → IsConvertFault bytes tables target two → one ≡ two }
{}

/// A file has one summary at most, or one cause for which it has none, and not both; out of memory apart.
pub fn one_kind_of_summary()
    ensures one_summary { (bytes : List ℕ) (tables : List TableRule) (one two : Summary)
        → IsSummary bytes tables one → IsSummary bytes tables two → IsSameSummary one two }
    ensures summary_or_fault { (bytes : List ℕ) (tables : List TableRule) (summary : Summary)
        (fault : ConvertFault) → fault ≢ Memory
        → IsSummary bytes tables summary → IsSummaryFault bytes tables fault → ⊥ }
    ensures one_fault { (bytes : List ℕ) (tables : List TableRule) (one two : ConvertFault) → one ≢ Memory
        → two ≢ Memory → IsSummaryFault bytes tables one → IsSummaryFault bytes tables two → one ≡ two }
{}
