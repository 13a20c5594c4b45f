//! Laws of pictures of files, which no call needs to run: out of work and memory apart, one is drawn of a
//! file as it is asked for, or none for one fault.

ghost use Rattle.std.specs.Prelude.{◌≡◌, ◌≢◌, ℕ, List};
ghost use Rattle.ca_rule.specs.Prelude.{TableRule};
ghost use Rattle.ca_report.specs.declared.{form.DrawRequest.DrawRequest, fault.ToolFault.ToolFault};
ghost use Rattle.ca_report.specs.declared.fault.ToolFault.TheVariants.{Work, Memory};
ghost use Rattle.ca_pattern_runs.specs.Drawn.{IsDrawnAfter, IsCaptionAfter};
ghost use Rattle.ca_pattern_runs.specs.Runs.{IsFormFaultAfter};
ghost use Rattle.ca_report.specs.declared.form.Form.TheVariants.{Picture};

/// As it is asked for, one picture at most is drawn of a file, with one caption, or none for one cause, and not
/// both; out of work and memory apart.
pub fn one_kind_of_drawing()
    ensures one_picture { (bytes : List ℕ) (tables : List TableRule) (n : ℕ)
        (request : DrawRequest) (one two : List ℕ) → IsDrawnAfter bytes tables n request one → IsDrawnAfter bytes tables n request two → one ≡ two }
    ensures one_caption { (bytes : List ℕ) (tables : List TableRule) (n : ℕ)
        (request : DrawRequest) (one two : List ℕ) → IsCaptionAfter bytes tables n request one
        → IsCaptionAfter bytes tables n request two → one ≡ two }
    ensures picture_or_fault { (bytes : List ℕ) (tables : List TableRule) (n work : ℕ)
        (request : DrawRequest) (text : List ℕ) (told : ToolFault) → told ≢ Memory → told ≢ Work
        → IsDrawnAfter bytes tables n request text → IsFormFaultAfter (Picture request) bytes tables n work told → ⊥ }
    ensures one_fault { (bytes : List ℕ) (tables : List TableRule) (n work : ℕ)
        (request : DrawRequest) (one two : ToolFault) → one ≢ Memory → one ≢ Work → two ≢ Memory → two ≢ Work
        → IsFormFaultAfter (Picture request) bytes tables n work one → IsFormFaultAfter (Picture request) bytes tables n work two → one ≡ two }
{}
