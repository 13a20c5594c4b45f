//! Faults with what is known of them, as they are reported.

ghost use Rattle.std.specs.Prelude.{◌≡◌, None};

/// Why nothing is made of a pattern file, with what is known of the fault.
#[derive(Debug, Drop)]
pub struct DetailedFault<F> {
    /// The fault.
    pub fault: F,
    /// Where the fault is one of the file's spelling, the line on which it stands. Lines are counted from 1.
    pub line: Option<u64>,
    /// Where the file's rule text names no rule, this is the text.
    pub rule_text: Option<Vec<u8>>,
}

impl<F> DetailedFault<F> {
    /// A fault of which no more is known.
    pub fn of(fault: F) -> DetailedFault<F>
        ensures { result ≡ record { fault = fault; line = None; rule_text = None } }
    {
        DetailedFault {
            fault,
            line: None,
            rule_text: None,
        }
    }
}
