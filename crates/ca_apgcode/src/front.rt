//! Steps that are read from the front of a text.

ghost use Rattle.std.specs.Prelude.{◌≡◌, ◌<◌, ◌≤◌, MatchOption, IfSome, None, Some};
ghost use Rattle.ca_apgcode.specs.inner.Reading.{digit_value, long_gap_at, gap_at, column_at, step_at};

// The step at the front of a text, and what follows it.
#[derive(Clone, Copy)]
pub(crate) struct StepAt<'a> {
    pub(crate) gap: u8,
    pub(crate) column: u8,
    pub(crate) rest: &'a [u8],
}

/// The step at the front.
pub(crate) fn step_at(bytes: &[u8]) -> Option<StepAt<'_>>
    ensures step { MatchOption result (step_at bytes.now ≡ None)
        (λ s. step_at bytes.now ≡ Some (record { gap = s.gap; column = s.column }, s.rest.now)) }
    ensures gap { IfSome result (λ s. s.gap ≤ 39) }
    ensures column { IfSome result (λ s. s.column ≤ 31) }
{
    let (gap, rest) = gap_at(bytes)?;
    column_at(gap, rest)
}

// The step that ends with the column at the front.
fn column_at(gap: u8, bytes: &[u8]) -> Option<StepAt<'_>>
    requires { gap ≤ 39 }
    ensures step { MatchOption result (column_at gap bytes.now ≡ None)
        (λ s. column_at gap bytes.now ≡ Some (record { gap = s.gap; column = s.column }, s.rest.now)) }
    ensures gap { IfSome result (λ s. s.gap ≤ 39) }
    ensures column { IfSome result (λ s. s.column ≤ 31) }
{
    let (first, rest) = bytes.split_first()?;
    let column = digit_value(*first)?;
    if column == 0 || 32 <= column {
        return None;
    }
    Some(StepAt { gap, column, rest })
}

// How many columns without cells are written at the front, and what follows them.
fn gap_at(bytes: &[u8]) -> Option<(u8, &[u8])>
    ensures gap { MatchOption result (gap_at bytes.now ≡ None) (λ g. gap_at bytes.now ≡ Some (g.0, g.1.now)) }
    ensures most { IfSome result (λ g. g.0 ≤ 39) }
{
    let (first, rest) = bytes.split_first()?;
    match *first {
        b'0' => Some((1, rest)),
        b'w' => Some((2, rest)),
        b'x' => Some((3, rest)),
        b'y' => long_gap_at(rest),
        _ => Some((0, bytes)),
    }
}

// How many columns without cells are written after a `y`, and what follows them.
fn long_gap_at(bytes: &[u8]) -> Option<(u8, &[u8])>
    ensures gap { MatchOption result (long_gap_at bytes.now ≡ None)
        (λ g. long_gap_at bytes.now ≡ Some (g.0, g.1.now)) }
    ensures most { IfSome result (λ g. g.0 ≤ 39) }
{
    let (first, rest) = bytes.split_first()?;
    let number = digit_value(*first)?;
    Some((number + 4, rest))
}

// The number of a digit.
fn digit_value(byte: u8) -> Option<u8>
    ensures number { result ≡ digit_value byte }
    ensures most { IfSome result (λ n. n ≤ 35) }
{
    match byte {
        b'0'..=b'9' => Some(byte - b'0'),
        b'a'..=b'z' => Some(byte - b'a' + 10),
        _ => None,
    }
}
