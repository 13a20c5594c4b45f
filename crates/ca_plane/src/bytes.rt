//! Blanks, words, numbers and lines: what every reader of bytes begins with. Nothing here takes memory.

ghost use Rattle.std.specs.Prelude.{◌≡◌, ◌≢◌, ◌⊎◌, ℕ, ◌-◌, ◌<◌, ◌++◌, List, ◌∷◌, [], length, not, ℤ, ◌==◌, MatchOption, IfSome};
ghost use Rattle.std.specs.List.{prefix_len, list_all};
ghost use Rattle.ca_plane.specs.Bytes.{is_blank, is_line_end, is_digit, is_word_byte, Every, front, rest, trimmed, value};
ghost use Rattle.ca_plane.specs.Bytes.{AreDigits, IsInteger, nearest_i64, IsWord, lines_of, nearest_u64, words_of};

/// Whether the byte is a blank: a space, a tab or a CR.
pub fn is_blank(byte: u8) -> bool
    ensures { result ≡ is_blank byte }
{
    matches!(byte, b' ' | b'\t' | b'\r')
}

/// Whether the byte may be in a word: it is no blank, and no LF.
pub fn is_word_byte(byte: u8) -> bool
    ensures { result ≡ is_word_byte byte }
{
    !is_blank(byte) && byte != b'\n'
}

fn blank_length(bytes: &[u8]) -> usize
    ensures { result ≡ prefix_len is_blank bytes.now }
{
    bytes.iter().take_while(|byte| is_blank(**byte)).count()
}

/// The blanks that the bytes begin with, and the bytes after them.
#[tactic(auto, using(crate::proofs::Lengths::fronts))]
pub fn split_blanks(bytes: &[u8]) -> (&[u8], &[u8])
    ensures front { result.0.now ≡ front is_blank bytes.now }
    ensures rest { result.1.now ≡ rest is_blank bytes.now }
{
    bytes.split_at(blank_length(bytes))
}

/// The bytes without the blanks at both ends.
pub fn trim_blanks(bytes: &[u8]) -> &[u8]
    ensures { result.now ≡ trimmed bytes.now }
{
    let (_, mut left) = split_blanks(bytes);
    'blanks: while let Some((last, before)) = left.split_last() {
        if !is_blank(*last) {
            return left;
        }
        left = before;
    }
    left
}

fn digit_length(bytes: &[u8]) -> usize
    ensures { result ≡ prefix_len is_digit bytes.now }
{
    bytes
        .iter()
        .take_while(|byte| byte.is_ascii_digit())
        .count()
}

/// The digits that the bytes begin with, and the bytes after them.
#[tactic(auto, using(crate::proofs::Lengths::fronts))]
pub fn split_digits(bytes: &[u8]) -> (&[u8], &[u8])
    ensures front { result.0.now ≡ front is_digit bytes.now }
    ensures rest { result.1.now ≡ rest is_digit bytes.now }
{
    bytes.split_at(digit_length(bytes))
}

fn word_length(bytes: &[u8]) -> usize
    ensures { result ≡ prefix_len is_word_byte bytes.now }
{
    bytes.iter().take_while(|byte| is_word_byte(**byte)).count()
}

/// The bytes of a word that the bytes begin with, and the bytes after them.
#[tactic(auto, using(crate::proofs::Lengths::fronts))]
pub fn split_word(bytes: &[u8]) -> (&[u8], &[u8])
    ensures front { result.0.now ≡ front is_word_byte bytes.now }
    ensures rest { result.1.now ≡ rest is_word_byte bytes.now }
{
    bytes.split_at(word_length(bytes))
}

fn length_to(bytes: &[u8], end: u8) -> usize
    ensures { result ≡ prefix_len (λ b. not (b == end)) bytes.now }
{
    bytes.iter().take_while(|byte| **byte != end).count()
}

/// The bytes before the first that is this one, and the bytes after them.
#[tactic(auto, using(crate::proofs::Lengths::fronts))]
pub fn split_at_first(bytes: &[u8], end: u8) -> (&[u8], &[u8])
    ensures front { result.0.now ≡ front (λ b. not (b == end)) bytes.now }
    ensures rest { result.1.now ≡ rest (λ b. not (b == end)) bytes.now }
{
    bytes.split_at(length_to(bytes, end))
}

/// The bytes of a line that the bytes begin with, and the bytes after them.
pub fn split_line(bytes: &[u8]) -> (&[u8], &[u8])
    ensures front { result.0.now ≡ front (λ b. not (is_line_end b)) bytes.now }
    ensures rest { result.1.now ≡ rest (λ b. not (is_line_end b)) bytes.now }
{
    split_at_first(bytes, b'\n')
}

/// The first line of bytes that aren't empty, without its LF, and the bytes after that.
pub fn next_line(bytes: &[u8]) -> (&[u8], &[u8])
    requires { 0 < length bytes.now }
    ensures spelled { (bytes.now ≡ result.0.now ++ 10 ∷ result.1.now)
        ⊎ ((bytes.now ≡ result.0.now) × (result.1.now ≡ [])) }
    ensures lines { lines_of bytes.now ≡ result.0.now ∷ lines_of result.1.now }
    ensures line { Every (λ b. not (is_line_end b)) result.0.now }
    ensures shorter { length result.1.now < length bytes.now }
{
    let (line, later) = split_line(bytes);
    match later.split_first() {
        Some((_, later)) => (line, later),
        None => (line, later),
    }
}

/// The first word of a line's bytes, and the bytes after it. None where the bytes hold no word.
pub fn next_word(bytes: &[u8]) -> Option<(&[u8], &[u8])>
    requires { Every (λ b. not (is_line_end b)) bytes.now }
    ensures words { MatchOption result (words_of bytes.now ≡ [])
        (λ w. words_of bytes.now ≡ w.0.now ∷ words_of w.1.now) }
    ensures word { IfSome result (λ w. IsWord w.0.now) }
    ensures spelled { IfSome result (λ w.
        (blanks : List ℕ) × Every is_blank blanks × (bytes.now ≡ blanks ++ (w.0.now ++ w.1.now))) }
    ensures line { IfSome result (λ w. Every (λ b. not (is_line_end b)) w.1.now) }
    ensures some { IfSome result (λ w. 0 < length w.0.now) }
    ensures shorter { IfSome result (λ w. length w.1.now < length bytes.now) }
{
    let (_, bytes) = split_blanks(bytes);
    let (word, bytes) = split_word(bytes);
    if word.is_empty() {
        return None;
    }
    Some((word, bytes))
}

/// The bytes after the text, where they begin with it.
pub fn strip<'a>(bytes: &'a [u8], text: &[u8]) -> Option<&'a [u8]>
    ensures { MatchOption result ((r : List ℕ) → bytes.now ≢ text.now ++ r)
        (λ r. bytes.now ≡ text.now ++ r.now) }
{
    bytes.strip_prefix(text)
}

/// The number that the digits write, or the greatest `u64` where it is greater. Any count of digits will do.
pub fn number(digits: &[u8]) -> u64
    requires { Every is_digit digits.now }
    ensures { result ≡ nearest_u64 (value digits.now) }
{
    let mut number: u64 = 0;
    'digits: for digit in digits {
        number = number
            .saturating_mul(10)
            .saturating_add(u64::from(*digit - b'0'));
    }
    number
}

/// Whether each byte is a digit.
pub fn all_digits(bytes: &[u8]) -> bool
    ensures { result ≡ list_all is_digit bytes.now }
{
    bytes.iter().all(|byte| byte.is_ascii_digit())
}

/// The number that the bytes write, or the greatest `u64` where it is greater. None where they are not one or
/// more digits.
pub fn whole_number(bytes: &[u8]) -> Option<u64>
    ensures { MatchOption result (AreDigits bytes.now → ⊥)
        (λ n. AreDigits bytes.now × (n ≡ nearest_u64 (value bytes.now))) }
{
    if bytes.is_empty() {
        return None;
    }
    if !all_digits(bytes) {
        return None;
    }
    Some(number(bytes))
}

/// The integer that the bytes write, digits with an optional `-` before them; where it doesn't fit, the
/// nearest `i64`. None where they write no integer.
pub fn integer(bytes: &[u8]) -> Option<i64>
    ensures { MatchOption result ((n : ℤ) → IsInteger bytes.now n → ⊥)
        (λ i. (n : ℤ) × IsInteger bytes.now n × (i ≡ nearest_i64 n)) }
{
    match strip(bytes, b"-") {
        Some(digits) => Some(0i64.saturating_sub_unsigned(whole_number(digits)?)),
        None => Some(0i64.saturating_add_unsigned(whole_number(bytes)?)),
    }
}
