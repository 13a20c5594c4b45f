//! The lines of a rule file.

ghost use Rattle.std.specs.Prelude.{◌≡◌, ◌==◌, ℕ, not, None, Some, IfSome, MatchOption};
ghost use Rattle.std.specs.List.{list_all, prefix_len};
ghost use Rattle.ca_plane.specs.Prelude.{Every, IsWord, is_blank, is_line_end};
ghost use Rattle.ca_rule.specs.TableLines.{content_of, rule_name, begins_section, begins_table, tail_after};
ghost use Rattle.ca_rule.specs.TableLines.{setting, begins_variable, is_name_byte, is_name};

use ca_plane::bytes::{is_blank, next_word, split_blanks, strip, trim_blanks};

/// How many bytes come before the first `#`.
fn comment_start(line: &[u8]) -> usize
    ensures { result ≡ prefix_len (λ b. not (b == 35)) line.now }
{
    line.iter().take_while(|byte| **byte != b'#').count()
}

/// What a line says: the bytes before its first `#`, without the blanks at both ends.
#[tactic(auto, using(ca_plane::proofs::Lengths::fronts))]
pub(crate) fn content_of(line: &[u8]) -> &[u8]
    ensures { result.now ≡ content_of line.now }
{
    let (said, _) = line.split_at(comment_start(line));
    trim_blanks(said)
}

/// The name that the line `@RULE` gives.
pub(crate) fn rule_name(content: &[u8]) -> Option<&[u8]>
    requires { Every (λ b. not (is_line_end b)) content.now }
    ensures name { (n : ℕ) → MatchOption result (rule_name (n, content.now) ≡ None)
        (λ r. rule_name (n, content.now) ≡ Some r.now) }
    ensures word { IfSome result (λ r. IsWord r.now) }
{
    let (word, rest) = next_word(content)?;
    let (name, _) = next_word(rest)?;
    if word == b"@RULE".as_slice() {
        return Some(name);
    }
    None
}

/// How many bytes come before the first blank.
fn first_word_length(content: &[u8]) -> usize
    ensures { result ≡ prefix_len (λ b. not (is_blank b)) content.now }
{
    content.iter().take_while(|byte| !is_blank(**byte)).count()
}

/// Whether the line begins a table.
#[tactic(auto, using(ca_plane::proofs::Lengths::fronts))]
pub(crate) fn begins_table(content: &[u8]) -> bool
    ensures { (n : ℕ) → result ≡ begins_table (n, content.now) }
{
    let (word, _) = content.split_at(first_word_length(content));
    word == b"@TABLE".as_slice()
}

/// What follows the text with which the bytes begin.
pub(crate) fn tail_after<'a>(text: &[u8], bytes: &'a [u8]) -> Option<&'a [u8]>
    ensures { MatchOption result (tail_after text.now bytes.now ≡ None)
        (λ r. tail_after text.now bytes.now ≡ Some r.now) }
{
    strip(bytes, text)
}

/// Whether the line begins a section.
pub(crate) fn begins_section(content: &[u8]) -> bool
    ensures { (n : ℕ) → result ≡ begins_section (n, content.now) }
{
    let Some((first, _)) = content.split_first() else {
        return false;
    };
    *first == b'@'
}

/// Whether the line is that of a variable: it begins with `var` and a blank.
pub(crate) fn begins_variable(content: &[u8]) -> bool
    ensures { (n : ℕ) → result ≡ begins_variable (n, content.now) }
{
    let Some(rest) = tail_after(b"var", content) else {
        return false;
    };
    let Some((first, _)) = rest.split_first() else {
        return false;
    };
    is_blank(*first)
}

/// The value of the setting with this word, where the line is that one.
pub(crate) fn setting<'a>(word: &[u8], content: &'a [u8]) -> Option<&'a [u8]>
    ensures { (n : ℕ) → MatchOption result (setting word.now (n, content.now) ≡ None)
        (λ r. setting word.now (n, content.now) ≡ Some r.now) }
{
    let (_, colon) = split_blanks(tail_after(word, content)?);
    let (_, value) = split_blanks(tail_after(b":", colon)?);
    Some(value)
}

/// Whether the byte may be in a name.
pub(crate) fn is_name_byte(byte: u8) -> bool
    ensures { result ≡ is_name_byte byte }
{
    !is_blank(byte) && !matches!(byte, b',' | b'{' | b'}' | b'=' | b'#' | b':' | b'@')
}

/// Whether each byte may be in a name.
fn all_name_bytes(bytes: &[u8]) -> bool
    ensures { result ≡ list_all is_name_byte bytes.now }
{
    bytes.iter().all(|byte| is_name_byte(*byte))
}

/// Whether the bytes are a name.
pub(crate) fn is_name(bytes: &[u8]) -> bool
    ensures { result ≡ is_name bytes.now }
{
    let Some((first, _)) = bytes.split_first() else {
        return false;
    };
    if first.is_ascii_digit() {
        return false;
    }
    all_name_bytes(bytes)
}
