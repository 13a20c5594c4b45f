//! The line of a node that is given by numbers.

ghost use Rattle.std.specs.Prelude.{◌≡◌, not, ℕ, true, false, length, MatchOption};
ghost use Rattle.std.specs.List.{AllZip};
ghost use Rattle.ca_plane.specs.Prelude.{is_line_end, Every, words_of};
ghost use Rattle.ca_macro.specs.File.{AreNumbers};
ghost use Rattle.ca_macro.specs.inner.Numbers.{KeepsNumberOf, AreKept, AreNoNumbers};

use ca_plane::bytes::{next_word, whole_number};

/// Sets each number to that of a word of the line, or to the greatest `u64` where that is greater. False
/// where the line isn't just as many numbers.
fn set_numbers(numbers: &mut [u64], line: &[u8]) -> bool
    requires { Every (λ b. not (is_line_end b)) line.now }
    ensures kept { result ≡ true → AllZip KeepsNumberOf (words_of line.now) numbers.new }
    ensures none { result ≡ false → AreNoNumbers (length numbers.old) (words_of line.now) }
{
    let word = next_word(line);
    let Some((first, later)) = numbers.split_first_mut() else {
        return word.is_none();
    };
    let Some((word, line)) = word else {
        return false;
    };
    let Some(number) = whole_number(word) else {
        return false;
    };
    *first = number;
    set_numbers(later, line)
}

/// A node's five numbers. One above the greatest `u64` is kept as that.
#[derive(Clone, Copy)]
pub(crate) struct Numbers {
    pub(crate) level: u64,
    pub(crate) nw: u64,
    pub(crate) ne: u64,
    pub(crate) sw: u64,
    pub(crate) se: u64,
}

/// The five numbers of a line. None where it isn't five numbers.
pub(crate) fn five_numbers(line: &[u8]) -> Option<Numbers>
    requires { Every (λ b. not (is_line_end b)) line.now }
    ensures { MatchOption result
        ((level nw ne sw se : ℕ) → AreNumbers (words_of line.now) level nw ne sw se → ⊥)
        (λ kept. AreKept (words_of line.now) kept) }
{
    let mut numbers = [0; 5];
    if !set_numbers(&mut numbers, line) {
        return None;
    }
    Some(Numbers {
        level: numbers[0],
        nw: numbers[1],
        ne: numbers[2],
        sw: numbers[3],
        se: numbers[4],
    })
}
