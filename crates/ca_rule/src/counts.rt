//! Sets of counts of live neighbours.

ghost use Rattle.std.specs.Prelude.{◌≡◌, ◌+◌, ◌*◌, ◌^◌, ◌<◌, ◌++◌, ℕ, false, length, OnOk, if◌then◌else◌};

use ca_plane::Memory;

/// A set of counts of live neighbours, each from 0 to 8.
#[derive(Clone, Copy, Debug, PartialEq, Eq)]
pub struct Counts {
    holds: [bool; 9],
}

impl Counts {
    ghost use Rattle.ca_rule.specs.Counts.{is_count, counts_of};
    ghost use Rattle.ca_rule.specs.Masks.{mask_of};
    ghost use Rattle.ca_rule.specs.Spelling.{digits_of};

    /// No count at all.
    pub const fn none() -> Counts
        ensures { (n : ℕ) → is_count result n ≡ false }
    {
        Counts { holds: [false; 9] }
    }

    /// Whether `count` is one of these counts. No number above 8 is.
    pub fn contains(self, count: usize) -> bool
        ensures { result ≡ is_count self count }
    {
        self.holds.get(count).copied().unwrap_or(false)
    }

    /// These counts as a mask: bit n is 1 where n is one of them.
    pub fn mask(self) -> u16
        ensures { result ≡ mask_of self.holds }
    {
        let [a, b, c, d, e, f, g, h, i] = self.holds;
        let high = with_lowest(f, with_lowest(g, with_lowest(h, u16::from(i))));
        let middle = with_lowest(d, with_lowest(e, high));
        with_lowest(a, with_lowest(b, with_lowest(c, middle)))
    }

    /// How many numbers may be counts.
    pub(crate) fn places(self) -> usize
        ensures places { result ≡ 9 }
        ensures holds { length self.holds ≡ result }
    {
        self.holds.len()
    }

    /// The counts from 0 to 8 whose digits these are.
    pub(crate) fn of_digits(digits: &[u8]) -> Counts
        ensures { result ≡ counts_of digits.now }
    {
        Counts {
            holds: [
                digits.contains(&b'0'),
                digits.contains(&b'1'),
                digits.contains(&b'2'),
                digits.contains(&b'3'),
                digits.contains(&b'4'),
                digits.contains(&b'5'),
                digits.contains(&b'6'),
                digits.contains(&b'7'),
                digits.contains(&b'8'),
            ],
        }
    }

    /// Appends the digits of these counts, rising.
    pub(crate) fn push_digits(self, out: &mut Vec<u8>) -> Result<(), Memory>
        ensures { OnOk result (out.new.items ≡ out.old.items ++ digits_of self) }
    {
        'counts: for count in 0..9u8 {
            if self.contains(usize::from(count)) {
                out.push(b'0' + count)?;
            }
        }
        Ok(())
    }
}

// The mask whose lowest bit tells whether this holds, and whose other bits are those of `more`.
fn with_lowest(held: bool, more: u16) -> u16
    requires { more < 2 ^ 15 }
    ensures mask { result ≡ (if held then 1 else 0) + 2 * more }
    ensures bound { (n : ℕ) → more < n → result < 2 * n }
{
    u16::from(held) + 2 * more
}
