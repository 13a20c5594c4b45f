//! Numbers in words, which several texts have.

ghost use Rattle.std.specs.Prelude.{◌≡◌, ◌++◌, decimal, OnOk};
ghost use Rattle.ca_plane.specs.Prelude.{Puts};
ghost use Rattle.std.specs.Fmt.{signed_decimal};
ghost use Rattle.ca_report.specs.Counts.{side_length, generations_word};

use ca_plane::Memory;
use ca_plane::text::push_text;
use itoa::Buffer;

/// Puts a text and a number after it.
///
/// # Errors
///
/// Fails where there is no memory for it.
pub fn push_counted(out: &mut Vec<u8>, text: &[u8], number: u64) -> Result<(), Memory>
    ensures { OnOk result (Puts out.old.items out.new.items (text.now ++ decimal number)) }
{
    let mut digits = Buffer::new();
    push_text(out, text)?;
    push_text(out, digits.format(number).as_bytes())
}

/// Puts how long the side of a box is that goes from the first coordinate to the last.
///
/// # Errors
///
/// Fails where there is no memory for it.
pub fn push_side(out: &mut Vec<u8>, first: i64, last: i64) -> Result<(), Memory>
    ensures { OnOk result (Puts out.old.items out.new.items (signed_decimal (side_length first last))) }
{
    let mut buffer = Buffer::new();
    let length = i128::from(last) - i128::from(first) + 1;
    push_text(out, buffer.format(length).as_bytes())
}

/// The word for this number of generations.
pub fn generations_word<'a>(generations: u64) -> &'a [u8]
    ensures { result.now ≡ generations_word generations }
{
    if generations == 1 {
        return b" generation";
    }
    b" generations"
}
