//! Texts whose control characters are spelled out, so that a terminal shows them and obeys none.

ghost use Rattle.std.specs.Prelude.{◌≡◌, ◌<◌, ◌≤◌, [], ◌++◌, take, drop, length, false, MatchOption, OnOk};
ghost use Rattle.std.specs.Fmt.{digit_glyph};
ghost use Rattle.ca_plane.specs.Prelude.{Puts};
ghost use Rattle.ca_report.specs.Escaped.{spelled_byte, is_control, is_control_pair, escaped};
ghost use Rattle.ca_report.specs.Writing.{Sends};
ghost use Rattle.ca_report.specs.inner.Parts.{begins_with_control, part_text, IsSplit};

use ca_plane::text::push_text;
use ca_plane::{Dev, Memory, WriteFault, send};
use std::io::Write;

/// A part of a text: bytes that are no control characters, or one control character of one byte or of two.
#[derive(Clone, Copy)]
enum Part<'a> {
    Plain(&'a [u8]),
    Control(u8),
    ControlPair(u8, u8),
}

// Whether the byte is a control character of ASCII.
fn is_control(byte: u8) -> bool
    ensures { result ≡ is_control byte }
{
    byte < 32 || byte == 127
}

// Whether the bytes are a control character of two bytes in UTF-8.
fn is_control_pair(first: u8, second: u8) -> bool
    ensures { result ≡ is_control_pair first second }
{
    first == 0xc2 && 0x80 <= second && second <= 0x9f
}

fn begins_with_control(text: &[u8]) -> bool
    ensures { result ≡ begins_with_control text.now }
{
    match text {
        [] => false,
        [only] => is_control(*only),
        [first, second, ..] => is_control_pair(*first, *second) || is_control(*first),
    }
}

// How many bytes come before the first control character.
fn plain_length(text: &[u8]) -> usize
    ensures within { result ≤ length text.now }
    ensures plain { escaped text.now ≡ take result text.now ++ escaped (drop result text.now) }
{
    'bytes: for index in 0..text.len() {
        if begins_with_control(&text[index..]) {
            return index;
        }
    }
    text.len()
}

// The first part of a text, and what follows it.
fn split_part(text: &[u8]) -> Option<(Part<'_>, &[u8])>
    ensures { MatchOption result (text.now ≡ []) (λ split. IsSplit text.now split.0 split.1.now) }
{
    match text {
        [] => None,
        [first, second, later @ ..] if is_control_pair(*first, *second) => {
            Some((Part::ControlPair(*first, *second), later))
        }
        [first, later @ ..] if is_control(*first) => Some((Part::Control(*first), later)),
        [_, later @ ..] => {
            let (plain, later) = text.split_at(1 + plain_length(later));
            Some((Part::Plain(plain), later))
        }
    }
}

// A hexadecimal digit.
fn hex_digit(number: u8) -> u8
    requires { number < 16 }
    ensures { result ≡ digit_glyph false number }
{
    if number < 10 {
        return b'0' + number;
    }
    b'a' - 10 + number
}

fn spelled_byte(byte: u8) -> [u8; 4]
    ensures { result ≡ spelled_byte byte }
{
    [b'\\', b'x', hex_digit(byte / 16), hex_digit(byte % 16)]
}

fn spelled_pair(first: u8, second: u8) -> [u8; 8]
    ensures { result ≡ spelled_byte first ++ spelled_byte second }
{
    let [a, b, c, d] = spelled_byte(first);
    let [e, f, g, h] = spelled_byte(second);
    [a, b, c, d, e, f, g, h]
}

// Puts a part as it is written.
fn push_part(out: &mut Vec<u8>, part: Part<'_>) -> Result<(), Memory>
    ensures { OnOk result (Puts out.old.items out.new.items (part_text part.entry)) }
{
    match part {
        Part::Plain(text) => push_text(out, text),
        Part::Control(byte) => push_text(out, &spelled_byte(byte)),
        Part::ControlPair(first, second) => push_text(out, &spelled_pair(first, second)),
    }
}

/// Puts a text after what `out` holds, with its control characters spelled out.
///
/// # Errors
///
/// Fails where there is no memory for it; what `out` holds then is open.
pub fn push_escaped(out: &mut Vec<u8>, text: &[u8]) -> Result<(), Memory>
    ensures { OnOk result (Puts out.old.items out.new.items (escaped text.now)) }
{
    let mut rest = text;
    'parts: while let Some((part, later)) = split_part(rest) {
        push_part(out, part)?;
        rest = later;
    }
    Ok(())
}

// Writes a part.
fn send_part<W: Write>(device: &mut Dev<W>, part: Part<'_>) -> Result<(), WriteFault>
    ensures { Sends W.contents device.old device.new (part_text part.entry) WriteFault.Write result }
{
    match part {
        Part::Plain(text) => send(device, text),
        Part::Control(byte) => send(device, &spelled_byte(byte)),
        Part::ControlPair(first, second) => send(device, &spelled_pair(first, second)),
    }
}

/// Writes a text with its control characters spelled out. It takes no memory. After a failure some first part of
/// that was written, but not all of it.
pub(crate) fn send_escaped<W: Write>(device: &mut Dev<W>, text: &[u8]) -> Result<(), WriteFault>
    ensures { Sends W.contents device.old device.new (escaped text.now) WriteFault.Write result }
{
    let mut rest = text;
    'parts: while let Some((part, later)) = split_part(rest) {
        if let Err(fault) = send_part(device, part) {
            return Err(fault);
        }
        rest = later;
    }
    Ok(())
}
