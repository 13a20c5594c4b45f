//! Texts in pieces, which are sent or pushed one after another. The pieces themselves take no memory.

ghost use Rattle.std.specs.Prelude.{◌++◌, OnOk};
ghost use Rattle.ca_plane.specs.Prelude.{Puts};
ghost use Rattle.ca_report.specs.Writing.{Sends};
ghost use Rattle.ca_report.specs.Pieces.{piece_text, pieces_text};

use crate::escaped::{push_escaped, send_escaped};
use ca_plane::text::{push_integer, push_number, push_text};
use ca_plane::{Dev, Memory, WriteFault, send};
use itoa::Buffer;
use std::io::Write;

/// A piece of a text: bytes as they are, bytes whose control characters are spelled out, or a number in decimal
/// digits.
#[derive(Clone, Copy)]
pub enum Piece<'a> {
    Text(&'a [u8]),
    Escaped(&'a [u8]),
    Number(u64),
    Integer(i64),
}

/// No bytes.
pub const NOTHING: Piece<'static> = Piece::Text(b"");

/// One of `in_pieces!`: a text, a text whose control characters are spelled out, a number or an integer, or a piece
/// that is there already.
#[macro_export]
macro_rules! piece {
    (text $text:expr) => {
        $crate::Piece::Text($text)
    };
    (escaped $text:expr) => {
        $crate::Piece::Escaped($text)
    };
    (number $number:expr) => {
        $crate::Piece::Number($number)
    };
    (integer $number:expr) => {
        $crate::Piece::Integer($number)
    };
    (piece $piece:expr) => {
        $piece
    };
}

/// An array of pieces, as `in_pieces![text b"line ", number 3]`. With a length before them, as in
/// `in_pieces![4; text b"line ", number 3]`, it ends with pieces of no bytes up to that length.
#[macro_export]
macro_rules! in_pieces {
    ($($kind:ident $value:expr),+ $(,)?) => {
        [$($crate::piece!($kind $value)),+]
    };
    ($length:literal; $($kind:ident $value:expr),+ $(,)?) => {{
        let mut pieces = [$crate::NOTHING; $length];
        let mut place = 0;
        $(
            pieces[place] = $crate::piece!($kind $value);
            place += 1;
        )+
        pieces
    }};
}

// Puts a piece after what `out` holds.
fn push_piece(out: &mut Vec<u8>, piece: Piece<'_>) -> Result<(), Memory>
    ensures { OnOk result (Puts out.old.items out.new.items (piece_text piece.entry)) }
{
    match piece {
        Piece::Text(text) => push_text(out, text),
        Piece::Escaped(text) => push_escaped(out, text),
        Piece::Number(number) => push_number(out, number),
        Piece::Integer(number) => push_integer(out, number),
    }
}

// Writes a piece.
fn send_piece<W: Write>(device: &mut Dev<W>, piece: Piece<'_>) -> Result<(), WriteFault>
    ensures { Sends W.contents device.old device.new (piece_text piece.entry) WriteFault.Write result }
{
    let mut buffer = Buffer::new();
    match piece {
        Piece::Text(text) => send(device, text),
        Piece::Escaped(text) => send_escaped(device, text),
        Piece::Number(number) => send(device, buffer.format(number).as_bytes()),
        Piece::Integer(number) => send(device, buffer.format(number).as_bytes()),
    }
}

/// Puts all the pieces after what `out` holds.
pub fn push_pieces(out: &mut Vec<u8>, pieces: &[Piece<'_>]) -> Result<(), Memory>
    ensures { OnOk result (Puts out.old.items out.new.items (pieces_text pieces.now)) }
{
    'pieces: for piece in pieces {
        push_piece(out, *piece)?;
    }
    Ok(())
}

/// Writes all the pieces. After a failure some first part of them was written, but not all of them.
pub fn send_pieces<W: Write>(device: &mut Dev<W>, pieces: &[Piece<'_>]) -> Result<(), WriteFault>
    ensures { Sends W.contents device.old device.new (pieces_text pieces.now) WriteFault.Write result }
{
    'pieces: for piece in pieces {
        if let Err(fault) = send_piece(device, *piece) {
            return Err(fault);
        }
    }
    Ok(())
}

/// Writes the pieces of two texts, one after the other. After a failure some first part of them was written, but not
/// all of them.
pub fn send_both<W: Write>(
    device: &mut Dev<W>,
    first: &[Piece<'_>],
    second: &[Piece<'_>],
) -> Result<(), WriteFault>
    ensures { Sends W.contents device.old device.new
        (pieces_text first.now ++ pieces_text second.now) WriteFault.Write result }
{
    if let Err(fault) = send_pieces(device, first) {
        return Err(fault);
    }
    send_pieces(device, second)
}
