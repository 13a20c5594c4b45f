//! The code of an object.

ghost use Rattle.std.specs.Prelude.{◌≡◌, Some, None, IfOk, OnOk, decimal, option_map};
ghost use Rattle.ca_plane.specs.Prelude.{Puts};
ghost use Rattle.ca_apgcode.specs.Objects.{kind_letter, code_text};

use ca_plane::Memory;
use ca_plane::text::push_text;
use itoa::Buffer;
use std::alloc::Global;

/// What an object is, as its code begins.
#[derive(Clone, Copy, Debug, PartialEq, Eq)]
pub enum ObjectKind {
    /// A still life: one generation later it is what it was.
    StillLife,
    /// An oscillator: after its period it is what it was, in its place.
    Oscillator,
    /// A spaceship: after its period it is what it was, in another place.
    Spaceship,
}

/// The code of an object (LifeWiki, "Apgcode"), from the least text of its phases, if one of them fits into 40 by 40 cells.
/// An object's own number is that of the live cells of a still life, and otherwise the least period.
///
/// # Errors
///
/// Fails where there is no memory for the code.
pub fn object_code(
    alloc: Global,
    kind: ObjectKind,
    number: u128,
    least: Option<Vec<u8>>,
) -> Result<Vec<u8>, Memory>
    ensures { IfOk result
        (λ code. code.items ≡ code_text kind number (option_map (λ text. text.items) least)) }
{
    match least {
        Some(text) => code_with(alloc, kind, number, &text),
        None => code_without(alloc, kind, number),
    }
}

// The code with a text.
fn code_with(alloc: Global, kind: ObjectKind, number: u128, text: &[u8]) -> Result<Vec<u8>, Memory>
    ensures { IfOk result (λ code. code.items ≡ code_text kind number (Some text.now)) }
{
    let mut code = Vec::from_slice(alloc, &[b'x', letter(kind)])?;
    push_number(&mut code, number)?;
    push_text(&mut code, b"_")?;
    push_text(&mut code, text)?;
    Ok(code)
}

// The code without a text.
fn code_without(alloc: Global, kind: ObjectKind, number: u128) -> Result<Vec<u8>, Memory>
    ensures { IfOk result (λ code. code.items ≡ code_text kind number None) }
{
    let mut code = Vec::from_slice(alloc, b"ov_")?;
    push_text(&mut code, &[letter(kind)])?;
    push_number(&mut code, number)?;
    Ok(code)
}

// Puts the number after the code so far.
fn push_number(code: &mut Vec<u8>, number: u128) -> Result<(), Memory>
    ensures { OnOk result (Puts code.old.items code.new.items (decimal number)) }
{
    let mut buffer = Buffer::new();
    push_text(code, buffer.format(number).as_bytes())
}

// The letter of a kind.
fn letter(kind: ObjectKind) -> u8
    ensures { result ≡ kind_letter kind }
{
    match kind {
        ObjectKind::StillLife => b's',
        ObjectKind::Oscillator => b'p',
        ObjectKind::Spaceship => b'q',
    }
}
