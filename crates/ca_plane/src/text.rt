//! Texts that are put together, piece by piece: for every writer.

ghost use Rattle.std.specs.Prelude.{◌≡◌, OnOk, IfOk, decimal, unwrap_or};
ghost use Rattle.std.specs.Fmt.{signed_decimal};
ghost use Rattle.std.specs.Option.{option_copied};
ghost use Rattle.ca_plane.specs.Limits.{default_rule};
ghost use Rattle.ca_plane.specs.Puts.{Puts};

use crate::memory::Memory;
use itoa::Buffer;
use std::alloc::{AllocError, Global};

/// The rule text of a file that names none (Golly Help, File Formats: Extended RLE format).
const DEFAULT_RULE: &[u8] = b"B3/S23";

/// The rule text that a file names, or else the default one.
///
/// # Errors
///
/// Fails where there is no memory for it.
pub fn rule_text(alloc: Global, named: Option<&[u8]>) -> Result<Vec<u8>, AllocError>
    ensures { IfOk result (λ v. v.items ≡ unwrap_or (option_copied named.entry) default_rule) }
{
    match named {
        Some(text) => Vec::from_slice(alloc, text),
        None => Vec::from_slice(alloc, DEFAULT_RULE),
    }
}

/// Puts the text after what `out` holds.
///
/// # Errors
///
/// Fails where there is no memory for it; what `out` holds then is open.
pub fn push_text(out: &mut Vec<u8>, text: &[u8]) -> Result<(), Memory>
    ensures { OnOk result (Puts out.old.items out.new.items text.now) }
{
    out.extend_from_slice(text)?;
    Ok(())
}

/// Puts the number after what `out` holds, in decimal digits without leading zeros.
///
/// # Errors
///
/// Fails where there is no memory for it; what `out` holds then is open.
pub fn push_number(out: &mut Vec<u8>, number: u64) -> Result<(), Memory>
    ensures { OnOk result (Puts out.old.items out.new.items (decimal number)) }
{
    let mut buffer = Buffer::new();
    push_text(out, buffer.format(number).as_bytes())
}

/// Puts the number after what `out` holds, in decimal digits without leading zeros, with a `-` before them
/// where it is below 0.
///
/// # Errors
///
/// Fails where there is no memory for it; what `out` holds then is open.
pub fn push_integer(out: &mut Vec<u8>, number: i64) -> Result<(), Memory>
    ensures { OnOk result (Puts out.old.items out.new.items (signed_decimal number)) }
{
    let mut signed = Buffer::new();
    push_text(out, signed.format(number).as_bytes())
}
