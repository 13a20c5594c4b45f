//! The line at which the spelling of a macrocell text is faulty.

ghost use Rattle.std.specs.Prelude.{IfOk, IfErr, MatchOption};
ghost use Rattle.ca_macro.specs.declared.fault.MacroFault.{MacroFault};
ghost use Rattle.ca_macro.specs.Faults.{HasNodeLine, IsFirstMacrocellFault, IsFaultyMacrocellLine};

use crate::read::read_text;
use ca_plane::Memory;
use ca_quad::Store;
use std::alloc::Global;

/// The number, counted from 1, of a text's first faulty line. None where the spelling has no fault: a live
/// cell that is out of range makes no line faulty.
///
/// The text is read into a store of its own, so time and memory are in proportion to the text.
///
/// # Errors
///
/// `Memory` where an allocation fails. That can happen only at a good line that adds a node after good lines.
pub fn faulty_line(alloc: Global, bytes: &[u8]) -> Result<Option<u64>, Memory>
    ensures line { IfOk result (λ line. MatchOption line ((f : MacroFault) → IsFirstMacrocellFault bytes.now f
        → ⊥) (IsFaultyMacrocellLine bytes.now)) }
    ensures memory { IfErr result (λ _. HasNodeLine bytes.now) }
{
    let mut store = Store::new(alloc);
    let Err(found) = read_text(alloc, &mut store, bytes) else {
        return Ok(None);
    };
    match found.line {
        Some(line) => Ok(Some(line)),
        None => Err(Memory),
    }
}
