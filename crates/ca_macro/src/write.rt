//! The writer of macrocell: a tidy text for a tree.

ghost use Rattle.std.specs.Prelude.{◌≡◌, ℕ, List, IfOk, OnOk, IsErrOf};
ghost use Rattle.std.specs.Io.KnownBytes.{Appends};
ghost use Rattle.ca_plane.specs.Prelude.{Rises, AppendsPrefix};
ghost use Rattle.ca_quad.specs.Prelude.{Grows, cell};
ghost use Rattle.ca_macro.specs.Pattern.{IsWritable, IsFileOf};
ghost use Rattle.ca_macro.specs.Tidy.{IsTidyMacrocell};

use ca_plane::{Dev, Memory, WriteFault, send};
use ca_quad::{Store, Tree};
use std::alloc::Global;
use std::io::Write;

mod lines;
mod nodes;
mod root;
mod written;

/// A tidy text of a tree's cells, with their rule text, their generation count, and their rule's number of
/// states.
///
/// The first line is `[M2] (cafile)`, the second `#R ` and the rule text, and where the generation isn't 0
/// the third is `#G ` and the generation. Then comes a line for each square but the empty ones, each square
/// once, its parts before it, so that the root is last: of two states the 8 by 8 squares as leaves, of more
/// the 2 by 2 ones as four states. The root has the smallest level that holds every live cell, at least 4
/// where there are two states, and else at least 1. The empty plane is `4 0 0 0 0` or `1 0 0 0 0`. Each line
/// ends with LF.
///
/// # Errors
///
/// Fails where an allocation fails. The store is then as before or has more squares.
pub fn write_macro(
    alloc: Global,
    store: &mut Store,
    tree: Tree,
    rule_text: &[u8],
    generation: u64,
    states: u16,
) -> Result<Vec<u8>, Memory>
    requires { IsWritable store.old tree rule_text.now generation states }
    ensures tidy { IfOk result (λ text.
        IsTidyMacrocell text.items (cell store.old tree) rule_text.now generation states) }
    // It means the cells, the rule text and the generation, and the reader takes it.
    ensures means { IfOk result (λ text. IsFileOf text.items (cell store.old tree) rule_text.now generation) }
    // Every old square stays.
    ensures grows { Grows store.old store.new }
{
    let root = root::root_of(store, tree, states)?;
    let nodes = nodes::nodes_of(alloc, store, root, states)?;
    let mut text = Vec::new(alloc);
    lines::push_lines(&mut text, rule_text, generation, &nodes)?;
    Ok(text)
}

/// Writes that text. The whole text is made before its first byte is written.
///
/// # Errors
///
/// `Memory` where an allocation fails: nothing was written. `Write` where a write failed: some first part
/// of the text was written, but not all.
pub fn write_macro_to<W: Write>(
    alloc: Global,
    store: &mut Store,
    tree: Tree,
    rule_text: &[u8],
    generation: u64,
    states: u16,
    out: &mut Dev<W>,
) -> Result<(), WriteFault>
    requires { IsWritable store.old tree rule_text.now generation states }
    // The tidy text is written whole, which means what that of `write_macro` means.
    ensures all { OnOk result ((text : List ℕ)
        × IsTidyMacrocell text (cell store.old tree) rule_text.now generation states
        × IsFileOf text (cell store.old tree) rule_text.now generation
        × Appends (W.contents out.old.inner) (W.contents out.new.inner) text) }
    // No failure is counted.
    ensures kept { OnOk result (out.new.failures ≡ out.old.failures) }
    // Without memory the device is as it was.
    ensures memory { IsErrOf result WriteFault.Memory → out.new ≡ out.old }
    // A write failed after some first part of the tidy text, which isn't the whole.
    ensures front { IsErrOf result WriteFault.Write → (text : List ℕ)
        × IsTidyMacrocell text (cell store.old tree) rule_text.now generation states
        × AppendsPrefix (W.contents out.old.inner) (W.contents out.new.inner) text }
    ensures counted { IsErrOf result WriteFault.Write → Rises out.old.failures out.new.failures }
    // Every old square stays.
    ensures grows { Grows store.old store.new }
{
    let Ok(text) = write_macro(alloc, store, tree, rule_text, generation, states) else {
        return Err(WriteFault::Memory);
    };
    send(out, &text)
}
