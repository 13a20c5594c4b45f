//! Rule files that are looked for in a folder.

ghost use Rattle.std.specs.Prelude.{◌≡◌, true, false, IfOk, OnOk, OnErr, MatchOption};
ghost use Rattle.ca_plane.specs.Prelude.{Puts};
ghost use Rattle.ca_report.specs.RulePaths.{has_two_dots, is_file_name, rule_path};

use crate::in_pieces;
use crate::pieces::push_pieces;
use ca_plane::Memory;
use ca_rule::TableFault;
use std::alloc::Global;

/// A rule file that was looked for by the name of a rule, and isn't good.
#[derive(Clone, Copy, Debug)]
pub struct FaultyRule<'a> {
    /// The name, which is the rule text of a pattern.
    pub name: &'a [u8],
    pub path: &'a [u8],
    /// What is wrong with the file. It is never `Memory`.
    pub fault: TableFault,
}

// Whether two dots stand side by side in a name.
fn has_two_dots(name: &[u8]) -> bool
    ensures { result ≡ has_two_dots name.now }
{
    let mut left = name;
    'bytes: while let Some((_, later)) = left.split_first() {
        if left.starts_with(b"..") {
            return true;
        }
        left = later;
    }
    false
}

/// Whether a file of a folder may have this name: one that isn't empty and has no `/`, no NUL and no `..`.
pub(crate) fn is_file_name(name: &[u8]) -> bool
    ensures { result ≡ is_file_name name.now }
{
    !name.is_empty() && !name.contains(&b'/') && !name.contains(&0) && !has_two_dots(name)
}

/// The path of the rule file with this name in a folder, `FOLDER/NAME.rule`. None where the name is empty or has
/// a `/`, a NUL or `..`: so the file stands in the folder itself.
///
/// # Errors
///
/// Fails where there is no memory for the path.
pub fn rule_path(alloc: Global, folder: &[u8], name: &[u8]) -> Result<Option<Vec<u8>>, Memory>
    ensures path { IfOk result (λ found. MatchOption found (is_file_name name.now ≡ false)
        (λ path. (is_file_name name.now ≡ true) × (path.items ≡ rule_path folder.now name.now))) }
    ensures memory { OnErr result (is_file_name name.now ≡ true) }
{
    if !is_file_name(name) {
        return Ok(None);
    }
    let mut path = Vec::new(alloc);
    push_path(&mut path, folder, name)?;
    Ok(Some(path))
}

fn push_path<'a>(out: &mut Vec<u8>, folder: &'a [u8], name: &'a [u8]) -> Result<(), Memory>
    ensures { OnOk result (Puts out.old.items out.new.items (rule_path folder.now name.now)) }
{
    push_pieces(
        out,
        &in_pieces![text folder, text b"/", text name, text b".rule"],
    )
}
