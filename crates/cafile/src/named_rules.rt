//! Rule files that are looked for in a folder by the names of the rules of claims' patterns.

ghost use Rattle.std.specs.Prelude.{◌≡◌, ◌⊎◌, IfOk, OnOk};
ghost use Rattle.ca_text.specs.Prelude.{with_rule_line};
ghost use Rattle.cafile.specs.NamedRules.{label_of, AddsRuleLines, AddsFaulty};

use ca_claims::unknown_rules;
use ca_host::{
    FaultyFile, LoadedFile, LoadedText, NamedTable, bytes_at, load_once, table_named, views,
};
use ca_plane::Memory;
use ca_plane::text::push_text;
use ca_rule::TableFault;
use ca_text::{Claims, WordSet};
use ca_tool::rule_path;
use std::alloc::Global;
use std::rt::Files;

/// The same text with the rule files of a folder that the claims' patterns name and no rule line gives: each
/// whose table has the name that was looked for stands on a rule line at the text's end. One that is read is among
/// the files in any case, and one that can't be read is as none. Where the text's own paths are looked for in a root,
/// no path of the text stands for such a file.
pub fn with_named_rules<R: Files + AllocGlobal>(
    rt: &R,
    folder: &str,
    has_root: bool,
    mut text: LoadedText,
) -> Result<LoadedText, Memory>
    ensures claims { IfOk result (λ new. AddsRuleLines folder.now has_root text.claims new.claims) }
    ensures missing { IfOk result (λ new. new.missing ≡ text.missing) }
{
    let names = unknown_names(rt.alloc(), &text.claims, &text.files)?;
    for index in 0..names.len() {
        text = with_rule_for(rt, folder, has_root, names.word(index), text)?;
    }
    Ok(text)
}

// The same text with the rule file of the folder that has this name.
fn with_rule_for<R: Files + AllocGlobal>(
    rt: &R,
    folder: &str,
    has_root: bool,
    name: &[u8],
    mut text: LoadedText,
) -> Result<LoadedText, Memory>
    ensures claims { IfOk result (λ new. AddsRuleLines folder.now has_root text.claims new.claims) }
    ensures missing { IfOk result (λ new. new.missing ≡ text.missing) }
{
    let Some(path) = rule_path(rt.alloc(), folder.as_bytes(), name)? else {
        return Ok(text);
    };
    let label = file_label(rt.alloc(), &path, has_root)?;
    load_once(rt, &path, &label, &mut text.files)?;
    with_named_rule(rt.alloc(), name, &path, &label, text)
}

// The path under which a rule file of the folder stands among the files. Where the text's paths are looked for in a
// root, they are other files than those of these paths here: so it begins with a blank, which no word does.
fn file_label(alloc: Global, path: &[u8], has_root: bool) -> Result<Vec<u8>, Memory>
    ensures { IfOk result (λ label. label.items ≡ label_of path.now has_root) }
{
    let mut label = Vec::new(alloc);
    if has_root {
        push_text(&mut label, b" ")?;
    }
    push_text(&mut label, path)?;
    Ok(label)
}

// The same text with the rule file of this path, which was looked for by this name, and stands among the files under
// the other path.
fn with_named_rule(
    alloc: Global,
    name: &[u8],
    path: &[u8],
    label: &[u8],
    mut text: LoadedText,
) -> Result<LoadedText, Memory>
    ensures claims { IfOk result (λ new. (new.claims ≡ text.claims) ⊎ (new.claims ≡ with_rule_line text.claims label.now)) }
    ensures files { IfOk result (λ new. new.files ≡ text.files) }
    ensures faulty { IfOk result (λ new. (new.faulty.items ≡ text.faulty.items)
        ⊎ AddsFaulty name.now path.now text.faulty.items new.faulty.items) }
    ensures missing { IfOk result (λ new. new.missing ≡ text.missing) }
{
    let Some(bytes) = bytes_at(&text.files, label) else {
        return Ok(text);
    };
    match table_named(alloc, name, bytes)? {
        NamedTable::Good(_) => {
            let claims = text.claims.with_rule(alloc, label)?;
            Ok(LoadedText { claims, ..text })
        }
        NamedTable::OtherName => Ok(text),
        NamedTable::Faulty(fault) => {
            add_faulty(alloc, name, path, fault, &mut text.faulty)?;
            Ok(text)
        }
    }
}

// Puts a faulty rule file after the others.
fn add_faulty(
    alloc: Global,
    name: &[u8],
    path: &[u8],
    fault: TableFault,
    faulty: &mut Vec<FaultyFile>,
) -> Result<(), Memory>
    ensures { OnOk result (AddsFaulty name.now path.now faulty.old.items faulty.new.items) }
{
    let file = FaultyFile::new(alloc, name, path, fault)?;
    faulty.push(file)?;
    Ok(())
}

// The rule texts of the claims' patterns that name no rule.
fn unknown_names(alloc: Global, claims: &Claims, loaded: &[LoadedFile]) -> Result<WordSet, Memory> {
    let files = views(alloc, loaded)?;
    unknown_rules(alloc, claims, &files)
}
