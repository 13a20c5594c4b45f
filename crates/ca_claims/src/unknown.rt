//! The rules that a text's patterns name and that aren't known.

ghost use Rattle.std.specs.Prelude.{◌≡◌, ◌≢◌, ℕ, ◌<◌, List, [], length, IfOk, OnOk, OnErr, MatchOption};
ghost use Rattle.ca_rule.specs.declared.table.fault.TableFault.TheVariants as table_fault;
ghost use Rattle.ca_answers.specs.Prelude.{contents};
ghost use Rattle.ca_pattern.specs.Prelude.{MayWantMemory};
ghost use Rattle.ca_claims.specs.Unknown.{HoldsUnknownRule, AreUnknownRules};
ghost use Rattle.ca_claims.specs.inner.Unknown.{AreAskedBefore, AddsAsked};

use ca_pattern::{File, rule_text_of};
use ca_plane::Memory;
use ca_quad::Store;
use ca_rule::{Table, TableFault, is_unknown_rule};
use ca_text::{Claims, WordSet};
use ca_verify::look_up;
use std::alloc::Global;

/// The rule texts of the patterns that the text's claims need, of those whose files are supplied and are read,
/// where they name no rule: none in B/S notation or of the family Generations, nor a table of a rule line. There
/// are none where a rule line's file is missing or faulty: no claim is judged then. Each pattern file is read
/// for this.
///
/// # Errors
///
/// Fails where there is no memory for the list of the files, the rule tables, a pattern or the names, of a text
/// that makes a claim.
pub fn unknown_rules(alloc: Global, claims: &Claims, files: &[File<'_>]) -> Result<WordSet, Memory>
    ensures names { IfOk result (AreUnknownRules (contents files.now) claims.now) }
    ensures memory { OnErr result (claims.now.claims ≢ []) }
{
    if claims.claim_count() == 0 {
        return Ok(WordSet::new(alloc));
    }
    let marks = claims.needed(alloc)?;
    let needed = look_up(alloc, claims, files)?;
    let Some(tables) = needed.tables.good() else {
        return Ok(WordSet::new(alloc));
    };
    names_of(alloc, &marks, &needed.found, tables)
}

/// The names that the files ask for that were found and are needed.
fn names_of(
    alloc: Global,
    needed: &[bool],
    found: &[Option<&[u8]>],
    tables: &[Table],
) -> Result<WordSet, Memory>
    requires { length needed.now ≡ length found.now }
    ensures { IfOk result (AreAskedBefore tables.now needed.now found.now (length found.now)) }
{
    let mut names = WordSet::new(alloc);
    'files: for index in 0..found.len() {
        add_unknown(alloc, needed[index], found[index], tables, &mut names)?;
    }
    Ok(names)
}

/// Adds the name that a file asks for, if it asks for one.
fn add_unknown(
    alloc: Global,
    is_needed: bool,
    file: Option<&[u8]>,
    tables: &[Table],
    names: &mut WordSet,
) -> Result<(), Memory>
    ensures { OnOk result (AddsAsked tables.now is_needed file.entry names.old names.new) }
{
    let Some(bytes) = file else {
        return Ok(());
    };
    if !is_needed {
        return Ok(());
    }
    let found = unknown_rule(alloc, bytes, tables)?;
    let Some(name) = found else {
        return Ok(());
    };
    names.put(alloc, &name)?;
    Ok(())
}

/// The rule text of a pattern file that is read, where its rule is unknown.
fn unknown_rule(alloc: Global, bytes: &[u8], tables: &[Table]) -> Result<Option<Vec<u8>>, Memory>
    ensures name { IfOk result
        (λ found. MatchOption found ((name : List ℕ) → HoldsUnknownRule tables.now name bytes.now → ⊥)
        (λ name. HoldsUnknownRule tables.now name.items bytes.now)) }
    ensures memory { OnErr result (MayWantMemory bytes.now) }
{
    let found = rule_text_of(alloc, bytes)?;
    let Some(text) = found else {
        return Ok(None);
    };
    if is_unknown_rule(&text, tables) {
        return Ok(Some(text));
    }
    Ok(None)
}
