//! What came of files that were to be identified: the head of the claim text, the exit status, and the lines of
//! `--explain`.

ghost use Rattle.std.specs.Prelude.{◌≡◌, ◌≢◌, ◌++◌, [], IfOk, OnOk, OnErr};
ghost use Rattle.std.specs.List.{list_all};
ghost use Rattle.ca_plane.specs.Prelude.{Puts};
ghost use Rattle.ca_identify_lines.specs.Catalog.{version_line, rule_lines, is_identified, catalog_status};
ghost use Rattle.ca_identify_lines.specs.Catalog.{entry_explanation, catalog_explanation, catalog_has_explanation};
ghost use Rattle.ca_identify_lines.specs.CatalogSays.{SaysItsClaims};
ghost use Rattle.ca_report.specs.Prelude.{Sends, pieces_text};

use crate::entry::{Entry, Outcome};
use crate::entry_lines::push_rule;
use crate::outcome::{outcome_explanation_pieces, outcome_has_explanation, outcome_remedy_pieces};
use ca_pattern::File;
use ca_plane::{Dev, Memory, WriteFault};
use ca_report::{Piece, in_pieces, send_both};
use std::alloc::Global;
use std::io::Write;
use std::marker::Model;

/// What came of files that were to be identified, in order.
#[derive(Drop)]
pub struct Catalog<'a> {
    entries: Vec<Entry<'a>>,
}

impl<'a> Model for Catalog<'a> {
    ghost use Rattle.std.specs.Prelude.{List};
    ghost use Rattle.ca_identify_lines.specs.declared.entry.Entry.{Entry};

    ghost Value = { List Entry };

    ghost view = { λ c. c.entries.items };
}

impl<'a> Catalog<'a> {
    /// The catalog of these entries.
    pub fn of(entries: Vec<Entry<'a>>) -> Catalog<'a>
        ensures { result ≡ entries.entry.items }
    {
        Catalog { entries }
    }

    /// The exit status: 2 where a file isn't identified, else 0.
    pub fn status(&self) -> u8
        ensures { result ≡ catalog_status self.now }
    {
        catalog_status(&self.entries)
    }

    /// Whether there is something to explain of some file.
    pub fn has_explanation(&self) -> bool
        ensures { result ≡ catalog_has_explanation self.now }
    {
        have_explanation(&self.entries)
    }

    /// Writes a line for each file that isn't identified because it or its rule file is faulty: which file that is,
    /// and what is known of its fault; and then what helps, where something does. `files` are those whose bytes are
    /// known, by which that may go.
    ///
    /// It takes no memory. After a failure some first part of the lines was written, but not all of them.
    pub fn explain<W: Write>(
        &self,
        files: &[File<'_>],
        device: &mut Dev<W>,
    ) -> Result<(), WriteFault>
        ensures sends { Sends W.contents device.old device.new
            (catalog_explanation files.now self.now) WriteFault.Write result }
    {
        explain_entries(&self.entries, files, device)
    }
}

fn have_explanation(entries: &[Entry<'_>]) -> bool
    ensures { result ≡ catalog_has_explanation entries.now }
{
    entries
        .iter()
        .any(|entry| outcome_has_explanation(&entry.outcome))
}

// Writes the lines that explain what came of the files, where there is something to tell.
fn explain_entries<'a, W: Write>(
    entries: &'a [Entry<'a>],
    files: &[File<'a>],
    device: &mut Dev<W>,
) -> Result<(), WriteFault>
    ensures { Sends W.contents device.old device.new
        (catalog_explanation files.now entries.now) WriteFault.Write result }
{
    'entries: for entry in entries {
        if let Err(fault) = explain_entry(entry, files, device) {
            return Err(fault);
        }
    }
    Ok(())
}

// Writes the lines that explain what came of one file.
fn explain_entry<'a, W: Write>(
    entry: &'a Entry<'a>,
    files: &[File<'a>],
    device: &mut Dev<W>,
) -> Result<(), WriteFault>
    ensures { Sends W.contents device.old device.new
        (entry_explanation files.now entry.now) WriteFault.Write result }
{
    send_both(
        device,
        &outcome_explanation_pieces(entry.path, &entry.outcome),
        &outcome_remedy_pieces(files, entry.path, &entry.outcome),
    )
}

fn is_identified(outcome: &Outcome<'_>) -> bool
    ensures { result ≡ is_identified outcome.now }
{
    matches!(outcome, Outcome::Identified(..))
}

fn are_identified(entries: &[Entry<'_>]) -> bool
    ensures { result ≡ list_all (λ entry. is_identified entry.outcome) entries.now }
{
    entries.iter().all(|entry| is_identified(&entry.outcome))
}

// The exit status: 2 where a file isn't identified, else 0.
fn catalog_status(entries: &[Entry<'_>]) -> u8
    ensures { result ≡ catalog_status entries.now }
{
    if are_identified(entries) { 0 } else { 2 }
}

/// The lines of the rule files with these paths.
///
/// # Errors
///
/// Fails where there is no memory for them.
pub fn rules_text(alloc: Global, paths: &[Vec<u8>]) -> Result<Vec<u8>, Memory>
    ensures text { IfOk result (λ text. text.items ≡ rule_lines paths.now) }
    ensures memory { OnErr result (paths.now ≢ []) }
{
    let mut text = Vec::new(alloc);
    push_rules(&mut text, paths)?;
    Ok(text)
}

fn push_rules(out: &mut Vec<u8>, paths: &[Vec<u8>]) -> Result<(), Memory>
    ensures puts { OnOk result (Puts out.old.items out.new.items (rule_lines paths.now)) }
    ensures memory { OnErr result (paths.now ≢ []) }
{
    'paths: for path in paths {
        push_rule(out, path)?;
    }
    Ok(())
}

/// The head of a claim text in pieces: its version, and the lines of the rule files.
pub fn head_pieces<'a>(rule_lines: &'a [u8]) -> [Piece<'a>; 2]
    ensures { pieces_text result ≡ version_line ++ rule_lines.now }
{
    in_pieces![text b"claims 2\n", text rule_lines]
}

/// A law: the text that `identify_run` writes is a claim text, and so is what it has written of it after each file,
/// which is the text on the files up to that one. Read as one, as `ca_text::read_claims` reads it, it says just the
/// names of the files that are identified and the claims that are true of them, and the rule files, whose paths
/// have to be words; and no line of it is faulty. Of planes after some generations it makes no claim.
pub fn says_its_claims()
    ensures { SaysItsClaims }
{}
