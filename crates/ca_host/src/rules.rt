//! The rule files of a run, and what one holds that is looked for by the name of a rule.

ghost use Rattle.std.specs.Prelude.{◌≡◌, [], ◌∷◌, ◌++◌, IfOk, IfErr, OnOk, OnErr, MatchOption, vec_len};
ghost use Rattle.ca_rule.specs.Prelude.{IsTableTextFault};
ghost use Rattle.ca_rule.specs.declared.table.fault.TableFault.TheVariants as table_fault;
ghost use Rattle.ca_host.specs.RuleFiles.{IsNamedTable, AddsTableOf, AddsPath, IsBadTable, IsUnknownRuleOf};
ghost use Rattle.ca_host.specs.RuleFiles.{HasNoUnknownRule};

use ca_pattern::rule_text_of;
use ca_plane::Memory;
use ca_report::ToolFault;
use ca_rule::{Table, TableFault, is_unknown_rule};
use std::alloc::Global;

/// What a rule file holds that is looked for by a name.
#[derive(Drop)]
pub enum NamedTable {
    /// This good table, which has that name.
    Good(Table),
    /// A good table of another name.
    OtherName,
    /// No good table, for this fault, which is never `Memory`.
    Faulty(TableFault),
}

/// What the text of a rule file holds that is looked for by this name.
///
/// # Errors
///
/// Fails where there is no memory for the table.
pub fn table_named(alloc: Global, name: &[u8], text: &[u8]) -> Result<NamedTable, Memory>
    ensures named { IfOk result (IsNamedTable name.now text.now) }
    ensures memory { OnErr result (IsTableTextFault text.now table_fault.Memory) }
{
    let table = match Table::parse(alloc, text) {
        Ok(table) => table,
        Err(TableFault::Memory) => return Err(Memory),
        Err(fault) => return Ok(NamedTable::Faulty(fault)),
    };
    if table.name() == name {
        return Ok(NamedTable::Good(table));
    }
    Ok(NamedTable::OtherName)
}

/// The rule files of a run: their paths, and the tables that they hold, in the same order.
#[derive(Drop)]
pub struct RuleFiles {
    pub paths: Vec<Vec<u8>>,
    pub tables: Vec<Table>,
    ghost paired: { vec_len paths ≡ vec_len tables },
}

impl RuleFiles {
    /// None yet.
    pub fn new(alloc: Global) -> RuleFiles
        ensures tables { result.tables.items ≡ [] }
        ensures paths { result.paths.items ≡ [] }
    {
        RuleFiles {
            paths: Vec::new(alloc),
            tables: Vec::new(alloc),
        }
    }

    /// Puts the rule file with this path and these bytes after the others.
    ///
    /// # Errors
    ///
    /// Fails where the bytes are no good table, for their fault, and where there is no memory. The rule files are as before
    /// then.
    pub fn add(&mut self, alloc: Global, path: &[u8], bytes: &[u8]) -> Result<(), ToolFault>
        ensures added { OnOk result (AddsTableOf bytes.now self.old.tables.items self.new.tables.items) }
        ensures path { OnOk result (AddsPath path.now self.old.paths.items self.new.paths.items) }
        ensures fault { IfErr result (IsBadTable bytes.now) }
        ensures err { OnErr result (self.new.tables.items ≡ self.old.tables.items) }
        ensures err_paths { OnErr result (self.new.paths.items ≡ self.old.paths.items) }
    {
        let table = match Table::parse(alloc, bytes) {
            Ok(table) => table,
            Err(TableFault::Memory) => return Err(ToolFault::Memory),
            Err(fault) => return Err(ToolFault::BadTable(fault)),
        };
        match self.put(alloc, path, table) {
            Ok(()) => Ok(()),
            Err(_) => Err(ToolFault::Memory),
        }
    }

    // The rule text of a pattern file that is read, where its rule is unknown.
    pub(crate) fn unknown_rule(
        &self,
        alloc: Global,
        pattern: &[u8],
    ) -> Result<Option<Vec<u8>>, Memory>
        ensures { IfOk result (λ found. MatchOption found (HasNoUnknownRule pattern.now self.now.tables.items)
            (λ name. IsUnknownRuleOf pattern.now self.now.tables.items name.items)) }
    {
        let Some(text) = rule_text_of(alloc, pattern)? else {
            return Ok(None);
        };
        if is_unknown_rule(&text, &self.tables) {
            return Ok(Some(text));
        }
        Ok(None)
    }

    // Puts a path and a table after the others.
    pub(crate) fn put(&mut self, alloc: Global, path: &[u8], table: Table) -> Result<(), Memory>
        ensures ok { OnOk result (self.new.tables.items ≡ self.old.tables.items ++ table ∷ []) }
        ensures path { OnOk result (AddsPath path.now self.old.paths.items self.new.paths.items) }
        ensures err { OnErr result (self.new.tables.items ≡ self.old.tables.items) }
        ensures err_paths { OnErr result (self.new.paths.items ≡ self.old.paths.items) }
    {
        let path = Vec::from_slice(alloc, path)?;
        self.paths.push(path)?;
        if self.tables.push(table).is_err() {
            let _ = self.paths.pop();
            return Err(Memory);
        }
        Ok(())
    }
}
