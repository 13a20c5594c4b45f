//! Rule files that are looked for by the names of rules in a folder, each of them once.

ghost use Rattle.std.specs.Prelude.{◌≡◌, ◌≢◌, OnErr, IfOk};
ghost use Rattle.ca_host.specs.declared.lookups.Lookup.TheVariants as look_kind;
ghost use Rattle.ca_host.specs.Lookups.{look_of, IsLookup, IsLookOf, LooksOnce, IsTold, FindsOnce, SearchesOn};

use crate::files::{FaultyFile, found_bytes};
use crate::rules::{NamedTable, RuleFiles, table_named};
use crate::whole_files::WholeFiles;
use ca_plane::Memory;
use ca_report::rule_path;
use ca_rule::TableFault;
use std::alloc::Global;

/// What a folder has for the name of a rule.
#[derive(Clone, Copy)]
pub enum Lookup {
    /// A good table of that name, which is put after the others.
    Found,
    /// No rule file, one that isn't read, or one whose table has another name.
    NoTable,
    /// A rule file with this fault, which is never `Memory`.
    Faulty(TableFault),
    /// It isn't known, since memory ran out.
    Memory,
}

/// A name that was looked for, and what there was.
#[derive(Drop)]
pub struct NamedLookup {
    pub name: Vec<u8>,
    pub look: Lookup,
}

impl RuleFiles {
    /// Looks in a folder for the rule file of the pattern file with these bytes, where its rule text names no rule: none in
    /// its own notation, and no table of these rule files. Where its table has that name, it is put after the others.
    /// One that can't be read is as none, and so is one whose table has another name. Answers the file where it is
    /// faulty. What there is for a name is remembered among `looks`, so that each rule file is read once, whatever it
    /// holds.
    ///
    /// # Errors
    ///
    /// Fails where there is no memory for the pattern, the name or the file. The rule files are as before then.
    pub fn find<D: WholeFiles>(
        &mut self,
        alloc: Global,
        disk: &D,
        folder: &str,
        pattern: &[u8],
        looks: &mut Vec<NamedLookup>,
    ) -> Result<Option<FaultyFile>, Memory>
        ensures found { IfOk result (λ found.
            FindsOnce D.gives D.lacks folder.now pattern.now found looks.old.items looks.new.items
            (record { tables = self.old.tables.items; paths = self.old.paths.items })
            (record { tables = self.new.tables.items; paths = self.new.paths.items })) }
        ensures tables { OnErr result (self.new.tables.items ≡ self.old.tables.items) }
        ensures paths { OnErr result (self.new.paths.items ≡ self.old.paths.items) }
        ensures looks { OnErr result (
            SearchesOn D.gives D.lacks folder.now pattern.now looks.old.items looks.new.items
            (record { tables = self.old.tables.items; paths = self.old.paths.items })) }
    {
        let Some(name) = self.unknown_rule(alloc, pattern)? else {
            return Ok(None);
        };
        let Some(path) = rule_path(alloc, folder.as_bytes(), &name)? else {
            return Ok(None);
        };
        let look = self.look_once(alloc, disk, &name, &path, looks)?;
        told(alloc, &name, &path, look)
    }

    // What there is for this name: what is remembered, or else what is read at this path, which is remembered from then on.
    fn look_once<D: WholeFiles>(
        &mut self,
        alloc: Global,
        disk: &D,
        name: &[u8],
        path: &[u8],
        looks: &mut Vec<NamedLookup>,
    ) -> Result<Lookup, Memory>
        ensures once { IfOk result (λ look.
            LooksOnce D.gives D.lacks name.now path.now look looks.old.items looks.new.items
            (record { tables = self.old.tables.items; paths = self.old.paths.items })
            (record { tables = self.new.tables.items; paths = self.new.paths.items })) }
        ensures looks { OnErr result (looks.new.items ≡ looks.old.items) }
        ensures tables { OnErr result (self.new.tables.items ≡ self.old.tables.items) }
        ensures paths { OnErr result (self.new.paths.items ≡ self.old.paths.items) }
    {
        if let Some(look) = look_of(looks, name) {
            return Ok(look);
        }
        let asked = Vec::from_slice(alloc, name)?;
        let place = looks.len();
        // A place is there before the file is opened, so that memory isn't wanted for it any more.
        looks.push(NamedLookup {
            name: Vec::new(alloc),
            look: Lookup::Memory,
        })?;
        let look = self.look(alloc, disk, name, path);
        looks[place] = NamedLookup { name: asked, look };
        Ok(look)
    }

    // What is read at a path, for this name. A good table of that name is put after the others, and the path beside it.
    fn look<D: WholeFiles>(&mut self, alloc: Global, disk: &D, name: &[u8], path: &[u8]) -> Lookup
        ensures { IsLookup D.gives D.lacks name.now path.now result
            (record { tables = self.old.tables.items; paths = self.old.paths.items })
            (record { tables = self.new.tables.items; paths = self.new.paths.items }) }
    {
        match found_bytes(disk, path) {
            Ok(Some(bytes)) => self.look_at(alloc, name, path, &bytes),
            Ok(None) => Lookup::NoTable,
            Err(_) => Lookup::Memory,
        }
    }

    // What a rule file with this path and these bytes is for this name.
    fn look_at(&mut self, alloc: Global, name: &[u8], path: &[u8], bytes: &[u8]) -> Lookup
        ensures { IsLookOf name.now path.now bytes.now result
            (record { tables = self.old.tables.items; paths = self.old.paths.items })
            (record { tables = self.new.tables.items; paths = self.new.paths.items }) }
    {
        match table_named(alloc, name, bytes) {
            Ok(NamedTable::Good(table)) => match self.put(alloc, path, table) {
                Ok(()) => Lookup::Found,
                Err(_) => Lookup::Memory,
            },
            Ok(NamedTable::OtherName) => Lookup::NoTable,
            Ok(NamedTable::Faulty(fault)) => Lookup::Faulty(fault),
            Err(_) => Lookup::Memory,
        }
    }
}

// What there was for this name, if it was looked for.
fn look_of(looks: &[NamedLookup], name: &[u8]) -> Option<Lookup>
    ensures { result ≡ look_of looks.now name.now }
{
    'looks: for found in looks {
        if found.name.as_slice() == name {
            return Some(found.look);
        }
    }
    None
}

// The rule file at this path with this name, where it is faulty.
fn told(alloc: Global, name: &[u8], path: &[u8], look: Lookup) -> Result<Option<FaultyFile>, Memory>
    ensures told { IfOk result (IsTold name.now path.now look) }
    ensures err { OnErr result (look ≢ look_kind.Found) }
{
    match look {
        Lookup::Found | Lookup::NoTable => Ok(None),
        Lookup::Faulty(fault) => Ok(Some(FaultyFile::new(alloc, name, path, fault)?)),
        Lookup::Memory => Err(Memory),
    }
}
