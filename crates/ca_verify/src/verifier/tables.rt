//! The tables of a text's rule lines.

ghost use Rattle.std.specs.Prelude.{◌≡◌, ◌≢◌, ℕ, ◌<◌, List, map, length, get_or, Some, None, All, IfOk, IfErr, MatchOption};
ghost use Rattle.std.specs.List.{AllByRecursion, AllZip};
ghost use Rattle.std.specs.Option.{option_copied};
ghost use Rattle.ca_rule.specs.Prelude.{TableRule};
ghost use Rattle.ca_rule.specs.declared.table.fault.TableFault.TheVariants as table_fault;
ghost use Rattle.ca_text.specs.declared.{asks.Asks.Asks, both.Both.Both};
ghost use Rattle.ca_text.specs.Prelude.{HoldsOfBoth, path_at, FirstBad};
ghost use Rattle.ca_answers.specs.Prelude.{SuppliedFiles, bytes_at, IsThere, AreTables};
ghost use Rattle.ca_verify.specs.inner.Found.{IsFound, IsTableFound, IsFaultFound};
ghost use Rattle.ca_verify.specs.inner.Refusals.{IsRefusal};

use crate::refusal::{About, Refusal};
use ca_answers::Cause;
use ca_plane::Memory;
use ca_rule::{Table, TableFault};
use std::alloc::Global;

/// What the files of a text's rule lines hold.
#[derive(Drop)]
pub enum Tables {
    /// The file with the path at this place is the first that isn't supplied.
    Missing(usize),
    /// All were, and this is the first that is faulty.
    Faulty(FaultyTable),
    /// The tables, in the order of the lines.
    Read(Vec<Table>),
}

/// The place of a path whose file is no good table, and what is wrong with it.
#[derive(Clone, Copy)]
pub struct FaultyTable {
    pub place: usize,
    pub fault: TableFault,
}

impl Tables {
    ghost use Rattle.ca_verify.specs.NeededFiles.{AreRead};

    /// What the files of the rule lines hold, which are at these places.
    ///
    /// # Errors
    ///
    /// Fails where there is no memory for the tables.
    pub(crate) fn read(
        alloc: Global,
        places: &[usize],
        found: &[Option<&[u8]>],
    ) -> Result<Tables, Memory>
        requires { All (λ i. i < length found.now) places.now }
        ensures { (files : SuppliedFiles) (paths : List (List ℕ))
            → map option_copied found.now ≡ map (bytes_at files) paths
            → IfOk result (AreRead files paths (map (path_at paths) places.now)) }
    {
        if let Some(place) = first_missing(places, found) {
            return Ok(Tables::Missing(place));
        }
        match tables_of(alloc, places, found) {
            Ok(tables) => Ok(Tables::Read(tables)),
            Err(faulty) => match faulty.fault {
                TableFault::Memory => Err(Memory),
                _ => Ok(Tables::Faulty(faulty)),
            },
        }
    }

    /// The tables, where all files are there and good.
    pub fn good(&self) -> Option<&[Table]>
        ensures { (files : SuppliedFiles) (paths rules : List (List ℕ)) → AreRead files paths rules self.now
            → MatchOption result ((tables : List TableRule) → AreTables files rules tables → ⊥)
            (λ tables. AreTables files rules tables.now) }
    {
        let Tables::Read(tables) = self else {
            return None;
        };
        Some(tables)
    }

    /// The tables, or why no claim is judged without them.
    pub(crate) fn all(&self) -> Result<&[Table], Refusal>
        ensures tables { (files : SuppliedFiles) (paths rules : List (List ℕ))
            → AreRead files paths rules self.now → IfOk result (λ tables. AreTables files rules tables.now) }
        ensures refusal { (files : SuppliedFiles) (paths rules : List (List ℕ)) (asks : Asks)
            (patterns : Both (List ℕ)) → AreRead files paths rules self.now
            → HoldsOfBoth (IsThere files) patterns
            → IfErr result (IsRefusal files paths rules asks patterns) }
    {
        match self {
            Tables::Missing(place) => Err(Refusal {
                cause: Cause::NoFile,
                about: About::RuleFile(*place),
            }),
            Tables::Faulty(faulty) => Err(Refusal {
                cause: Cause::BadTable(faulty.fault),
                about: About::RuleFile(faulty.place),
            }),
            Tables::Read(tables) => Ok(tables),
        }
    }
}

/// The first of these places at which no file is found.
fn first_missing(places: &[usize], found: &[Option<&[u8]>]) -> Option<usize>
    requires { All (λ i. i < length found.now) places.now }
    ensures { MatchOption result (AllByRecursion (IsFound found.now) places.now)
        (λ place. FirstBad (IsFound found.now)
        (λ i. (i ≡ place) × (get_or found.now i None ≡ None)) places.now) }
{
    'places: for place in places {
        if found[*place].is_none() {
            return Some(*place);
        }
    }
    None
}

/// The tables of the texts at these places, in their order, or the first that is no text of a table.
fn tables_of(
    alloc: Global,
    places: &[usize],
    found: &[Option<&[u8]>],
) -> Result<Vec<Table>, FaultyTable>
    requires within { All (λ i. i < length found.now) places.now }
    requires there { AllByRecursion (IsFound found.now) places.now }
    ensures read { IfOk result (λ tables. AllZip (IsTableFound found.now) places.now tables.items) }
    ensures fault { IfErr result (λ faulty. faulty.fault ≢ table_fault.Memory
        → FirstBad (λ i. (table : TableRule) × IsTableFound found.now i table)
        (IsFaultFound found.now faulty) places.now) }
{
    let mut tables = Vec::new(alloc);
    'places: for place in places {
        let Some(bytes) = found[*place] else {
            unreachable!();
        };
        let table = match Table::parse(alloc, bytes) {
            Ok(table) => table,
            Err(fault) => {
                return Err(FaultyTable {
                    place: *place,
                    fault,
                });
            }
        };
        if tables.push(table).is_err() {
            return Err(FaultyTable {
                place: *place,
                fault: TableFault::Memory,
            });
        }
    }
    Ok(tables)
}
