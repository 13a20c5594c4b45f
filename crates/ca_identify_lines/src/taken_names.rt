//! Names, of which each is taken once.

ghost use Rattle.std.specs.Prelude.{◌≡◌, ◌<◌, ◌^◌, ◌-◌, ◌++◌, ◌∷◌, [], false, codes, decimal, IfOk, OnOk, OnErr};
ghost use Rattle.ca_plane.specs.Prelude.{Puts};
ghost use Rattle.ca_identify_lines.specs.Names.{is_taken, numbered_name, IsFreeName};
ghost use Rattle.ca_identify_lines.specs.inner.Tried.{IsTried};

use ca_plane::Memory;
use ca_plane::text::{push_number, push_text};
use ca_text::WordSet;
use indexmap::IndexMap;
use std::alloc::Global;
use std::marker::Model;

/// Names, of which no two are equal, in the order in which they were taken.
#[derive(Drop)]
pub struct TakenNames {
    names: WordSet,
    // For a name that was asked for: this many of its numbered names, starting at the first, are taken.
    tried: IndexMap<Vec<u8>, u64>,
}

impl Model for TakenNames {
    ghost use Rattle.std.specs.Prelude.{ℕ, List};
    ghost use Rattle.ca_identify_lines.specs.inner.Tried.{AreTried};

    ghost Value = { List (List ℕ) };

    ghost view = { λ t. t.names };

    ghost invariant = { λ t. AreTried t.names t.tried.entries };
}

impl TakenNames {
    /// No names.
    pub fn new(alloc: Global) -> TakenNames
        ensures { result ≡ [] }
    {
        TakenNames {
            names: WordSet::new(alloc),
            tried: IndexMap::new(alloc),
        }
    }

    /// Takes the name itself, or the first with `-2`, `-3` and so on after it that isn't taken.
    ///
    /// # Errors
    ///
    /// Fails where there is no memory for it, and then leaves the names as they were.
    pub(crate) fn take(&mut self, alloc: Global, name: Vec<u8>) -> Result<Vec<u8>, Memory>
        ensures free { IfOk result (λ free. IsFreeName self.old name.items free.items) }
        ensures names { IfOk result (λ free. self.new ≡ self.old ++ free.items ∷ []) }
        ensures refused { OnErr result (self.new ≡ self.old) }
    {
        let place = self.free_place(alloc, &name)?;
        let free = numbered_name(alloc, &name, place)?;
        self.note_tried(name, place)?;
        self.put(alloc, &free)?;
        Ok(free)
    }

    // The place of the first of a name's numbered names that isn't taken.
    fn free_place(&self, alloc: Global, name: &[u8]) -> Result<u64, Memory>
        ensures free { IfOk result (λ place. is_taken self.now (numbered_name name.now place) ≡ false) }
        ensures tried { IfOk result (IsTried self.now name.now) }
        ensures most { IfOk result (λ place. place < 2 ^ 64 - 1) }
    {
        'places: for place in self.tried_count(name)..u64::MAX {
            let numbered = numbered_name(alloc, name, place)?;
            if !self.names.contains(&numbered) {
                return Ok(place);
            }
        }
        Err(Memory)
    }

    // How many of a name's numbered names, starting at the first, are known to be taken.
    fn tried_count(&self, name: &[u8]) -> u64
        ensures { IsTried self.now name.now result }
    {
        match self.tried.get(name) {
            Some(count) => *count,
            None => 0,
        }
    }

    // Remembers that the first `count` of a name's numbered names are taken.
    fn note_tried(&mut self, name: Vec<u8>, count: u64) -> Result<(), Memory>
        requires { IsTried self.old name.items count }
        ensures { self.new ≡ self.old }
    {
        self.tried.insert(name, count)?;
        Ok(())
    }

    // Puts a name after the others.
    fn put(&mut self, alloc: Global, name: &[u8]) -> Result<(), Memory>
        requires { is_taken self.old name.now ≡ false }
        ensures names { OnOk result (self.new ≡ self.old ++ name.now ∷ []) }
        ensures refused { OnErr result (self.new ≡ self.old) }
    {
        self.names.put(alloc, name)?;
        Ok(())
    }
}

// The name itself, or with `-2`, `-3` and so on after it.
fn numbered_name(alloc: Global, name: &[u8], place: u64) -> Result<Vec<u8>, Memory>
    requires { place < 2 ^ 64 - 1 }
    ensures { IfOk result (λ text. text.items ≡ numbered_name name.now place) }
{
    let mut text = Vec::from_slice(alloc, name)?;
    if place == 0 {
        return Ok(text);
    }
    push_suffix(&mut text, place + 1)?;
    Ok(text)
}

fn push_suffix(out: &mut Vec<u8>, place: u64) -> Result<(), Memory>
    ensures { OnOk result (Puts out.old.items out.new.items (codes "-" ++ decimal place)) }
{
    push_text(out, b"-")?;
    push_number(out, place)
}
