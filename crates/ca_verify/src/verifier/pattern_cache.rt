//! The patterns that were last read, for later claims on the same files.

ghost use Rattle.std.specs.Prelude.{◌≡◌, ◌≤◌, ◌<◌, ◌↔◌, [], length, Some, IsTrue, IfSome, MatchResult, slice_get};
ghost use Rattle.ca_quad.specs.Prelude.{Grows};
ghost use Rattle.ca_pattern.specs.Prelude.{IsReadFrom, IsUnread};

use ca_pattern::{BadPattern, Loaded, OUT_OF_MEMORY, read_with_line};
use ca_quad::Store;
use std::alloc::Global;
use std::marker::Model;

/// How many patterns are kept: a claim is about one or two.
const ROOM: usize = 2;

/// The patterns that were last read, the latest at the end. A closed cache keeps none.
#[derive(Drop)]
pub(crate) struct PatternCache<'a> {
    is_open: bool,
    kept: Vec<KeptPattern<'a>>,
    ghost few: { length kept.items ≤ 2 },
}

/// The bytes of a file, and the pattern that was read from them, in a store of its own.
#[derive(Drop)]
struct KeptPattern<'a> {
    bytes: &'a [u8],
    store: Store,
    pattern: Loaded,
}

impl<'a> Model for KeptPattern<'a> {
    ghost use Rattle.std.specs.Prelude.{ℕ, List};
    ghost use Rattle.ca_pattern.specs.Prelude.{IsReadFrom};

    ghost Value = { List ℕ };

    ghost view = { λ k. k.bytes.now };

    ghost invariant = { λ k. IsReadFrom k.store k.bytes.now k.pattern };
}

impl<'a> PatternCache<'a> {
    /// A cache that has nothing yet. One that isn't open keeps nothing: for a claim that has no memory
    /// beside what is kept.
    pub(crate) fn new(alloc: Global, is_open: bool) -> PatternCache<'a>
        ensures open { result.is_open ≡ is_open }
        ensures kept { result.kept.items ≡ [] }
    {
        PatternCache {
            is_open,
            kept: Vec::new(alloc),
        }
    }

    /// Whether no pattern is kept.
    pub(crate) fn is_empty(&self) -> bool
        ensures { IsTrue result ↔ (self.now.kept.items ≡ []) }
    {
        self.kept.is_empty()
    }

    /// Lets all patterns go.
    pub(crate) fn clear(&mut self)
        ensures open { self.new.is_open ≡ self.old.is_open }
        ensures kept { self.new.kept.items ≡ [] }
    {
        self.kept.clear();
    }

    /// The pattern of a file's bytes, put into the store: the one that is kept where a kept file has the same
    /// bytes, and else the one that is read. Or what is wrong with them.
    pub(crate) fn pattern(
        &mut self,
        alloc: Global,
        store: &mut Store,
        bytes: &'a [u8],
    ) -> Result<Loaded, BadPattern>
        ensures read { MatchResult result (IsReadFrom store.new bytes.now) (IsUnread bytes.now) }
        ensures grows { Grows store.old store.new }
    {
        let _ = store.count();
        if !self.is_open {
            return read_with_line(alloc, store, bytes);
        }
        let kept = self.take(alloc, bytes)?;
        let pattern = kept.copy_into(store);
        // Where there is no memory to keep it, it goes.
        let _ = self.kept.push(kept);
        pattern
    }

    /// The pattern of a file's bytes: taken out where it is kept, and else read. For a new one the longest
    /// unused one goes first, so that there are never more than are kept.
    fn take(&mut self, alloc: Global, bytes: &'a [u8]) -> Result<KeptPattern<'a>, BadPattern>
        ensures taken { MatchResult result (λ kept. kept ≡ bytes.now) (IsUnread bytes.now) }
        ensures room { length self.new.kept.items < 2 }
    {
        if let Some(place) = self.index_of(bytes) {
            return Ok(self.kept.remove(place));
        }
        if self.kept.len() == ROOM {
            let _ = self.kept.remove(0);
        }
        KeptPattern::read(alloc, bytes)
    }

    /// Where the pattern of a file with these bytes is kept.
    fn index_of(&self, bytes: &[u8]) -> Option<usize>
        ensures { IfSome result (λ place. slice_get self.now.kept.items place ≡ Some bytes.now) }
    {
        'places: for (place, kept) in self.kept.iter().enumerate() {
            if kept.is_of(bytes) {
                return Some(place);
            }
        }
        None
    }
}

impl<'a> KeptPattern<'a> {
    /// Whether the file has these bytes.
    fn is_of(&self, bytes: &[u8]) -> bool
        ensures { IsTrue result ↔ (self.now ≡ bytes.now) }
    {
        self.bytes == bytes
    }

    /// The pattern of a file's bytes, or what is wrong with them.
    fn read(alloc: Global, bytes: &'a [u8]) -> Result<KeptPattern<'a>, BadPattern>
        ensures { MatchResult result (λ kept. kept ≡ bytes.now) (IsUnread bytes.now) }
    {
        let mut store = Store::new(alloc);
        let pattern = read_with_line(alloc, &mut store, bytes)?;
        Ok(KeptPattern {
            bytes,
            store,
            pattern,
        })
    }

    /// The pattern in another store.
    fn copy_into(&self, store: &mut Store) -> Result<Loaded, BadPattern>
        ensures read { MatchResult result (IsReadFrom store.new self.now) (IsUnread self.now) }
        ensures grows { Grows store.old store.new }
    {
        let Ok(tree) = store.import(&self.store, self.pattern.tree) else {
            return Err(OUT_OF_MEMORY);
        };
        let Ok(rule_text) = self.pattern.rule_text.clone() else {
            return Err(OUT_OF_MEMORY);
        };
        Ok(Loaded {
            kind: self.pattern.kind,
            tree,
            rule_text,
            generation: self.pattern.generation,
        })
    }
}
