//! Words, each once, in the order in which they first appear.

ghost use Rattle.std.specs.Prelude.{◌≡◌, ◌≢◌, ℕ, ◌<◌, [], Some, slice_get, length, IfOk, OnErr, MatchOption};
ghost use Rattle.std.specs.List.{IsDistinct, list_any};
ghost use Rattle.std.specs.Str.{bytes_eq};
ghost use Rattle.ca_text.specs.Words.{with_word};

use ca_plane::Memory;
use indexmap::IndexSet;
use std::alloc::Global;
use std::marker::Model;

/// Words, as paths or names, of which no two are equal, in the order in which they were put. A word is found
/// by its hash.
#[derive(Drop)]
pub struct WordSet {
    set: IndexSet<Vec<u8>>,
}

impl Model for WordSet {
    ghost use Rattle.std.specs.Prelude.{ℕ, List, map};

    ghost Value = { List (List ℕ) };

    ghost view = { λ w. map (λ word. word.items) w.set.keys };
}

impl WordSet {
    /// No words.
    pub fn new(alloc: Global) -> WordSet
        ensures { result ≡ [] }
    {
        WordSet {
            set: IndexSet::new(alloc),
        }
    }

    /// The number of the words.
    pub fn len(&self) -> usize
        ensures len { result ≡ length self.now }
        ensures distinct { IsDistinct bytes_eq self.now }
    {
        self.set.len()
    }

    /// The word with this index, counted from 0.
    pub fn word(&self, index: usize) -> &[u8]
        requires { index < length self.now }
        ensures { slice_get self.now index ≡ Some result.now }
    {
        &self.set.as_slice()[index]
    }

    /// Whether the word is one of these.
    pub fn contains(&self, word: &[u8]) -> bool
        ensures { result ≡ list_any (bytes_eq word.now) self.now }
    {
        self.set.get_index_of(word).is_some()
    }

    /// The index of the word, where it is one of these.
    pub fn index_of(&self, word: &[u8]) -> Option<usize>
        ensures { MatchOption result ((i : ℕ) → slice_get self.now i ≢ Some word.now)
            (λ i. slice_get self.now i ≡ Some word.now) }
    {
        self.set.get_index_of(word)
    }

    /// The index of the word, which is put after the others where it isn't one of these.
    ///
    /// # Errors
    ///
    /// Fails where there is no memory for the word, and then leaves the words as they were.
    pub fn put(&mut self, alloc: Global, word: &[u8]) -> Result<usize, Memory>
        ensures words { IfOk result (λ _. self.new ≡ with_word self.old word.now) }
        ensures index { IfOk result (λ i. slice_get self.new i ≡ Some word.now) }
        ensures refused { OnErr result (self.new ≡ self.old) }
    {
        if let Some(index) = self.index_of(word) {
            return Ok(index);
        }
        let word = Vec::from_slice(alloc, word)?;
        let (index, _) = self.set.insert_full(word)?;
        Ok(index)
    }
}
