//! The words of the command line as they are, also those that aren't UTF-8.

ghost use Rattle.std.specs.Prelude.{◌≡◌, length, map, Some, string_bytes, IfOk, OnOk};
ghost use Rattle.std.specs.Vec.Iter.{into_iter_items, into_iter_len};
ghost use Rattle.ca_cli.specs.RawWords.{AddsWord, AreNextBytes, AreWords, is_raw, path_bytes, text_of_word};

use crate::request::WordsFault;
use std::alloc::{AllocError, Global};
use std::env::FillError;
use std::rt::Env;
use std::vec::IntoIter;

/// What stands for a word that isn't UTF-8: no word has a NUL.
const STAND_IN: &str = "\0";

/// The words, and of those that aren't UTF-8 the bytes, in order. A stand-in is in their place.
#[derive(Drop)]
pub struct ProgramWords {
    pub texts: Vec<String>,
    pub raw: Vec<Vec<u8>>,
}

/// The words that the program is started with. One that isn't UTF-8 may be a path, and is a fault where it begins with
/// `-` as options do, unless `--` stands before it.
pub fn program_words<R: Env + AllocGlobal>(rt: &R) -> Result<ProgramWords, WordsFault> {
    let all = all_words(rt)?;
    split_words(rt.alloc(), all)
}

// The bytes of all the words.
fn all_words<R: Env + AllocGlobal>(rt: &R) -> Result<Vec<Vec<u8>>, WordsFault> {
    let mut all = Vec::new(rt.alloc());
    for index in 0..usize::MAX {
        let Some(bytes) = word_bytes(rt, index)? else {
            return Ok(all);
        };
        if all.push(bytes).is_err() {
            return Err(WordsFault::Memory);
        }
    }
    Err(WordsFault::Memory)
}

// The words with these bytes.
fn split_words(alloc: Global, all: Vec<Vec<u8>>) -> Result<ProgramWords, WordsFault>
    ensures { IfOk result (AreWords (map (λ word. word.items) all.items)) }
{
    let mut words = ProgramWords {
        texts: Vec::new(alloc),
        raw: Vec::new(alloc),
    };
    let mut are_paths = false;
    'words: for bytes in all {
        are_paths = are_paths || bytes.as_slice() == b"--".as_slice();
        words.add(alloc, bytes, are_paths)?;
    }
    Ok(words)
}

impl ProgramWords {
    // Puts a word behind the others.
    fn add(&mut self, alloc: Global, bytes: Vec<u8>, is_path: bool) -> Result<(), WordsFault>
        ensures { OnOk result (AddsWord self.old self.new bytes.items) }
    {
        let is_raw = is_raw(&bytes);
        if is_raw && !is_path && bytes.starts_with(b"-") {
            return Err(WordsFault::Usage);
        }
        let Ok(text) = word_text(alloc, &bytes) else {
            return Err(WordsFault::Memory);
        };
        if self.texts.push(text).is_err() {
            return Err(WordsFault::Memory);
        }
        if is_raw && self.raw.push(bytes).is_err() {
            return Err(WordsFault::Memory);
        }
        Ok(())
    }
}

// Whether a word isn't UTF-8.
fn is_raw(bytes: &[u8]) -> bool
    ensures { result ≡ is_raw bytes.now }
{
    str::from_utf8(bytes).is_err()
}

// The text of a word, or what stands for it.
fn word_text(alloc: Global, bytes: &[u8]) -> Result<String, AllocError>
    ensures { IfOk result (λ text. string_bytes text ≡ text_of_word bytes.now) }
{
    String::from_str(alloc, text_or_stand_in(bytes))
}

fn text_or_stand_in(bytes: &[u8]) -> &str
    ensures { result.now ≡ text_of_word bytes.now }
{
    match str::from_utf8(bytes) {
        Ok(text) => text,
        Err(_) => STAND_IN,
    }
}

/// The bytes of these paths, where those of stand-ins are the given ones, in order. It is a fault of the words where
/// some of these aren't among the paths.
pub fn path_bytes(
    alloc: Global,
    paths: &[String],
    raw: Vec<Vec<u8>>,
) -> Result<Vec<Vec<u8>>, WordsFault>
    ensures { IfOk result (λ all. path_bytes (map string_bytes paths.now) (map (λ word. word.items) raw.items)
        ≡ Some (map (λ word. word.items) all.items)) }
{
    let mut all = Vec::new(alloc);
    let mut left = raw.into_iter();
    'paths: for path in paths {
        let bytes = next_bytes(alloc, path.as_str(), &mut left)?;
        if all.push(bytes).is_err() {
            return Err(WordsFault::Memory);
        }
    }
    match left.next() {
        Some(_) => Err(WordsFault::Usage),
        None => Ok(all),
    }
}

// The bytes of a path: for a stand-in those of the next word that is left.
fn next_bytes(
    alloc: Global,
    path: &str,
    left: &mut IntoIter<Vec<u8>>,
) -> Result<Vec<u8>, WordsFault>
    ensures bytes { IfOk result (λ bytes. AreNextBytes path.now (map (λ word. word.items) (into_iter_items left.old))
        (map (λ word. word.items) (into_iter_items left.new)) bytes.items) }
    ensures count { into_iter_len left.old ≡ length (into_iter_items left.old)
        → into_iter_len left.new ≡ length (into_iter_items left.new) }
{
    let bytes = if path == STAND_IN {
        left.next()
    } else {
        Vec::from_slice(alloc, path.as_bytes()).ok()
    };
    match bytes {
        Some(bytes) => Ok(bytes),
        None => Err(WordsFault::Memory),
    }
}

// The bytes of the word with this number, if there is one.
fn word_bytes<R: Env + AllocGlobal>(rt: &R, index: usize) -> Result<Option<Vec<u8>>, WordsFault> {
    let mut size = 256usize;
    for _ in 0..usize::BITS {
        let mut bytes = Vec::new(rt.alloc());
        if bytes.resize(size, 0u8).is_err() {
            return Err(WordsFault::Memory);
        }
        match rt.arg(index, bytes.as_mut_slice()) {
            Ok(length) => {
                bytes.truncate(length);
                return Ok(Some(bytes));
            }
            Err(FillError::NotPresent) => return Ok(None),
            Err(FillError::TooLong) => size = size.saturating_add(size),
        }
    }
    Err(WordsFault::Memory)
}
