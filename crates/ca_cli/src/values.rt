//! The values of a command's words, copied.

ghost use Rattle.std.specs.Prelude.{◌≡◌, Some, true, is_some, codes, string_bytes, IfOk, IfErr};
ghost use Rattle.clap.specs.Matches.{found_of, matched_of};
ghost use Rattle.ca_cli.specs.Words.{IsTextAfter, IsNumberAfter};
ghost use Rattle.ca_cli.specs.Values.{IsFlag, AreTextsOf, IsByteAfter, IsTarget, IsGiven, HasValueIfThere, IsWantOfMemory};

use crate::request::WordsFault;
use ca_pattern::Target;
use clap::ArgMatches;
use std::alloc::Global;

/// The value of a word that is required.
pub fn value_of(alloc: Global, words: &ArgMatches<'_>, name: &str) -> Result<String, WordsFault>
    ensures value { IfOk result (λ value. IsTextAfter words.now name.now (Some value)) }
    ensures fault { IsGiven words.now name.now → IfErr result IsWantOfMemory }
{
    let Some(word) = words.get_str(name) else {
        return Err(WordsFault::Usage);
    };
    copy_word(alloc, word)
}

/// The values of a word that is required.
pub fn values_of(
    alloc: Global,
    words: &ArgMatches<'_>,
    name: &str,
) -> Result<Vec<String>, WordsFault>
    ensures values { IfOk result (λ all. AreTextsOf words.now name.now all.items) }
    ensures fault { is_some (matched_of (found_of words.now) name.now) ≡ true → IfErr result IsWantOfMemory }
{
    let Some(values) = words.get_strs(name) else {
        return Err(WordsFault::Usage);
    };
    let mut all = Vec::new(alloc);
    'values: for word in values {
        if all.push(copy_word(alloc, word)?).is_err() {
            return Err(WordsFault::Memory);
        }
    }
    Ok(all)
}

fn copy_word(alloc: Global, word: &str) -> Result<String, WordsFault>
    ensures text { IfOk result (λ text. string_bytes text ≡ word.now) }
    ensures fault { IfErr result IsWantOfMemory }
{
    let Ok(text) = String::from_str(alloc, word) else {
        return Err(WordsFault::Memory);
    };
    Ok(text)
}

/// The path that is given after a word, where that stands there.
pub fn path_value(
    alloc: Global,
    words: &ArgMatches<'_>,
    name: &str,
) -> Result<Option<String>, WordsFault>
    ensures path { IfOk result (λ path. IsTextAfter words.now name.now path) }
    ensures fault { HasValueIfThere words.now name.now → IfErr result IsWantOfMemory }
{
    if !words.contains_id(name) {
        return Ok(None);
    }
    let path = value_of(alloc, words, name)?;
    Ok(Some(path))
}

/// The number that is given after a word, where that stands there.
pub fn number_value(words: &ArgMatches<'_>, name: &str) -> Option<u64>
    ensures { IsNumberAfter words.now name.now result }
{
    words.get_one(name)
}

/// The number below 256 that is given after a word, where that stands there.
pub fn byte_value(words: &ArgMatches<'_>, name: &str) -> Option<u8>
    ensures { IsByteAfter words.now name.now result }
{
    words.get_one(name)
}

/// Whether the words have this flag.
pub fn flag_value(words: &ArgMatches<'_>, name: &str) -> bool
    ensures { IsFlag words.now name.now result }
{
    let value: Option<bool> = words.get_one(name);
    value.unwrap_or(false)
}

/// The format to write, where the words say one.
pub fn target_of(words: &ArgMatches<'_>) -> Option<Target>
    ensures { IsTarget words.now result }
{
    match words.get_str("to") {
        Some("rle") => Some(Target::Rle),
        Some("mc") => Some(Target::Mc),
        _ => None,
    }
}
