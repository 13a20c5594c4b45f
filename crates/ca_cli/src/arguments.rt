//! The words that several commands have.

use ca_pattern::FORMAT_WORDS;
use ca_plane::limits::MOST_MEMO;
use clap::{Arg, ArgAction, Command, value_parser};
use std::alloc::{AllocError, Global};

/// A word `--NAME` with a value after it.
pub fn value_word<'a>(alloc: Global, name: &'a str, value: &'a str, help: &'a str) -> Arg<'a> {
    Arg::new(alloc, name)
        .long(name)
        .value_name(value)
        .help(help)
}

/// A word `--NAME` with no value.
pub fn flag_word<'a>(alloc: Global, name: &'a str, help: &'a str) -> Arg<'a> {
    Arg::new(alloc, name)
        .long(name)
        .action(ArgAction::SetTrue)
        .help(help)
}

/// One path or more, which are required.
pub fn path_words<'a>(alloc: Global, name: &'a str, help: &'a str) -> Arg<'a> {
    Arg::new(alloc, name)
        .required(true)
        .num_args(1..)
        .action(ArgAction::Append)
        .help(help)
}

/// The path of a pattern file, which is required.
pub fn file_word<'a>(alloc: Global) -> Arg<'a> {
    Arg::new(alloc, "FILE").required(true).help(
        "The path of the pattern file, RLE or macrocell; - is standard input",
    )
}

/// The format to write.
pub fn target_word<'a>(alloc: Global) -> Arg<'a> {
    value_word(
        alloc,
        "to",
        "FORMAT",
        "The format to write: extended RLE or macrocell",
    )
    .value_parser(FORMAT_WORDS.as_slice())
}

/// The folder of `--rules`.
pub fn folder_word<'a>(alloc: Global) -> Arg<'a> {
    value_word(
        alloc,
        "rules",
        "DIR",
        "The folder where NAME.rule is looked for, if the pattern's rule is the name NAME",
    )
}

// How many entries a memo may have.
fn memo_word<'a>(alloc: Global, help: &'a str) -> Arg<'a> {
    value_word(alloc, "memo", "N", help).value_parser(value_parser!(u64).range(
        1..=MOST_MEMO as i64,
    ))
}

/// The most megabytes that may be set for squares and results: the store of squares holds no more.
pub const MOST_MEMORY: u64 = 147456;

// How much memory a long run may keep.
fn memory_word<'a>(alloc: Global) -> Arg<'a> {
    value_word(
        alloc,
        "max-memory",
        "MB",
        "How many megabytes of squares and results a long run keeps, about: 1 to 147456; unless set, 1024",
    )
    .value_parser(value_parser!(u64).range(1..=MOST_MEMORY as i64))
}

// How much work may be done.
fn work_word<'a>(alloc: Global, help: &'a str) -> Arg<'a> {
    value_word(alloc, "work", "N", help).value_parser(value_parser!(u64))
}

/// The command with the words for how far a run is and what it may take. These texts are the helps of `--progress`,
/// `--memo` and `--work`.
pub fn with_limit_words<'a>(
    alloc: Global,
    command: Command<'a>,
    progress: &'a str,
    memo: &'a str,
    work: &'a str,
) -> Result<Command<'a>, AllocError> {
    command.args(vec![in alloc;
        flag_word(alloc, "progress", progress),
        memo_word(alloc, memo),
        work_word(alloc, work),
        memory_word(alloc),
    ]?)
}

/// The command with the words of a run on pattern files for their rules, and for why one is refused.
pub fn with_rule_words<'a>(alloc: Global, command: Command<'a>) -> Result<Command<'a>, AllocError> {
    command.args(vec![in alloc;
        value_word(
            alloc,
            "rule",
            "RULEFILE",
            "The path of the rule file with the table that the pattern's rule names",
        ),
        folder_word(alloc),
        flag_word(
            alloc,
            "explain",
            "Tell also which file and line a refusal is about, and which rule isn't known",
        ),
    ]?)
}
