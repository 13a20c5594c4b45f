//! Reading the words that the program is started with.

use crate::commands::{program, request_of};
use crate::raw::{ProgramWords, program_words};
use crate::request::{Request, WordsFault};
use clap::Error;
use clap::error::ErrorKind;
use std::alloc::Global;
use std::rt::Env;

/// What the words after the program's name ask for.
pub fn read_words<R: Env + AllocGlobal>(rt: &R) -> Result<Request, WordsFault> {
    let ProgramWords { texts, raw } = program_words(rt)?;
    let Ok(program) = program(rt.alloc()) else {
        return Err(WordsFault::Memory);
    };
    let are_texts = raw.is_empty();
    match program.try_get_matches_from(texts.as_slice()) {
        Ok(matches) => request_of(rt.alloc(), &matches, raw),
        Err(error) if are_texts => help_or_fault(rt.alloc(), &error),
        Err(error) if error.kind() == ErrorKind::OutOfMemory => Err(WordsFault::Memory),
        Err(_) => Err(WordsFault::Usage),
    }
}

// Help and version come from clap as errors too.
fn help_or_fault(alloc: Global, error: &Error) -> Result<Request, WordsFault> {
    if error.kind() == ErrorKind::OutOfMemory {
        return Err(WordsFault::Memory);
    }
    let Ok(text) = format!(in alloc; "{error}") else {
        return Err(WordsFault::Memory);
    };
    if error.use_stderr() {
        return Err(WordsFault::Misfit { text });
    }
    Ok(Request::Help { text })
}
