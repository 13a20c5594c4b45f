//! The commands of the program. Each has its words and its help in a file of its own.

mod census;
mod convert;
mod draw;
mod identify;
mod import;
mod pattern;
mod rule;
mod show;
mod verify;

ghost use Rattle.std.specs.Prelude.{IfOk, map};
ghost use Rattle.ca_cli.specs.Requests.{IsAskedFor};

use crate::request::{Request, WordsFault};
pub use census::CensusSearch;
use clap::{ArgMatches, Command};
pub use identify::Search;
pub use import::ImportWords;
pub use pattern::PatternExtras;
use std::alloc::{AllocError, Global};
pub use verify::Folders;

const HELP: &str = "Examples:
  cafile show examples/glider.rle
  cafile identify examples/glider.rle examples/blinker.rle
  cafile census examples/r_pentomino.rle
  cafile convert examples/glider.rle --to mc
  cafile draw examples/glider.rle
  cafile convert examples/gun.rle --after 1000 --to mc
  cafile verify --explain examples/several.claims
  cafile import examples/other/glider.cells
  cafile rule B2-a/S12

`cafile verify --help` tells how claims are written.";

/// The program with its commands, in the order in which the help lists them.
pub fn program<'a>(alloc: Global) -> Result<Command<'a>, AllocError> {
    let program = Command::new(alloc, "cafile")
        .version("0.1.0")
        .about("Reads and writes Golly's pattern files, and gives verdicts on claims about them")
        .after_help(HELP)
        .subcommand_required(true);
    let program = with_command(program, show::command(alloc))?;
    let program = with_command(program, convert::command(alloc))?;
    let program = with_command(program, draw::command(alloc))?;
    let program = with_command(program, verify::command(alloc))?;
    let program = with_command(program, identify::command(alloc))?;
    let program = with_command(program, census::command(alloc))?;
    let program = with_command(program, import::command(alloc))?;
    with_command(program, rule::command(alloc))
}

// Adds a command of the program, where there was memory to make it.
fn with_command<'a>(
    program: Command<'a>,
    command: Result<Command<'a>, AllocError>,
) -> Result<Command<'a>, AllocError> {
    program.subcommand(command?)
}

/// What the words of a command ask for. A command and its words are required, so that clap finds them wherever it finds
/// no fault. Words that aren't UTF-8 are paths that `identify` or `census` tells of, or a fault.
pub fn request_of(
    alloc: Global,
    matches: &ArgMatches<'_>,
    raw: Vec<Vec<u8>>,
) -> Result<Request, WordsFault>
    ensures { IfOk result (IsAskedFor matches.now (map (λ word. word.items) raw.items)) }
{
    match matches.subcommand() {
        Some(("identify", words)) => identify::request(alloc, words, raw),
        Some(("census", words)) => census::request(alloc, words, raw),
        _ if !raw.is_empty() => Err(WordsFault::Usage),
        Some(("show", words)) => show::request(alloc, words),
        Some(("convert", words)) => convert::request(alloc, words),
        Some(("draw", words)) => draw::request(alloc, words),
        Some(("verify", words)) => verify::request(alloc, words),
        Some(("import", words)) => import::request(alloc, words),
        Some(("rule", words)) => rule::request(alloc, words),
        _ => Err(WordsFault::Usage),
    }
}
