//! The command `show`.

ghost use Rattle.std.specs.Prelude.{codes, IfOk, IfErr};
ghost use Rattle.ca_cli.specs.Values.{IsGiven, HasValueIfThere, IsWantOfMemory};
ghost use Rattle.ca_cli.specs.Requests.{IsShow};

use crate::arguments::file_word;
use crate::commands::pattern::{pattern_help, with_pattern_words, write_request};
use crate::request::{Request, WordsFault};
use ca_report::{Form, TextForm};
use clap::{ArgMatches, Command};
use std::alloc::{AllocError, Global};

const HELP: &str = pattern_help!(
    "Five lines are printed, for example:
  format macrocell   the format of the file
  rule B3/S23        the rule: as B3/S23 or 345/2/4, or the name of a table
  gen 4              the generation
  cells 5            the number of live cells
  box 1 2 3 3        the least box round them: left column, top row, width and height; or none

",
    after "shows",
    "The status is 0, or 2 where the pattern can't be shown. Then standard error says why.

Examples:
  cafile show examples/glider.rle
  cafile show examples/glider.rle --after 1000000
  cafile show examples/tables/spread.rle --rule examples/tables/spread.rule
  cafile show examples/tables/spread.rle --rules examples/rules
  cat examples/glider.rle | cafile show -"
);

/// The command with its words.
pub fn command<'a>(alloc: Global) -> Result<Command<'a>, AllocError> {
    let show = Command::new(alloc, "show")
        .about(
            "Prints the format, the rule, the generation, the number of live cells and their box",
        )
        .after_help(HELP)
        .arg(file_word(alloc))?;
    with_pattern_words(alloc, show)
}

/// What its words ask for.
pub fn request(alloc: Global, words: &ArgMatches<'_>) -> Result<Request, WordsFault>
    ensures request { IfOk result (IsShow words.now) }
    ensures fault { IsGiven words.now (codes "FILE") → HasValueIfThere words.now (codes "rule") → HasValueIfThere words.now (codes "rules")
        → IfErr result IsWantOfMemory }
{
    write_request(alloc, words, Form::Text(TextForm::Summary))
}
