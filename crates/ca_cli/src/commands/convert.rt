//! The command `convert`.

ghost use Rattle.std.specs.Prelude.{None, codes, IfOk, IfErr};
ghost use Rattle.ca_cli.specs.Values.{IsGiven, HasValueIfThere, IsTarget, IsWantOfMemory};
ghost use Rattle.ca_cli.specs.Requests.{IsConvert};

use crate::arguments::{file_word, target_word};
use crate::commands::pattern::{pattern_help, with_pattern_words, write_request};
use crate::request::{Request, WordsFault};
use crate::values::target_of;
use ca_report::{Form, TextForm};
use clap::{ArgMatches, Command};
use std::alloc::{AllocError, Global};

const HELP: &str = pattern_help!(
    "What is printed is a whole file in the wanted format: the same cells in the same places, with the rule and
the generation.

",
    after "writes",
    "The status is 0, or 2 where the pattern can't be converted. Then standard error says why.

Examples:
  cafile convert examples/glider.rle --to mc
  cafile convert examples/gun.rle --after 1000 --to mc
  cafile convert examples/tables/spread_1.rle --to mc --rule examples/tables/spread.rule
  cafile convert examples/tables/spread_1.rle --to mc --rules examples/rules
  cat examples/macrocell/gun.mc | cafile convert - --to rle"
);

/// The command with its words.
pub fn command<'a>(alloc: Global) -> Result<Command<'a>, AllocError> {
    let convert = Command::new(alloc, "convert")
        .about("Writes the pattern of a file in a format to standard output")
        .after_help(HELP)
        .arg(file_word(alloc))?
        .arg(target_word(alloc).required(true))?;
    with_pattern_words(alloc, convert)
}

/// What its words ask for.
pub fn request(alloc: Global, words: &ArgMatches<'_>) -> Result<Request, WordsFault>
    ensures request { IfOk result (IsConvert words.now) }
    ensures fault { IsGiven words.now (codes "FILE") → HasValueIfThere words.now (codes "rule") → HasValueIfThere words.now (codes "rules")
        → (IsTarget words.now None → ⊥) → IfErr result IsWantOfMemory }
{
    let Some(target) = target_of(words) else {
        return Err(WordsFault::Usage);
    };
    write_request(alloc, words, Form::Text(TextForm::File(target)))
}
