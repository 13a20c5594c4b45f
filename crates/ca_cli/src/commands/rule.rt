//! The command `rule`.

ghost use Rattle.std.specs.Prelude.{codes, IfOk, IfErr};
ghost use Rattle.ca_cli.specs.Values.{IsGiven, IsWantOfMemory};
ghost use Rattle.ca_cli.specs.Requests.{IsRuleFile};

use crate::request::{Request, WordsFault};
use crate::values::value_of;
use clap::{Arg, ArgMatches, Command};
use std::alloc::{AllocError, Global};

const HELP: &str =
    "A rule file is printed whose @RULE line has the name TEXT, and whose @TABLE is TEXT's rule. TEXT is
  an isotropic rule      in Hensel's notation, as B2-a/S12
  a MAP string           MAP and 86 characters
  a B/S rule             as B3/S23, for programs that read tables alone
  a Generations rule     as 345/2/4, for those programs too

A pattern under an isotropic rule is then run with that file: by --rule, by the line `rule PATH` of a claim text,
or in Golly.

The status is 0, or 2 where TEXT is no such rule. Then standard error says why.

Examples:
  cafile rule B2-a/S12 > b2a.rule
  cafile identify examples/other/just_friends.rle --rule b2a.rule";

/// The command with its words.
pub fn command<'a>(alloc: Global) -> Result<Command<'a>, AllocError> {
    Command::new(alloc, "rule")
        .about("Writes an isotropic rule, or another, as a rule file")
        .after_help(HELP)
        .arg(
            Arg::new(alloc, "TEXT")
                .required(true)
                .help("The rule, as B2-a/S12"),
        )
}

/// What its words ask for.
pub fn request(alloc: Global, words: &ArgMatches<'_>) -> Result<Request, WordsFault>
    ensures request { IfOk result (IsRuleFile words.now) }
    ensures fault { IsGiven words.now (codes "TEXT") → IfErr result IsWantOfMemory }
{
    let text = value_of(alloc, words, "TEXT")?;
    Ok(Request::RuleFile { text })
}
