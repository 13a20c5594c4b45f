//! The command `import`.

ghost use Rattle.std.specs.Prelude.{codes, IfOk, IfErr};
ghost use Rattle.ca_cli.specs.Values.{IsGiven, HasValueIfThere, IsWantOfMemory};
ghost use Rattle.ca_cli.specs.Requests.{AreImportWords, IsImport};

use crate::arguments::{target_word, value_word};
use crate::request::{Request, WordsFault};
use crate::values::{path_value, target_of, value_of};
use ca_pattern::Target;
use clap::{Arg, ArgMatches, Command};
use std::alloc::{AllocError, Global};

const HELP: &str =
    "The pattern of a file in another format is printed as RLE, or in the format of --to: the same cells in
the same places, which all other commands read, and Golly too. The text says which format it is:
  Life 1.06, Life 1.05   the first line is `#Life 1.06` or `#Life 1.05`
  plaintext (.cells)     comments begin with `!`, and rows are made of `.` and `O`
  apgcode                the only word, as xq4_153: its cells, with their corner at 0,0

--rule TEXT is the rule of a text that names none: as 23/36, 345/2/4, or the name of a rule table. Unless it is
given, that is B3/S23. Only Life 1.05 can name a rule of its own.

The status is 0, or 2 where the text is in none of these formats, or faulty. Then standard error says why, with
the number of the first faulty line.

Examples:
  cafile import examples/other/glider.cells
  cafile import examples/other/glider.lif --to mc
  cafile import examples/other/glider.cells --rule B2-a/S12
  cat examples/other/glider_106.lif | cafile import -
  echo xq4_153 | cafile import -";

/// What is imported.
#[derive(Drop)]
pub struct ImportWords {
    /// The path of the file.
    pub path: String,
    /// The format that is written: RLE unless the words say another.
    pub target: Target,
    /// The rule of a text that names none, where it is given.
    pub rule: Option<String>,
}

/// The command with its words.
pub fn command<'a>(alloc: Global) -> Result<Command<'a>, AllocError> {
    Command::new(alloc, "import")
        .about("Translates a pattern of another format into one that the other commands read")
        .after_help(HELP)
        .args(vec![in alloc;
            source_word(alloc),
            target_word(alloc),
            value_word(
                alloc,
                "rule",
                "TEXT",
                "The rule of a text that names none; unless given, B3/S23",
            ),
        ]?)
}

fn source_word<'a>(alloc: Global) -> Arg<'a> {
    Arg::new(alloc, "FILE").required(true).help(
        "The path of the file, Life 1.06, Life 1.05, plaintext or an apgcode; - is standard input",
    )
}

/// What its words ask for.
pub fn request(alloc: Global, words: &ArgMatches<'_>) -> Result<Request, WordsFault>
    ensures request { IfOk result (IsImport words.now) }
    ensures fault { IsGiven words.now (codes "FILE") → HasValueIfThere words.now (codes "rule") → IfErr result IsWantOfMemory }
{
    let import = import_of(alloc, words)?;
    Ok(Request::Import(import))
}

fn import_of(alloc: Global, words: &ArgMatches<'_>) -> Result<ImportWords, WordsFault>
    ensures import { IfOk result (AreImportWords words.now) }
    ensures fault { IsGiven words.now (codes "FILE") → HasValueIfThere words.now (codes "rule") → IfErr result IsWantOfMemory }
{
    Ok(ImportWords {
        path: value_of(alloc, words, "FILE")?,
        target: target_of(words).unwrap_or(Target::Rle),
        rule: path_value(alloc, words, "rule")?,
    })
}
