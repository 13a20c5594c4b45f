//! The command `verify`.

ghost use Rattle.std.specs.Prelude.{◌≡◌, true, is_some, codes, IfOk, IfErr};
ghost use Rattle.clap.specs.Matches.{found_of, matched_of};
ghost use Rattle.ca_cli.specs.Values.{HasValueIfThere, IsWantOfMemory};
ghost use Rattle.ca_cli.specs.Requests.{AreFolders, IsVerify};

use crate::arguments::{flag_word, folder_word, path_words, value_word};
use crate::extras::{extras_of, with_extras};
use crate::request::{Request, WordsFault};
use crate::values::{path_value, values_of};
use clap::{ArgMatches, Command};
use std::alloc::{AllocError, Global};

const HELP: &str = "Each line of a claim text is one of these. An example stands below each.
  claims 2                the first line of a text that has one of the last two
      claims 2
  rule PATH               the rule file at PATH holds a table that a pattern's rule may name
      rule examples/tables/spread.rule
  load NAME PATH          NAME stands for the pattern in the file at PATH
      load glider examples/glider.rle
  still NAME              some cell is live, and a generation later no cell has changed
      still block
  oscillator NAME P       some cell is live, and the pattern is back after P generations, but not before
      oscillator pulsar 3
  spaceship NAME P DX DY  some cell is live, and after P generations the pattern is moved by DX to the right
                          and DY down; before that it is neither back nor moved
      spaceship glider 4 1 1
  becomes NAME N NAME2    after N generations the first pattern is the second, cell for cell and in place
      becomes blinker 1 blinker_1
  becomes NAME N NAME2 shift DX DY
                          after N generations the first pattern is the second, moved by DX to the right and DY
                          down
      becomes glider 400 glider shift 100 100
  dies NAME N             some cell is live, after N generations none is, and before that some cell is
      dies diehard 130
Blank lines, and lines that begin with #, say nothing. A name is loaded before it is used. Paths are
relative to the working directory and hold no blanks.

For each claim a line is printed, as `line 2: yes`: the number of its line, and yes, no or refused, with the
reason. Where several texts are given, the text's path stands before that.

--rules names a folder, such as Golly's Rules: where a pattern's rule is NAME, and no `rule` line gives its table,
the rule file is looked for there as DIR/NAME.rule. A faulty one refuses the claims on patterns that name it.

--root names a folder for the texts of strangers: the paths of their lines are looked for there, and one that is
absolute or has `..` among its parts is never opened: `refused, no file`. A link in that folder is followed.

--explain adds a line after a no or a refusal that has more to tell: the pattern's name with a cell that
differs, or with its file and the line of the fault, the rule that isn't known, or why there is no file; or the
rule file. Where something helps against the fault of a pattern's file, a further line says so: `  try: gunzip -c FILE`.
On standard error it tells of a rule file under which Golly may take other states.
On a terminal, `cafile: --explain says more` ends a run of which it does.

On a terminal, a line on standard error shows how far a claim is that takes over a second, as
`line 3: 904 of 5000 generations`, and where it takes much work how much was done, as `, 1.2 million results, 5.1
million squares`. It is wiped before the verdict's line is printed. --progress shows it also where standard error
is no terminal.

--memo N gives each claim's memo N entries. An entry is one result, or up to 64 results at full leap of squares
with neighbouring numbers; a quarter of the entries, and a sixteenth more under rules of two states, is kept for
results that are found quickly and may be dropped. A smaller memo takes less memory, and a claim may take longer,
and more work.

--max-memory MB is for long runs of planes that never repeat or are large, and says as Golly's maximum memory how
much is kept: 16384 squares for each megabyte, with what is remembered of them, or as many as the plane itself and one
generation of it need. Where this bound is reached, squares that are no longer in use are dropped, and the run takes
longer. A claim isn't refused for it.

--work N refuses a claim that needs more than N units of work: `line 2: refused, work`. A unit is the centre of
one square after some generations that wasn't remembered, or one brick of 64 by 16 cells of a dense plane,
stepped by one generation. Squares that are made of bricks again, or copied in a long run, count too. Each claim has
its own count and its own memo.

The status is 0 where every verdict is yes, 1 where some are no, and 2 where some are refused or there is a
fault. A text that can't be read or is faulty is reported on standard error, and the others are judged.

Examples:
  cafile verify examples/block.claims examples/pulsar.claims
  cafile verify --explain examples/several.claims
  cafile verify examples/reactions.claims
  cafile verify --progress examples/published.claims
  cafile verify --work 100000 examples/published.claims
  cafile verify --rules examples/rules examples/rules/named.claims
  cafile verify --root . examples/block.claims
  cat examples/block.claims | cafile verify -";

/// The folders in which a run of `verify` looks for files.
#[derive(Drop)]
pub struct Folders {
    /// Where a rule file is looked for by the name of a pattern's rule.
    pub rules: Option<String>,
    /// Where the paths of claim texts are looked for, and no other path is opened for them.
    pub root: Option<String>,
}

/// The command with its words.
pub fn command<'a>(alloc: Global) -> Result<Command<'a>, AllocError> {
    let verify = Command::new(alloc, "verify")
        .about("Prints a verdict for each claim of a text: yes, no or refused")
        .after_help(HELP)
        .args(vec![in alloc;
            path_words(
                alloc,
                "CLAIMS",
                "The paths of claim texts; - is standard input"
            ),
            folder_word(alloc),
            value_word(
                alloc,
                "root",
                "DIR",
                "The folder in which paths of the texts are looked for; none that leads out of it is opened",
            ),
            flag_word(
                alloc,
                "explain",
                "Tell also which cell, pattern, file or line a no or a refusal is about",
            ),
        ]?)?;
    with_extras(alloc, verify)
}

/// What its words ask for.
pub fn request(alloc: Global, words: &ArgMatches<'_>) -> Result<Request, WordsFault>
    ensures request { IfOk result (IsVerify words.now) }
    ensures fault { is_some (matched_of (found_of words.now) (codes "CLAIMS")) ≡ true → HasValueIfThere words.now (codes "rules")
        → HasValueIfThere words.now (codes "root") → IfErr result IsWantOfMemory }
{
    let paths = values_of(alloc, words, "CLAIMS")?;
    let folders = folders_of(alloc, words)?;
    let extras = extras_of(words);
    Ok(Request::Verify {
        paths,
        folders,
        extras,
    })
}

fn folders_of(alloc: Global, words: &ArgMatches<'_>) -> Result<Folders, WordsFault>
    ensures folders { IfOk result (AreFolders words.now) }
    ensures fault { HasValueIfThere words.now (codes "rules") → HasValueIfThere words.now (codes "root") → IfErr result IsWantOfMemory }
{
    Ok(Folders {
        rules: path_value(alloc, words, "rules")?,
        root: path_value(alloc, words, "root")?,
    })
}
