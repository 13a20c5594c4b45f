//! The command `identify`.

ghost use Rattle.std.specs.Prelude.{IfOk, map};
ghost use Rattle.ca_cli.specs.Requests.{IsSearch, IsIdentify};

use crate::arguments::{flag_word, path_words, value_word, with_rule_words};
use crate::commands::pattern::{after_word, pattern_extras};
use crate::extras::with_extras;
use crate::raw::path_bytes;
use crate::request::{Request, WordsFault};
use crate::values::{flag_value, number_value, values_of};
use ca_plane::limits::LONGEST_PERIOD;
use clap::{Arg, ArgMatches, Command, value_parser};
use std::alloc::{AllocError, Global};

const HELP: &str =
    "What is printed is a claim text. So `cafile identify ./*.rle > mine.claims; cafile verify mine.claims` judges
what was found of a folder. The text begins with `claims 2`. For each file it has a line `load NAME PATH`, and the claim
that is true of the pattern:
  still NAME              some cell is live, and a generation later no cell has changed
  oscillator NAME P       P is the first number of generations after which the pattern is back
  spaceship NAME P DX DY  P is the first after which it is back, moved by DX to the right and DY down
  dies NAME N             N is the first after which no cell is live
or else a comment:
  # NAME: no cell is live
  # NAME: none of these within 65536 generations: N cells, in a box of W by H, after 65536
  # NAME: PATH: bad pattern: rle no end
The second one says how far the plane has grown: the live cells and the smallest box round them. Where no --limit is set,
one like `# NAME: settles after 1103 generations into 25 objects: cafile census` may follow it; `cafile census` tells
which. The last one is of a file that can't be identified, with the reason that `cafile verify` gives.

NAME is the file's name without its ending, with _ for blanks and for a # that it begins with. Where that is taken,
it is followed by -2, -3 and so on. A path with a blank, and -, can't be in a claim text: such a file has a comment
that says so. One whose path isn't UTF-8 can't be opened, and has the comment of a file that isn't there.

Up to 65536 generations of a pattern are looked at, while patience lasts: a second or so. Where it ends before, the
comment says `within` fewer. --limit N looks for periods and deaths of up to N generations, however long that takes.
--memo N, --work N and --max-memory MB are as for verify, for each pattern.

--after N identifies the plane that each pattern has N generations later. No claim about the file says what that is, so
there are comments alone: `# NAME after 1103 generations: still`, and so on.

--apgcode adds a comment after a still life, an oscillator or a spaceship: `# NAME: xq4_153`. That is its apgcode, by which
Catagolue and LifeWiki know it. It is the same for each phase, turn and reflection, so doubles have the same. There is
none under hexagonal and Generations rules and under tables.

--rule is for patterns whose rule is a table: it names the rule file with that table, in Golly NAME.rule. --rules
names a folder, such as Golly's Rules: where a rule is NAME, and isn't known, the rule file is looked for there as
DIR/NAME.rule. The text has a `rule` line for each rule file.

--explain says on standard error of each file that is faulty which one it is, with the line of its fault, or the rule
that isn't known, as in `  codd.rle: rule Codd`. Where something helps, a further line says so: `  try: gunzip -c FILE`.
It also tells of a rule file under which Golly may take other states.

On a terminal, a line on standard error shows how far a file is that takes over a second, as
`glider.rle: 904 of 65536 generations`. --progress shows it also where standard error is no terminal.

The lines on a file are printed before the next one is identified. The status is 0, or 2 where some file isn't, or the
rest couldn't be printed; then standard error says why.

Examples:
  cafile identify examples/glider.rle examples/blinker.rle examples/reactions/diehard.rle
  cafile identify --limit 1000 examples/r_pentomino.rle
  cafile identify --after 100 examples/reactions/diehard.rle
  cafile identify --rule examples/tables/wireworld.rule examples/tables/wireworld_clock.rle";

/// What is looked for by a run of `identify`.
#[derive(Clone, Copy)]
pub struct Search {
    /// How many generations of each pattern are looked at, where that is set.
    pub limit: Option<u64>,
    /// Whether the codes of still lifes, oscillators and spaceships are reported.
    pub codes: bool,
}

/// The command with its words.
pub fn command<'a>(alloc: Global) -> Result<Command<'a>, AllocError> {
    let identify = Command::new(alloc, "identify")
        .about("Writes a claim text with the claims that are true of the patterns of files")
        .after_help(HELP)
        .arg(path_words(
            alloc,
            "FILE",
            "The paths of pattern files, as a claim text names them",
        ))?
        .arg(limit_word(alloc))?
        .arg(after_word(alloc))?
        .arg(code_word(alloc))?;
    let identify = with_rule_words(alloc, identify)?;
    with_extras(alloc, identify)
}

fn limit_word<'a>(alloc: Global) -> Arg<'a> {
    value_word(
        alloc,
        "limit",
        "N",
        "The longest period or life that is looked for: 1 to 4294967295; unless set, 65536 while patience lasts",
    )
    .value_parser(value_parser!(u64).range(1..=LONGEST_PERIOD as i64))
}

fn code_word<'a>(alloc: Global) -> Arg<'a> {
    flag_word(
        alloc,
        "apgcode",
        "Tell the apgcodes of still lifes, oscillators and spaceships, as xq4_153, in comments",
    )
}

/// What its words ask for, where these of them aren't UTF-8.
pub fn request(
    alloc: Global,
    words: &ArgMatches<'_>,
    raw: Vec<Vec<u8>>,
) -> Result<Request, WordsFault>
    ensures { IfOk result (IsIdentify words.now (map (λ word. word.items) raw.items)) }
{
    let paths = values_of(alloc, words, "FILE")?;
    let paths = path_bytes(alloc, &paths, raw)?;
    let search = search_of(words);
    let extras = pattern_extras(alloc, words)?;
    Ok(Request::Identify {
        paths,
        search,
        extras,
    })
}

fn search_of(words: &ArgMatches<'_>) -> Search
    ensures { IsSearch words.now result }
{
    Search {
        limit: number_value(words, "limit"),
        codes: flag_value(words, "apgcode"),
    }
}
