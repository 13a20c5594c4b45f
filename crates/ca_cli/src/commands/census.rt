//! The command `census`.

ghost use Rattle.std.specs.Prelude.{IfOk, map};
ghost use Rattle.ca_cli.specs.Requests.{IsCensusSearch, IsCensus};

use crate::arguments::{flag_word, path_words, value_word, with_limit_words, with_rule_words};
use crate::commands::pattern::{after_word, pattern_extras};
use crate::raw::path_bytes;
use crate::request::{Request, WordsFault};
use crate::values::{flag_value, number_value, path_value, values_of};
use ca_plane::limits::LONGEST_PERIOD;
use clap::{Arg, ArgMatches, Command, value_parser};
use std::alloc::{AllocError, Global};

const HELP: &str =
    "For each file it prints after how many generations the plane is settled, and what it consists of from then on:
  # r_pentomino: settles after 1103 generations: 25 objects, 116 cells
  8 xs4_33
  6 xq4_153
and so on: a line for each kind of object, with how many of it there are, the most frequent first.

A plane is settled where its live cells are parts each of which is a still life, an oscillator or a spaceship alone, and
no two of which ever meet; one generation earlier it wasn't. A file of a collection is settled after 0 generations, so
this takes it apart. Objects that go on side by side, each as if it were alone, may be one such part; each is counted.

An object is told by its apgcode, by which Catagolue and LifeWiki know it. There is none under hexagonal and Generations
rules and under tables: there it is told by what it is and its cells, as `still life of 4 cells`.

--list prints a line for each object, in the order of places: `xq4_153 spaceship 4 1 1 at 233,241: 5 cells`. That is its
code, its kind with period and vector, and the upper left corner of its box and its cells after those generations.

Where a plane isn't found to settle, the line says so:
  # gun: not found to settle within 65536 generations
This says nothing of the plane: guns never settle, and other planes may take longer, or more work than patience has. To
find out, what stands close together at first is run alone as a part. It must come back or meet another; parts that meet
are one.

Up to 65536 generations are looked at, while patience lasts. --limit N looks for a settled plane up to generation N.

--after N takes the plane that each pattern has N generations later, and counts generations from there:
`# NAME after 100 generations: settles after 1003 generations: 25 objects, 116 cells`, and so on.

--into DIR writes the objects of each settled plane as pattern files, NAME-1.rle and so on in the order of --list, the
plane itself as NAME-settled.rle, and NAME.claims, a claim text with what each object is and what the pattern becomes,
for `cafile verify`. DIR is made where it isn't there. A file that is there already is never overwritten: the run ends,
and none of that pattern's files is written. DIR, FILE and the rule files have to be paths that a claim text can name.

A refused file has the comment that identify prints, with the reason: `# NAME: PATH: bad pattern: rle no end`. Names,
--rule, --rules, --explain, --progress, --memo, --work and --max-memory are as for identify.

The lines on a file are printed before the next one is looked at. The status is 0, or 2 where some file is refused, or
the rest couldn't be printed; then standard error says why.

Examples:
  cafile census examples/r_pentomino.rle
  cafile census --list examples/period_57960.rle examples/published/golly.rle
  cafile census --into parts examples/r_pentomino.rle && cafile verify parts/r_pentomino.claims
  cafile census --after 100 --limit 2000 examples/r_pentomino.rle
  cafile census --rule examples/tables/wireworld.rule examples/tables/wireworld_clock.rle";

/// What is looked for by a run of `census`, and how it is told.
#[derive(Clone, Copy)]
pub struct CensusSearch {
    /// The last generation at which a settled plane is looked for, where that is set.
    pub limit: Option<u64>,
    /// Whether each object is told with its place, and not only how many there are of each kind.
    pub listed: bool,
}

/// The command with its words.
pub fn command<'a>(alloc: Global) -> Result<Command<'a>, AllocError> {
    let census = Command::new(alloc, "census")
        .about("Tells when the patterns of files settle, and which objects they settle into")
        .after_help(HELP)
        .arg(path_words(
            alloc,
            "FILE",
            "The paths of pattern files, RLE or macrocell",
        ))?
        .arg(limit_word(alloc))?
        .arg(after_word(alloc))?
        .arg(list_word(alloc))?
        .arg(into_word(alloc))?;
    let census = with_rule_words(alloc, census)?;
    with_limit_words(
        alloc,
        census,
        "Show how far a file is that takes long, also where standard error is no terminal",
        "How many entries each file's memo may have: 1 to 16777216; unless set, 262144",
        "How many units of work each file may take; unless set, 18446744073709551615",
    )
}

fn limit_word<'a>(alloc: Global) -> Arg<'a> {
    value_word(
        alloc,
        "limit",
        "N",
        concat!(
            "The last generation at which a settled plane is looked for: 0 to 4294967295; ",
            "unless set, 65536 while patience lasts"
        ),
    )
    .value_parser(value_parser!(u64).range(0..=LONGEST_PERIOD as i64))
}

fn list_word<'a>(alloc: Global) -> Arg<'a> {
    flag_word(
        alloc,
        "list",
        "Tell each object, with its kind, its place and its cells",
    )
}

fn into_word<'a>(alloc: Global) -> Arg<'a> {
    value_word(
        alloc,
        "into",
        "DIR",
        "The folder into which files of each settled plane are written; it is made where it isn't there",
    )
}

/// What its words ask for, where these of them aren't UTF-8.
pub fn request(
    alloc: Global,
    words: &ArgMatches<'_>,
    raw: Vec<Vec<u8>>,
) -> Result<Request, WordsFault>
    ensures { IfOk result (IsCensus words.now (map (λ word. word.items) raw.items)) }
{
    let paths = values_of(alloc, words, "FILE")?;
    let paths = path_bytes(alloc, &paths, raw)?;
    let search = search_of(words);
    let into = path_value(alloc, words, "into")?;
    let extras = pattern_extras(alloc, words)?;
    Ok(Request::Census {
        paths,
        search,
        into,
        extras,
    })
}

fn search_of(words: &ArgMatches<'_>) -> CensusSearch
    ensures { IsCensusSearch words.now result }
{
    CensusSearch {
        limit: number_value(words, "limit"),
        listed: flag_value(words, "list"),
    }
}
