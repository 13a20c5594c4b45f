//! What commands on pattern files share: words for rules, generations and limits, and help on these.

ghost use Rattle.std.specs.Prelude.{◌≡◌, ◌≤◌, codes, IfOk, IfErr};
ghost use Rattle.ca_cli.specs.Values.{IsGiven, HasValueIfThere, IsWantOfMemory};
ghost use Rattle.ca_plane.specs.Prelude.{most_generations};
ghost use Rattle.ca_cli.specs.{Words.generations_of, Requests.ArePatternExtras, Requests.IsWritten};

use crate::arguments::{value_word, with_limit_words, with_rule_words};
use crate::extras::{Extras, extras_of};
use crate::request::{Request, WordsFault};
use crate::values::{number_value, path_value, value_of};
use ca_plane::limits::MOST_GENERATIONS;
use ca_report::Form;
use clap::{Arg, ArgMatches, Command, value_parser};
use std::alloc::{AllocError, Global};

// The help of a command on a pattern file. After the first text stands what it says of the words for the pattern's rule,
// and before the last one what it says of progress. Between them it may say of `--after` what the command does with the
// pattern.
macro_rules! pattern_help {
    ($first:literal, $(after $does:literal,)? $last:literal) => {
        concat!(
            $first,
            "--rule is for a pattern whose rule is a table: it names the rule file with that table, in Golly NAME.rule.
A pattern under a rule such as B3/S23 or 345/2/4 needs none. --rules names a folder, such as Golly's Rules: where
the rule is NAME, and --rule doesn't give its table, the rule file is looked for there as DIR/NAME.rule.

--explain adds a line to a refusal: the file with the line of its fault, or the rule that isn't known, as in
`  codd.rle: rule Codd`. Where something helps, a further line says so: `  try: gunzip -c FILE`. It also tells of a rule
file under which Golly may take other states.

",
            $(
                "--after N ",
                $does,
                " the pattern as it is N generations later, and adds N to its generation. --memo, --work and
--max-memory bound what that takes, as `cafile verify --help` says of claims.

",
            )?
            "On a terminal, a line on standard error shows how far --after is where it takes over a second, as
`examples/gun.rle: 488 of 1000 generations`. --progress shows it also where standard error is no terminal.

",
            $last
        )
    };
}

pub(crate) use pattern_help;

/// What a run on pattern files is given and asked for besides these.
#[derive(Drop)]
pub struct PatternExtras {
    /// The path of a rule file with the table that a pattern's rule may name.
    pub rule: Option<String>,
    /// The path of a folder where a rule file is looked for by the name of a pattern's rule.
    pub folder: Option<String>,
    /// By how many generations each pattern is advanced first, where that is asked for.
    pub after: Option<u64>,
    /// What more there is to tell, and how much each pattern may take.
    pub extras: Extras,
}

impl PatternExtras {
    /// By how many generations each pattern is advanced. The words keep them within their limit, and more are brought
    /// within.
    pub fn after(&self) -> u64
        ensures most { result ≤ most_generations }
        ensures value { result ≡ generations_of self.now.after }
    {
        self.after.unwrap_or(0).min(MOST_GENERATIONS)
    }
}

/// By how many generations the pattern is advanced.
pub fn after_word<'a>(alloc: Global) -> Arg<'a> {
    value_word(
        alloc,
        "after",
        "N",
        "Take the pattern N generations later: 0 to 1152921504606846976 (2^60)",
    )
    .value_parser(value_parser!(u64).range(0..=1152921504606846976))
}

/// The command with the words for the pattern's rule, its generation, and what that may take.
pub fn with_pattern_words<'a>(
    alloc: Global,
    command: Command<'a>,
) -> Result<Command<'a>, AllocError> {
    let command = with_rule_words(alloc, command)?.arg(after_word(alloc))?;
    with_limits(alloc, command)
}

/// The command with the words for how far `--after` is, and what it may take.
pub fn with_limits<'a>(alloc: Global, command: Command<'a>) -> Result<Command<'a>, AllocError> {
    with_limit_words(
        alloc,
        command,
        "Show how far a long --after is, also where standard error is no terminal",
        "How many entries the memo of --after may have: 1 to 16777216; unless set, 262144",
        "How many units of work --after may take; unless set, 18446744073709551615",
    )
}

/// The request to write this of the pattern file that the words name.
pub fn write_request(
    alloc: Global,
    words: &ArgMatches<'_>,
    form: Form,
) -> Result<Request, WordsFault>
    ensures request { IfOk result (IsWritten words.now form) }
    ensures fault { IsGiven words.now (codes "FILE") → HasValueIfThere words.now (codes "rule") → HasValueIfThere words.now (codes "rules")
        → IfErr result IsWantOfMemory }
{
    let path = value_of(alloc, words, "FILE")?;
    let extras = pattern_extras(alloc, words)?;
    Ok(Request::Write { path, form, extras })
}

/// What the words say of rules, generations, and what these may take.
pub fn pattern_extras(alloc: Global, words: &ArgMatches<'_>) -> Result<PatternExtras, WordsFault>
    ensures extras { IfOk result (ArePatternExtras words.now) }
    ensures fault { HasValueIfThere words.now (codes "rule") → HasValueIfThere words.now (codes "rules") → IfErr result IsWantOfMemory }
{
    Ok(PatternExtras {
        rule: path_value(alloc, words, "rule")?,
        folder: path_value(alloc, words, "rules")?,
        after: number_value(words, "after"),
        extras: extras_of(words),
    })
}
