//! Lines of answers that no text causes, faults and causes in the words of their crates, and words of claims.

use super::expected::expect;
use ca_answers::{Answer, Cause, Refutation, Verdict};
use ca_macro::MacroFault;
use ca_pattern::{ConvertFault, PatternFault};
use ca_plane::Memory;
use ca_rle::RleFault;
use ca_rule::{RuleFault, TableFault};
use ca_text::{ClaimFault, Kind};
use ca_tool::{Fault, InputFault, ToolFault, WindowFault, lines};
use std::alloc::{AllocError, Global};
use std::fmt::Display;
use std::test::*;

const ANSWERS: &[Answer] = &[
    Answer {
        line: 0,
        verdict: Verdict::Yes,
    },
    Answer {
        line: u64::MAX,
        verdict: Verdict::No(Refutation::Differs {
            x: -1,
            y: i64::MIN,
            found: 255,
            claimed: 0,
            gens: 4_294_967_295,
        }),
    },
    Answer {
        line: 13,
        verdict: Verdict::No(Refutation::Earlier {
            m: 4_294_967_294,
            dx: i64::MIN,
            dy: -1,
        }),
    },
    Answer {
        line: 9,
        verdict: Verdict::No(Refutation::Died { m: u64::MAX }),
    },
];

const LINES: &[u8] = b"line 0: yes
line 18446744073709551615: no, cells differ after 4294967295
line 13: no, the same after 4294967294, shifted by -9223372036854775808,-1
line 9: no, empty after 18446744073709551615
";

/// Faults in the words of their crates.
const FAULTS: &[(Fault, &str)] = &[
    (Fault::Input(InputFault::Read), "reading failed"),
    (Fault::Input(InputFault::TooLong), "too long"),
    (Fault::Input(InputFault::Memory), "out of memory"),
    (
        Fault::Claims(ClaimFault::Syntax { line: 7 }),
        "line 7: syntax",
    ),
    (
        Fault::Tool(ToolFault::Input(InputFault::TooLong)),
        "too long",
    ),
    (
        Fault::Tool(ToolFault::BadTable(TableFault::States { line: 3 })),
        "rule table: line 3: states",
    ),
    (
        Fault::Tool(ToolFault::Convert(ConvertFault::BadPattern(PatternFault::Macro(
            MacroFault::Timeline,
        )))),
        "macrocell: a timeline",
    ),
    (
        Fault::Tool(ToolFault::GenTooLarge),
        "the generation is too large",
    ),
    (Fault::Tool(ToolFault::Work), "out of work"),
    (Fault::Tool(ToolFault::Range), "out of range"),
    (
        Fault::Tool(ToolFault::Window(WindowFault::Range)),
        "window out of range",
    ),
    (
        Fault::Tool(ToolFault::Window(WindowFault::TooLarge)),
        "window too large",
    ),
    (Fault::Tool(ToolFault::Write), "writing failed"),
    (Fault::Tool(ToolFault::Memory), "out of memory"),
];

/// Whether a fault or a cause is told in these words.
fn is_told<T: Display>(alloc: Global, what: &T, words: &str) -> Result<bool, AllocError> {
    Ok(format!(in alloc; "{what}")?.as_str() == words)
}

/// The faults of RLE texts, and the words of the causes that they are.
const RLE_FAULTS: &[(RleFault, &str)] = &[
    (RleFault::Syntax, "rle: syntax"),
    (RleFault::Header, "rle: no header"),
    (RleFault::XlifeRule, "rle: a rule in XLife's way"),
    (RleFault::NoEnd, "rle: no end"),
    (RleFault::BadState, "rle: a state above 255"),
    (RleFault::Range, "rle: out of range"),
    (RleFault::TooManyCells, "rle: too many cells"),
    (RleFault::GenTooLarge, "rle: the generation is too large"),
    (RleFault::Memory, "rle: out of memory"),
];

/// Other causes in the words of their crates.
const CAUSES: &[(Cause, &str)] = &[
    (Cause::NoFile, "no file"),
    (
        Cause::BadTable(TableFault::Syntax { line: 7 }),
        "rule table: line 7: syntax",
    ),
    (
        Cause::BadTable(TableFault::Memory),
        "rule table: out of memory",
    ),
    (
        Cause::BadPattern(PatternFault::Macro(MacroFault::Level)),
        "macrocell: a bad level",
    ),
    (Cause::BadPattern(PatternFault::Memory), "out of memory"),
    (
        Cause::BadRule(RuleFault::Bounded),
        "a rule on a bounded grid",
    ),
    (
        Cause::BadRule(RuleFault::Wakes),
        "a rule that wakes the empty plane",
    ),
    (Cause::BadRule(RuleFault::Unknown), "an unknown rule"),
    (Cause::StateTooLarge, "state too large"),
    (Cause::MixedRules, "mixed rules"),
    (Cause::TooManyCells, "too many cells"),
    (Cause::Work, "out of work"),
    (Cause::Memory, "out of memory"),
];

/// Whether each fault and each cause tells why.
fn tell_why(alloc: Global) -> Result<bool, AllocError> {
    let mut all = true;
    'faults: for (fault, words) in FAULTS {
        all = all && is_told(alloc, fault, words)?;
    }
    'rle_faults: for &(fault, words) in RLE_FAULTS {
        let cause = Cause::BadPattern(PatternFault::Rle(fault));
        all = all && is_told(alloc, &cause, words)?;
    }
    'causes: for (cause, words) in CAUSES {
        all = all && is_told(alloc, cause, words)?;
    }
    Ok(all)
}

/// Kinds of claims, and the words of each after a first name, where the second one is `b`.
const KINDS: &[(Kind, &[u8])] = &[
    (Kind::Still, b""),
    (Kind::Becomes { generations: 7 }, b" 7 b"),
    (
        Kind::BecomesShifted {
            generations: 7,
            dx: -1,
            dy: 2,
        },
        b" 7 b shift -1 2",
    ),
    (
        Kind::Spaceship {
            period: 4294967295,
            dx: 1152921504606846976,
            dy: -1152921504606846976,
        },
        b" 4294967295 1152921504606846976 -1152921504606846976",
    ),
    (
        Kind::Dies {
            generations: 1152921504606846976,
        },
        b" 1152921504606846976",
    ),
];

/// Whether the words of each kind are written.
fn are_written(alloc: Global) -> Result<bool, Memory> {
    'kinds: for &(kind, words) in KINDS {
        let mut out = Vec::new(alloc);
        kind.push_words_after_name(&mut out, b"b")?;
        if out.as_slice() != words {
            return Ok(false);
        }
    }
    Ok(true)
}

#[test]
fn answers_faults_and_claims_have_words(rt: HostRuntime) -> Result<(), Fail> {
    let text = lines(rt.alloc(), ANSWERS)?;
    let holds = text.as_slice() == LINES && tell_why(rt.alloc()) == Ok(true);
    expect(
        &rt,
        holds && are_written(rt.alloc()) == Ok(true),
        "words of answers, faults and claims",
    );
    Ok(())
}
