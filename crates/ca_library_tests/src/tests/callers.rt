//! Callers that the libraries' pages show: of readers that no command calls, rules as no plane asks them, and answers to claims in memory.

use super::expected::expect;
use ca_answers::{Answer, Cause, Refutation, Verdict};
use ca_macro::{MacroFault, read_macro};
use ca_pattern::{File, Limits};
use ca_plane::{Automaton, Nine};
use ca_quad::{Spot, Store};
use ca_rle::{RleFault, read_rle};
use ca_rule::{RuleFault, resolve};
use ca_text::{ClaimFault, read_claims};
use ca_verify::verify;
use std::alloc::Global;
use std::test::*;

/// A rule's text, a cell and those round it, some of states that the rule doesn't have, and its next state.
const CELLS: &[(&[u8], Nine, u8)] = &[
    (b"23/3", [0, 0, 0, 1, 1, 1, 0, 0, 0], 1),
    (b"B3/S23", [0, 0, 0, 0, 0, 0, 1, 1, 1], 1),
    (b"B3/S23", [0, 0, 0, 1, 2, 1, 0, 0, 0], 0),
    (b"B3/S23", [255, 255, 255, 255, 255, 255, 255, 255, 255], 0),
    (b"/2/3", [1, 1, 2, 2, 0, 2, 2, 2, 2], 1),
    (b"/2/3", [1, 1, 0, 0, 1, 0, 0, 0, 0], 2),
];

/// What a rule says of nine cells.
fn next_state(text: &[u8], nine: &Nine) -> Option<u8> {
    let rule = resolve(text, &[]).ok()?;
    Some(rule.next(nine))
}

/// Whether each rule gives these states.
fn give_states() -> bool {
    'cells: for (text, nine, state) in CELLS {
        if next_state(text, nine) != Some(*state) {
            return false;
        }
    }
    true
}

/// Whether texts that are no word name no rule.
fn name_none() -> bool {
    'texts: for text in [
        b"".as_slice(),
        b"B3/S23 ",
        b" B3/S23",
        b"B3 /S23",
        b"2/3/3 ",
        b"2/3/ 3",
    ] {
        if resolve(text, &[]).err() != Some(RuleFault::Unknown) {
            return false;
        }
    }
    true
}

#[test]
fn rules_of_other_cells_and_texts(rt: HostRuntime) {
    let holds = give_states() && name_none();
    expect(&rt, holds, "next cells, and texts that are no word");
}

/// RLE texts, the rule text of each as it stands, and its generation.
const SAID: &[(&[u8], &[u8], u64)] = &[
    (b"x = 1, y = 1\no!", b"B3/S23", 0),
    (b"x=0,y=0,rule=23/3\no!", b"23/3", 0),
    (b"x = 1, y = 1, rule =\no!", b"B3/S23", 0),
    (b"x = 1, y = 1, rule = B3 / S23\no!", b"B3", 0),
    (b"x = 1, y = 1, rule = B3/S23, more\no!", b"B3/S23,", 0),
    (b"x = 1, y = 1, rule = B3/S23, more\r\no!", b"B3/S23,", 0),
    (b"x = 1, y = 1, rule = \t\no!", b"B3/S23", 0),
    (b"#r 23/3\nx = 1, y = 1, rule = Life\no!", b"Life", 0),
    (
        b"#r 23/3\nx = 1, y = 1, rule = B3 / S23, more\r\no!",
        b"B3",
        0,
    ),
    (b"#CXRLE pos=1 Pos Gen:3\nx = 1, y = 1\no!", b"B3/S23", 0),
    (
        b"#N R-pentomino\r\n#C a comment\r\n#CXRLE Pos=-1,-1 Gen=7\r\nx = 3, y = 3\r\nb2o$2o$bo!\r\n",
        b"B3/S23",
        7,
    ),
    (
        b"#CXRLE Pos=1,2 Gen=5 Pos=-3,-0\n  #CXRLE Gen=9223372036854775807\r\nx = 1, y = 1\n!",
        b"B3/S23",
        9223372036854775807,
    ),
    (
        b"#CXRLE Gen=0000000000000000000000000000001\nx = 9999999999999999999999999999999999999999, y = 1\n!",
        b"B3/S23",
        1,
    ),
    (b"#CXRLE Gen=5 Gen=0\nx = 1, y = 1\no!", b"B3/S23", 0),
];

fn says(alloc: Global, text: &[u8], rule: &[u8], generation: u64) -> Result<bool, RleFault> {
    let pattern = read_rle(alloc, text)?;
    Ok(pattern.rule_text.as_slice() == rule && pattern.generation == generation)
}

/// Whether each text says this.
fn say_so(alloc: Global) -> Result<bool, RleFault> {
    'texts: for &(text, rule, generation) in SAID {
        if !says(alloc, text, rule, generation)? {
            return Ok(false);
        }
    }
    Ok(true)
}

/// The state of a cell of a macrocell text, and its generation.
fn macro_cell(alloc: Global, store: &mut Store, text: &[u8]) -> Result<(u8, u64), MacroFault> {
    let glider = read_macro(alloc, store, text)?;
    Ok((
        store.cell(glider.tree, Spot { x: 1, y: 0 }),
        glider.generation,
    ))
}

const MACROCELL: &[u8] = b"[M2]\n#G 4\n.*$..*$***\n4 0 0 0 1\n";

#[test]
fn patterns_are_read(rt: HostRuntime) {
    let mut store = Store::new(rt.alloc());
    let is_cell = macro_cell(rt.alloc(), &mut store, MACROCELL) == Ok((1, 4));
    let other = macro_cell(rt.alloc(), &mut store, b"x = 0, y = 0");
    let holds = is_cell && other == Err(MacroFault::NotMacro);
    expect(
        &rt,
        holds && say_so(rt.alloc()) == Ok(true),
        "patterns that are read",
    );
}

const BLOCK: &[u8] = b"x = 2, y = 2, rule = B3/S23\n2o$2o!\n";

const EMPTY: &[u8] = b"x = 0, y = 0, rule = B3/S23\n!";

/// Files of which some have one path.
const FILES: &[File<'static>] = &[
    File {
        path: b"other.rle",
        bytes: EMPTY,
    },
    File {
        path: b"block.rle",
        bytes: BLOCK,
    },
    File {
        path: b"empty.rle",
        bytes: EMPTY,
    },
    File {
        path: b"block.rle",
        bytes: b"no pattern",
    },
    File {
        path: b"empty.rle",
        bytes: BLOCK,
    },
];

const ANSWERS: &[Answer] = &[
    Answer {
        line: 3,
        verdict: Verdict::Yes,
    },
    Answer {
        line: 4,
        verdict: Verdict::No(Refutation::Empty),
    },
];

/// Whether these are the answers, where a claim may take `work` units of work.
fn are_answers(
    alloc: Global,
    text: &[u8],
    work: u64,
    wanted: &[Answer],
) -> Result<bool, ClaimFault> {
    let limits = Limits { memo: 1, work };
    let claims = read_claims(alloc, text)?;
    let Ok(answers) = verify(alloc, &claims, FILES, limits) else {
        return Ok(false);
    };
    Ok(answers.as_slice() == wanted)
}

/// Without work a claim with cells to be computed is refused, and the others are judged.
const WORKLESS_ANSWERS: &[Answer] = &[
    Answer {
        line: 3,
        verdict: Verdict::Refused(Cause::Work),
    },
    Answer {
        line: 4,
        verdict: Verdict::No(Refutation::Empty),
    },
    Answer {
        line: 5,
        verdict: Verdict::Yes,
    },
    Answer {
        line: 6,
        verdict: Verdict::Yes,
    },
];

const CLAIMS: &[u8] = b"load e empty.rle\nload b block.rle\nstill b\nstill e\n";

const WORKLESS_CLAIMS: &[u8] =
    b"load e empty.rle\nload b block.rle\nstill b\nstill e\nbecomes b 0 b\nbecomes e 5 e\n";

#[test]
fn the_first_file_of_a_path_counts(rt: HostRuntime) {
    let is_first = are_answers(rt.alloc(), CLAIMS, u64::MAX, ANSWERS) == Ok(true);
    let found = are_answers(rt.alloc(), WORKLESS_CLAIMS, 0, WORKLESS_ANSWERS);
    expect(&rt, is_first && found == Ok(true), "answers to claims");
}
