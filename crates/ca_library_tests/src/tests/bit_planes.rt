//! Runs of live cells, and the words that they make.

use super::expected::{FAR, expect, within};
use ca_plane::{BitPlane, CellWord, Memory};
use std::alloc::Global;
use std::test::*;

/// The row that has the cell (0, 0), and the column of words.
const ROW: u64 = 1 << 62;

const COLUMN: u64 = 1 << 56;

const FULL: u64 = u64::MAX;

/// A run: x and y of its first cell, and how many cells it has.
type Run = (i64, i64, u64);

/// Runs, and the row, the column and the bits of each word that has their cells.
const RUNS: &[(&[Run], &[(u64, u64, u64)])] = &[
    (&[], &[]),
    (&[(0, 0, 0)], &[]),
    (&[(0, 0, 3)], &[(ROW, COLUMN, 7)]),
    (&[(0, 0, 1), (2, 0, 1)], &[(ROW, COLUMN, 5)]),
    (
        &[(-1, 0, 2)],
        &[(ROW, COLUMN - 1, 1 << 63), (ROW, COLUMN, 1)],
    ),
    (
        &[(5, -1, 1), (5, 0, 1)],
        &[(ROW - 1, COLUMN, 32), (ROW, COLUMN, 32)],
    ),
    (
        &[(60, 7, 130)],
        &[
            (ROW + 7, COLUMN, 15 << 60),
            (ROW + 7, COLUMN + 1, FULL),
            (ROW + 7, COLUMN + 2, FULL >> 2),
        ],
    ),
    (&[(64, 0, 64)], &[(ROW, COLUMN + 1, FULL)]),
    (&[(-FAR, -FAR, 65)], &[(0, 0, FULL), (0, 1, 1)]),
    (&[(FAR - 1, FAR, 1)], &[(2 * ROW, 2 * COLUMN - 1, 1 << 63)]),
];

/// The words of these runs, each as far as it lies in a plane.
fn words_of(alloc: Global, runs: &[Run]) -> Result<Vec<CellWord>, Memory> {
    let mut plane = BitPlane::new(alloc);
    'runs: for &(x, y, length) in runs {
        let first = within(y, x);
        let room = i128::from(FAR) - i128::from(first.x);
        plane.add_run(first, length.min(room as u64))?;
    }
    Ok(plane.into_words())
}

fn are_words(words: &[CellWord], expected: &[(u64, u64, u64)]) -> bool {
    let mut pairs = words.iter().zip(expected.iter());
    words.len() == expected.len()
        && pairs.all(|(word, &wanted)| (word.row, word.column, word.bits) == wanted)
}

#[test]
fn runs_make_words(rt: HostRuntime) {
    'runs: for &(runs, expected) in RUNS {
        let holds = match words_of(rt.alloc(), runs) {
            Ok(words) => are_words(&words, expected),
            Err(_) => false,
        };
        expect(&rt, holds, "words of runs");
    }
}
