//! A text of many claims, which no call refuses where memory is ample.

use super::expected::expect;
use ca_pattern::{File, Limits};
use ca_plane::Dev;
use ca_text::{Claims, read_claims};
use ca_tool::{lines, verify_run};
use ca_verify::verify;
use std::alloc::{AllocError, Global};
use std::test::*;

/// How many claims the text makes.
const MANY: u64 = 2000;

const FILES: &[File<'static>] = &[File {
    path: b"block.rle",
    bytes: b"x = 2, y = 2, rule = B3/S23\n2o$2o!",
}];

/// Many claims about one file, from line 2.
fn text_of_many(alloc: Global) -> Result<Vec<u8>, AllocError> {
    let mut text = Vec::from_slice(alloc, b"load b block.rle\n")?;
    'claims: for _ in 0..MANY {
        text.extend_from_slice(b"still b\n")?;
    }
    Ok(text)
}

/// The lines of their answers.
fn lines_of_many(alloc: Global) -> Result<Vec<u8>, AllocError> {
    let mut text = Vec::new(alloc);
    'lines: for line in 2..MANY + 2 {
        text.extend_from_slice(format!(in alloc; "line {line}: yes\n")?.as_bytes())?;
    }
    Ok(text)
}

/// Whether all claims are answered, and their answers printed as these lines.
fn are_answered(alloc: Global, claims: &Claims, wanted: &[u8]) -> bool {
    let Ok(answers) = verify(alloc, claims, FILES, Limits::default()) else {
        return false;
    };
    let Ok(text) = lines(alloc, answers.as_slice()) else {
        return false;
    };
    text.as_slice() == wanted
}

/// Whether a run on the claims writes these lines.
fn are_written(alloc: Global, claims: &Claims, wanted: &[u8]) -> bool {
    let mut out = Dev::new(Vec::new(alloc));
    let end = verify_run(alloc, claims, FILES, Limits::default(), &mut out);
    end == Ok(0) && out.inner().as_slice() == wanted
}

#[test]
fn many_claims_are_answered(rt: HostRuntime) -> Result<(), Fail> {
    let text = text_of_many(rt.alloc())?;
    let wanted = lines_of_many(rt.alloc())?;
    let claims = read_claims(rt.alloc(), &text)?;
    let holds = are_answered(rt.alloc(), &claims, &wanted)
        && are_written(rt.alloc(), &claims, &wanted);
    expect(&rt, holds, "answers to many claims");
    Ok(())
}
