//! Runs that write their texts in pieces, the whole of it or a first part, since a write is refused; and reads that
//! fail in mid-stream.

use super::devices::{Faulty, Narrow, Refusal};
use super::expected::expect;
use super::writers::{MACROCELL, RLE, write_macro, write_rle};
use ca_pattern::{File, Limits, Target};
use ca_plane::{Dev, WriteFault};
use ca_text::read_claims;
use ca_tool::{InputFault, ToolFault, convert_run, show_run, verify_run};
use std::alloc::Global;
use std::io::Read;
use std::test::*;

/// What writes a text to a device: calls that no command makes.
#[derive(Clone, Copy)]
enum Run {
    Verify,
    Show,
    Convert(Target),
    ConvertByTable,
    Rle,
    Macrocell,
}

const FILES: &[File<'static>] = &[
    File {
        path: b"block.rle",
        bytes: b"x = 2, y = 2, rule = B3/S23\n2o$2o!",
    },
    File {
        path: b"dot.rle",
        bytes: b"x = 1, y = 1, rule = B3/S23\n2$5bo!",
    },
    File {
        path: b"bad.rle",
        bytes: b"x = 3, y = 3, rule = B3/S23\nbo$\n2b?!",
    },
];

const CLAIMS: &[u8] = b"load block block.rle
load dot dot.rle
load lost lost.rle
load bad bad.rle
still block
still dot
becomes dot 4 dot
still lost
becomes block 1 bad";

const LINES: &[u8] = b"line 5: yes
line 6: no, cells differ after 1
line 7: no, cells differ after 4
line 8: refused, no file
line 9: refused, bad pattern: rle syntax
";

const SHOWN: &[u8] = b"format rle\nrule B3/S23\ngen 0\ncells 5\nbox 0 0 3 3\n";

const SPREAD: &[u8] = b"@RULE Spread
@TABLE
n_states:3
neighborhood:vonNeumann
symmetries:rotate4
var a={1,2}
0,a,0,0,0,a
";

const SPREAD_CROSS: &[u8] = b"#CXRLE Pos=-1,-1\nx = 3, y = 3, rule = Spread\n.B$3B$.B!\n";

const SPREAD_MACROCELL: &[u8] =
    b"[M2] (cafile)\n#R Spread\n1 0 0 2 0\n1 0 2 0 0\n1 2 2 2 0\n2 0 1 2 3\n";

/// The status of a call that has none.
fn status_of(end: Result<(), WriteFault>) -> Result<u8, ToolFault> {
    match end {
        Ok(()) => Ok(0),
        Err(WriteFault::Write) => Err(ToolFault::Write),
        Err(WriteFault::Memory) => Err(ToolFault::Memory),
    }
}

/// Shows a glider that is read in two pieces.
fn show(alloc: Global, out: &mut Dev<Narrow>) -> Result<u8, ToolFault> {
    let (first, second) = RLE.split_at(7);
    show_run(alloc, &mut Dev::new(first.chain(second)), None, out)
}

/// Judges claims, of which one is false and one is refused.
fn judge(alloc: Global, out: &mut Dev<Narrow>) -> Result<u8, ToolFault> {
    let Ok(claims) = read_claims(alloc, CLAIMS) else {
        return Err(ToolFault::Memory);
    };
    verify_run(alloc, &claims, FILES, Limits::default(), out)
}

/// How a run ends on this device.
fn end_of(alloc: Global, run: Run, out: &mut Dev<Narrow>) -> Result<u8, ToolFault> {
    match run {
        Run::Verify => judge(alloc, out),
        Run::Show => show(alloc, out),
        Run::Convert(target) => convert_run(alloc, &mut Dev::new(RLE), target, None, out),
        Run::ConvertByTable => convert_run(
            alloc,
            &mut Dev::new(SPREAD_CROSS),
            Target::Mc,
            Some(SPREAD),
            out,
        ),
        Run::Rle => status_of(write_rle(alloc, out)),
        Run::Macrocell => status_of(write_macro(alloc, out)),
    }
}

/// Whether a run on a device that has room for `room` bytes writes as many of its text, and ends so.
fn is_cut(alloc: Global, run: Run, text: &[u8], status: u8, room: usize, refusal: Refusal) -> bool {
    let whole = room >= text.len();
    let wanted = if whole {
        Ok(status)
    } else {
        Err(ToolFault::Write)
    };
    let mut out = Narrow::device(alloc, room, refusal);
    end_of(alloc, run, &mut out) == wanted
        && out.inner().taken.as_slice() == text.split_at(room.min(text.len())).0
        && out.failures() == u64::from(!whole)
}

/// Whether a run writes this text, wherever a write is refused up to there.
fn is_text(alloc: Global, run: Run, text: &[u8], status: u8) -> bool {
    'rooms: for room in 0..=text.len() {
        if !is_cut(alloc, run, text, status, room, Refusal::Fails)
            || !is_cut(alloc, run, text, status, room, Refusal::TakesNone)
        {
            return false;
        }
    }
    true
}

/// Runs, and the text and the exit status of each.
const RUNS: &[(Run, &[u8], u8)] = &[
    (Run::Verify, LINES, 2),
    (Run::Show, SHOWN, 0),
    (Run::Convert(Target::Mc), MACROCELL, 0),
    (Run::Convert(Target::Rle), RLE, 0),
    (Run::ConvertByTable, SPREAD_MACROCELL, 0),
    (Run::Rle, RLE, 0),
    (Run::Macrocell, MACROCELL, 0),
];

/// A glider that is cut short.
const CUT: &[u8] = b"x = 3, y = 3, rule = B3/S23\nbo";

const NO_TABLE: &[u8] = b"@RULE Spread\n@TABLES\n";

/// Whether a read that fails in mid-stream is reported before the faults of a table and a pattern, and nothing
/// is written.
fn is_reported(alloc: Global, target: Option<Target>) -> bool {
    let mut input = Faulty::device(CUT, 2);
    let mut out = Dev::new(Vec::new(alloc));
    let end = match target {
        Some(target) => convert_run(alloc, &mut input, target, Some(NO_TABLE), &mut out),
        None => show_run(alloc, &mut input, Some(NO_TABLE), &mut out),
    };
    end == Err(ToolFault::Input(InputFault::Read)) && out.inner().is_empty()
}

#[test]
fn texts_in_pieces(rt: HostRuntime) {
    'runs: for &(run, text, status) in RUNS {
        let holds = is_text(rt.alloc(), run, text, status);
        expect(&rt, holds, "a text in pieces");
    }
    let is_shown = is_reported(rt.alloc(), None);
    let holds = is_shown && is_reported(rt.alloc(), Some(Target::Rle));
    expect(&rt, holds, "a read that fails");
}
