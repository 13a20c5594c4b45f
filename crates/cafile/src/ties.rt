//! Rule tables under which Golly may take other states, of which `--explain` tells.

use ca_claims::look_up;
use ca_host::Streams;
use ca_pattern::File;
use ca_rule::Table;
use ca_text::Claims;
use ca_tool::explain_ties;
use std::alloc::Global;

/// Tells of those of the tables that have ties, where that is asked for.
pub fn tell_ties(tables: &[Table], is_explained: bool, streams: &mut Streams) {
    if is_explained {
        let _ = explain_ties(tables, &mut streams.errors);
    }
}

/// Tells of those of the tables of a text's rule lines that have ties, where that is asked for. Nothing is told where
/// one of the rule files is missing or faulty, or memory is out.
pub fn tell_claimed_ties(
    alloc: Global,
    claims: &Claims,
    files: &[File<'_>],
    is_explained: bool,
    streams: &mut Streams,
) {
    if !is_explained {
        return;
    }
    let Ok(needed) = look_up(alloc, claims, files) else {
        return;
    };
    if let Some(tables) = needed.tables.good() {
        tell_ties(tables, true, streams);
    }
}
