//! The command `verify`.

ghost use Rattle.std.specs.Prelude.{◌≡◌, ◌++◌, [], codes, IfOk, OnErr, IsTrue, if◌then◌else◌};
ghost use Rattle.ca_report.specs.Prelude.{escaped};
ghost use Rattle.ca_answers.specs.Prelude.{contents};
ghost use Rattle.ca_verify_lines.specs.Prelude.{all_claims, WritesReport};
ghost use Rattle.ca_cli.specs.Words.{work_of};

use crate::FAULT;
use crate::named_rules::with_named_rules;
use crate::ties::tell_claimed_ties;
use ca_cli::{Extras, Folders};
use ca_evolution::Observer;
use ca_host::{
    Heading, LoadedText, Progress, Streams, faulty_rules, load_needed, missing_files, read_source,
    views,
};
use ca_pattern::File;
use ca_plane::text::push_text;
use ca_plane::{Dev, Memory};
use ca_text::{ClaimFault, Claims, read_claims};
use ca_tool::{
    Fault, InputFault, ReportStyle, ToolFault, complain, complain_with_path, explain_claims,
    push_escaped, verify_watched,
};
use std::alloc::Global;
use std::io::Write;
use std::rt::{Clock, Files};

/// Judges the claim texts of these paths, one after another, and answers the greatest of their exit statuses.
///
/// Rule files that no rule line gives are looked for in the folder of rules, if there is one, and the paths of the
/// texts in the root, if there is one. A text that can't be read or has a fault is reported on standard error, and the
/// others are still judged. Nothing more is judged after a failed write. Where a terminal shows that a claim is
/// refused, and `--explain` says more, that is reported at the end.
pub fn verify_files<R: Files + Clock + AllocGlobal>(
    rt: &R,
    paths: &[String],
    folders: &Folders,
    extras: Extras,
    streams: &mut Streams,
) -> u8 {
    let are_named = paths.len() > 1;
    let mut greatest = 0;
    let mut has_note = false;
    'paths: for path in paths {
        let path = path.as_str();
        match verify_text(rt, path, are_named, folders, extras, streams, &mut has_note) {
            Ok(status) => greatest = greatest.max(status),
            Err(Fault::Tool(ToolFault::Write)) => {
                let _ = complain(&Fault::Tool(ToolFault::Write), b"", &mut streams.errors);
                return FAULT;
            }
            Err(fault) => {
                report_fault(&fault, path.as_bytes(), are_named, streams);
                greatest = FAULT;
            }
        }
    }
    if has_note && !extras.explained {
        streams.suggest_explain();
    }
    greatest
}

fn report_fault(fault: &Fault, path: &[u8], is_named: bool, streams: &mut Streams) {
    let _ = if is_named {
        complain_with_path(fault, path, &mut streams.errors)
    } else {
        complain(fault, path, &mut streams.errors)
    };
}

// Reports the fault of a claim text, and answers the exit status. On a terminal, and where that is asked for, it tells
// what helps too.
fn refuse_text(
    fault: ClaimFault,
    text: File<'_>,
    is_named: bool,
    is_explained: bool,
    streams: &mut Streams,
) -> u8 {
    report_fault(&Fault::Claims(fault), text.path, is_named, streams);
    if is_explained || streams.is_terminal() {
        let _ = explain_claims(fault, text, &mut streams.errors);
    }
    FAULT
}

// Judges one claim text. Where it is named, its path stands before each line.
fn verify_text<R: Files + Clock + AllocGlobal>(
    rt: &R,
    path: &str,
    is_named: bool,
    folders: &Folders,
    extras: Extras,
    streams: &mut Streams,
    has_note: &mut bool,
) -> Result<u8, Fault> {
    let text = read_source(rt, path, streams.input).map_err(Fault::Input)?;
    let claims = match read_claims(rt.alloc(), &text) {
        Ok(claims) => claims,
        Err(fault) => {
            let text = File {
                path: path.as_bytes(),
                bytes: &text,
            };
            return Ok(refuse_text(fault, text, is_named, extras.explained, streams));
        }
    };
    let Ok(before) = line_prefix(rt.alloc(), path, is_named) else {
        return Err(Fault::Input(InputFault::Memory));
    };
    let Ok(text) = load(rt, claims, folders) else {
        return Err(Fault::Input(InputFault::Memory));
    };
    let Ok(faulty) = faulty_rules(rt.alloc(), &text.faulty) else {
        return Err(Fault::Input(InputFault::Memory));
    };
    let Ok(missing) = missing_files(rt.alloc(), &text.missing) else {
        return Err(Fault::Input(InputFault::Memory));
    };
    let Ok(files) = views(rt.alloc(), &text.files) else {
        return Err(Fault::Input(InputFault::Memory));
    };
    tell_claimed_ties(rt.alloc(), &text.claims, &files, extras.explained, streams);
    let style = ReportStyle {
        before: &before,
        explained: extras.explained,
        faulty: &faulty,
        missing: &missing,
        files: &files,
    };
    judge(rt, &text.claims, &style, extras, streams, has_note).map_err(Fault::Tool)
}

// The claims, and the files that they need. Where there is a folder of rules, rules are looked for there.
fn load<R: Files + AllocGlobal>(
    rt: &R,
    claims: Claims,
    folders: &Folders,
) -> Result<LoadedText, Memory> {
    let files = load_needed(rt, &claims, &folders.root)?;
    let text = LoadedText {
        claims,
        files: files.loaded,
        missing: files.missing,
        faulty: Vec::new(rt.alloc()),
    };
    match &folders.rules {
        Some(folder) => with_named_rules(rt, folder.as_str(), folders.root.is_some(), text),
        None => Ok(text),
    }
}

// What stands before each line: the path of the text, where it is named.
fn line_prefix(alloc: Global, path: &str, is_named: bool) -> Result<Vec<u8>, Memory>
    ensures text { IfOk result (λ text. text.items ≡ (if is_named then escaped path.now ++ codes ": " else [])) }
    ensures memory { OnErr result (IsTrue is_named) }
{
    let mut before = Vec::new(alloc);
    if is_named {
        push_escaped(&mut before, path.as_bytes())?;
        push_text(&mut before, b": ")?;
    }
    Ok(before)
}

// Judges the claims over the files of the style.
fn judge<R: Files + Clock + AllocGlobal>(
    rt: &R,
    claims: &Claims,
    style: &ReportStyle<'_>,
    extras: Extras,
    streams: &mut Streams,
    has_note: &mut bool,
) -> Result<u8, ToolFault> {
    let heading = Heading::Claims {
        before: style.before,
    };
    let squares = extras.most_squares();
    let errors = &mut streams.errors;
    let mut observer = Progress::new(rt, errors, heading, extras.progress, squares);
    let output = &mut streams.output;
    report(
        rt.alloc(),
        claims,
        style,
        extras,
        output,
        &mut observer,
        has_note,
    )
}

// Writes what is true of the claims, within the limits that the words set.
fn report<W: Write, O: Observer>(
    alloc: Global,
    claims: &Claims,
    style: &ReportStyle<'_>,
    extras: Extras,
    output: &mut Dev<W>,
    observer: &mut O,
    has_note: &mut bool,
) -> Result<u8, ToolFault>
    ensures { WritesReport W.contents output.old output.new
        (all_claims (contents style.now.files.now) claims.now (work_of extras.work)) style.now result }
{
    let limits = extras.limits();
    verify_watched(
        alloc,
        claims,
        style.files,
        limits,
        style,
        output,
        observer,
        has_note,
    )
}
