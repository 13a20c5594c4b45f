//! The commands `show`, `convert` and `draw`.

ghost use Rattle.std.specs.Prelude.{◌≡◌, ◌≤◌, [], unwrap_or, option_map, string_bytes};
ghost use Rattle.ca_plane.specs.Prelude.{most_generations};
ghost use Rattle.ca_pattern.specs.Prelude.{AreGoodLimits};
ghost use Rattle.ca_cli.specs.Words.{memo_of, work_of, generations_of};
ghost use Rattle.cafile.specs.Forms.{asked_on, IsAskedFor};

use crate::FAULT;
use crate::pattern_rules::{UnknownRules, known_rules};
use crate::terminal::{on_terminal, terminal_room};
use crate::ties::tell_ties;
use ca_cli::PatternExtras;
use ca_draw::{ImageFormat, Size};
use ca_host::{Heading, Progress, Streams, open_source, read_file};
use ca_pattern::File;
use ca_plane::{Dev, send};
use ca_report::DetailedFault;
use ca_rule::Table;
use ca_tool::{
    Evolution, Fault, FaultyRule, Form, FormText, InputFault, RunFiles, ToolFault, complain,
    explain, form_text, has_explanation, read_all, write_form,
};
use std::io::IsTerminal;
use std::rt::{Clock, Env, Files, Stdin, Stdout};

// What is written of a pattern file.
#[derive(Clone, Copy)]
struct Asked {
    form: Form,
    // Whether the line that tells of it goes to standard error.
    captioned: bool,
}

// The form that the words ask for, on this output.
fn asked_of<R: Env + AllocGlobal>(rt: &R, form: Form, output: &Dev<Stdout>) -> Asked
    ensures { IsAskedFor form result }
{
    let is_terminal = matches!(form, Form::Picture(_)) && output.inner().is_terminal();
    let room = if is_terminal { terminal_room(rt) } else { None };
    asked_with(form, is_terminal, room)
}

// The same, on a terminal or elsewhere. On a terminal with this room, if that is known, a picture that is text fits it,
// and has a caption.
fn asked_with(form: Form, is_terminal: bool, room: Option<Size>) -> Asked
    ensures { result ≡ asked_on form is_terminal room }
{
    if let Form::Picture(request) = form {
        if is_terminal {
            return Asked {
                form: Form::Picture(on_terminal(request, room)),
                captioned: request.format == ImageFormat::Text,
            };
        }
    }
    Asked {
        form,
        captioned: false,
    }
}

/// Writes this form of the pattern file of a path, and answers the exit status.
pub fn write_pattern<R: Env + Files + Clock + AllocGlobal>(
    rt: &R,
    path: &str,
    form: Form,
    extras: &PatternExtras,
    streams: &mut Streams,
) -> u8 {
    let asked = asked_of(rt, form, &streams.output);
    let (bytes, rule) = match load(rt, path, &extras.rule, streams.input) {
        Ok(loaded) => loaded,
        Err(UnreadFile { fault, path }) => {
            let _ = complain(&Fault::Input(fault), path.as_bytes(), &mut streams.errors);
            return FAULT;
        }
    };
    let pattern = File {
        path: path.as_bytes(),
        bytes: bytes.as_slice(),
    };
    let rules = match known_rules(rt.alloc(), rt, pattern.bytes, rule, extras) {
        Ok(rules) => rules,
        Err(unknown) => return refuse_rules(&unknown, pattern, extras, streams),
    };
    tell_ties(&rules.tables, extras.extras.explained, streams);
    match run(rt, asked, pattern, &rules.tables, extras, streams) {
        Ok(status) => status,
        Err(refused) => {
            let files = RunFiles {
                pattern,
                rule_path: b"",
            };
            refuse(&refused, &files, extras, streams)
        }
    }
}

// A file that can't be read.
#[derive(Clone, Copy)]
struct UnreadFile<'a> {
    fault: InputFault,
    path: &'a str,
}

// All bytes of the pattern file, and of the rule file, if one is named. The pattern file is opened first, and
// read last.
fn load<'a, R: Files + AllocGlobal>(
    rt: &R,
    path: &'a str,
    rule: &'a Option<String>,
    input: Stdin,
) -> Result<(Vec<u8>, Option<Vec<u8>>), UnreadFile<'a>> {
    let mut file = match open_source(rt, path, input) {
        Ok(file) => file,
        Err(fault) => return Err(UnreadFile { fault, path }),
    };
    let rule = load_rule(rt, rule)?;
    match read_all(rt.alloc(), &mut file) {
        Ok(bytes) => Ok((bytes, rule)),
        Err(fault) => Err(UnreadFile { fault, path }),
    }
}

fn load_rule<'a, R: Files + AllocGlobal>(
    rt: &R,
    rule: &'a Option<String>,
) -> Result<Option<Vec<u8>>, UnreadFile<'a>> {
    let Some(path) = rule else {
        return Ok(None);
    };
    let path = path.as_str();
    match read_file(rt, path) {
        Ok(bytes) => Ok(Some(bytes)),
        Err(fault) => Err(UnreadFile { fault, path }),
    }
}

// How far a pattern is taken on by the words, and what that may take.
fn evolution_of(extras: &PatternExtras) -> Evolution
    ensures generations { result.generations ≡ generations_of extras.now.after }
    ensures few { result.generations ≤ most_generations }
    ensures limits { AreGoodLimits result.limits }
    ensures memo { result.limits.memo ≡ memo_of extras.now.extras.memo }
    ensures work { result.limits.work ≡ work_of extras.now.extras.work }
{
    Evolution {
        generations: extras.after(),
        limits: extras.extras.limits(),
    }
}

// Writes what is asked of the pattern file. Where it is advanced by some generations, the line of progress tells how
// far that is.
fn run<R: Clock + AllocGlobal>(
    rt: &R,
    asked: Asked,
    pattern: File<'_>,
    tables: &[Table],
    extras: &PatternExtras,
    streams: &mut Streams,
) -> Result<u8, DetailedFault<ToolFault>> {
    let evolution = evolution_of(extras);
    let heading = Heading::Run { path: pattern.path };
    let squares = extras.extras.most_squares();
    let errors = &mut streams.errors;
    let mut observer = Progress::new(rt, errors, heading, extras.extras.progress, squares);
    let observer = &mut observer;
    let (alloc, bytes, form) = (rt.alloc(), pattern.bytes, asked.form);
    if asked.captioned {
        let written = form_text(alloc, bytes, form, tables, evolution, observer)?;
        return write_captioned(&written, streams);
    }
    let output = &mut streams.output;
    write_form(alloc, bytes, form, tables, evolution, observer, output)
}

// Writes the caption of a picture to standard error, and the picture to standard output.
fn write_captioned(
    written: &FormText,
    streams: &mut Streams,
) -> Result<u8, DetailedFault<ToolFault>> {
    let _ = send(&mut streams.errors, &written.caption);
    if send(&mut streams.output, &written.text).is_err() {
        return Err(DetailedFault::of(ToolFault::Write));
    }
    Ok(0)
}

// Reports why the tables of a run aren't known, and answers the exit status.
fn refuse_rules(
    unknown: &UnknownRules,
    pattern: File<'_>,
    extras: &PatternExtras,
    streams: &mut Streams,
) -> u8 {
    match unknown {
        UnknownRules::Named(fault) => {
            let rule_path = named_path(&extras.rule);
            let files = RunFiles { pattern, rule_path };
            refuse(&DetailedFault::of(*fault), &files, extras, streams)
        }
        UnknownRules::Found(faulty) => {
            let FaultyRule { path, fault, .. } = faulty.view();
            let files = RunFiles {
                pattern,
                rule_path: path,
            };
            let refused = DetailedFault::of(ToolFault::BadTable(fault));
            refuse(&refused, &files, extras, streams)
        }
    }
}

fn named_path(rule: &Option<String>) -> &[u8]
    ensures { result.now ≡ unwrap_or (option_map string_bytes rule.now) [] }
{
    match rule {
        Some(path) => path.as_bytes(),
        None => b"",
    }
}

// Reports a fault, which is explained where that is asked for, and answers the exit status.
fn refuse(
    refused: &DetailedFault<ToolFault>,
    files: &RunFiles<'_>,
    extras: &PatternExtras,
    streams: &mut Streams,
) -> u8 {
    let fault = Fault::Tool(refused.fault);
    let _ = complain(&fault, files.pattern.path, &mut streams.errors);
    if extras.extras.explained {
        let _ = explain(refused, files, &mut streams.errors);
    } else if has_explanation(refused.fault) {
        streams.suggest_explain();
    }
    FAULT
}
