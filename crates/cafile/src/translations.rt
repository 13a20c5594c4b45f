//! The commands `import` and `rule`, which write files that other commands read.

ghost use Rattle.std.specs.Prelude.{◌≡◌, IfOk, IfErr};
ghost use Rattle.ca_import.specs.Written.{IsImportText, IsImportTextFault};
ghost use Rattle.cafile.specs.Imports.{rule_asked};

use crate::import_complaint::complain_of_import;
use crate::{FAULT, write_text};
use ca_cli::ImportWords;
use ca_host::{Streams, read_source};
use ca_import::{ImportTextFault, import_text};
use ca_pattern::ConvertFault;
use ca_rule_files::{RuleFileFault, rule_file};
use ca_tool::{Fault, ToolFault, complain};
use std::alloc::Global;
use std::rt::Files;

/// The rule of a text that names none, unless the words give one.
const USUAL_RULE: &[u8] = b"B3/S23";

/// Writes the pattern of a file in another format, and answers the exit status.
pub fn import_file<R: Files + AllocGlobal>(
    rt: &R,
    words: &ImportWords,
    streams: &mut Streams,
) -> u8 {
    let path = words.path.as_str();
    let bytes = match read_source(rt, path, streams.input) {
        Ok(bytes) => bytes,
        Err(fault) => return refuse(&Fault::Input(fault), path.as_bytes(), streams),
    };
    match imported(rt.alloc(), &bytes, words) {
        Ok(text) => write_text(&text, streams),
        Err(fault) => {
            let _ = complain_of_import(fault, &mut streams.errors);
            FAULT
        }
    }
}

// The text of the pattern of a text with these bytes, in the format that the words ask for.
fn imported(alloc: Global, bytes: &[u8], words: &ImportWords) -> Result<Vec<u8>, ImportTextFault>
    ensures written { IfOk result (λ text. IsImportText bytes.now (rule_asked words.now.rule) words.now.target text.items) }
    ensures fault { IfErr result (IsImportTextFault bytes.now (rule_asked words.now.rule) words.now.target) }
{
    import_text(alloc, bytes, rule_of(&words.rule), words.target)
}

// The rule of a text that names none, where the words may give this one.
fn rule_of(given: &Option<String>) -> &[u8]
    ensures { result.now ≡ rule_asked given.now }
{
    match given {
        Some(rule) => rule.as_bytes(),
        None => USUAL_RULE,
    }
}

/// Writes the rule file of the rule that a text names, and answers the exit status.
pub fn write_rule_file<R: AllocGlobal>(rt: &R, text: &str, streams: &mut Streams) -> u8 {
    match rule_file(rt.alloc(), text.as_bytes()) {
        Ok(file) => write_text(&file, streams),
        Err(RuleFileFault::Rule(fault)) => {
            let fault = ToolFault::Convert(ConvertFault::BadRule(fault));
            refuse(&Fault::Tool(fault), b"", streams)
        }
        Err(RuleFileFault::Memory) => refuse(&Fault::Tool(ToolFault::Memory), b"", streams),
    }
}

// Reports a fault, and answers the exit status.
fn refuse(fault: &Fault, path: &[u8], streams: &mut Streams) -> u8 {
    let _ = complain(fault, path, &mut streams.errors);
    FAULT
}
