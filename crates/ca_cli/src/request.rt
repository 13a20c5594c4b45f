//! What the words of the command line ask for.

ghost use Rattle.std.specs.Prelude.{◌≡◌, option_map, string_bytes};
ghost use Rattle.ca_cli.specs.Folders.{folder_of_rules, folder_of_texts};

use crate::commands::{CensusSearch, Folders, ImportWords, PatternExtras, Search};
use crate::extras::Extras;
use ca_report::Form;

/// What the words ask for.
#[derive(Drop)]
pub enum Request {
    /// What is written of the pattern file at this path.
    Write {
        path: String,
        form: Form,
        extras: PatternExtras,
    },
    /// A verdict for each claim of the texts at these paths.
    Verify {
        paths: Vec<String>,
        folders: Folders,
        extras: Extras,
    },
    /// What is true of the patterns of the files at these paths, which needn't be UTF-8.
    Identify {
        paths: Vec<Vec<u8>>,
        search: Search,
        extras: PatternExtras,
    },
    /// What the patterns of the files at these paths settle into, and files of that in the folder at this path, if there
    /// is one. The paths of files needn't be UTF-8.
    Census {
        paths: Vec<Vec<u8>>,
        search: CensusSearch,
        into: Option<String>,
        extras: PatternExtras,
    },
    /// The pattern of a file in another format.
    Import(ImportWords),
    /// The rule file of the rule that this text names.
    RuleFile {
        text: String,
    },
    /// This text, the help or the version.
    Help {
        text: String,
    },
}

impl Request {
    /// The folder where rule files are looked for, if there is one.
    pub fn rules_folder(&self) -> Option<&str>
        ensures { option_map (λ folder. folder.now) result ≡ folder_of_rules self.now }
    {
        match self {
            Request::Write { extras, .. }
            | Request::Identify { extras, .. }
            | Request::Census { extras, .. } => path_text(&extras.folder),
            Request::Verify { folders, .. } => path_text(&folders.rules),
            Request::Import(_) | Request::RuleFile { .. } | Request::Help { .. } => None,
        }
    }

    /// The folder in which the paths of claim texts are looked for, if there is one.
    pub fn root(&self) -> Option<&str>
        ensures { option_map (λ folder. folder.now) result ≡ folder_of_texts self.now }
    {
        match self {
            Request::Verify { folders, .. } => path_text(&folders.root),
            _ => None,
        }
    }
}

fn path_text(path: &Option<String>) -> Option<&str>
    ensures { option_map (λ text. text.now) result ≡ option_map string_bytes path.now }
{
    match path {
        Some(path) => Some(path.as_str()),
        None => None,
    }
}

/// Why the words ask for nothing.
#[derive(Drop)]
pub enum WordsFault {
    /// One that isn't a FILE of `identify` or `census` isn't UTF-8. (That they hold no command, or lack one of its
    /// words, can't come, since clap asks for those.)
    Usage,
    /// They fit no command, for the reason that this text gives.
    Misfit { text: String },
    /// An allocation failed.
    Memory,
}
