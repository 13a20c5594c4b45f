//! What gives whole files by their paths. What looks for files is proved for any such thing: so it is proved which path
//! each file is read at.

ghost use Rattle.std.specs.Prelude.{ℕ, List, IfOk, IfErr};
ghost use Rattle.ca_report.specs.declared.absence.Absence.{Absence};
ghost use Rattle.ca_host.specs.Unread.{IsUnread};

use crate::files::read_file;
use ca_report::{Absence, InputFault};
use std::fs;
use std::io::ErrorKind;
use std::rt::Files;

/// Why a file's bytes aren't there: it wasn't read, or memory is out.
#[derive(Clone, Copy)]
pub enum Unread {
    Absent(Absence),
    Memory,
}

/// What gives the bytes of whole files by their paths.
pub trait WholeFiles {
    // These may be the bytes of the file of a path.
    ghost gives: { (path bytes : List ℕ) → Type 0 };

    // There may be no bytes of a path, for this reason.
    ghost lacks: { (path : List ℕ) → Absence → Type 0 };

    /// The bytes of the file of a path.
    fn bytes_of(&self, path: &[u8]) -> Result<Vec<u8>, Unread>
        ensures given { IfOk result (λ v. gives path.now v.items) }
        ensures absent { IfErr result (IsUnread (lacks path.now)) };
}

impl<R: Files + AllocGlobal> WholeFiles for R {
    ghost use Rattle.std.specs.Prelude.{⊤};
    ghost use Rattle.ca_host.specs.Unread.{IsWholeFile};

    ghost gives = { λ _ bytes. IsWholeFile R.File.remaining bytes };

    ghost lacks = { λ _ _. ⊤ };

    // The bytes of the file of a path, if the path is UTF-8, and the file can be read and isn't too long.
    fn bytes_of(&self, path: &[u8]) -> Result<Vec<u8>, Unread> {
        let Ok(text) = str::from_utf8(path) else {
            return Err(Unread::Absent(Absence::NotUtf8));
        };
        match read_file(self, text) {
            Ok(bytes) => Ok(bytes),
            Err(InputFault::Read) => Err(Unread::Absent(why_unread(self, text))),
            Err(InputFault::TooLong) => Err(Unread::Absent(Absence::TooLong)),
            Err(InputFault::Memory) => Err(Unread::Memory),
        }
    }
}

// Why a file couldn't be read, as far as a further look at its path tells it.
fn why_unread<R: Files>(rt: &R, path: &str) -> Absence {
    match fs::metadata(rt, path) {
        Ok(found) if found.is_dir() => Absence::Folder,
        Ok(_) => Absence::Unreadable,
        Err(error) => match error.kind() {
            ErrorKind::NotFound | ErrorKind::NotADirectory => Absence::NoFile,
            _ => Absence::Unreadable,
        },
    }
}
