//! Why files that a claim text needs aren't supplied.

ghost use Rattle.std.specs.Prelude.{◌≡◌, ◌++◌, codes};
ghost use Rattle.ca_report.specs.FileLines.{absence_text, missing_at, missing_words};
ghost use Rattle.ca_report.specs.Pieces.{piece_text};

use crate::pieces::{NOTHING, Piece};

/// Why no file of a path is supplied.
#[derive(Clone, Copy, Debug, PartialEq, Eq)]
pub enum Absence {
    /// There is none.
    NoFile,
    /// It is a folder.
    Folder,
    /// It can't be opened or read.
    Unreadable,
    /// It has more than 67108864 bytes.
    TooLong,
    /// The path isn't UTF-8, and isn't looked for.
    NotUtf8,
    /// The path may lead out of the folder in which it would be looked for, and isn't.
    Outside,
}

/// A path whose file isn't supplied.
#[derive(Clone, Copy, Debug)]
pub struct MissingFile<'a> {
    pub path: &'a [u8],
    pub why: Absence,
}

// Why there is no file, after what stands between it and a path.
fn absence_bytes<'a>(why: Absence) -> &'a [u8]
    ensures { result.now ≡ codes ": " ++ absence_text why }
{
    match why {
        Absence::NoFile => b": no such file",
        Absence::Folder => b": a folder",
        Absence::Unreadable => b": it can't be read",
        Absence::TooLong => b": more than 67108864 bytes",
        Absence::NotUtf8 => b": not UTF-8",
        Absence::Outside => b": outside the root",
    }
}

// The first of the missing files with this path.
fn missing_at<'a>(missing: &[MissingFile<'a>], path: &[u8]) -> Option<MissingFile<'a>>
    ensures { result ≡ missing_at missing.now path.now }
{
    'files: for index in 0..missing.len() {
        let file = missing[index];
        if file.path == path {
            return Some(file);
        }
    }
    None
}

/// Why there is no file of a path, where that is known.
pub fn missing_piece<'a>(missing: &[MissingFile<'a>], path: &[u8]) -> Piece<'a>
    ensures { piece_text result ≡ missing_words missing.now path.now }
{
    match missing_at(missing, path) {
        Some(file) => Piece::Text(absence_bytes(file.why)),
        None => NOTHING,
    }
}
