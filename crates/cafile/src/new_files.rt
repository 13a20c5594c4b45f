//! Folders on disk to which files are added.

use ca_census_files::{Folder, FolderFault, NewFile};
use ca_plane::{Dev, send};
use std::alloc::{AllocError, Global};
use std::fs;
use std::fs::File;
use std::rt::Files;

/// A folder on disk, and the path of the first file that wasn't added to it.
#[derive(Drop)]
pub struct DiskFolder<'r, R: Files + AllocGlobal> {
    rt: &'r R,
    path: &'r str,
    left_out: String,
}

impl<'r, R: Files + AllocGlobal> DiskFolder<'r, R> {
    /// The folder at this path.
    pub fn new(rt: &'r R, path: &'r str) -> DiskFolder<'r, R> {
        DiskFolder {
            rt,
            path,
            left_out: String::new(rt.alloc()),
        }
    }

    /// The path of the first file that wasn't added, or that of the folder where it can't be made.
    pub fn left_out(&self) -> &str {
        self.left_out.as_str()
    }

    /// Makes the folder, if there is none, and answers whether there is one.
    pub fn make(&mut self) -> bool {
        if self.is_there() || fs::create_dir(self.rt, self.path).is_ok() || self.is_there() {
            return true;
        }
        if let Ok(path) = String::from_str(self.rt.alloc(), self.path) {
            self.left_out = path;
        }
        false
    }

    fn is_there(&self) -> bool {
        match fs::metadata(self.rt, self.path) {
            Ok(found) => found.is_dir(),
            Err(_) => false,
        }
    }

    // The paths of these files in the folder. Names are UTF-8 where the path of their pattern is; another is left out of
    // its path, so that the file is the folder itself, which is there already.
    fn paths_of(&self, files: &[NewFile]) -> Result<Vec<String>, AllocError> {
        let mut paths = Vec::with_capacity(self.rt.alloc(), files.len())?;
        'files: for file in files {
            let name = str::from_utf8(&file.name).unwrap_or("");
            paths.push(joined(self.rt.alloc(), self.path, name)?)?;
        }
        Ok(paths)
    }

    // The index of the first of these paths at which there is something, if there is any.
    fn first_taken(&self, paths: &[String]) -> Option<usize> {
        paths.iter().position(|path| fs::symlink_metadata(self.rt, path.as_str()).is_ok())
    }

    // Writes the files, one after the other, and answers the index of the first that can't be written whole, if there is
    // any.
    fn first_unwritten(&self, files: &[NewFile], paths: &[String]) -> Option<usize> {
        files
            .iter()
            .zip(paths)
            .position(|(file, path)| !self.write(path.as_str(), &file.bytes))
    }

    // Whether a file that wasn't there was made at the path, and written whole. One that is made in part is removed.
    fn write(&self, path: &str, bytes: &[u8]) -> bool {
        let Ok(made) = File::create_new(self.rt, path) else {
            return false;
        };
        let mut device = Dev::new(made);
        if send(&mut device, bytes).is_ok() {
            return true;
        }
        let _ = self.rt.remove_file(path);
        false
    }

    // Removes the files at the first `count` of these paths.
    fn remove_first(&self, paths: &[String], count: usize) {
        'paths: for path in paths.iter().take(count) {
            let _ = self.rt.remove_file(path.as_str());
        }
    }

    // Keeps the path at an index as that of the first file that wasn't added.
    fn leave_out(&mut self, paths: Vec<String>, index: usize) {
        if let Some(path) = paths.into_iter().nth(index) {
            self.left_out = path;
        }
    }
}

impl<R: Files + AllocGlobal> Folder for DiskFolder<'_, R> {
    ghost use Rattle.std.specs.Prelude.{None};

    ghost files = { λ _. None };

    // Writes the files, if none of them is there yet. Where one can't be written, those before it are removed again.
    fn add(&mut self, added: &[NewFile]) -> Result<(), FolderFault> {
        if added.is_empty() {
            return Ok(());
        }
        let Ok(paths) = self.paths_of(added) else {
            return Err(FolderFault::Memory);
        };
        if let Some(index) = self.first_taken(&paths) {
            self.leave_out(paths, index);
            return Err(FolderFault::Taken);
        }
        if let Some(index) = self.first_unwritten(added, &paths) {
            self.remove_first(&paths, index);
            self.leave_out(paths, index);
            return Err(FolderFault::Unwritten);
        }
        Ok(())
    }
}

fn joined(alloc: Global, folder: &str, name: &str) -> Result<String, AllocError> {
    let mut path = String::new(alloc);
    path.push_str(folder)?;
    path.push_str("/")?;
    path.push_str(name)?;
    Ok(path)
}
