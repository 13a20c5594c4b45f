//! Folders to which files are added.

ghost use Rattle.std.specs.Prelude.{◌≡◌, List, [], Option, map, OnOk, OnErr, IsOk};
ghost use Rattle.ca_census_files.specs.Folders.{NamedBytes, named_bytes, AddsFiles};

/// A file that is to be added to a folder.
#[derive(Drop)]
pub struct NewFile {
    /// Its name in the folder.
    pub name: Vec<u8>,
    pub bytes: Vec<u8>,
}

/// Why files aren't added to a folder.
#[derive(Clone, Copy, Debug, PartialEq, Eq)]
pub enum FolderFault {
    /// A file with the name of one of them is there already.
    Taken,
    /// One of them can't be written.
    Unwritten,
    /// An allocation failed.
    Memory,
}

/// A folder to which files are added.
pub trait Folder {
    // The files that were added, in order, where that can be known.
    ghost files: { Self → Option (List NamedBytes) };

    /// Adds these files: all of them or none. No file that is there already is changed.
    fn add(&mut self, added: &[NewFile]) -> Result<(), FolderFault>
        ensures added { OnOk result (AddsFiles (files self.old) (files self.new) (map named_bytes added.now)) }
        ensures nothing { added.now ≡ [] → IsOk result }
        ensures unchanged { OnErr result (files self.new ≡ files self.old) };
}
