//! Why a run of `census` ends before its last file.

ghost use Rattle.std.specs.Prelude.{◌≡◌};
ghost use Rattle.ca_census_runs.specs.inner.Tasks.{fault_of_files, fault_of_folder};

use ca_census_files::{FilesFault, FolderFault};

/// Why a run of `census` ended before its whole text was written.
#[derive(Clone, Copy, Debug, PartialEq, Eq)]
pub enum CensusFault {
    /// The settled plane of the file at this index has a generation that no pattern file may have, and files of its
    /// census are to be written.
    GenTooLarge { index: usize },
    /// The settled plane of the file at this index has a live cell where no pattern file may have one, and files of its
    /// census are to be written.
    Range { index: usize },
    /// A file has the name of one of the next census, and none of these was added.
    Taken,
    /// A file of the next census couldn't be written, and none of them was added.
    Unwritten,
    /// A write of the text failed; a first part of it was written, but not all of it.
    Write,
    /// An allocation failed.
    Memory,
}

impl CensusFault {
    /// The fault where there are no files of the census of the file at an index.
    pub(crate) fn of_files(fault: FilesFault, index: usize) -> CensusFault
        ensures { result ≡ fault_of_files fault index }
    {
        match fault {
            FilesFault::GenTooLarge => CensusFault::GenTooLarge { index },
            FilesFault::Range => CensusFault::Range { index },
            FilesFault::Memory => CensusFault::Memory,
        }
    }

    /// The fault where files aren't added to a folder.
    pub(crate) fn of_folder(fault: FolderFault) -> CensusFault
        ensures { result ≡ fault_of_folder fault }
    {
        match fault {
            FolderFault::Taken => CensusFault::Taken,
            FolderFault::Unwritten => CensusFault::Unwritten,
            FolderFault::Memory => CensusFault::Memory,
        }
    }
}
