//! Why a folder could not be read.

ghost use Rattle.std.specs.Prelude.{◌≡◌, Some};
ghost use Rattle.source_folder.specs.Reasons.{words_of_fault};
ghost use Rattle.source_folder.specs.declared.fault.FolderFault.TheVariants as faults;

use std::alloc::{AllocError, AllocFailed};
use std::error::Error;
use std::fmt;

/// Why a folder could not be read.
#[derive(Debug, Drop)]
pub enum FolderFault {
    /// A folder can't be listed, lies too deep, is one in which the link that leads to it lies, or has an entry whose
    /// name is no text, or there are too many entries.
    Listing,
    /// A source can't be read.
    Reading,
    NoMemory,
}

impl fmt::Display for FolderFault {
    ghost output = { λ fault. Some (words_of_fault fault) };

    fn fmt<W: fmt::Write>(&self, f: &mut fmt::Formatter<W>) -> fmt::Result {
        match self {
            FolderFault::Listing => f.write_str("a folder can't be listed"),
            FolderFault::Reading => f.write_str("a source can't be read"),
            FolderFault::NoMemory => f.write_str("out of memory"),
        }
    }
}

impl Error for FolderFault {}

impl From<AllocError> for FolderFault {
    ghost from_gives = { λ _ e. e ≡ faults.NoMemory };

    fn from(_error: AllocError) -> FolderFault {
        FolderFault::NoMemory
    }
}

impl<T: Drop> From<AllocFailed<T>> for FolderFault {
    ghost from_gives = { λ _ e. e ≡ faults.NoMemory };

    fn from(_error: AllocFailed<T>) -> FolderFault {
        FolderFault::NoMemory
    }
}
