//! Why a folder could not be read, and which entry was the trouble.

ghost use Rattle.std.specs.Prelude.{◌≡◌, None, Some};
ghost use Rattle.source_folder.specs.declared.fault.FolderFault.TheVariants as faults;
ghost use Rattle.source_folder.specs.declared.reason.Reason.TheVariants as reasons;
ghost use Rattle.source_folder.specs.Troubles.{IsTroubleAt, IsTroubleOf, line_of, no_memory};

use crate::fault::FolderFault;
use crate::reason::Reason;
use counted_io::is_no_memory;
use std::alloc::{AllocError, AllocFailed, Global};
use std::error::Error;
use std::{fmt, io};

/// Why a folder could not be read, and which entry was the trouble.
#[derive(Debug, Drop)]
pub struct FolderTrouble {
    pub fault: FolderFault,
    /// None where memory was short, if only for this, or where no more is known than the fault.
    pub entry: Option<TroubledEntry>,
}

/// An entry of a folder, or the root, that could not be listed or read.
#[derive(Debug, Drop)]
pub struct TroubledEntry {
    /// The root as it was given, and the path from there.
    pub path: String,
    pub reason: Reason,
}

impl FolderTrouble {
    /// A fault at this path.
    pub(crate) fn at(alloc: Global, fault: FolderFault, path: &str, reason: Reason) -> FolderTrouble
        ensures { IsTroubleAt fault path.now reason result }
    {
        match String::from_str(alloc, path) {
            Ok(path) => FolderTrouble {
                fault,
                entry: Some(TroubledEntry { path, reason }),
            },
            Err(error) => FolderTrouble::from(error),
        }
    }

    /// What an error in listing this path is.
    pub(crate) fn listing(alloc: Global, path: &str, error: &io::Error) -> FolderTrouble
        ensures { IsTroubleOf error.now faults.Listing path.now reasons.Unlisted result }
    {
        if is_no_memory(error) {
            return FolderTrouble::from(AllocError);
        }
        let reason = Reason::of(error, Reason::Unlisted);
        FolderTrouble::at(alloc, FolderFault::Listing, path, reason)
    }

    /// What an error in reading this path is.
    pub(crate) fn reading(alloc: Global, path: &str, error: &io::Error) -> FolderTrouble
        ensures { IsTroubleOf error.now faults.Reading path.now reasons.Unread result }
    {
        if is_no_memory(error) {
            return FolderTrouble::from(AllocError);
        }
        let reason = Reason::of(error, Reason::Unread);
        FolderTrouble::at(alloc, FolderFault::Reading, path, reason)
    }
}

impl fmt::Display for FolderTrouble {
    ghost output = { λ trouble. Some (line_of trouble) };

    fn fmt<W: fmt::Write>(&self, f: &mut fmt::Formatter<W>) -> fmt::Result {
        match &self.entry {
            Some(TroubledEntry { path, reason }) => write!(f, "{path}: {reason}"),
            None => self.fault.fmt(f),
        }
    }
}

impl Error for FolderTrouble {}

impl From<AllocError> for FolderTrouble {
    ghost from_gives = { λ _ trouble. trouble ≡ no_memory };

    fn from(_error: AllocError) -> FolderTrouble {
        FolderTrouble {
            fault: FolderFault::NoMemory,
            entry: None,
        }
    }
}

impl<T: Drop> From<AllocFailed<T>> for FolderTrouble {
    ghost from_gives = { λ _ trouble. trouble ≡ no_memory };

    fn from(_error: AllocFailed<T>) -> FolderTrouble {
        FolderTrouble::from(AllocError)
    }
}

/// A fault of which no more is known.
impl From<FolderFault> for FolderTrouble {
    ghost from_gives = { λ fault trouble. trouble ≡ record { fault = fault; entry = None } };

    fn from(fault: FolderFault) -> FolderTrouble {
        FolderTrouble { fault, entry: None }
    }
}

impl From<FolderTrouble> for FolderFault {
    ghost from_gives = { λ trouble fault. fault ≡ trouble.fault };

    fn from(trouble: FolderTrouble) -> FolderFault {
        trouble.fault
    }
}
