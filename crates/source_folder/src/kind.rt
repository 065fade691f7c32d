//! What an entry of a folder is.

ghost use Rattle.source_folder.specs.Kinds.{IsKind, IsKindBehind};

use crate::reason::Reason;
use counted_io::is_no_memory;
use std::alloc::AllocError;
use std::fs::{self, Metadata};
use std::io;
use std::os::unix::fs::MetadataExt;
use std::rt::Files;

/// Which folder one is, by whatever path: the system's numbers for it.
#[derive(Clone, Copy)]
pub(crate) struct Identity {
    pub(crate) device: u64,
    pub(crate) inode: u64,
}

/// What an entry is, or what its link leads to.
#[derive(Clone, Copy)]
pub(crate) enum EntryKind {
    Folder(Identity),
    File,
    /// No folder and no file: a device, a pipe or a socket.
    Device,
    /// A link that leads nowhere, or nothing.
    Nowhere,
    /// The system doesn't tell, for this reason.
    Unknown(Reason),
}

impl Identity {
    /// The identity of the folder that the system describes.
    pub(crate) fn of(metadata: &Metadata) -> Identity {
        Identity {
            device: metadata.dev(),
            inode: metadata.ino(),
        }
    }
}

impl EntryKind {
    /// The kind of what the system describes.
    fn of(metadata: &Metadata) -> EntryKind
        ensures { IsKind metadata.now result }
    {
        if metadata.is_dir() {
            EntryKind::Folder(Identity::of(metadata))
        } else if metadata.is_file() {
            EntryKind::File
        } else {
            EntryKind::Device
        }
    }

    /// The kind of what the system can't describe, unless the allocator had no memory.
    fn behind(error: &io::Error) -> Result<EntryKind, AllocError>
        ensures { IsKindBehind error.now result }
    {
        if is_no_memory(error) {
            return Err(AllocError);
        }
        match error.kind() {
            io::ErrorKind::NotFound
            | io::ErrorKind::NotADirectory
            | io::ErrorKind::FilesystemLoop => Ok(EntryKind::Nowhere),
            _ => Ok(EntryKind::Unknown(Reason::of(error, Reason::Untold))),
        }
    }

    /// The kind of what a path leads to.
    pub(crate) fn at<R: Files>(rt: &R, path: &str) -> Result<EntryKind, AllocError> {
        match fs::metadata(rt, path) {
            Ok(metadata) => Ok(EntryKind::of(&metadata)),
            Err(error) => EntryKind::behind(&error),
        }
    }
}
