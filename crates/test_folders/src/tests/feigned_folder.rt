//! A system that answers as it is told, for what a real one seldom does.

use super::folder::{field, told};
use proto_base::Limits;
use std::alloc::{AllocError, Allocator, Global};
use std::fs::{Metadata, OpenFile, OpenOptions};
use std::io::{self, Error, ErrorKind, Read, Seek, SeekFrom, Write};
use std::process::Abort;
use std::rt::Files;

/// The path of the folder.
const ROOT: &str = "root";

/// The one folder of a system, whose entries are alike.
#[derive(Clone, Copy)]
struct Folder {
    /// The word for what its entries are, or what the system fails at.
    kind: &'static str,
    /// The name that each entry has.
    name: &'static [u8],
    entries: u32,
    /// Why the system fails.
    error: Option<Error>,
}

impl Folder {
    /// Why the system fails at what goes by this word, if it does.
    fn error_at(&self, kind: &str) -> Option<Error> {
        if self.kind == kind { self.error } else { None }
    }

    /// What an entry is until it is opened.
    fn entry(&self) -> Entry {
        match self.kind {
            "folder" => Entry::Folder,
            "device" => Entry::Device,
            _ => Entry::File,
        }
    }

    /// What it is from then on.
    fn opened(&self) -> Entry {
        if self.kind == "replaced" {
            Entry::Device
        } else {
            self.entry()
        }
    }
}

/// What an entry is. All folders are one, since those that are feigned have no numbers.
#[derive(Clone, Copy)]
enum Entry {
    Folder,
    /// It is read as `ab`.
    File,
    Device,
}

impl Entry {
    fn metadata(self) -> Metadata {
        match self {
            Entry::Folder => Metadata::of_dir(),
            Entry::File => Metadata::of_file(2),
            Entry::Device => Metadata::of_symlink(2),
        }
    }
}

/// A system that has one folder.
#[derive(Drop)]
struct Fake<'a> {
    rt: &'a HostRuntime,
    folder: Folder,
}

/// A file's bytes that are left, and what comes after them.
#[derive(Drop)]
struct FakeFile {
    left: u8,
    entry: Entry,
    broken: Option<Error>,
}

/// The names that are left.
#[derive(Drop)]
struct FakeNames {
    name: &'static [u8],
    left: u32,
}

fn unsupported() -> Error {
    Error::from(ErrorKind::Unsupported)
}

impl Read for FakeFile {
    fn read(&mut self, buf: &mut [u8]) -> io::Result<usize> {
        if self.left == 0 {
            return match self.broken {
                Some(error) => Err(error),
                None => Ok(0),
            };
        }
        let Some(first) = buf.first_mut() else {
            return Ok(0);
        };
        self.left -= 1;
        *first = b'b' - self.left.min(1);
        Ok(1)
    }
}

impl Write for FakeFile {
    fn write(&mut self, _buf: &[u8]) -> io::Result<usize> {
        Err(unsupported())
    }

    fn flush(&mut self) -> io::Result<()> {
        Err(unsupported())
    }
}

impl Seek for FakeFile {
    fn seek(&mut self, _to: SeekFrom) -> io::Result<u64> {
        Err(unsupported())
    }
}

impl OpenFile for FakeFile {
    fn metadata(&self) -> io::Result<Metadata> {
        Ok(self.entry.metadata())
    }

    fn set_len(&self, _size: u64) -> io::Result<()> {
        Err(unsupported())
    }

    fn sync_all(&self) -> io::Result<()> {
        Err(unsupported())
    }

    fn sync_data(&self) -> io::Result<()> {
        Err(unsupported())
    }
}

impl Read for FakeNames {
    fn read(&mut self, buf: &mut [u8]) -> io::Result<usize> {
        let size = self.name.len();
        if self.left == 0 || buf.len() <= size {
            return Ok(0);
        }
        self.left -= 1;
        buf[..size].copy_from_slice(self.name);
        buf[size] = 0;
        Ok(size + 1)
    }
}

impl Alloc for Fake<'_> {
    type A = Global;

    fn alloc(&self) -> Global {
        self.rt.alloc()
    }
}

impl Files for Fake<'_> {
    type File = FakeFile;

    type Dir = FakeNames;

    fn open_file(&self, _how: &OpenOptions, _path: &str) -> io::Result<FakeFile> {
        Ok(FakeFile {
            left: 2,
            entry: self.folder.opened(),
            broken: self.folder.error_at("broken"),
        })
    }

    fn open_dir(&self, _path: &str) -> io::Result<FakeNames> {
        match self.folder.error_at("closed") {
            Some(error) => Err(error),
            None => Ok(FakeNames {
                name: self.folder.name,
                left: self.folder.entries,
            }),
        }
    }

    fn metadata(&self, path: &str) -> io::Result<Metadata> {
        let (kind, found) = if path == ROOT {
            ("lost", Entry::Folder)
        } else {
            ("hidden", self.folder.entry())
        };
        match self.folder.error_at(kind) {
            Some(error) => Err(error),
            None => Ok(found.metadata()),
        }
    }

    fn symlink_metadata(&self, _path: &str) -> io::Result<Metadata> {
        Err(unsupported())
    }

    fn copy(&self, _from: &str, _to: &str) -> io::Result<u64> {
        Err(unsupported())
    }

    fn rename(&self, _from: &str, _to: &str) -> io::Result<()> {
        Err(unsupported())
    }

    fn remove_file(&self, _path: &str) -> io::Result<()> {
        Err(unsupported())
    }

    fn create_dir(&self, _path: &str) -> io::Result<()> {
        Err(unsupported())
    }

    fn remove_dir(&self, _path: &str) -> io::Result<()> {
        Err(unsupported())
    }

    fn remove_dir_all<B: Allocator>(&self, _alloc: B, _path: &str) -> io::Result<()> {
        Err(unsupported())
    }
}

/// A name by a word for it: some are no UTF-8.
fn name_of(word: &str) -> Option<&'static [u8]> {
    match word {
        "a" => Some(b"a"),
        "a.txt" => Some(b"a.txt"),
        "a.proto" => Some(b"a.proto"),
        "bad" => Some(b"\xff"),
        "bad.proto" => Some(b"\xff.proto"),
        _ => None,
    }
}

/// An error by its word: `system_memory` is where the system has no memory for itself.
fn error_of(word: &str) -> Option<Error> {
    match word {
        "missing" => Some(Error::from(ErrorKind::NotFound)),
        "behind_a_file" => Some(Error::from(ErrorKind::NotADirectory)),
        "link_to_itself" => Some(Error::from(ErrorKind::FilesystemLoop)),
        "denied" => Some(Error::from(ErrorKind::PermissionDenied)),
        "no_text" => Some(Error::from(ErrorKind::InvalidFilename)),
        "too_long" => Some(Error::from_raw_os_error(36)),
        "system_memory" => Some(Error::from_raw_os_error(12)),
        "no_memory" => Some(Error::from(AllocError)),
        _ => None,
    }
}

/// A folder by a word for it, its entries' name, their count and an error, and what is read of it: `files`; entries that
/// are each a `folder` or a `device`, or become one (`replaced`); a folder that the system does not describe (`lost`) or
/// not list (`closed`), an entry that it does not describe (`hidden`), or a source that cannot be read to its end
/// (`broken`).
fn row_of<R: Abort>(rt: &R, line: &'static str) -> (Folder, &'static str) {
    let (kind, rest) = field(rt, line);
    let (name, rest) = field(rt, rest);
    let (entries, rest) = field(rt, rest);
    let (error, wanted) = field(rt, rest);
    let name = name_of(name).expect(rt, "a name");
    let entries = entries.parse().expect(rt, "a count");
    let error = error_of(error);
    let folder = Folder {
        kind,
        name,
        entries,
        error,
    };
    (folder, wanted)
}

/// A folder that changes while it is listed may give an entry twice.
static ROWS: &str = "\
files|a.proto|1|none|a.proto=ab;\n\
files|a|1|none|\n\
files|a.proto|2|none|Listing root: the folder changed while it was listed\n\
files|a|2|none|\n\
files|bad.proto|1|none|Listing root: a name in it is no text\n\
files|bad|1|none|Listing root: a name in it is no text\n\
files|a|1048576|none|\n\
files|a|1048577|none|Listing root/a: more than 1,048,576 entries\n\
folder|a|1|none|Listing root/a: a link that leads to a folder in which it lies\n\
folder|a.proto|1|none|Listing root/a.proto: a link that leads to a folder in which it lies\n\
lost|a|1|missing|Listing root: it is not there\n\
lost|a|1|behind_a_file|Listing root: it is no folder\n\
lost|a|1|link_to_itself|Listing root: it is a link that leads nowhere\n\
lost|a|1|denied|Listing root: no leave to read it\n\
lost|a|1|no_memory|NoMemory out of memory\n\
closed|a|1|missing|Listing root: it is not there\n\
closed|a|1|denied|Listing root: no leave to read it\n\
closed|a|1|no_text|Listing root: a name in it is no text\n\
closed|a|1|too_long|Listing root: it could not be listed\n\
closed|a|1|system_memory|Listing root: it could not be listed\n\
closed|a|1|no_memory|NoMemory out of memory\n\
hidden|a|1|missing|\n\
hidden|a|1|behind_a_file|\n\
hidden|a|1|link_to_itself|\n\
hidden|a|1|denied|Listing root/a: no leave to read it\n\
hidden|a|1|system_memory|Listing root/a: the system does not tell what it is\n\
hidden|a|1|no_memory|NoMemory out of memory\n\
hidden|a.proto|1|missing|Reading root/a.proto: it is a link that leads nowhere\n\
hidden|a.proto|1|behind_a_file|Reading root/a.proto: it is a link that leads nowhere\n\
hidden|a.proto|1|link_to_itself|Reading root/a.proto: it is a link that leads nowhere\n\
hidden|a.proto|1|denied|Reading root/a.proto: no leave to read it\n\
hidden|a.proto|1|system_memory|Reading root/a.proto: the system does not tell what it is\n\
hidden|a.proto|1|no_memory|NoMemory out of memory\n\
broken|a.proto|1|denied|Reading root/a.proto: no leave to read it\n\
broken|a.proto|1|system_memory|Reading root/a.proto: it could not be read\n\
broken|a.proto|1|no_memory|NoMemory out of memory\n\
replaced|a.proto|1|none|Reading root/a.proto: it could not be read\n\
device|a.proto|1|none|Reading root/a.proto: it is a device or a pipe\n\
device|a.txt|1|none|";

/// A build that isn't optimized takes some minutes for the rows of 1,048,576 entries.
#[test]
fn feigned_folders_are_read(rt: HostRuntime) {
    let limits = Limits::standard();
    for line in ROWS.lines() {
        let (folder, wanted) = row_of(&rt, line);
        let shown = told(&Fake { rt: &rt, folder }, ROOT, &limits);
        assert!(rt; shown.expect(&rt, "memory").as_str() == wanted, "{line}");
    }
}
