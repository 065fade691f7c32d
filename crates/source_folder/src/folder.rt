//! Reading the sources of a folder.

ghost use Rattle.std.specs.Prelude.{◌≡◌, ◌+◌, ◌≤◌, All, IfOk, IfSome, IsTrue, None, Ok, map, string_bytes, vec_len};
ghost use Rattle.std.specs.Bool.{OnFalse};
ghost use Rattle.proto_base.specs.Limits.{limit_of};
ghost use Rattle.source_folder.specs.Folder.{name_of, names_of};
ghost use Rattle.proto_base.specs.NameOrder.{NamesRise};
ghost use Rattle.source_folder.specs.Paths.{ends_in_proto, is_below, joined_path};
ghost use Rattle.source_folder.specs.Ordered.{paths_of};

use crate::bytes::first_bytes;
use crate::fault::FolderFault;
use crate::kind::EntryKind;
use crate::order::{have_twins, sort_by_path};
use crate::paths::{join_path, path_below};
use crate::reason::Reason;
use crate::trouble::FolderTrouble;
use crate::walk::{ProtoEntry, sources_below};
use proto_base::{Limit, Limits};
use std::alloc::{AllocError, AllocGlobal, Global};
use std::fs::{File, OpenFile};
use std::io::{self, ErrorKind};
use std::rt::Files;

/// A source of a folder: its path from the root, joined by `/`, and its bytes.
#[derive(Drop)]
pub struct NamedText {
    pub name: String,
    pub text: Vec<u8>,
}

/// The most bytes that are read of a file: one more than it may have.
fn most_bytes(limits: &Limits) -> u32
    ensures { result ≡ limit_of limits.now Limit.FileBytes + 1 }
{
    limits.read_bound(Limit::FileBytes) as u32
}

/// The first bytes of the file at a path, at most so many. What is no file is opened, but not read.
fn bytes_at<R: Files + AllocGlobal>(rt: &R, path: &str, most: u32) -> io::Result<Vec<u8>>
    ensures { IfOk result (λ bytes. vec_len bytes ≤ most) }
{
    let file = File::open(rt, path)?;
    let found = file.metadata()?;
    if !found.is_file() {
        return Err(io::Error::from(ErrorKind::InvalidInput));
    }
    first_bytes(rt.alloc(), file, found.len(), most)
}

/// The first bytes of the file at a path, at most so many, if a file is there. What is a pipe or a device just before is
/// not opened, since that would wait for whoever writes to it.
fn text_at<R: Files + AllocGlobal>(
    rt: &R,
    path: &str,
    most: u32,
) -> Result<Option<Vec<u8>>, FolderTrouble>
    ensures { IfOk result (λ found. IfSome found (λ bytes. vec_len bytes ≤ most)) }
{
    let alloc = rt.alloc();
    let reason = match EntryKind::at(rt, path)? {
        EntryKind::File => match bytes_at(rt, path, most) {
            Ok(bytes) => return Ok(Some(bytes)),
            Err(error) => return Err(FolderTrouble::reading(alloc, path, &error)),
        },
        EntryKind::Folder(_) | EntryKind::Nowhere => return Ok(None),
        EntryKind::Device => Reason::Device,
        EntryKind::Unknown(reason) => reason,
    };
    Err(FolderTrouble::at(alloc, FolderFault::Reading, path, reason))
}

/// The paths of entries, in their order.
fn names_of_entries(alloc: Global, entries: Vec<ProtoEntry>) -> Result<Vec<String>, AllocError>
    ensures names { IfOk result (λ names. map string_bytes names.items ≡ paths_of entries.items) }
    ensures proto { IfOk result (λ names. All (λ n. IsTrue (ends_in_proto (string_bytes n)))
        names.items) }
{
    let mut names = Vec::with_capacity(alloc, entries.len())?;
    for entry in entries {
        names.push(entry.path)?;
    }
    Ok(names)
}

/// The names of the sources below a root, in their order: the path from the root of every file that ends in `.proto`.
///
/// All folders are listed, and no file is opened. So an error is `Listing`, as `read_folder` tells it, or `NoMemory`.
pub fn source_names<R: Files + AllocGlobal>(
    rt: &R,
    root: &str,
) -> Result<Vec<String>, FolderTrouble>
    ensures order { IfOk result (λ names. NamesRise (map string_bytes names.items)) }
    ensures proto { IfOk result (λ names. All (λ n. IsTrue (ends_in_proto (string_bytes n)))
        names.items) }
    ensures few { IfOk result (λ names. vec_len names ≤ 1_048_576) }
{
    source_names_below(rt, root, "", &[])
}

/// The same of the sources that lie in a folder of this path from the root, without those of which the path, or that of a folder around
/// them, is left out: these are not listed.
pub fn source_names_below<R: Files + AllocGlobal>(
    rt: &R,
    root: &str,
    below: &str,
    excluded: &[String],
) -> Result<Vec<String>, FolderTrouble>
    ensures order { IfOk result (λ names. NamesRise (map string_bytes names.items)) }
    ensures proto { IfOk result (λ names. All (λ n. IsTrue (ends_in_proto (string_bytes n)))
        names.items) }
    ensures few { IfOk result (λ names. vec_len names ≤ 1_048_576) }
{
    let mut sources = sources_below(rt, root, below, excluded)?;
    sort_by_path(&mut sources);
    if have_twins(&sources) {
        let fault = FolderFault::Listing;
        return Err(FolderTrouble::at(rt.alloc(), fault, root, Reason::Changed));
    }
    Ok(names_of_entries(rt.alloc(), sources)?)
}

/// Reads the source of a name that `source_names` gave: at most as many bytes as the limit of a file and one more.
///
/// `Reading`, where the name leads to nothing any more, or to a folder, a device or a pipe, or where the file can't be opened
/// or read.
pub fn listed_text<R: Files + AllocGlobal>(
    rt: &R,
    root: &str,
    name: &str,
    limits: &Limits,
) -> Result<Vec<u8>, FolderTrouble>
    ensures { IfOk result (λ bytes. vec_len bytes ≤ limit_of limits.now Limit.FileBytes + 1) }
{
    let alloc = rt.alloc();
    let path = join_path(alloc, root, name)?;
    let path = path.as_str();
    match text_at(rt, path, most_bytes(limits))? {
        Some(text) => Ok(text),
        None => Err(FolderTrouble::at(alloc, FolderFault::Reading, path, Reason::Nowhere)),
    }
}

/// The sources of these names below a root, in their order.
fn read_sources<R: Files + AllocGlobal>(
    rt: &R,
    root: &str,
    names: Vec<String>,
    limits: &Limits,
) -> Result<Vec<NamedText>, FolderTrouble>
    ensures names { IfOk result (λ texts. names_of texts.items ≡ map string_bytes names.items) }
    ensures bounded { IfOk result (λ texts. All
        (λ t. vec_len t.text ≤ limit_of limits.now Limit.FileBytes + 1) texts.items) }
{
    let mut texts = Vec::with_capacity(rt.alloc(), names.len())?;
    for name in names {
        let text = listed_text(rt, root, name.as_str(), limits)?;
        texts.push(NamedText { name, text })?;
    }
    Ok(texts)
}

/// As `read_folder`, which tells no more of a trouble than its fault.
pub fn sources_in<R: Files + AllocGlobal>(
    rt: &R,
    root: &str,
    limits: &Limits,
) -> Result<Vec<NamedText>, FolderTrouble>
    ensures order { IfOk result (λ texts. NamesRise (names_of texts.items)) }
    ensures proto { IfOk result (λ texts. All (λ t. IsTrue (ends_in_proto (name_of t)))
        texts.items) }
    ensures few { IfOk result (λ texts. vec_len texts ≤ 1_048_576) }
    ensures bounded { IfOk result (λ texts. All
        (λ t. vec_len t.text ≤ limit_of limits.now Limit.FileBytes + 1) texts.items) }
{
    let names = source_names(rt, root)?;
    read_sources(rt, root, names, limits)
}

/// Reads the proto3 sources below a folder: every file whose name ends in `.proto`, named by its path from the root, in
/// the order of these names. Of a file over the limit only as many bytes as the limit and one more are read.
///
/// A link stands for the file or the folder that it leads to. A folder whose name ends in `.proto` is a folder like any
/// other. A link that leads nowhere is passed over unless its name ends in `.proto`.
///
/// All folders are listed before a file is read, so the first fault is one of these, in this order:
/// - `Listing`: the root is no folder or isn't there, a folder can't be listed, is one of those in which it lies, as by a
///   link, or lies more than 64 folders below the root, an entry's name is no UTF-8, the system doesn't tell whether an
///   entry is a folder (one that ends in `.proto` is then a file that can't be read), there are more than 1,048,576
///   entries, or two have the same path, since a folder changed while it was listed.
/// - `Reading`: by the order of names, a file that ends in `.proto` can't be opened or read, or is a device or a pipe.
///
/// `NoMemory` comes where it is met, and only where the allocator had none.
pub fn read_folder<R: Files + AllocGlobal>(
    rt: &R,
    root: &str,
    limits: &Limits,
) -> Result<Vec<NamedText>, FolderFault>
    ensures order { IfOk result (λ texts. NamesRise (names_of texts.items)) }
    ensures proto { IfOk result (λ texts. All (λ t. IsTrue (ends_in_proto (name_of t)))
        texts.items) }
    ensures few { IfOk result (λ texts. vec_len texts ≤ 1_048_576) }
    ensures bounded { IfOk result (λ texts. All
        (λ t. vec_len t.text ≤ limit_of limits.now Limit.FileBytes + 1) texts.items) }
{
    Ok(sources_in(rt, root, limits)?)
}

/// Reads the file of this name below a folder, if one is there: at most as many bytes as the limit of a file and one more.
///
/// None is there where the name leads to nothing or to a folder, or where it can be no path below one (`is_below`). A
/// device, a pipe, or a file that can't be opened or read, is `Reading`.
pub fn read_source<R: Files + AllocGlobal>(
    rt: &R,
    root: &str,
    name: &str,
    limits: &Limits,
) -> Result<Option<Vec<u8>>, FolderTrouble>
    ensures below { OnFalse (is_below name.now) (result ≡ Ok None) }
    ensures bounded { IfOk result (λ found. IfSome found
        (λ bytes. vec_len bytes ≤ limit_of limits.now Limit.FileBytes + 1)) }
{
    match path_below(rt.alloc(), root, name)? {
        Some(path) => text_at(rt, path.as_str(), most_bytes(limits)),
        None => Ok(None),
    }
}

/// What stands at a path below a folder.
#[derive(Clone, Copy, PartialEq, Eq)]
pub enum Standing {
    Nothing,
    Folder,
    /// A file, or what may be one.
    Other,
}

/// What stands at the path of this name below a folder.
pub fn standing_at<R: Files + AllocGlobal>(
    rt: &R,
    root: &str,
    name: &str,
) -> Result<Standing, AllocError> {
    let path = join_path(rt.alloc(), root, name)?;
    Ok(match EntryKind::at(rt, path.as_str())? {
        EntryKind::Nowhere => Standing::Nothing,
        EntryKind::Folder(_) => Standing::Folder,
        _ => Standing::Other,
    })
}

/// The path of the file of this name below a folder, if a file is there that `read_source` would read.
pub fn source_path<R: Files + AllocGlobal>(
    rt: &R,
    root: &str,
    name: &str,
) -> Result<Option<String>, AllocError>
    ensures below { OnFalse (is_below name.now) (result ≡ Ok None) }
    ensures joined { IfOk result (λ found. IfSome found
        (λ path. string_bytes path ≡ joined_path root.now name.now)) }
{
    let Some(path) = path_below(rt.alloc(), root, name)? else {
        return Ok(None);
    };
    match EntryKind::at(rt, path.as_str())? {
        EntryKind::File => Ok(Some(path)),
        _ => Ok(None),
    }
}
