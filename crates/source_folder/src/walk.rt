//! Listing what is below a root.

ghost use Rattle.std.specs.Prelude.{◌≡◌, ◌≤◌, IfErr, IfOk, IsTrue, None, OnOk, bytes_eq, string_bytes, vec_len};
ghost use Rattle.std.specs.List.{list_any};
ghost use Rattle.source_folder.specs.Paths.{ends_in_proto};

use crate::fault::FolderFault;
use crate::kind::{EntryKind, Identity};
use crate::paths::{is_proto, join_path};
use crate::reason::Reason;
use crate::trouble::FolderTrouble;
use std::alloc::{AllocError, AllocGlobal, Global};
use std::fs::{self, DirEntry};
use std::io;
use std::rt::Files;

/// How many folders below the root a folder may be.
const MAX_DEPTH: u32 = 64;

/// How many files and folders there may be.
const MAX_ENTRIES: u32 = 1_048_576;

/// An entry whose name ends in `.proto`, and that is no folder.
#[derive(Drop)]
pub(crate) struct ProtoEntry {
    /// Its path from the root.
    pub(crate) path: String,
    ghost proto: { IsTrue (ends_in_proto (string_bytes path)) },
}

/// A folder that is still to be listed.
#[derive(Drop)]
struct Folder {
    /// Its path from the root, which is empty at the root.
    path: String,
    /// How many folders it is below the root.
    depth: u32,
    identity: Identity,
    ghost shallow: { depth ≤ 64 },
}

/// What is known of the entries below a root.
#[derive(Drop)]
struct Walk {
    sources: Vec<ProtoEntry>,
    folders: Vec<Folder>,
    /// The folders on the way from the root to the one that is being listed, which is the last of them.
    way: Vec<Identity>,
    /// How many more entries there may be.
    entries_left: u32,
}

impl Walk {
    ghost use Rattle.source_folder.specs.Walking.{Enters, IsRefusedAt, IsStart, TakesEntry, TakesIn, is_on_way, most_sources, refusal_of, steps_left};

    /// A walk that begins at the folder of this path from the root.
    fn new(alloc: Global, path: &str, identity: Identity) -> Result<Walk, AllocError>
        ensures { IfOk result (IsStart path.now identity) }
    {
        let root = Folder {
            path: String::from_str(alloc, path)?,
            depth: 0,
            identity,
        };
        let mut folders = Vec::new(alloc);
        folders.push(root)?;
        Ok(Walk {
            sources: Vec::new(alloc),
            folders,
            way: Vec::new(alloc),
            entries_left: MAX_ENTRIES,
        })
    }

    /// Goes to a folder. All that lies in a folder is listed before what lies beside it, so the way up to the folder in
    /// which this one lies is as it was.
    fn enter(&mut self, folder: &Folder) -> Result<(), AllocError>
        ensures { OnOk result (Enters folder.now self.old self.new) }
    {
        self.way.truncate(folder.depth as usize);
        self.way.push(folder.identity)?;
        Ok(())
    }

    /// Whether a folder is one on the way.
    fn is_on_way(&self, identity: Identity) -> bool
        ensures { result ≡ is_on_way self.now identity }
    {
        self.way.iter().any(|above| above.device == identity.device
            && above.inode == identity.inode)
    }

    /// Why an entry of this path, in a folder so deep, can't be taken in.
    fn refusal(&self, path: &str, depth: u32, kind: EntryKind) -> Option<Reason>
        ensures { result ≡ refusal_of self.now path.now depth kind }
    {
        if self.entries_left == 0 {
            return Some(Reason::TooMany);
        }
        match kind {
            EntryKind::Folder(identity) if self.is_on_way(identity) => Some(Reason::Circle),
            EntryKind::Folder(_) if depth == MAX_DEPTH => Some(Reason::TooDeep),
            EntryKind::Unknown(reason) if !is_proto(path) => Some(reason),
            _ => None,
        }
    }

    /// Takes in an entry of this path, in a folder so deep.
    fn take_in(&mut self, path: String, depth: u32, kind: EntryKind) -> Result<(), AllocError>
        requires shallow { depth ≤ 64 }
        requires allowed { refusal_of self.old (string_bytes path) depth kind ≡ None }
        ensures { OnOk result (TakesIn (string_bytes path) depth kind self.old self.new) }
    {
        self.entries_left -= 1;
        match kind {
            EntryKind::Folder(identity) => {
                let depth = depth + 1;
                self.folders.push(Folder {
                    path,
                    depth,
                    identity,
                })?;
            }
            _ if is_proto(path.as_str()) => self.sources.push(ProtoEntry { path })?,
            _ => {}
        }
        Ok(())
    }

    /// Takes in an entry of this path, in a folder so deep, by its whole path.
    fn take_entry<R: Files + AllocGlobal>(
        &mut self,
        rt: &R,
        path: String,
        depth: u32,
        whole: &str,
    ) -> Result<(), FolderTrouble>
        requires shallow { depth ≤ 64 }
        ensures ok { OnOk result (TakesEntry (string_bytes path) depth self.old self.new) }
        ensures refused { IfErr result (IsRefusedAt (string_bytes path) depth whole.now self.old) }
    {
        let alloc = rt.alloc();
        let kind = EntryKind::at(rt, whole)?;
        if let Some(reason) = self.refusal(path.as_str(), depth, kind) {
            let fault = FolderFault::Listing;
            return Err(FolderTrouble::at(alloc, fault, whole, reason));
        }
        self.take_in(path, depth, kind)?;
        Ok(())
    }

    /// Takes in an entry of a folder as the system listed it, unless its path is one of those that are left out.
    fn take_listed<R: Files + AllocGlobal>(
        &mut self,
        rt: &R,
        excluded: &[String],
        folder: &Folder,
        whole: &str,
        entry: io::Result<DirEntry<&R>>,
    ) -> Result<(), FolderTrouble>
        ensures ends { OnOk result (steps_left self.new ≤ steps_left self.old) }
        ensures counted { OnOk result (most_sources self.new ≤ most_sources self.old) }
    {
        let entry = match entry {
            Ok(entry) => entry,
            Err(error) => return Err(FolderTrouble::listing(rt.alloc(), whole, &error)),
        };
        let path = join_path(rt.alloc(), folder.path.as_str(), entry.file_name())?;
        if is_excluded(excluded, path.as_str()) {
            return Ok(());
        }
        self.take_entry(rt, path, folder.depth, entry.path().as_str())
    }

    /// Takes in what a folder with this whole path holds.
    fn take_all<R: Files + AllocGlobal>(
        &mut self,
        rt: &R,
        excluded: &[String],
        folder: &Folder,
        whole: &str,
    ) -> Result<(), FolderTrouble>
        ensures ends { OnOk result (steps_left self.new ≤ steps_left self.old) }
        ensures counted { OnOk result (most_sources self.new ≤ most_sources self.old) }
    {
        let listed = fs::read_dir(&rt, whole);
        let entries = match listed {
            Ok(entries) => entries,
            Err(error) => return Err(FolderTrouble::listing(rt.alloc(), whole, &error)),
        };
        for entry in entries {
            self.take_listed(rt, excluded, folder, whole, entry)?;
        }
        Ok(())
    }

    /// Goes to a folder, and takes in what it holds.
    fn list<R: Files + AllocGlobal>(
        &mut self,
        rt: &R,
        root: &str,
        excluded: &[String],
        folder: &Folder,
    ) -> Result<(), FolderTrouble>
        ensures ends { OnOk result (steps_left self.new ≤ steps_left self.old) }
        ensures counted { OnOk result (most_sources self.new ≤ most_sources self.old) }
    {
        self.enter(folder)?;
        let whole = join_path(rt.alloc(), root, folder.path.as_str())?;
        self.take_all(rt, excluded, folder, whole.as_str())
    }
}

/// Whether a path is one of those that are left out.
fn is_excluded(excluded: &[String], path: &str) -> bool
    ensures { result ≡ list_any (λ e. bytes_eq (string_bytes e) path.now) excluded.now }
{
    excluded.iter().any(|one| one.as_str() == path)
}

/// The identity of a root, which has to be a folder.
fn identity_of_root<R: Files + AllocGlobal>(rt: &R, root: &str) -> Result<Identity, FolderTrouble> {
    match fs::metadata(rt, root) {
        Ok(metadata) if metadata.is_dir() => Ok(Identity::of(&metadata)),
        Ok(_) => {
            let fault = FolderFault::Listing;
            Err(FolderTrouble::at(rt.alloc(), fault, root, Reason::NoFolder))
        }
        Err(error) => Err(FolderTrouble::listing(rt.alloc(), root, &error)),
    }
}

/// That a path leads to a folder. Else it is `Listing`, with the path and the reason.
pub fn expect_folder<R: Files + AllocGlobal>(rt: &R, path: &str) -> Result<(), FolderTrouble> {
    identity_of_root(rt, path)?;
    Ok(())
}

/// The sources below a folder, which has this path from the root, in no order and without what is left out.
pub(crate) fn sources_below<R: Files + AllocGlobal>(
    rt: &R,
    root: &str,
    below: &str,
    excluded: &[String],
) -> Result<Vec<ProtoEntry>, FolderTrouble>
    ensures { IfOk result (λ sources. vec_len sources ≤ MAX_ENTRIES) }
{
    let whole = join_path(rt.alloc(), root, below)?;
    let identity = identity_of_root(rt, whole.as_str())?;
    let mut walk = Walk::new(rt.alloc(), below, identity)?;
    while let Some(folder) = walk.folders.pop() {
        walk.list(rt, root, excluded, &folder)?;
    }
    Ok(walk.sources)
}
