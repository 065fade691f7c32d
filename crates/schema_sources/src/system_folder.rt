//! Folders of the system. What is in them is not known.

ghost use Rattle.std.specs.Prelude.{IfOk, None, map, string_bytes};
ghost use Rattle.proto_base.specs.NameOrder.{NamesRise};
ghost use Rattle.schema_sources.specs.Texts.{unknown};

use crate::folder::SourceFolder;
use crate::places::Elsewhere;
use counted_io::is_no_memory;
use proto_base::Limits;
use skipped_sources::CustomOptions;
use source_folder::{
    FolderFault, FolderTrouble, NamedText, Reason, Standing, TroubledEntry, expect_folder,
    listed_text, read_source, source_names_below, source_path, standing_at,
};
use source_search::{Folders, Shelf, first_folder, first_text};
use std::alloc::{AllocError, AllocGlobal, Global};
use std::collections::BTreeSet;
use std::fs;
use std::path::PathBuf;
use std::rt::Files;

/// What is the matter with a path that the words have.
fn trouble(path: String, reason: Reason) -> FolderTrouble {
    FolderTrouble {
        fault: FolderFault::Listing,
        entry: Some(TroubledEntry { path, reason }),
    }
}

/// That no file of a name is below a folder.
fn missing(alloc: Global, root: &str, name: &str) -> Result<FolderTrouble, AllocError> {
    let path = format!(in alloc; "{root}/{name}")?;
    Ok(trouble(path, Reason::NotThere))
}

/// Parts of a path with `/` between them.
fn joined(alloc: Global, parts: &[&str]) -> Result<String, AllocError> {
    let mut path = String::new(alloc);
    for part in parts {
        if !path.is_empty() {
            path.push('/')?;
        }
        path.push_str(part)?;
    }
    Ok(path)
}

/// The parts of a path without those that name the folder in which they stand: an empty part and `.` are left out, and `..` takes the
/// part before it away. None where it would lead out of where the path begins.
fn settled_parts<'p>(alloc: Global, path: &'p str) -> Result<Option<Vec<&'p str>>, AllocError> {
    let mut parts = Vec::new(alloc);
    for part in path.split('/') {
        match part {
            "" | "." => {}
            ".." => {
                if parts.pop().is_none() {
                    return Ok(None);
                }
            }
            _ => parts.push(part)?,
        }
    }
    Ok(Some(parts))
}

/// What an absolute path is from a folder around it, if that is around it.
fn path_from(alloc: Global, folder: &str, path: &str) -> Result<Option<String>, AllocError> {
    let (Some(around), Some(parts)) = (settled_parts(alloc, folder)?, settled_parts(alloc, path)?)
    else {
        return Ok(None);
    };
    match parts.as_slice().strip_prefix(around.as_slice()) {
        Some(rest) => Ok(Some(joined(alloc, rest)?)),
        None => Ok(None),
    }
}

/// The absolute path of what is at another, without links; none where nothing is there.
fn whole_path<R: Files + AllocGlobal>(rt: &R, path: &str) -> Result<Option<PathBuf>, AllocError> {
    match fs::canonicalize(rt, path) {
        Ok(whole) => Ok(Some(whole)),
        Err(error) if is_no_memory(&error) => Err(AllocError),
        Err(_) => Ok(None),
    }
}

/// The text of a name below a folder. A name under which no file is there is `Listing`.
fn named_text<R: Files + AllocGlobal>(
    rt: &R,
    root: &str,
    name: &str,
    limits: &Limits,
) -> Result<Vec<u8>, FolderTrouble> {
    match read_source(rt, root, name, limits)? {
        Some(text) => Ok(text),
        None => Err(missing(rt.alloc(), root, name)?),
    }
}

/// These names, each once, in their order.
fn rising_names(alloc: Global, files: &[&str]) -> Result<Vec<String>, AllocError>
    ensures { IfOk result (λ names. NamesRise (map string_bytes names.items)) }
{
    let mut once = BTreeSet::new(alloc);
    for file in files {
        once.insert(*file)?;
    }
    let mut names = Vec::new(alloc);
    for name in once.iter() {
        names.push(String::from_str(alloc, name)?)?;
    }
    Ok(names)
}

/// The folders of the system.
#[derive(Drop)]
struct SystemFolders<'a, R> {
    rt: &'a R,
}

impl<R: Files + AllocGlobal> Folders for SystemFolders<'_, R> {
    ghost contents = { λ _. None };

    fn text_below(
        &self,
        folder: &str,
        name: &str,
        limits: &Limits,
    ) -> Result<Option<Vec<u8>>, FolderTrouble> {
        read_source(self.rt, folder, name, limits)
    }

    fn has(&self, folder: &str, name: &str) -> Result<bool, AllocError> {
        Ok(source_path(self.rt, folder, name)?.is_some())
    }
}

/// The folder of a run, and what else its words name.
#[derive(Drop)]
pub struct SystemFolder<'a, R> {
    pub rt: &'a R,
    /// The folder in which the sources lie.
    pub root: &'a str,
    /// The folders in which imports are looked for after the root, in this order.
    pub includes: &'a [&'a str],
    /// The folders below the root in which no source is looked for.
    pub excludes: &'a [&'a str],
    /// The sources, and the folders of sources, where not all that lie below the root are sources.
    pub files: &'a [&'a str],
    /// What is done about custom options.
    pub custom_options: CustomOptions,
}

impl<R: Files + AllocGlobal> SystemFolder<'_, R> {
    /// The path from the root of what a word names, if it lies there: the word is such a path, or an absolute one.
    fn path_of(&self, word: &str) -> Result<Option<String>, AllocError> {
        let alloc = self.rt.alloc();
        if !word.starts_with('/') {
            return match settled_parts(alloc, word)? {
                Some(parts) => Ok(Some(joined(alloc, &parts)?)),
                None => Ok(None),
            };
        }
        if self.root.starts_with('/') {
            if let Some(path) = path_from(alloc, self.root, word)? {
                return Ok(Some(path));
            }
        }
        match whole_path(self.rt, self.root)? {
            Some(root) => path_from(alloc, root.as_str(), word),
            None => Ok(None),
        }
    }

    /// The path from the root of what a word is for the system, if that lies below the root.
    fn path_for_system(&self, word: &str) -> Result<Option<String>, AllocError> {
        let (Some(root), Some(whole)) = (
            whole_path(self.rt, self.root)?,
            whole_path(self.rt, word)?,
        ) else {
            return Ok(None);
        };
        path_from(self.rt.alloc(), root.as_str(), whole.as_str())
    }

    /// What is the matter with a word that names no source by its path from the root: how it is named, if it is one by the path that the
    /// word is.
    fn unnamed(&self, word: &str, path: &str) -> Result<FolderTrouble, AllocError> {
        match self.path_for_system(word)? {
            Some(name) => Ok(trouble(name, Reason::OtherName)),
            None => missing(self.rt.alloc(), self.root, path),
        }
    }

    /// The paths from the root that are left out. What leads out of the root leaves out nothing.
    fn excluded(&self) -> Result<Vec<String>, AllocError> {
        let mut excluded = Vec::new(self.rt.alloc());
        for word in self.excludes {
            if let Some(path) = self.path_of(word)? {
                excluded.push(path)?;
            }
        }
        Ok(excluded)
    }

    /// Adds the source that a word names, or the sources below the folder that it names.
    fn put_named(
        &self,
        word: &str,
        excluded: &[String],
        names: &mut Vec<String>,
    ) -> Result<(), FolderTrouble> {
        let Some(path) = self.path_of(word)? else {
            let word = String::from_str(self.rt.alloc(), word)?;
            return Err(trouble(word, Reason::Outside));
        };
        match standing_at(self.rt, self.root, path.as_str())? {
            Standing::Nothing => return Err(self.unnamed(word, path.as_str())?),
            Standing::Other => names.push(path)?,
            Standing::Folder => {
                for name in source_names_below(self.rt, self.root, path.as_str(), excluded)? {
                    names.push(name)?;
                }
            }
        }
        Ok(())
    }

    /// The names of the sources that the words name.
    fn named_sources(&self, excluded: &[String]) -> Result<Vec<String>, FolderTrouble>
        ensures { IfOk result (λ names. NamesRise (map string_bytes names.items)) }
    {
        let alloc = self.rt.alloc();
        let mut names = Vec::new(alloc);
        for word in self.files {
            self.put_named(word, excluded, &mut names)?;
        }
        let listed: Vec<&str> = names.iter().map(|name| name.as_str()).collect(alloc)?;
        Ok(rising_names(alloc, &listed)?)
    }

    /// That the folders for imports are there.
    fn expect_includes(&self) -> Result<(), FolderTrouble> {
        for include in self.includes {
            expect_folder(self.rt, include)?;
        }
        Ok(())
    }

    /// Adds where the source of a name lies, unless that is the root.
    fn put_elsewhere<'t>(
        &'t self,
        all: &mut Vec<Elsewhere<'t>>,
        name: &'t str,
    ) -> Result<(), AllocError> {
        let folders = SystemFolders { rt: self.rt };
        match first_folder(&folders, self.root, self.includes, name)? {
            Some(folder) if folder != self.root => Ok(all.push(Elsewhere { name, folder })?),
            _ => Ok(()),
        }
    }
}

impl<R: Files + AllocGlobal> Shelf for SystemFolder<'_, R> {
    ghost texts = { λ _. None };

    fn text_of(&self, name: &str, limits: &Limits) -> Result<Option<Vec<u8>>, FolderTrouble> {
        let folders = SystemFolders { rt: self.rt };
        first_text(&folders, self.root, self.includes, name, limits)
    }
}

impl<R: Files + AllocGlobal> SourceFolder for SystemFolder<'_, R> {
    ghost sources = { λ folder. unknown folder.custom_options };

    fn names(&self) -> Result<Vec<String>, FolderTrouble> {
        self.expect_includes()?;
        let excluded = self.excluded()?;
        if self.files.is_empty() {
            source_names_below(self.rt, self.root, "", &excluded)
        } else {
            self.named_sources(&excluded)
        }
    }

    fn text(&self, name: &str, limits: &Limits) -> Result<Vec<u8>, FolderTrouble> {
        if self.files.is_empty() {
            listed_text(self.rt, self.root, name, limits)
        } else {
            named_text(self.rt, self.root, name, limits)
        }
    }

    fn elsewhere<'t>(&'t self, texts: &'t [NamedText]) -> Result<Vec<Elsewhere<'t>>, AllocError> {
        let mut all = Vec::new(self.rt.alloc());
        if self.includes.is_empty() {
            return Ok(all);
        }
        for text in texts {
            self.put_elsewhere(&mut all, text.name.as_str())?;
        }
        Ok(all)
    }

    fn has_shelf(&self) -> bool {
        !self.includes.is_empty() || !self.excludes.is_empty() || !self.files.is_empty()
    }

    fn custom_options(&self) -> CustomOptions {
        self.custom_options
    }
}
