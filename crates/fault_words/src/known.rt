//! What is known of all files.

use crate::words::File;
use proto_base::{Fault, FileError, Limits};
use proto_desc::file::FileDesc;
use proto_file::describe;
use std::alloc::{AllocError, Global};

/// The numbers of the passes over all files that tell faults of one file each.
pub(crate) const LOCAL: u8 = 1;

pub(crate) const IMPORTS: u8 = 2;

pub(crate) const NAMES: u8 = 3;

pub(crate) const TYPES: u8 = 4;

/// The files in which faults are told, and what each describes.
#[derive(Drop)]
pub(crate) struct Known<'k, 's> {
    /// The pass of the faults; 0 where there is none, or one of the whole list.
    pub(crate) pass: u8,
    pub(crate) files: &'k [File<'s>],
    pub(crate) limits: &'k Limits,
    /// What each describes; empty where faults are of files by themselves.
    descs: Vec<Option<FileDesc<'s>>>,
    /// How many files are described, with all that they import.
    pub(crate) size: usize,
}

/// The pass of faults, which all are of one; 0 where there is none, or one of the whole list.
fn pass_of(faults: &[Fault]) -> u8 {
    match faults {
        [first, ..] if !first.file.is_empty() => first.pass,
        _ => 0,
    }
}

/// What each file describes.
fn descs_of<'s>(
    alloc: Global,
    files: &[File<'s>],
    limits: &Limits,
) -> Result<Vec<Option<FileDesc<'s>>>, AllocError> {
    let mut descs = Vec::with_capacity(alloc, files.len())?;
    for file in files {
        match describe(alloc, file.name, file.text, limits) {
            Ok(desc) => descs.push(Some(desc))?,
            Err(FileError::First(_)) => descs.push(None)?,
            Err(FileError::NoMemory) => return Err(AllocError),
        }
    }
    Ok(descs)
}

/// How many files are described, with all that they import.
fn size_of(descs: &[Option<FileDesc<'_>>]) -> usize {
    let mut size = descs.len();
    for desc in descs {
        if let Some(desc) = desc {
            size = size.saturating_add(desc.imports.as_slice().len());
        }
    }
    size
}

impl<'k, 's> Known<'k, 's> {
    /// What these faults need to be known of the files.
    pub(crate) fn new(
        alloc: Global,
        files: &'k [File<'s>],
        faults: &[Fault],
        limits: &'k Limits,
    ) -> Result<Known<'k, 's>, AllocError> {
        let pass = pass_of(faults);
        let descs = match pass {
            IMPORTS | NAMES | TYPES => descs_of(alloc, files, limits)?,
            _ => Vec::new(alloc),
        };
        let size = size_of(&descs);
        Ok(Known {
            pass,
            files,
            limits,
            descs,
            size,
        })
    }

    /// The position of the file of a name.
    pub(crate) fn position(&self, name: &str) -> Option<usize> {
        let at = self.files.partition_point(|file| file.name < name);
        match self.files.get(at) {
            Some(file) if file.name == name => Some(at),
            _ => None,
        }
    }

    /// What the file at a position describes.
    pub(crate) fn desc_at(&self, at: usize) -> Option<&FileDesc<'s>> {
        match self.descs.get(at) {
            Some(Some(desc)) => Some(desc),
            _ => None,
        }
    }
}
