//! Faults of sets.

ghost use Rattle.proto_sets.specs.SetFaults.{told_of};
ghost use Rattle.proto_sets.specs.SetSteps.{Tells};
ghost use Rattle.proto_sets.specs.SetFaults.{of_file};
ghost use Rattle.proto_sets.specs.declared.fault.SetError.TheVariants as errors;
ghost use Rattle.proto_sets.specs.SetKinds.{name_of};
ghost use Rattle.std.specs.Prelude.{◌≡◌, Some};

use std::alloc::{AllocError, AllocFailed, Global};
use std::fmt;
use thiserror::Error;

/// What is wrong with a set. A later pass looks only at what has passed the earlier ones.
#[derive(Clone, Copy, Debug, PartialEq, Eq)]
pub enum SetKind {
    /// Pass 0: the set has more bytes than the limit.
    SetTooLong,
    /// Pass 1: the bytes of the set are no row of fields.
    MalformedSet,
    /// Pass 2: the set has more files than the limit.
    TooManyFiles,
    /// Pass 3: the bytes of a file are no row of fields, or its name is no UTF-8.
    MalformedFile,
    /// Pass 3: the name of a file is left out, or empty.
    FileWithoutName,
    /// Pass 4: two files have one name.
    FileNameTwice,
    /// Pass 5: an element of a file is no row of fields, or stands in too many others; or its name, a package or the path of
    /// an import is no UTF-8.
    MalformedContents,
    /// Pass 6: a full name has more bytes than the limit.
    NameTooLong,
    /// Pass 7: an import names no file of the set.
    ImportMissing,
    /// Pass 7: a file imports itself, by way of others or not.
    ImportCycle,
    /// Pass 8: more names occur than the limit.
    TooManyNames,
    /// Pass 9: a full name stands for two things.
    NameTwice,
}

impl SetKind {
    /// The kind's name, as users read it.
    pub fn name(self) -> &'static str
        ensures { result.now ≡ name_of self }
    {
        match self {
            SetKind::SetTooLong => "SetTooLong",
            SetKind::MalformedSet => "MalformedSet",
            SetKind::TooManyFiles => "TooManyFiles",
            SetKind::MalformedFile => "MalformedFile",
            SetKind::FileWithoutName => "FileWithoutName",
            SetKind::FileNameTwice => "FileNameTwice",
            SetKind::MalformedContents => "MalformedContents",
            SetKind::NameTooLong => "NameTooLong",
            SetKind::ImportMissing => "ImportMissing",
            SetKind::ImportCycle => "ImportCycle",
            SetKind::TooManyNames => "TooManyNames",
            SetKind::NameTwice => "NameTwice",
        }
    }
}

impl fmt::Display for SetKind {
    ghost output = { λ kind. Some (name_of kind) };

    fn fmt<W: fmt::Write>(&self, f: &mut fmt::Formatter<W>) -> fmt::Result {
        f.write_str(self.name())
    }
}

/// The file in which a fault is.
#[derive(Debug, Drop)]
pub enum FaultyFile {
    /// None: the fault is one of the whole set.
    WholeSet,
    /// One without a name that can be read, by its position among the files of the set, from 0.
    At(usize),
    /// The file of this name.
    Named(String),
}

/// What is wrong, and in which file. Descriptors have no places.
#[derive(Debug, Drop)]
pub struct SetFault {
    pub file: FaultyFile,
    pub kind: SetKind,
}

/// Why a set is not read: its first fault, or no memory.
#[derive(Debug, Drop, Error)]
pub enum SetError {
    #[error("the set has a fault")]
    First(SetFault),
    #[error("out of memory")]
    NoMemory,
}

impl From<AllocError> for SetError {
    ghost from_gives = { λ _ e. e ≡ errors.NoMemory };

    fn from(_error: AllocError) -> SetError {
        SetError::NoMemory
    }
}

impl<T: Drop> From<AllocFailed<T>> for SetError {
    ghost from_gives = { λ _ e. e ≡ errors.NoMemory };

    fn from(_error: AllocFailed<T>) -> SetError {
        SetError::NoMemory
    }
}

/// The error of a fault.
pub(crate) fn refusal(kind: SetKind, file: FaultyFile) -> SetError
    ensures { Tells (told_of kind file) result }
{
    SetError::First(SetFault { file, kind })
}

/// The error of a fault of the file of this name, if there is memory for the name.
pub(crate) fn refusal_of_file(alloc: Global, kind: SetKind, name: &str) -> SetError
    ensures { Tells (of_file kind name.now) result }
{
    match String::from_str(alloc, name) {
        Ok(name) => refusal(kind, FaultyFile::Named(name)),
        Err(_) => SetError::NoMemory,
    }
}
