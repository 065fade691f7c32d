//! A failure, and what a run ends with.

ghost use Rattle.std.specs.Prelude.{◌≡◌, ◌≤◌, ◌++◌, ◌⊎◌, [], ◌∷◌, IfSome, None, OnOk, Some};
ghost use Rattle.std.specs.Io.KnownBytes.{Appends};
ghost use Rattle.counted_io.specs.Memory.{IsUnlessNoMemory};
ghost use Rattle.schema_failure.specs.declared.failure.Failure.TheVariants as failures;
ghost use Rattle.schema_failure.specs.Faults.{IsOfDevice, of_exchange, of_folder};
ghost use Rattle.schema_failure.specs.Lines.{detail_of, device_name, line_of};
ghost use Rattle.schema_failure.specs.Statuses.{code_of, status_after, status_of};

use crate::shown::Shown;
use counted_io::{IoFault, is_no_memory};
use proto_base::Kind;
use proto_sets::SetKind;
use source_folder::{FolderFault, FolderTrouble, TroubledEntry};
use std::alloc::{AllocError, AllocFailed};
use std::error::Error;
use std::fmt;
use std::io::{self, Write};

/// What a run ends with.
#[derive(Clone, Copy)]
pub enum ExitStatus {
    Done,
    Fault,
    CommandLine,
    Device,
    NoMemory,
}

/// What a run that came to its end found of the sources.
#[derive(Clone, Copy)]
pub enum Verdict {
    /// They have no fault, or the run was not over sources.
    Sound,
    /// They have faults, which the run told on its output.
    Faulty,
}

impl ExitStatus {
    /// The status of a run that ended so.
    pub fn after(done: &Result<Verdict, Failure>) -> ExitStatus
        ensures { result ≡ status_after done.now }
    {
        match done {
            Ok(Verdict::Sound) => ExitStatus::Done,
            Ok(Verdict::Faulty) => ExitStatus::Fault,
            Err(failure) => failure.status(),
        }
    }

    /// The number that the program exits with, 0 to 4.
    pub fn code(self) -> u8
        ensures code { result ≡ code_of self }
        ensures few { result ≤ 4 }
    {
        match self {
            ExitStatus::Done => 0,
            ExitStatus::Fault => 1,
            ExitStatus::CommandLine => 2,
            ExitStatus::Device => 3,
            ExitStatus::NoMemory => 4,
        }
    }
}

/// What a run reads, writes or listens at.
#[derive(Clone, Copy, Debug, PartialEq, Eq)]
pub enum Device {
    Input,
    /// Standard output, or the file that the set goes to.
    Output,
    /// The file of the rule that says of which sources a set is made.
    Dependencies,
    /// The file of a set.
    Set,
    /// The address and the port of a service.
    Listen,
    /// The connections of a service.
    Accept,
}

impl Device {
    /// Its name in a line.
    pub fn name(self) -> &'static str
        ensures { result.now ≡ device_name self }
    {
        match self {
            Device::Input => "input",
            Device::Output | Device::Dependencies => "output",
            Device::Set => "set",
            Device::Listen => "listen",
            Device::Accept => "accept",
        }
    }
}

/// Why a run came to no end, with its line for the user.
#[derive(Debug, Drop)]
pub enum Failure {
    Source {
        file: String,
        line: u32,
        column: u32,
        kind: Kind,
    },
    /// A fault of a set of descriptors: the file that it is about, as users see it, and its kind.
    Set {
        file: String,
        kind: SetKind,
    },
    /// A folder could not be listed or read: which entry was the trouble, where that is known.
    Folder(Option<TroubledEntry>),
    /// Another device failed: what the system said, where that is known.
    Device {
        device: Device,
        error: Option<io::Error>,
    },
    NoMemory,
}

impl Failure {
    /// The exit status of a run that ends so.
    pub fn status(&self) -> ExitStatus
        ensures { result ≡ status_of self.now }
    {
        match self {
            Failure::Source { .. } | Failure::Set { .. } => ExitStatus::Fault,
            Failure::Folder(_) | Failure::Device { .. } => ExitStatus::Device,
            Failure::NoMemory => ExitStatus::NoMemory,
        }
    }

    /// This device failed, of which no more is known.
    pub fn of_device(device: Device) -> Failure
        ensures { result ≡ failures.Device device None }
    {
        Failure::Device {
            device,
            error: None,
        }
    }

    /// This device failed with an error, unless that says that the allocator had no memory.
    pub fn of_error(device: Device, error: io::Error) -> Failure
        ensures exact { IsUnlessNoMemory error failures.NoMemory (failures.Device device (Some error)) result }
        ensures either { IsOfDevice device result ⊎ (result ≡ failures.NoMemory) }
    {
        if is_no_memory(&error) {
            return Failure::NoMemory;
        }
        Failure::Device {
            device,
            error: Some(error),
        }
    }
}

impl fmt::Display for Failure {
    ghost output = { λ failure. Some (line_of failure) };

    fn fmt<W: fmt::Write>(&self, f: &mut fmt::Formatter<W>) -> fmt::Result {
        match self {
            Failure::Source {
                file,
                line,
                column,
                kind,
            } => write!(f, "{}:{line}:{column}: {kind}", Shown(file.as_str())),
            Failure::Set { file, kind } => write!(f, "{}: {kind}", Shown(file.as_str())),
            Failure::Folder(_) => f.write_str("device: folder"),
            Failure::Device { device, .. } => write!(f, "device: {}", device.name()),
            Failure::NoMemory => f.write_str("out of memory"),
        }
    }
}

impl Error for Failure {}

/// Writes the line of a failure.
pub fn write_failure<E: Write>(failure: &Failure, faults: &mut E) -> io::Result<()>
    ensures { OnOk result (Appends (E.contents faults.old) (E.contents faults.new)
        (line_of failure.now ++ 10 ∷ [])) }
{
    writeln!(faults, "{failure}")
}

/// Writes what is known beside the line of a failure, if anything is: which entry of a folder was the trouble, and why; or what the
/// system said of the device, which is told by what the words call it.
pub fn write_detail<E: Write>(failure: &Failure, called: &str, faults: &mut E) -> io::Result<()>
    ensures { OnOk result (IfSome (detail_of failure.now)
        (Appends (E.contents faults.old) (E.contents faults.new))) }
{
    match failure {
        Failure::Folder(Some(TroubledEntry { path, reason })) => {
            writeln!(faults, "{}: {reason}", Shown(path.as_str()))
        }
        Failure::Device {
            error: Some(error),
            ..
        } => writeln!(faults, "{}: {error}", Shown(called)),
        _ => Ok(()),
    }
}

impl From<AllocError> for Failure {
    ghost from_gives = { λ _ e. e ≡ failures.NoMemory };

    fn from(_error: AllocError) -> Failure {
        Failure::NoMemory
    }
}

impl<T: Drop> From<AllocFailed<T>> for Failure {
    ghost from_gives = { λ _ e. e ≡ failures.NoMemory };

    fn from(_error: AllocFailed<T>) -> Failure {
        Failure::NoMemory
    }
}

impl From<FolderTrouble> for Failure {
    ghost from_gives = { λ trouble failure. failure ≡ of_folder trouble };

    fn from(trouble: FolderTrouble) -> Failure {
        match trouble.fault {
            FolderFault::Listing | FolderFault::Reading => Failure::Folder(trouble.entry),
            FolderFault::NoMemory => Failure::NoMemory,
        }
    }
}

impl From<IoFault> for Failure {
    ghost from_gives = { λ fault failure. failure ≡ of_exchange fault };

    fn from(fault: IoFault) -> Failure {
        match fault {
            IoFault::ReadFault => Failure::of_device(Device::Input),
            IoFault::WriteFault { .. } => Failure::of_device(Device::Output),
            IoFault::NoMemory => Failure::NoMemory,
        }
    }
}
