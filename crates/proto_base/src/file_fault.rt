//! What a pass over files tells of one of them that is wrong.

ghost use Rattle.std.specs.Prelude.{◌≡◌};
ghost use Rattle.proto_base.specs.FileFaults.{at_step};
ghost use Rattle.proto_base.specs.declared.file_fault.FileError.TheVariants as errors;

use crate::spot::Spot;
use std::alloc::AllocError;

/// The step of each fault that a pass of one step finds.
pub const ONLY_STEP: u8 = 0;

/// A fault of one file, as the pass that finds it tells it.
#[derive(Clone, Copy)]
pub struct FileFault {
    /// The step of the pass, from 0.
    pub step: u8,
    pub spot: Spot,
}

/// Why a pass makes nothing of a file.
#[derive(Drop)]
pub enum FileError {
    /// Its first fault.
    First(FileFault),
    NoMemory,
}

impl FileError {
    /// What is wrong at a spot, as a step of the pass finds it.
    pub fn at(step: u8, spot: Spot) -> FileError
        ensures { result ≡ errors.First (at_step step spot) }
    {
        FileError::First(FileFault { step, spot })
    }
}

impl From<AllocError> for FileError {
    ghost from_gives = { λ _ e. e ≡ errors.NoMemory };

    fn from(_error: AllocError) -> FileError {
        FileError::NoMemory
    }
}
