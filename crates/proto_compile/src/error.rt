//! Why sources have no descriptors.

ghost use Rattle.std.specs.Prelude.{◌≡◌};
ghost use Rattle.proto_compile.specs.FaultSet.{fault as source_fault, of_file};
ghost use Rattle.proto_compile.specs.Faults.{Tells};
ghost use Rattle.proto_compile.specs.Passes.{number_of};
ghost use Rattle.proto_compile.specs.declared.error.CompileError.TheVariants.{NoMemory};

use crate::pass::Pass;
use proto_base::{Fault, FileFault, Kind, ONLY_STEP, Place, Spot};
use std::alloc::{AllocError, AllocFailed, Global};
use thiserror::Error;

/// Why sources have no descriptors: their first fault, or no memory.
#[derive(Debug, Drop, Error)]
pub enum CompileError {
    #[error("the sources have a fault")]
    First(Fault),
    #[error("out of memory")]
    NoMemory,
}

impl From<AllocError> for CompileError {
    ghost from_gives = { λ _ e. e ≡ NoMemory };

    fn from(_error: AllocError) -> CompileError {
        CompileError::NoMemory
    }
}

impl<T: Drop> From<AllocFailed<T>> for CompileError {
    ghost from_gives = { λ _ e. e ≡ NoMemory };

    fn from(_error: AllocFailed<T>) -> CompileError {
        CompileError::NoMemory
    }
}

/// The first byte of a source, where faults of a whole file stand.
pub(crate) const START: Place = Place { offset: 0 };

/// The error of a fault of a file, if there is memory for the file's name.
pub(crate) fn refusal_of_fault(
    alloc: Global,
    pass: Pass,
    file: &str,
    fault: FileFault,
) -> CompileError
    ensures { Tells (source_fault (number_of pass) file.now fault) result }
{
    match String::from_str(alloc, file) {
        Ok(file) => CompileError::First(Fault {
            pass: pass.number(),
            file,
            step: fault.step,
            place: fault.spot.place,
            kind: fault.spot.kind,
        }),
        Err(_) => CompileError::NoMemory,
    }
}

/// The error of a fault that a pass of one step finds.
pub(crate) fn refusal(
    alloc: Global,
    pass: Pass,
    file: &str,
    place: Place,
    kind: Kind,
) -> CompileError
    ensures { Tells (of_file (number_of pass) file.now place kind) result }
{
    let fault = FileFault {
        step: ONLY_STEP,
        spot: Spot { place, kind },
    };
    refusal_of_fault(alloc, pass, file, fault)
}
