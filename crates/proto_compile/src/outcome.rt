//! What a pass finds in each file, judged.

ghost use Rattle.std.specs.Prelude.{◌≡◌, Ok, IfOk, IfErr, length, map};
ghost use Rattle.proto_compile.specs.FaultSet.{TellsOf};
ghost use Rattle.proto_compile.specs.Outcomes.{IsFirstFound, TellsOfFile};
ghost use Rattle.proto_compile.specs.Passes.{number_of};

use crate::error::{CompileError, refusal_of_fault};
use crate::pass::Pass;
use crate::source::Source;
use proto_base::FileError;
use std::alloc::Global;

/// The error of what a pass finds in a file of this name.
fn refusal_of_file(alloc: Global, pass: Pass, file: &str, error: FileError) -> CompileError
    ensures { TellsOfFile (number_of pass) file.now error result }
{
    match error {
        FileError::First(fault) => refusal_of_fault(alloc, pass, file, fault),
        FileError::NoMemory => CompileError::NoMemory,
    }
}

/// What a pass makes of each file, or its first fault: that of the first file that has one.
pub(crate) fn judge<T: Drop>(
    alloc: Global,
    pass: Pass,
    files: &[Source],
    outcomes: Vec<Result<T, FileError>>,
) -> Result<Vec<T>, CompileError>
    requires { length files.now ≡ length outcomes.items }
    ensures well { IfOk result (λ all. outcomes.items ≡ map Ok all.items) }
    ensures first { IfErr result (TellsOf (IsFirstFound (number_of pass) files.now
        outcomes.items)) }
{
    let mut all = Vec::with_capacity(alloc, outcomes.len())?;
    for outcome in outcomes {
        match outcome {
            Ok(value) => all.push(value)?,
            Err(error) => {
                let file = files[all.len()].name;
                return Err(refusal_of_file(alloc, pass, file, error));
            }
        }
    }
    Ok(all)
}
