//! The compilation of a set, or its first fault.

ghost use Rattle.std.specs.Prelude.{◌≡◌, IfErr, IfOk, List, string_bytes, ℕ};
ghost use Rattle.proto_base.specs.declared.limits.Limits.{Limits};
ghost use Rattle.proto_sets.specs.SetFaults.{IsLeastFault, TellsOf};
ghost use Rattle.schema_set.specs.Sets.{IsOfSomeSet, IsToldOfSet, file_text};

use crate::reading::set_bytes;
use proto_base::{Limit, Limits};
use proto_compilation::Compiled;
use proto_sets::{FaultyFile, SetError, read_set};
use schema_failure::Failure;
use std::alloc::{AllocError, AllocGlobal, Global};
use std::rt::Files;

/// The file of a fault of the set at a path, as users see it: its name or, where it has none that can be read, the set's path with
/// its position in the field `file`. A fault of the whole set has the set's path.
fn file_text(alloc: Global, path: &str, file: &FaultyFile) -> Result<String, AllocError>
    ensures { IfOk result (λ text. string_bytes text ≡ file_text path.now file.now) }
{
    match file {
        FaultyFile::WholeSet => String::from_str(alloc, path),
        FaultyFile::At(position) => format!(in alloc; "{path}, file[{position}]"),
        FaultyFile::Named(name) => name.clone(),
    }
}

/// Why the set at a path is not read: its first fault, or want of memory.
fn told(alloc: Global, path: &str, error: SetError) -> Failure
    ensures { (limits : Limits) (set : List ℕ) → TellsOf (IsLeastFault limits set) error
        → IsToldOfSet limits path.now result }
{
    match error {
        SetError::NoMemory => Failure::NoMemory,
        SetError::First(fault) => match file_text(alloc, path, &fault.file) {
            Ok(file) => Failure::Set {
                file,
                kind: fault.kind,
            },
            Err(_) => Failure::NoMemory,
        },
    }
}

/// What the set at a path says, or its first fault. It is read up to one byte more than a set may have, and then let go.
///
/// The device `Set` is a file that can't be opened or read, as a folder.
pub fn compiled_set<R: Files + AllocGlobal>(
    rt: &R,
    path: &str,
    limits: &Limits,
) -> Result<Compiled, Failure>
    ensures compiled { IfOk result (IsOfSomeSet limits.now) }
    ensures refused { IfErr result (IsToldOfSet limits.now path.now) }
{
    let alloc = rt.alloc();
    let most = limits.read_bound(Limit::SetBytes) as u32;
    let set = set_bytes(rt, path, most)?;
    match read_set(alloc, &set, limits) {
        Ok(compiled) => Ok(compiled),
        Err(error) => Err(told(alloc, path, error)),
    }
}
