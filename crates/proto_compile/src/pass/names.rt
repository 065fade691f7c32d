//! The pass over names.

ghost use Rattle.std.specs.Prelude.{List, IfOk, IfErr};
ghost use Rattle.proto_compile.specs.Descriptions.{Describe};
ghost use Rattle.proto_compile.specs.FaultSet.{IsLeastFault, TellsOf};
ghost use Rattle.proto_links.specs.Imports.{NoneBad};
ghost use Rattle.proto_names.specs.Index.{Indexes};
ghost use Rattle.proto_compile.specs.declared.source.Source.{Source};

use crate::error::{CompileError, START, refusal};
use crate::pass::Pass;
use crate::workers::Workers;
use proto_base::{Kind, Limits};
use proto_desc::file::FileDesc;
use proto_names::{NameError, NameIndex};
use share_work::Gate;
use std::alloc::AllocGlobal;
use std::thread::Threads;

/// The index of the names of what sources describe. An error is their first fault where their imports are right.
pub(crate) fn index_all<R, G>(
    workers: &Workers<'_, R, G>,
    descs: &[FileDesc],
    limits: &Limits,
) -> Result<NameIndex, CompileError>
where
    R: Threads + AllocGlobal + Sync,
    G: Gate + Sync,
    ensures indexed { IfOk result (Indexes descs.now limits.now) }
    ensures first { (sources files : List Source) → NoneBad descs.now
        → Describe limits.now sources files descs.now
        → IfErr result (TellsOf (IsLeastFault limits.now sources)) }
{
    let rt = workers.rt;
    let alloc = rt.alloc();
    match NameIndex::build_by(rt, descs, limits, workers.threading()) {
        Ok(index) => Ok(index),
        Err(NameError::NoMemory) => Err(CompileError::NoMemory),
        Err(NameError::TooMany) => Err(refusal(alloc, Pass::Names, "", START, Kind::TooManyNames)),
        Err(NameError::At(at, place)) => {
            let file = descs[at].name.as_str();
            Err(refusal(alloc, Pass::Names, file, place, Kind::NameTwice))
        }
    }
}
