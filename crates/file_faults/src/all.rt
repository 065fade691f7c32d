//! All faults of sources, by the pass of the first.

ghost use Rattle.std.specs.Prelude.{◌≤◌, List, IfOk, IfSome, MatchOption, length, map};
ghost use Rattle.file_faults.specs.FaultSpots.{AreSpotsOf, AreWithin, HasNoSpots, IsLater};
ghost use Rattle.file_faults.specs.PassFaults.{AreFaultsFrom};
ghost use Rattle.proto_base.specs.Limits.{limit_of};
ghost use Rattle.proto_base.specs.NameOrder.{NamesRise};
ghost use Rattle.proto_base.specs.declared.limits.Limit.TheVariants as limit;
ghost use Rattle.proto_compile.specs.FaultSet.{IsLeastFault, told_by};
ghost use Rattle.proto_compile.specs.Sources.{AreByName, name_of};
ghost use Rattle.proto_compile.specs.declared.source.Source.{Source};
ghost use Rattle.proto_links.specs.Imports.{name_of as desc_name};

use crate::finding::faults_of_files;
use crate::naming::named_spots;
use crate::types::all_type_faults;
use proto_base::{Fault, Limits};
use proto_compile::{
    CompileError, IMPORTS_PASS, LOCAL_PASS, NAMES_PASS, Source, TYPES_PASS, describe_each,
    files_by_name,
};
use proto_desc::file::FileDesc;
use proto_links::{FileSpot, bad_imports};
use proto_names::repeated_names;
use share_work::{Gate, Plan};
use std::alloc::{AllocError, AllocGlobal};
use std::thread::Threads;

/// Where what sources describe breaks rules of the pass of this number, if it is one over imports, names or types and there are not too
/// many names.
fn spots_of<R, G>(
    rt: &R,
    pass: u8,
    descs: &[FileDesc],
    limits: &Limits,
    plan: Plan,
    gate: &G,
) -> Result<Option<Vec<FileSpot>>, AllocError>
where
    R: Threads + AllocGlobal + Sync,
    G: Gate + Sync,
    requires { NamesRise (map desc_name descs.now) }
    ensures spots { IfOk result (λ found. MatchOption found (HasNoSpots limits.now descs.now pass)
        (λ spots. AreSpotsOf limits.now descs.now pass spots.items)) }
    ensures within { IfOk result (λ found. IfSome found (λ spots. AreWithin descs.now spots.items)) }
{
    match pass {
        IMPORTS_PASS => Ok(Some(bad_imports(rt.alloc(), descs)?)),
        NAMES_PASS => repeated_names(rt.alloc(), descs, limits),
        TYPES_PASS => Ok(Some(all_type_faults(rt, descs, limits, plan, gate)?)),
        _ => Ok(None),
    }
}

/// All faults of the pass of the first fault of files, which stand in the order of their names, where it is one over imports, names or types.
fn later_faults<R, G>(
    rt: &R,
    files: &[Source],
    first: Fault,
    limits: &Limits,
    plan: Plan,
    gate: &G,
) -> Result<Vec<Fault>, AllocError>
where
    R: Threads + AllocGlobal + Sync,
    G: Gate + Sync,
    requires { NamesRise (map name_of files.now) }
    ensures { (sources : List Source) → length sources ≤ limit_of limits.now limit.Files
        → AreByName sources files.now → IsLeastFault limits.now sources (told_by first)
        → IsLater (told_by first) → IfOk result (λ faults.
        AreFaultsFrom limits.now sources (told_by first) (map told_by faults.items)) }
{
    let descs = match describe_each(rt, files, limits, plan, gate) {
        Ok(descs) => descs,
        Err(CompileError::First(fault)) => return Ok(vec![in rt.alloc(); fault]?),
        Err(CompileError::NoMemory) => return Err(AllocError),
    };
    match spots_of(rt, first.pass, &descs, limits, plan, gate)? {
        Some(spots) => named_spots(rt.alloc(), first.pass, &descs, &spots),
        None => Ok(vec![in rt.alloc(); first]?),
    }
}

/// All faults of sources of which this is the first, in the order of faults, each once. They are those of its pass, since later passes
/// are not judged. A fault of the list of sources stands alone, and so does the one that there are too many names.
///
/// Workers share the sources in phase `DESCRIBING` of the gate, and the types that they name in phase `RESOLVING`. What the plan and the
/// gate are changes nothing of the answer.
pub fn all_faults<R, G>(
    rt: &R,
    sources: &[Source],
    first: Fault,
    limits: &Limits,
    plan: Plan,
    gate: &G,
) -> Result<Vec<Fault>, AllocError>
where
    R: Threads + AllocGlobal + Sync,
    G: Gate + Sync,
    ensures { IsLeastFault limits.now sources.now (told_by first) → IfOk result (λ faults.
        AreFaultsFrom limits.now sources.now (told_by first) (map told_by faults.items)) }
{
    let files = match files_by_name(rt.alloc(), sources, limits) {
        Ok(files) => files,
        Err(CompileError::First(fault)) => return Ok(vec![in rt.alloc(); fault]?),
        Err(CompileError::NoMemory) => return Err(AllocError),
    };
    match first.pass {
        LOCAL_PASS => faults_of_files(rt, &files, limits, plan, gate),
        IMPORTS_PASS | NAMES_PASS | TYPES_PASS => {
            later_faults(rt, &files, first, limits, plan, gate)
        }
        _ => Ok(vec![in rt.alloc(); first]?),
    }
}
