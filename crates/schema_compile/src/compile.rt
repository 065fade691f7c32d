//! What the sources of a run are compiled to.

ghost use Rattle.std.specs.Prelude.{IfErr, IfOk};
ghost use Rattle.proto_compile.specs.FaultSet.{IsLeastFault, TellsOf};
ghost use Rattle.schema_compile.specs.Compiled.{AreCompiledTo, IsCompiledTo};
ghost use Rattle.schema_compile.specs.Told.{IsToldOf, IsToldOfFolder, IsToldOfTexts};

use crate::placing::locate;
use crate::sources::sources_of;
use proto_base::Limits;
use proto_compile::{CompileError, Compiled, Leftovers, Source, compile_by};
use schema_failure::Failure;
use schema_sources::{SourceFolder, read_sources};
use share_work::{NoGate, Plan};
use source_folder::NamedText;
use std::alloc::AllocGlobal;
use std::thread::Threads;

/// Why sources are not compiled: their first fault, with its line and its column, or want of memory.
pub fn told(error: CompileError, sources: &[Source]) -> Failure
    requires { (limits : Limits) × TellsOf (IsLeastFault limits sources.now) error }
    ensures { (limits : Limits) → TellsOf (IsLeastFault limits sources.now) error
        → IsToldOf limits sources.now result }
{
    match error {
        CompileError::NoMemory => Failure::NoMemory,
        CompileError::First(fault) => locate(fault, sources),
    }
}

/// What read texts are compiled to, or their first fault. What is left of the descriptors goes as `leftovers` says.
pub fn compile_texts<R>(
    rt: &R,
    texts: &[NamedText],
    limits: &Limits,
    plan: Plan,
    leftovers: Leftovers,
) -> Result<Compiled, Failure>
where
    R: Threads + AllocGlobal + Sync,
    ensures compiled { IfOk result (AreCompiledTo limits.now texts.now) }
    ensures refused { IfErr result (IsToldOfTexts limits.now texts.now) }
{
    let sources = sources_of(rt.alloc(), texts)?;
    let listed = sources.as_slice();
    let plan = plan.evened(listed.len());
    match compile_by(rt, listed, limits, plan, &NoGate, leftovers) {
        Ok(compiled) => Ok(compiled),
        Err(error) => Err(told(error, listed)),
    }
}

/// What the sources of a folder are compiled to, or their first fault.
pub fn compile_folder<R, F>(
    rt: &R,
    folder: &F,
    limits: &Limits,
    plan: Plan,
) -> Result<Compiled, Failure>
where
    R: Threads + AllocGlobal + Sync,
    F: SourceFolder + Sync,
    ensures compiled { IfOk result (IsCompiledTo limits.now (F.sources folder.now)) }
    ensures refused { IfErr result (IsToldOfFolder limits.now (F.sources folder.now)) }
{
    let texts = read_sources(rt, folder, limits, plan)?;
    compile_texts(rt, &texts, limits, plan, Leftovers::LetGo)
}
