//! Which faults are told.

ghost use Rattle.std.specs.Prelude.{IfOk};
ghost use Rattle.schema_check.specs.Told.{ArePlaced, AreTold, IsFirst};

use file_faults::all_faults;
use proto_base::{Fault, Limits};
use proto_compile::{CompileError, Source, compile};
use share_work::{NoGate, Plan};
use std::alloc::{AllocError, AllocGlobal};
use std::thread::Threads;

/// The first fault of sources; none only where they are compiled.
fn first_fault<R>(
    rt: &R,
    sources: &[Source],
    limits: &Limits,
    plan: Plan,
) -> Result<Option<Fault>, AllocError>
where
    R: Threads + AllocGlobal + Sync,
    ensures { IfOk result (IsFirst limits.now sources.now) }
{
    match compile(rt, sources, limits, plan, &NoGate) {
        Ok(_) => Ok(None),
        Err(CompileError::First(fault)) => Ok(Some(fault)),
        Err(CompileError::NoMemory) => Err(AllocError),
    }
}

/// The faults of sources that can be told at once, in their order: the first of all, and all others of its pass (`all_faults`). There is
/// none only where the sources are compiled.
pub fn told_faults<R>(
    rt: &R,
    sources: &[Source],
    limits: &Limits,
    plan: Plan,
) -> Result<Vec<Fault>, AllocError>
where
    R: Threads + AllocGlobal + Sync,
    ensures told { IfOk result (λ faults. AreTold limits.now sources.now faults.items) }
    ensures placed { IfOk result (λ faults. ArePlaced sources.now faults.items) }
{
    match first_fault(rt, sources, limits, plan)? {
        Some(first) => all_faults(rt, sources, first, limits, plan, &NoGate),
        None => Ok(Vec::new(rt.alloc())),
    }
}
