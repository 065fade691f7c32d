//! Describing one source.

ghost use Rattle.std.specs.Prelude.{[], ◌∷◌, IfOk, IfErr};
ghost use Rattle.proto_compile.specs.FaultSet.{IsLeastFault, IsPlaced, TellsOf};
ghost use Rattle.schema_headline.specs.Describe.{IsDescribedBy, IsDescription};

use proto_base::Limits;
use proto_compile::{CompileError, Source, compile};
use share_work::{NoGate, Plan};
use std::alloc::AllocGlobal;
use std::thread::Threads;

/// The bytes of the descriptor of one source, or its first fault.
fn first_answer<R>(rt: &R, source: Source, limits: &Limits) -> Result<Vec<u8>, CompileError>
where
    R: Threads + AllocGlobal + Sync,
    ensures described { IfOk result (λ bytes. IsDescribedBy limits.now source.entry bytes.items) }
    ensures first { IfErr result (TellsOf (IsLeastFault limits.now (source.entry ∷ []))) }
    ensures placed { IfErr result (TellsOf
        (λ x. IsPlaced limits.now (source.entry ∷ []) x.file x.place)) }
{
    let compiled = compile(rt, &[source], limits, Plan::single(), &NoGate)?;
    let bytes = compiled.bytes_at(0);
    Ok(Vec::from_slice(rt.alloc(), bytes)?)
}

/// The bytes of the `FileDescriptorProto` of one source, which is a file of this name: those that compiling it by itself
/// gives.
///
/// `First` has the source's first fault, whose place lies within the text. `NoMemory` comes only where the allocator had
/// none.
pub fn describe<R>(
    rt: &R,
    name: &str,
    text: &[u8],
    limits: &Limits,
) -> Result<Vec<u8>, CompileError>
where
    R: Threads + AllocGlobal + Sync,
    ensures { IsDescription limits.now (record { name = name.entry; text = text.entry }) result }
{
    first_answer(rt, Source { name, text }, limits)
}
