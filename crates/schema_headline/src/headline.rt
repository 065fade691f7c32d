//! The headline, as two calls. Their contracts speak of sources, limits, mode and body
//! alone: no worker, no piece of work and no gate changes what they answer.

ghost use Rattle.std.specs.Prelude.{◌≡◌, ℕ, List, IfOk, IfErr, IsErrAnd, MatchResult};
ghost use Rattle.proto_compile.specs.FaultSet.{IsFault, IsLeastFault, IsPlaced, SourceFault, TellsOf};
ghost use Rattle.proto_compile.specs.declared.error.CompileError.TheVariants as errors;
ghost use Rattle.schema_headline.specs.Headline.{IsResponseOf, IsSetOf};

use proto_base::Limits;
use proto_compile::{CompileError, Source, compile};
use reflect_core::{Mode, answer_body};
use share_work::{Gate, Plan};
use std::alloc::AllocGlobal;
use std::thread::Threads;

/// The set of sources, or their first fault.
fn first_set<R, G>(
    rt: &R,
    sources: &[Source],
    limits: &Limits,
    plan: Plan,
    gate: &G,
) -> Result<Vec<u8>, CompileError>
where
    R: Threads + AllocGlobal + Sync,
    G: Gate + Sync,
    ensures set { IfOk result (λ bytes. IsSetOf limits.now sources.now bytes.items) }
    ensures whole { IfOk result (λ bytes. (x : SourceFault) → IsFault limits.now sources.now x → ⊥) }
    ensures first { IfErr result (TellsOf (IsLeastFault limits.now sources.now)) }
    ensures placed { IfErr result (TellsOf (λ x. IsPlaced limits.now sources.now x.file x.place)) }
{
    let compiled = compile(rt, sources, limits, plan, gate)?;
    let set = compiled.set_bytes(rt.alloc())?;
    Ok(set)
}

/// The response to a body over sources, or their first fault.
fn first_response<R, G>(
    rt: &R,
    sources: &[Source],
    limits: &Limits,
    plan: Plan,
    gate: &G,
    mode: Mode,
    body: &[u8],
) -> Result<Vec<u8>, CompileError>
where
    R: Threads + AllocGlobal + Sync,
    G: Gate + Sync,
    ensures response { IfOk result (λ bytes. IsResponseOf mode limits.now sources.now body.now
        bytes.items) }
    ensures whole { IfOk result (λ bytes. (x : SourceFault) → IsFault limits.now sources.now x → ⊥) }
    ensures first { IfErr result (TellsOf (IsLeastFault limits.now sources.now)) }
    ensures placed { IfErr result (TellsOf (λ x. IsPlaced limits.now sources.now x.file x.place)) }
{
    let compiled = compile(rt, sources, limits, plan, gate)?;
    let response = answer_body(rt, &compiled, plan, gate, mode, body)?;
    Ok(response)
}

/// The bytes of the `FileDescriptorSet` (`descriptor.proto`) of sources, or their first fault.
///
/// `NoMemory` comes only where the allocator had none.
pub fn set_of_sources<R, G>(
    rt: &R,
    sources: &[Source],
    limits: &Limits,
    plan: Plan,
    gate: &G,
) -> Result<Vec<u8>, CompileError>
where
    R: Threads + AllocGlobal + Sync,
    G: Gate + Sync,
    ensures set { IfOk result (λ bytes. IsSetOf limits.now sources.now bytes.items) }
    ensures whole { IfOk result (λ bytes. (x : SourceFault) → IsFault limits.now sources.now x → ⊥) }
    ensures first { IfErr result (TellsOf (IsLeastFault limits.now sources.now)) }
    ensures placed { IfErr result (TellsOf (λ x. IsPlaced limits.now sources.now x.file x.place)) }

    // So sources with a set give it, and those with a fault tell it, unless memory runs out.
    ensures every_set { (set : List ℕ) → IsSetOf limits.now sources.now set
        → MatchResult result (λ bytes. bytes.items ≡ set) (λ e. e ≡ errors.NoMemory) }
    ensures every_fault { (x : SourceFault) → IsLeastFault limits.now sources.now x
        → IsErrAnd result (TellsOf (λ y. y ≡ x)) }
{
    first_set(rt, sources, limits, plan, gate)
}

/// The response to the request body of a reflection stream (`reflection.proto`; PROTOCOL-WEB.md) over what sources are compiled
/// to, or their first fault.
///
/// `NoMemory` comes only where the allocator had none.
pub fn response_to_sources<R, G>(
    rt: &R,
    sources: &[Source],
    limits: &Limits,
    plan: Plan,
    gate: &G,
    mode: Mode,
    body: &[u8],
) -> Result<Vec<u8>, CompileError>
where
    R: Threads + AllocGlobal + Sync,
    G: Gate + Sync,
    ensures response { IfOk result (λ bytes. IsResponseOf mode limits.now sources.now body.now
        bytes.items) }
    ensures whole { IfOk result (λ bytes. (x : SourceFault) → IsFault limits.now sources.now x → ⊥) }
    ensures first { IfErr result (TellsOf (IsLeastFault limits.now sources.now)) }
    ensures placed { IfErr result (TellsOf (λ x. IsPlaced limits.now sources.now x.file x.place)) }

    // So sources without a fault give the response, and those with one tell it, unless memory runs out.
    ensures every_response { (response : List ℕ)
        → IsResponseOf mode limits.now sources.now body.now response
        → MatchResult result (λ bytes. bytes.items ≡ response) (λ e. e ≡ errors.NoMemory) }
    ensures every_fault { (x : SourceFault) → IsLeastFault limits.now sources.now x
        → IsErrAnd result (TellsOf (λ y. y ≡ x)) }
{
    first_response(rt, sources, limits, plan, gate, mode, body)
}
