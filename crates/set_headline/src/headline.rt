//! The headline over a set.

ghost use Rattle.std.specs.Prelude.{◌≡◌, ℕ, List, IfOk, IfErr, IsErrAnd, MatchResult};
ghost use Rattle.proto_sets.specs.SetFaults.{Fault, IsFault, IsLeastFault, TellsOf};
ghost use Rattle.proto_sets.specs.declared.fault.SetError.TheVariants as errors;
ghost use Rattle.set_headline.specs.Headline.{IsResponseOfSet};

use proto_base::Limits;
use proto_sets::{SetError, read_set};
use reflect_core::{Mode, answer_body};
use share_work::{Gate, Plan};
use std::alloc::AllocGlobal;
use std::thread::Threads;

/// The response to a body over a set, or the set's first fault.
fn first_response<R, G>(
    rt: &R,
    set: &[u8],
    limits: &Limits,
    plan: Plan,
    gate: &G,
    mode: Mode,
    body: &[u8],
) -> Result<Vec<u8>, SetError>
where
    R: Threads + AllocGlobal + Sync,
    G: Gate + Sync,
    ensures response { IfOk result (λ bytes. IsResponseOfSet mode limits.now set.now body.now
        bytes.items) }
    ensures whole { IfOk result (λ bytes. (x : Fault) → IsFault limits.now set.now x → ⊥) }
    ensures first { IfErr result (TellsOf (IsLeastFault limits.now set.now)) }
{
    let compiled = read_set(rt.alloc(), set, limits)?;
    let response = answer_body(rt, &compiled, plan, gate, mode, body)?;
    Ok(response)
}

/// The response to the request body of a reflection stream (`reflection.proto`; PROTOCOL-WEB.md) over the files of a set
/// (`descriptor.proto`, `FileDescriptorSet`), or the set's first fault.
///
/// `NoMemory` comes only where the allocator had none.
pub fn response_of_set<R, G>(
    rt: &R,
    set: &[u8],
    limits: &Limits,
    plan: Plan,
    gate: &G,
    mode: Mode,
    body: &[u8],
) -> Result<Vec<u8>, SetError>
where
    R: Threads + AllocGlobal + Sync,
    G: Gate + Sync,
    ensures response { IfOk result (λ bytes. IsResponseOfSet mode limits.now set.now body.now
        bytes.items) }
    ensures whole { IfOk result (λ bytes. (x : Fault) → IsFault limits.now set.now x → ⊥) }
    ensures first { IfErr result (TellsOf (IsLeastFault limits.now set.now)) }

    // So a set without a fault gives the response, and one with a fault tells it, unless memory runs out.
    ensures every_response { (response : List ℕ)
        → IsResponseOfSet mode limits.now set.now body.now response
        → MatchResult result (λ bytes. bytes.items ≡ response) (λ e. e ≡ errors.NoMemory) }
    ensures every_fault { (x : Fault) → IsLeastFault limits.now set.now x
        → IsErrAnd result (TellsOf (λ y. y ≡ x)) }
{
    first_response(rt, set, limits, plan, gate, mode, body)
}
