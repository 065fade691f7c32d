//! Answering a request body.

ghost use Rattle.std.specs.Prelude.{IfOk};
ghost use Rattle.reflect_core.specs.Response.{IsResponse};

use crate::asked::{asked_in, roots_of};
use crate::file_reach::FileReach;
use crate::reply::Material;
use crate::response::{response_to, services_for};
use first_reach::{Mode, carried};
use proto_compilation::Compiled;
use reflect_requests::read_stream;
use share_work::{Gate, Plan};
use std::alloc::{AllocError, AllocGlobal};
use std::thread::Threads;

/// The response to a request body of a reflection stream (`reflection.proto`; PROTOCOL-WEB.md): the replies to its requests in
/// frames, in their order, and a frame with the trailers.
///
/// A reply carries the files that its request reaches and no earlier one reached; in mode `Repeat` the file that answers goes
/// with each reply, too. The requests are shared among the workers of the plan: what the plan and the gate are changes nothing
/// of the answer. It fails only for want of memory.
pub fn answer_body<R, G>(
    rt: &R,
    compiled: &Compiled,
    plan: Plan,
    gate: &G,
    mode: Mode,
    body: &[u8],
) -> Result<Vec<u8>, AllocError>
where
    R: Threads + AllocGlobal + Sync,
    G: Gate + Sync,
    ensures { IfOk result (λ bytes. IsResponse mode compiled.now body.now bytes.items) }
{
    let alloc = rt.alloc();
    let stream = read_stream(alloc, body, compiled.limits())?;
    let asked = asked_in(alloc, compiled, &stream.messages)?;
    let roots = roots_of(alloc, &asked)?;
    let reach = FileReach::new(compiled);
    let carried = carried(rt, &reach, plan, gate, mode, &roots)?;
    let services = services_for(alloc, compiled, &asked)?;
    compiled.is_sound();
    let material = Material {
        compiled,
        services: services.as_slice(),
    };
    response_to(alloc, material, &asked, &carried, stream.status)
}
