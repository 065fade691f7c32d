//! Serving reflection.

ghost use Rattle.std.specs.Prelude.{◌≡◌, IfOk, Some};
ghost use Rattle.std.specs.Arc.{arc_value};
ghost use Rattle.std.specs.Thread.{IsSync};
ghost use Rattle.grpcweb_service.specs.Responses.{IsResponseFor};
ghost use Rattle.grpcweb_service.specs.Services.{HasServed};

use crate::response::answered;
use crate::service::{EndedService, ReflectionService, serve_by};
use grpcweb_core::Mode;
use http::Request;
use http_connection::{Answered, Bound, Journal, NoJournal, ServeFault, ServeOptions};
use proto_compilation::Compiled;
use share_work::{Gate, Plan};
use std::alloc::{AllocError, AllocGlobal};
use std::random::RandomSource;
use std::sync::{Arc, Wait};
use std::thread::Threads;
use std::time::Clock;
use tokio::net::TcpListener;
use tokio::runtime::Runtime;

/// Serves reflection streams over HTTP/1.1, as many clients at once as the options say, and gives how the service ended. It fails
/// only where memory is short before the first connection.
///
/// A connection carries one request, whose body is read to its end or to one byte over the limit, and is closed behind the
/// answer (`respond`). A fault of a connection, the end of its client's time, or want of memory in its answer, ends that
/// connection alone. Requests are answered one after the other.
///
/// The journal is told of each connection that has ended, with a line on its request: the method, the path, the status, that of
/// gRPC, the bytes of the body, the requests in it, the bytes of the response, and how long the answer took.
pub fn serve_with<R, G, J>(
    rt: &R,
    runtime: &mut Runtime,
    bound: Bound,
    service: &ReflectionService,
    gate: G,
    journal: J,
) -> Result<EndedService, AllocError>
where
    R: Wait + Threads + Clock + RandomSource + AllocGlobal + Sync + Clone + Drop,
    G: Gate + Copy + Sync,
    J: Journal,
    ensures { IfOk result (HasServed service.now bound.address) }
{
    let is_noted = journal.is_kept();
    let own_rt = rt.clone()?;
    let compiled = Arc::try_clone(&service.compiled)?;
    let plan = service.plan;
    let mode = service.mode;
    let responder = move |request: &Request<Vec<u8>>| -> Result<Answered, AllocError>
        requires { IsSync R.row × IsSync G.row }
        ensures { IfOk result (λ answered.
            IsResponseFor mode (arc_value compiled) request.now answered.response) }
    { answered(&own_rt, &compiled, plan, &gate, mode, is_noted, request) };
    serve_by(rt, runtime, bound, service, responder, journal)
}

/// Serves as `serve_with` does, with no journal, one client after the other, each for as long as it likes. A client that sends
/// nothing holds the service.
pub fn serve<R, G>(
    rt: &R,
    runtime: &mut Runtime,
    listener: TcpListener,
    compiled: Arc<Compiled>,
    plan: Plan,
    gate: G,
    mode: Mode,
    connections: Option<u64>,
) -> Result<u64, ServeFault>
where
    R: Wait + Threads + Clock + RandomSource + AllocGlobal + Sync + Clone + Drop,
    G: Gate + Copy + Sync,
    ensures { IfOk result (λ count. connections ≡ Some count) }
{
    let service = ReflectionService {
        compiled,
        mode,
        plan,
        options: ServeOptions::default(),
        connections,
    };
    let bound = Bound::of(listener)?;
    let ended = serve_with(rt, runtime, bound, &service, gate, NoJournal)?;
    Ok(ended.into_end()?)
}
