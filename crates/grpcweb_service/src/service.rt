//! A service of reflection: what is served, and what has been.

ghost use Rattle.std.specs.Prelude.{◌≡◌, IfOk};
ghost use Rattle.grpcweb_service.specs.Services.{GivesAnswersOf, HasServed};

use grpcweb_core::Mode;
use http_connection::{Bound, Journal, Responder, ServeOptions, ServeTrouble, serve_connections};
use proto_base::Limit;
use proto_compilation::Compiled;
use share_work::Plan;
use std::alloc::{AllocError, AllocGlobal};
use std::net::SocketAddr;
use std::random::RandomSource;
use std::snapshot::Snapshot;
use std::sync::{Arc, Wait};
use std::thread::Threads;
use std::time::Clock;
use tokio::runtime::Runtime;

/// What is served, and to how many.
#[derive(Drop)]
pub struct ReflectionService {
    pub compiled: Arc<Compiled>,
    pub mode: Mode,
    /// How workers share the requests of a body. It changes no answer.
    pub plan: Plan,
    pub options: ServeOptions,
    /// With how many connections it ends. Without a count it ends only with a fault.
    pub connections: Option<u64>,
}

/// A service that has ended: how it ended and, for contracts, what it was and at which address. It is made by serving alone, so who
/// hands one out has served.
#[derive(Drop)]
pub struct EndedService {
    service: Snapshot<ReflectionService>,
    address: SocketAddr,
    end: Result<u64, ServeTrouble>,
}

impl EndedService {
    /// How many connections there were, or why it ended.
    pub fn into_end(self) -> Result<u64, ServeTrouble>
        ensures { result ≡ self.end }
    {
        self.end
    }
}

/// Serves by a responder that gives the answers of a service.
pub(crate) fn serve_by<R, T, J>(
    rt: &R,
    runtime: &mut Runtime,
    bound: Bound,
    service: &ReflectionService,
    responder: T,
    journal: J,
) -> Result<EndedService, AllocError>
where
    R: Wait + Threads + Clock + RandomSource + AllocGlobal + Sync,
    T: Responder,
    J: Journal,
    requires ready { T.can_respond responder }
    requires answers { GivesAnswersOf service.now (T.responds responder) }
    ensures { IfOk result (HasServed service.now bound.address) }
{
    let responder = Arc::new(rt.alloc(), responder)?;
    let most = service.compiled.limits().read_bound(Limit::BodyBytes) as usize;
    let address = bound.address();
    let end = serve_connections(
        rt,
        runtime,
        bound,
        responder,
        most,
        service.options,
        service.connections,
        journal,
    );
    Ok(EndedService {
        service: Snapshot::of(service),
        address,
        end,
    })
}
