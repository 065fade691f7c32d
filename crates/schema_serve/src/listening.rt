//! Listening at an address.

ghost use Rattle.std.specs.Prelude.{◌⊎◌, ◌↔◌, ◌≡◌, IfErr, IfOk, IsTrue};
ghost use Rattle.schema_failure.specs.Faults.{IsOfDevice};
ghost use Rattle.schema_failure.specs.declared.failure.Device.TheVariants as devices;
ghost use Rattle.schema_failure.specs.declared.failure.Failure.TheVariants as failures;
ghost use Rattle.schema_serve.specs.Bound.{IsBound, IsBoundBy};

use http_connection::Bound;
use schema_failure::{Device, Failure};
use std::alloc::AllocGlobal;
use std::io::{self, ErrorKind};
use std::net::{Net, SocketAddr};
use std::random::RandomSource;
use std::sync::Wait;
use std::thread::Threads;
use std::time::Clock;
use tokio::net::TcpListener;
use tokio::runtime::Runtime;

/// A listener, with the runtime that it is for.
#[derive(Drop)]
pub(crate) struct Listening {
    pub(crate) runtime: Runtime,
    pub(crate) bound: Bound,
}

/// A runtime, and a listener at an address, or at any free port in the place of port 0.
fn bind<R>(rt: &R, asked: SocketAddr) -> io::Result<Listening>
where
    R: Wait + Threads + Clock + RandomSource + AllocGlobal + Sync + Clone + Drop + Net,
{
    let runtime = Runtime::new(rt)?;
    let listener = TcpListener::bind(rt, asked, runtime.handle().reactor())?;
    let bound = Bound::of(listener)?;
    Ok(Listening { runtime, bound })
}

/// Whether an address is the one that was asked for, with its port, unless any was.
fn is_bound(asked: SocketAddr, address: SocketAddr) -> bool
    ensures { IsTrue result ↔ IsBound asked address }
{
    address.ip() == asked.ip() && (asked.port() == 0 || address.port() == asked.port())
}

/// A failure to listen, which the program finds by itself.
fn unheard(kind: ErrorKind, words: &str) -> Failure
    ensures { IsOfDevice devices.Listen result }
{
    Failure::Device {
        device: Device::Listen,
        error: Some(io::Error::new(kind, words)),
    }
}

/// A listener at the address and the port of a text; a failure to listen where there is none.
pub(crate) fn listen_at<R>(rt: &R, listen: &str) -> Result<Listening, Failure>
where
    R: Wait + Threads + Clock + RandomSource + AllocGlobal + Sync + Clone + Drop + Net,
    ensures bound { IfOk result (λ listening. IsBoundBy listen.now listening.bound.address) }
    ensures failed { IfErr result (λ f. IsOfDevice devices.Listen f ⊎ (f ≡ failures.NoMemory)) }
{
    let Ok(asked) = listen.parse::<SocketAddr>() else {
        return Err(unheard(ErrorKind::InvalidInput, "no address and port"));
    };
    match bind(rt, asked) {
        Ok(listening) if is_bound(asked, listening.bound.address()) => Ok(listening),
        Ok(_listening) => Err(unheard(ErrorKind::AddrNotAvailable, "another address was bound")),
        Err(error) => Err(Failure::of_error(Device::Listen, error)),
    }
}
