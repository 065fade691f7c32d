//! Serving connections.

ghost use Rattle.std.specs.Prelude.{◌≡◌, IfOk, Some};
ghost use Rattle.std.specs.Arc.{arc_value};

use crate::arrivals::Arrivals;
use crate::bound::Bound;
use crate::connections::Connections;
use crate::journal::Journal;
use crate::options::ServeOptions;
use crate::responder::Responder;
use crate::trouble::ServeTrouble;
use hyper::server::conn::http1;
use std::alloc::AllocGlobal;
use std::hash::RandomState;
use std::random::RandomSource;
use std::sync::{Arc, Wait};
use std::thread::Threads;
use std::time::Clock;
use tokio::runtime::Runtime;

/// Serves connections, as many at once as the options say, and gives how many there were. Without a count of connections it ends
/// only with a fault.
///
/// A connection carries one request, of whose body so many bytes are read at most, and is closed behind the response. It ends when
/// the time of its client is over, too. What goes wrong with it, want of memory in its response too, is its client's to see.
///
/// As many are accepted as are served at once, so that the others wait for the system to hand them over. Where the system hands
/// over none, or memory is short, while connections are open, the next is accepted when one of these has ended. The service ends
/// where none is open.
pub fn serve_connections<R, T, J>(
    rt: &R,
    runtime: &mut Runtime,
    bound: Bound,
    responder: Arc<T>,
    most: usize,
    options: ServeOptions,
    connections: Option<u64>,
    journal: J,
) -> Result<u64, ServeTrouble>
where
    R: Wait + Threads + Clock + RandomSource + AllocGlobal + Sync,
    T: Responder,
    J: Journal,
    requires { T.can_respond (arc_value responder) }
    ensures { IfOk result (λ count. connections ≡ Some count) }
{
    let Bound {
        listener,
        address: _,
    } = bound;
    let keys = RandomState::new(rt)?;
    let arrivals = Arrivals {
        rt,
        listener,
        http: http1::Builder::new(rt.alloc(), keys),
        responder,
        most,
        timers: runtime.handle().time().clone()?,
        client_time: options.client_time(),
        is_noted: journal.is_kept(),
    };
    let open_at_once = options.clients() as usize;
    let served = Connections::new(rt.alloc(), arrivals, journal, open_at_once, connections)?;
    runtime.block_on(rt, served)?
}
