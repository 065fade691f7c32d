//! A listener and its address.

ghost use Rattle.std.specs.Prelude.{◌≡◌, IfOk};

use std::io;
use std::net::SocketAddr;
use tokio::net::TcpListener;

/// A listener, and the address at which it listens, as the system tells it.
#[derive(Drop)]
pub struct Bound {
    pub(crate) listener: TcpListener,
    pub(crate) address: SocketAddr,
}

impl Bound {
    pub fn of(listener: TcpListener) -> io::Result<Bound>
        ensures { IfOk result (λ bound. bound.listener ≡ listener) }
    {
        let address = listener.local_addr()?;
        Ok(Bound { listener, address })
    }

    /// The address at which it listens.
    pub fn address(&self) -> SocketAddr
        ensures { result ≡ self.now.address }
    {
        self.address
    }
}
