//! The clients of a listener.

ghost use Rattle.std.specs.Prelude.{◌≡◌, IfOk, IfSome};
ghost use Rattle.std.specs.Arc.{arc_value};
ghost use Rattle.tokio.specs.Net.{listener_readable};

use crate::limited::Limited;
use crate::noted::{Noted, Notes};
use crate::responder::Responder;
use crate::service::ResponderService;
use crate::trouble::ServeTrouble;
use bytes::Bytes;
use futures::task::{Context, Poll};
use futures::{Future, Stream, ready};
use http_body_util::Full;
use hyper::server::conn::http1;
use std::alloc::AllocGlobal;
use std::sync::Arc;
use std::time::{Clock, Duration};
use tokio::net::{TcpListener, TcpStream};
use tokio::time::Handle;

/// A connection with a client, to its end or to that of its time. What goes wrong with it is the client's to see.
pub(crate) type ClientConnection<T> = Noted<
    Limited<http1::Connection<TcpStream, ResponderService<T>, Full<Bytes>>>,
>;

/// Accepts clients, and has a connection ready for each.
#[derive(Drop)]
pub(crate) struct Arrivals<'a, R, T> {
    pub(crate) rt: &'a R,
    pub(crate) listener: TcpListener,
    pub(crate) http: http1::Builder,
    pub(crate) responder: Arc<T>,
    /// How many bytes of a body are read at most.
    pub(crate) most: usize,
    pub(crate) timers: Handle,
    /// How long a client may take.
    pub(crate) client_time: Option<Duration>,
    /// Whether a journal is kept.
    pub(crate) is_noted: bool,
}

impl<R, T> Arrivals<'_, R, T>
where
    R: Clock + AllocGlobal,
    T: Responder,
{
    /// A connection that begins now.
    fn connection(&self, socket: TcpStream) -> Result<ClientConnection<T>, ServeTrouble>
        requires { T.can_respond (arc_value self.now.responder) }
        ensures { IfOk result (λ c. ⟦<ClientConnection<T> as Future>⟧.can_poll c) }
    {
        let time = match self.client_time {
            Some(time) => Some(self.timers.sleep(self.rt, time)?),
            None => None,
        };
        let notes = Notes::new(self.rt.alloc(), self.is_noted)?;
        let service = ResponderService {
            alloc: self.rt.alloc(),
            responder: Arc::try_clone(&self.responder)?,
            notes: notes.share(),
            most: self.most,
        };
        let limited = Limited::new(self.http.serve_connection(socket, service), time);
        Ok(Noted::new(limited, notes))
    }
}

impl<R, T> Stream for Arrivals<'_, R, T>
where
    R: Clock + AllocGlobal,
    T: Responder,
{
    type Item = Result<ClientConnection<T>, ServeTrouble>;

    ghost can_poll = { λ a. T.can_respond (arc_value a.responder) };

    ghost needs = { λ a s. s ≡ listener_readable a.listener };

    ghost yields = { λ _ _ last. IfSome last
        (λ item. IfOk item (λ c. ⟦<ClientConnection<T> as Future>⟧.can_poll c)) };

    fn poll_next(
        &mut self,
        cx: &mut Context<'_>,
    ) -> Poll<Option<Result<ClientConnection<T>, ServeTrouble>>> {
        match ready!(self.listener.poll_accept(cx)) {
            Ok((socket, _)) => Poll::Ready(Some(self.connection(socket))),
            Err(error) => Poll::Ready(Some(Err(error.into()))),
        }
    }
}
