//! What `hyper` calls with each request of a connection.

ghost use Rattle.std.specs.Prelude.{IfOk, IfSome};
ghost use Rattle.std.specs.Arc.{arc_value};
ghost use Rattle.hyper.specs.Incoming.{IncomingNeeds};
ghost use Rattle.http_connection.specs.Responses.{IsAnsweredAsItCame};
ghost use Rattle.http_connection.specs.Exchange.{MayAnswer};

use crate::answer::answer;
use crate::fault::ConnectionFault;
use crate::journal::Progress;
use crate::noted::Notes;
use crate::receive::{Receiving, receive};
use crate::responder::Responder;
use bytes::Bytes;
use futures::Future;
use futures::task::{Context, Poll};
use http::{Request, Response};
use http_body_util::Full;
use hyper::body::Incoming;
use hyper::service::Service;
use std::alloc::Global;
use std::sync::Arc;
use tokio::net::TcpStream;

/// Receives each request of a connection, and has it answered.
#[derive(Drop)]
pub(crate) struct ResponderService<T> {
    pub(crate) alloc: Global,
    pub(crate) responder: Arc<T>,
    pub(crate) notes: Notes,
    /// How many bytes of a body are read at most.
    pub(crate) most: usize,
}

/// A request that comes in, and is answered then.
#[derive(Drop)]
pub(crate) struct ResponseFuture<T> {
    /// Nothing where memory ran out.
    responder: Option<Arc<T>>,
    notes: Notes,
    receiving: Receiving<TcpStream>,
}

impl<T: Responder> Future for ResponseFuture<T> {
    type Output = Result<Response<Full<Bytes>>, ConnectionFault>;

    ghost can_poll = { λ a. IfSome a.responder (λ shared. T.can_respond (arc_value shared)) };

    ghost needs = { λ a. IncomingNeeds a.receiving.incoming };

    ghost gives = { λ a r. IfOk r (MayAnswer T.responds a) };

    fn poll(
        &mut self,
        cx: &mut Context<'_>,
    ) -> Poll<Result<Response<Full<Bytes>>, ConnectionFault>> {
        match self.receiving.poll(cx) {
            Poll::Ready(received) => {
                let answered = answer(&self.responder, &self.notes, received);
                if let Err(fault) = &answered {
                    self.notes.put(Progress::Failed(*fault));
                }
                Poll::Ready(answered)
            }
            Poll::Pending => Poll::Pending,
        }
    }
}

impl<T: Responder> Service<Request<Incoming>> for ResponderService<T> {
    type Response = Response<Full<Bytes>>;

    type Error = ConnectionFault;

    type Future = ResponseFuture<T>;

    ghost can_call = { λ s. T.can_respond (arc_value s.responder) };

    ghost calls = { λ s request future. (sent : _) → MayAnswer T.responds future sent
        → IsAnsweredAsItCame T.responds (arc_value s.responder) s.most request sent };

    fn call(&self, request: Request<Incoming>) -> ResponseFuture<T> {
        self.notes.put(Progress::Asked);
        ResponseFuture {
            responder: Arc::try_clone(&self.responder).ok(),
            notes: self.notes.share(),
            receiving: receive(self.alloc, request, self.most),
        }
    }
}
