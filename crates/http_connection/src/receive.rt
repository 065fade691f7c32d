//! Receiving a request: its head, and its body to the end or to so many bytes.

ghost use Rattle.std.specs.Prelude.{◌≡◌, ◌≤◌, ◌↔◌, ◌-◌, ◌++◌, [], length, take, IsTrue, OnOk, IfOk, Some};
ghost use Rattle.hyper.specs.Incoming.{IncomingNeeds};
ghost use Rattle.http.specs.Request.{body_of, head_of};
ghost use Rattle.http_connection.specs.Receiving.{MayReceive, Takes};

use crate::fault::ConnectionFault;
use bytes::{Buf, Bytes};
use futures::task::{Context, Poll};
use futures::{Future, ready};
use http::Request;
use http::request::Parts;
use http_body::{Body, Frame};
use hyper::body::Incoming;
use std::alloc::{AllocError, Global};
use std::mem;

/// A request whose body comes in.
#[derive(Drop)]
pub(crate) struct Receiving<I> {
    head: Option<Parts>,
    incoming: Incoming<I>,
    body: Vec<u8>,
    /// How many bytes of a body are read at most.
    most: usize,
}

/// Receives a request, of whose body so many bytes are read at most.
pub(crate) fn receive<I: Drop>(
    alloc: Global,
    request: Request<Incoming<I>>,
    most: usize,
) -> Receiving<I>
    ensures head { result.head ≡ Some (head_of request) }
    ensures incoming { result.incoming ≡ body_of request }
    ensures body { result.body.items ≡ [] }
    ensures most { result.most ≡ most }
{
    let (head, incoming) = request.into_parts();
    Receiving {
        head: Some(head),
        incoming,
        body: Vec::new(alloc),
        most,
    }
}

/// Adds a piece to a body, but for what is over `most`.
fn take_piece(body: &mut Vec<u8>, piece: &[u8], most: usize) -> Result<(), AllocError>
    ensures ok { OnOk result (body.new.items
        ≡ body.old.items ++ take (most - length body.old.items) piece.now) }
{
    let room = most.saturating_sub(body.len());
    body.extend_from_slice(&piece[..room.min(piece.len())])
}

/// How many pieces one poll takes at most, so that a fast client leaves the runtime its turn.
const PIECES: u32 = 128;

impl<I> Receiving<I> {
    fn is_full(&self) -> bool
        ensures { IsTrue result ↔ (self.now.most ≤ length self.now.body.items) }
    {
        self.body.len() >= self.most
    }

    /// Adds what a frame has of the body, up to so many bytes.
    fn take_frame(&mut self, frame: &Frame<Bytes>) -> Result<(), AllocError>
        ensures ok { OnOk result (Takes self.old frame.now self.new) }
        ensures incoming { self.new.incoming ≡ self.old.incoming }
    {
        match frame.data_ref() {
            Some(piece) => take_piece(&mut self.body, piece.as_slice(), self.most),
            None => Ok(()),
        }
    }

    /// The request, whose body was read to its end, or to so many bytes.
    fn take_request(&mut self) -> Result<Request<Vec<u8>>, ConnectionFault>
        ensures incoming { self.new.incoming ≡ self.old.incoming }
        ensures request { IfOk result (λ r. (self.old.head ≡ Some (head_of r))
            × (body_of r ≡ self.old.body)) }
    {
        let Some(head) = self.head.take() else {
            return Err(ConnectionFault::Body);
        };
        let alloc = *self.body.allocator();
        let body = mem::replace(&mut self.body, Vec::new(alloc));
        Ok(Request::from_parts(head, body))
    }
}

impl<I: Drop> Future for Receiving<I> {
    type Output = Result<Request<Vec<u8>>, ConnectionFault>;

    ghost needs = { λ a. IncomingNeeds a.incoming };

    ghost gives = { λ a r. IfOk r (MayReceive a) };

    fn poll(&mut self, cx: &mut Context<'_>) -> Poll<Result<Request<Vec<u8>>, ConnectionFault>> {
        for _ in 0..PIECES {
            if self.is_full() {
                return Poll::Ready(self.take_request());
            }
            match ready!(self.incoming.poll_frame(cx)) {
                Some(Ok(frame)) => {
                    if self.take_frame(&frame).is_err() {
                        return Poll::Ready(Err(ConnectionFault::NoMemory));
                    }
                }
                Some(Err(_)) => return Poll::Ready(Err(ConnectionFault::Body)),
                None => return Poll::Ready(self.take_request()),
            }
        }
        cx.yield_now()
    }
}
