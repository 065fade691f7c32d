//! The answer to a received request, as a response of `hyper`.

ghost use Rattle.std.specs.Prelude.{◌≡◌, IfOk, IfSome, IsSomeAnd, Ok};
ghost use Rattle.std.specs.Arc.{arc_value};
ghost use Rattle.http_connection.specs.Responses.{IsAnswered, IsLastOf};

use crate::fault::ConnectionFault;
use crate::journal::Progress;
use crate::noted::Notes;
use crate::responder::{Answered, Responder};
use bytes::Bytes;
use http::{HeaderValue, Request, Response, header};
use http_body_util::Full;
use std::sync::Arc;

/// The response as the last one of its connection.
fn last_of_connection(response: Response<Vec<u8>>) -> Result<Response<Full<Bytes>>, ConnectionFault>
    ensures { IfOk result (IsLastOf response) }
{
    let (mut head, body) = response.into_parts();
    let bytes = Bytes::from_vec(body).map_err(|_| ConnectionFault::NoMemory)?;
    head.headers
        .append(header::CONNECTION, HeaderValue::from_static("close"))
        .map_err(|_| ConnectionFault::NoMemory)?;
    Ok(Response::from_parts(head, Full::new(bytes)))
}

/// Answers a request that was received, and notes what is said of it.
pub(crate) fn answer<T: Responder>(
    responder: &Option<Arc<T>>,
    notes: &Notes,
    received: Result<Request<Vec<u8>>, ConnectionFault>,
) -> Result<Response<Full<Bytes>>, ConnectionFault>
    requires { IfSome responder.now (λ shared. T.can_respond (arc_value shared)) }
    ensures { IfOk result (λ sent. (request : _) × (received ≡ Ok request)
        × IsSomeAnd responder.now (λ shared. IsAnswered T.responds (arc_value shared) request sent)) }
{
    let request = received?;
    let Some(responder) = responder else {
        return Err(ConnectionFault::NoMemory);
    };
    let Answered { response, line } = responder.respond(&request)?;
    let last = last_of_connection(response)?;
    notes.put(Progress::Answered(line));
    Ok(last)
}
