//! The answer to a request over HTTP.

ghost use Rattle.std.specs.Prelude.{◌≡◌, ◌↔◌, IfOk, IsTrue, codes, option_map};
ghost use Rattle.grpcweb_core.specs.Http.{IsAnswerOverHttp, IsGrpcWebIfAny, answer_over_http, framed, method_not_allowed, unsupported_media_type};

use crate::content_type::is_grpc_web;
use crate::target::is_reflection;
use proto_compilation::Compiled;
use reflect_core::{Mode, answer_body, response_without_replies};
use reflect_requests::Status;
use share_work::{Gate, Plan};
use std::alloc::{AllocError, AllocGlobal, Global};
use std::thread::Threads;

/// An answer over HTTP: its status, its header fields in their order, and its body.
#[derive(Debug, Drop)]
pub struct HttpAnswer {
    pub status: u16,
    pub headers: Vec<(&'static str, &'static str)>,
    pub body: Vec<u8>,
}

fn is_post(method: &str) -> bool
    ensures { IsTrue result ↔ (method.now ≡ codes "POST") }
{
    method == "POST"
}

/// Whether there is a content type, and it is one of gRPC-Web in binary frames.
fn is_accepted(content_type: Option<&str>) -> bool
    ensures { IsTrue result ↔ IsGrpcWebIfAny (option_map (λ text. text.now) content_type.entry) }
{
    match content_type {
        Some(text) => is_grpc_web(text),
        None => false,
    }
}

/// A response in frames.
fn in_frames(alloc: Global, body: Vec<u8>) -> Result<HttpAnswer, AllocError>
    ensures { IfOk result (λ answer. answer_over_http answer ≡ framed body.items) }
{
    let headers = vec![in alloc; ("content-type", "application/grpc-web+proto")]?;
    Ok(HttpAnswer {
        status: 200,
        headers,
        body,
    })
}

/// What a method other than `POST` is answered.
fn not_allowed(alloc: Global) -> Result<HttpAnswer, AllocError>
    ensures { IfOk result (λ answer. answer_over_http answer ≡ method_not_allowed) }
{
    let headers = vec![in alloc; ("allow", "POST")]?;
    Ok(HttpAnswer {
        status: 405,
        headers,
        body: Vec::new(alloc),
    })
}

/// What a body of another content type is answered.
fn unsupported(alloc: Global) -> HttpAnswer
    ensures { answer_over_http result ≡ unsupported_media_type }
{
    HttpAnswer {
        status: 415,
        headers: Vec::new(alloc),
        body: Vec::new(alloc),
    }
}

/// The answer to a request over HTTP, in this order:
///
/// - a target whose path is no reflection service's gets 200, with trailers of the status 12 alone;
/// - a method other than `POST` gets 405;
/// - a content type that is not of gRPC-Web in binary frames, or none, gets 415;
/// - else 200, with the response to the body (`answer_body`).
///
/// `target` is a path with or without a query, which is ignored. It fails only for want of memory.
pub fn respond<R, G>(
    rt: &R,
    compiled: &Compiled,
    plan: Plan,
    gate: &G,
    mode: Mode,
    method: &str,
    target: &str,
    content_type: Option<&str>,
    body: &[u8],
) -> Result<HttpAnswer, AllocError>
where
    R: Threads + AllocGlobal + Sync,
    G: Gate + Sync,
    ensures { IfOk result (λ answer. IsAnswerOverHttp mode compiled.now
        record {
          method = method.now;
          target = target.now;
          content_type = option_map (λ text. text.now) content_type.entry;
          body = body.now;
        } (answer_over_http answer)) }
{
    let alloc = rt.alloc();
    if !is_reflection(target) {
        let status = Status::Unimplemented.number();
        return in_frames(alloc, response_without_replies(alloc, status)?);
    }
    if !is_post(method) {
        return not_allowed(alloc);
    }
    if !is_accepted(content_type) {
        return Ok(unsupported(alloc));
    }
    let response = answer_body(rt, compiled, plan, gate, mode, body)?;
    in_frames(alloc, response)
}
