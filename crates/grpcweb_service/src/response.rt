//! The answers of reflection, as responses of `http`.

ghost use Rattle.std.specs.Prelude.{◌≡◌, ◌+◌, ◌-◌, ◌*◌, ◌/◌, ◌^◌, IfOk, OnOk, map, min, option_map};
ghost use Rattle.grpcweb_core.specs.Http.{answer_over_http};
ghost use Rattle.grpcweb_service.specs.Responses.{IsResponseFor, IsResponseOf, content_type_of, fields_behind};
ghost use Rattle.http.specs.StatusCode.{IsStatusCode};
ghost use Rattle.http.specs.FieldValue.{plain_value};
ghost use Rattle.http.specs.HeaderMap.{append};
ghost use Rattle.http.specs.Token.{lowercase};

use crate::line::line_of;
use grpcweb_core::{HttpAnswer, Mode, respond};
use http::response::Parts;
use http::{HeaderMap, HeaderName, HeaderValue, Request, Response, StatusCode, header};
use http_connection::Answered;
use proto_compilation::Compiled;
use share_work::{Gate, Plan};
use std::alloc::{AllocError, AllocGlobal, Global};
use std::thread::Threads;
use std::time::{Clock, Instant};

/// So many bytes of a body, each counted once for each file of the compilation, are worth a worker: fewer are answered
/// sooner than its thread starts (bench/RESULTS.md).
const WORTH_A_WORKER: usize = 1 << 30;

/// As many workers as a body of so many bytes is worth, where a request may reach so many files, up to those of a plan.
/// They change no byte of an answer.
fn plan_for(plan: Plan, len: usize, files: usize) -> Plan
    ensures workers { result.workers
        ≡ min plan.workers (1 + min (len * files) (2 ^ 64 - 1) / 1_073_741_824) }
    ensures cut { result.cut ≡ plan.cut }
{
    let worth = 1 + len.saturating_mul(files) / WORTH_A_WORKER;
    Plan::new(worth.min(plan.workers() as usize) as u32, plan.cut()).unwrap_or(plan)
}

/// Adds a field behind the others.
fn put_field(
    alloc: Global,
    fields: &mut HeaderMap,
    name: &str,
    text: &str,
) -> Result<(), AllocError>
    ensures { OnOk result (fields.new ≡ append fields.old (lowercase name.now) (plain_value text.now)) }
{
    let name = HeaderName::from_bytes(alloc, name.as_bytes()).map_err(|_| AllocError)?;
    let value = HeaderValue::from_str(alloc, text).map_err(|_| AllocError)?;
    match fields.append(name, value) {
        Ok(_) => Ok(()),
        Err(_) => Err(AllocError),
    }
}

/// Adds fields behind the others, in their order.
fn put_fields(
    alloc: Global,
    fields: &mut HeaderMap,
    added: &[(&'static str, &'static str)],
) -> Result<(), AllocError>
    ensures { OnOk result (fields.new ≡ fields_behind fields.old
        (map (λ field. (field.0.now, field.1.now)) added.now)) }
{
    for (name, text) in added {
        put_field(alloc, fields, name, text)?;
    }
    Ok(())
}

/// The response that is an answer.
fn response_of(alloc: Global, answer: HttpAnswer) -> Result<Response<Vec<u8>>, AllocError>
    requires { IsStatusCode answer.status }
    ensures { IfOk result (IsResponseOf (answer_over_http answer)) }
{
    let HttpAnswer {
        status,
        headers,
        body,
    } = answer;
    let mut head = Parts::new(alloc);
    let Ok(code) = StatusCode::from_u16(status) else {
        unreachable!()
    };
    head.status = code;
    put_fields(alloc, &mut head.headers, &headers)?;
    Ok(Response::from_parts(head, body))
}

/// The content type of a request. The first field counts, and one that is no text counts as none.
fn content_type_of(request: &Request<Vec<u8>>) -> Option<&str>
    ensures { option_map (λ text. text.now) result ≡ content_type_of request.entry.now }
{
    match request.headers().get(header::CONTENT_TYPE) {
        Some(value) => value.to_str().ok(),
        None => None,
    }
}

/// The response to a request (`respond`).
fn response_to<R, G>(
    rt: &R,
    compiled: &Compiled,
    plan: Plan,
    gate: &G,
    mode: Mode,
    request: &Request<Vec<u8>>,
) -> Result<Response<Vec<u8>>, AllocError>
where
    R: Threads + AllocGlobal + Sync,
    G: Gate + Sync,
    ensures { IfOk result (IsResponseFor mode compiled.now request.now) }
{
    let answer = respond(
        rt,
        compiled,
        plan_for(plan, request.body().len(), compiled.links().count()),
        gate,
        mode,
        request.method().as_str(),
        request.uri().path(),
        content_type_of(request),
        request.body(),
    )?;
    response_of(rt.alloc(), answer)
}

/// The response to a request, with a line on it where a journal is kept.
pub(crate) fn answered<R, G>(
    rt: &R,
    compiled: &Compiled,
    plan: Plan,
    gate: &G,
    mode: Mode,
    is_noted: bool,
    request: &Request<Vec<u8>>,
) -> Result<Answered, AllocError>
where
    R: Threads + Clock + AllocGlobal + Sync,
    G: Gate + Sync,
    ensures { IfOk result (λ answered. IsResponseFor mode compiled.now request.now answered.response) }
{
    if !is_noted {
        let response = response_to(rt, compiled, plan, gate, mode, request)?;
        return Ok(Answered {
            response,
            line: None,
        });
    }
    let began = Instant::now(rt);
    let response = response_to(rt, compiled, plan, gate, mode, request)?;
    let time = began.and_then(|began| began.elapsed(rt)).ok();
    let line = line_of(rt.alloc(), request, &response, time).ok();
    Ok(Answered { response, line })
}
