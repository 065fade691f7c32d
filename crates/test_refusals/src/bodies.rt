//! Fields, requests and bodies, and what they are answered.

use crate::answers::{Answer, answer_of, bytes_answer, failed};
use grpcweb_core::{Counted, HttpAnswer, IoFault, answer_io, respond};
use proto_base::Limits;
use proto_compile::Compiled;
use reflect_core::{Mode, answer_body};
use reflect_requests::{Ask, Request, read_frames, read_request};
use share_work::{NoGate, Plan};
use std::alloc::{AllocError, AllocGlobal, Global};
use std::io::{self, Write};
use std::thread::Threads;
use wire_format::{Field, FieldValue, WireError, put_field, put_varint, read_fields};

/// A request for a file.
const REQUEST: &[u8] = b"\x1A\x07a.proto";

/// Requests for two files, and for the first again.
const BODY: &[u8] =
    b"\x00\x00\x00\x00\x09\x1A\x07a.proto\x00\x00\x00\x00\x09\x1A\x07b.proto\x00\x00\x00\x00\x09\x1A\x07a.proto";

/// The response: a reply with the first file and the one that it imports, two with none, and the trailers.
const RESPONSE: &[u8] = b"\x00\x00\x00\x00\x44\
    \x12\x09\x1A\x07a.proto\
    \x22\x37\x0A\x1A\x0A\x07a.proto\x1A\x07b.proto\x62\x06proto3\
    \x0A\x19\x0A\x07b.proto\x12\x01p\x32\x03\x0A\x01S\x62\x06proto3\
    \x00\x00\x00\x00\x0D\x12\x09\x1A\x07b.proto\x22\x00\
    \x00\x00\x00\x00\x0D\x12\x09\x1A\x07a.proto\x22\x00\
    \x80\x00\x00\x00\x0Fgrpc-status:0\r\n";

/// The response to an empty body.
const TRAILERS: &[u8] = b"\x80\x00\x00\x00\x0Fgrpc-status:0\r\n";

/// The path of the service.
const PATH: &str = "/grpc.reflection.v1.ServerReflection/ServerReflectionInfo";

/// Whether what was put stands behind a byte, or nothing where there was no memory.
fn put_answer(put: Result<(), AllocError>, out: &[u8], wanted: &[u8]) -> Answer {
    match put {
        Ok(()) => answer_of(out.strip_prefix(b"\xAA".as_slice()) == Some(wanted)),
        Err(AllocError) => failed(out == b"\xAA".as_slice()),
    }
}

/// A vector of one byte, without room for more.
fn full(alloc: Global) -> Result<Vec<u8>, AllocError> {
    Vec::from_slice(alloc, b"\xAA".as_slice())
}

pub(crate) fn puts_varint(alloc: Global) -> Answer {
    let Ok(mut out) = full(alloc) else {
        return Answer::NoMemory;
    };
    let put = put_varint(&mut out, 18_999);
    put_answer(put, &out, b"\xB7\x94\x01")
}

pub(crate) fn puts_field(alloc: Global) -> Answer {
    let Ok(mut out) = full(alloc) else {
        return Answer::NoMemory;
    };
    let put = put_field(&mut out, 1, &FieldValue::Delimited(b"a.proto"));
    put_answer(put, &out, b"\x0A\x07a.proto")
}

/// Whether these are the fields of the request.
fn are_fields(fields: &[Field]) -> bool {
    let [field] = fields else {
        return false;
    };
    let FieldValue::Delimited(bytes) = field.value else {
        return false;
    };
    field.number == 3 && bytes == b"a.proto".as_slice()
}

pub(crate) fn has_fields(alloc: Global) -> Answer {
    match read_fields(alloc, REQUEST) {
        Ok(fields) => answer_of(are_fields(&fields)),
        Err(error) => failed(matches!(error, WireError::NoMemory)),
    }
}

/// Whether this is the request.
fn is_request(request: Request) -> bool {
    match request.ask {
        Ask::FileByName(name) => request.host.is_empty() && name == "a.proto",
        _ => false,
    }
}

pub(crate) fn has_request(alloc: Global) -> Answer {
    match read_request(alloc, REQUEST) {
        Ok(request) => answer_of(is_request(request)),
        Err(error) => failed(matches!(error, WireError::NoMemory)),
    }
}

/// Whether these are the messages of the body.
fn are_messages(messages: &[&[u8]]) -> bool {
    let [first, second, third] = messages else {
        return false;
    };
    *first == REQUEST && *second == b"\x1A\x07b.proto".as_slice() && *third == REQUEST
}

pub(crate) fn has_frames(alloc: Global) -> Answer {
    match read_frames(alloc, BODY, &Limits::standard()) {
        Ok(frames) => answer_of(frames.status == 0 && are_messages(&frames.messages)),
        Err(AllocError) => Answer::NoMemory,
    }
}

/// The response by two workers.
pub(crate) fn is_answered<R: Threads + AllocGlobal + Sync>(rt: &R, compiled: &Compiled) -> Answer {
    let Some(plan) = Plan::new(2, 1) else {
        return Answer::Other;
    };
    let made = answer_body(rt, compiled, plan, &NoGate, Mode::Once, BODY);
    bytes_answer(&made, RESPONSE)
}

fn is_http_answer(answer: &HttpAnswer) -> bool {
    let headers = [("content-type", "application/grpc-web+proto")];
    answer.status == 200
        && answer.headers.as_slice() == headers.as_slice()
        && answer.body.as_slice() == TRAILERS
}

fn http_answer(made: &Result<HttpAnswer, AllocError>) -> Answer {
    match made {
        Ok(answer) => answer_of(is_http_answer(answer)),
        Err(AllocError) => Answer::NoMemory,
    }
}

pub(crate) fn is_responded<R: Threads + AllocGlobal + Sync>(rt: &R, compiled: &Compiled) -> Answer {
    let made = respond(
        rt,
        compiled,
        Plan::single(),
        &NoGate,
        Mode::Once,
        "POST",
        PATH,
        Some("application/grpc-web; x=1"),
        b"",
    );
    let answer = http_answer(&made);
    drop(made);
    answer
}

/// A writer that takes no memory: it knows what is to come.
#[derive(Drop)]
struct Expecting {
    left: &'static [u8],
    is_other: bool,
}

impl Write for Expecting {
    fn write(&mut self, buffer: &[u8]) -> io::Result<usize> {
        match self.left.strip_prefix(buffer) {
            Some(left) => self.left = left,
            None => self.is_other = true,
        }
        Ok(buffer.len())
    }

    fn flush(&mut self) -> io::Result<()> {
        Ok(())
    }
}

/// Whether an exchange ended with all that was to come written, or without memory and nothing written.
fn end_answer(end: Result<(), IoFault>, output: &Expecting) -> Answer {
    if output.is_other {
        return Answer::Other;
    }
    let left = output.left.len();
    match end {
        Ok(()) => answer_of(left == 0),
        Err(IoFault::NoMemory) => failed(left == TRAILERS.len()),
        Err(_) => Answer::Other,
    }
}

pub(crate) fn is_exchanged<R: Threads + AllocGlobal + Sync>(rt: &R, compiled: &Compiled) -> Answer {
    let mut output = Expecting {
        left: TRAILERS,
        is_other: false,
    };
    let mut reader = Counted::new(io::empty());
    let mut writer = Counted::new(&mut output);
    let end = answer_io(
        rt,
        compiled,
        Plan::single(),
        &NoGate,
        Mode::Once,
        &mut reader,
        &mut writer,
    );
    end_answer(end, &output)
}
