//! Frames of a request body, and the status that ends it.

ghost use Rattle.std.specs.Prelude.{◌≡◌, All, IfOk, MatchOption, MatchResult, map};
ghost use Rattle.reflect_requests.specs.Frames.{ReadsBody};
ghost use Rattle.reflect_requests.specs.ProgramFrames.{Reads, bytes_of, status_number, ask_of};
ghost use Rattle.reflect_requests.specs.Laws.{HasOneReading, HasOneRow};
ghost use Rattle.reflect_requests.specs.FramesSteps.{IsCut, IsEnd, IsNext};
ghost use Rattle.reflect_requests.specs.Request.{IsRequest, ReadsRequest};

use crate::request::{Request, read_request};
use proto_base::{Limit, Limits};
use std::alloc::{AllocError, Global};
use wire_format::WireError;

/// The status of a stream, with gRPC's names and numbers (statuscodes.md).
#[derive(Clone, Copy)]
pub enum Status {
    /// The body ends where a frame would begin.
    Ok = 0,
    /// A message is no well-formed request.
    InvalidArgument = 3,
    /// The body, a message or the number of requests is over its limit.
    ResourceExhausted = 8,
    /// A frame is compressed, or the service or method is not known.
    Unimplemented = 12,
    /// A frame is cut short, or its flag is unknown.
    Internal = 13,
}

impl Status {
    /// The number that the trailer tells.
    pub fn number(self) -> u8
        ensures { result ≡ status_number self }
    {
        self as u8
    }
}

/// A message of a body, and the request that it spells.
#[derive(Clone, Copy)]
pub struct Message<'b> {
    pub bytes: &'b [u8],
    pub request: Request<'b>,
}

/// The requests of a body, in order, and the number of the status that ends it.
#[derive(Drop)]
pub struct Stream<'b> {
    pub messages: Vec<Message<'b>>,
    pub status: u8,
}

/// The messages of a body that are requests, in order, and the number of the status that ends it.
#[derive(Drop)]
pub struct Frames<'b> {
    pub messages: Vec<&'b [u8]>,
    pub status: u8,
}

/// What stands at a place of a body.
#[derive(Clone, Copy)]
enum NextFrame<'b> {
    /// A frame: its message, and what follows it.
    Frame(Message<'b>, &'b [u8]),
    /// The end of what is read.
    End(Status),
}

/// The frame at the front, and what follows it, or the status that ends a body there. It doesn't
/// look into the message.
fn frame_at<'b>(
    limits: &Limits,
    count: usize,
    rest: &'b [u8],
) -> Result<(&'b [u8], &'b [u8]), Status>
    ensures { MatchResult result (λ cut. IsCut limits.now count rest.now cut.0.now cut.1.now)
        (IsEnd limits.now count rest.now) }
{
    let Some((flag, more)) = rest.split_first() else {
        return Err(Status::Ok);
    };
    if count as u64 >= limits.get(Limit::Requests) {
        return Err(Status::ResourceExhausted);
    }
    match flag {
        0 => {}
        1 => return Err(Status::Unimplemented),
        _ => return Err(Status::Internal),
    }
    let Some((size, after)) = more.split_first_chunk::<4>() else {
        return Err(Status::Internal);
    };
    let size = u32::from_be_bytes(*size) as usize;
    if size as u64 > limits.get(Limit::MessageBytes) {
        return Err(Status::ResourceExhausted);
    }
    if size > after.len() {
        return Err(Status::Internal);
    }
    Ok(after.split_at(size))
}

/// The request that a message spells, and `None` where it is none.
fn request_of<'b>(alloc: Global, message: &'b [u8]) -> Result<Option<Request<'b>>, AllocError>
    ensures { IfOk result (λ answer. MatchOption answer (IsRequest message.now → ⊥)
        (λ request. ReadsRequest message.now request.host.now (ask_of request.ask))) }
{
    match read_request(alloc, message) {
        Ok(request) => Ok(Some(request)),
        Err(WireError::Malformed) => Ok(None),
        Err(WireError::NoMemory) => Err(AllocError),
    }
}

/// What stands at the front of what is left of a body, behind so many frames.
fn next_frame<'b>(
    alloc: Global,
    limits: &Limits,
    count: usize,
    rest: &'b [u8],
) -> Result<NextFrame<'b>, AllocError>
    ensures { IfOk result (IsNext limits.now count rest.now) }
{
    let (message, after) = match frame_at(limits, count, rest) {
        Ok(cut) => cut,
        Err(status) => return Ok(NextFrame::End(status)),
    };
    match request_of(alloc, message)? {
        Some(request) => {
            let bytes = message;
            Ok(NextFrame::Frame(Message { bytes, request }, after))
        }
        None => Ok(NextFrame::End(Status::InvalidArgument)),
    }
}

/// The requests of a body and its status (PROTOCOL-WEB.md): the messages are the longest row of whole
/// frames of requests, each a slice of the body. A body over its limit has none.
pub fn read_stream<'b>(
    alloc: Global,
    body: &'b [u8],
    limits: &Limits,
) -> Result<Stream<'b>, AllocError>
    ensures body { IfOk result (λ stream. ReadsBody limits.now body.now
        (map bytes_of stream.messages.items) stream.status) }
    ensures requests { IfOk result (λ stream. All Reads stream.messages.items) }
{
    let mut messages = Vec::new(alloc);
    if body.len() as u64 > limits.get(Limit::BodyBytes) {
        return Ok(Stream {
            messages,
            status: Status::ResourceExhausted.number(),
        });
    }
    let mut rest = body;
    loop {
        match next_frame(alloc, limits, messages.len(), rest)? {
            NextFrame::Frame(message, after) => {
                messages.push(message)?;
                rest = after;
            }
            NextFrame::End(status) => {
                return Ok(Stream {
                    messages,
                    status: status.number(),
                });
            }
        }
    }
}

/// The messages of a body and its status, as `read_stream` has them.
pub fn read_frames<'b>(
    alloc: Global,
    body: &'b [u8],
    limits: &Limits,
) -> Result<Frames<'b>, AllocError>
    ensures { IfOk result (λ frames. ReadsBody limits.now body.now
        (map (λ message. message.now) frames.messages.items) frames.status) }
{
    let stream = read_stream(alloc, body, limits)?;
    let mut messages = Vec::with_capacity(alloc, stream.messages.len())?;
    for message in &stream.messages {
        messages.push(message.bytes)?;
    }
    Ok(Frames {
        messages,
        status: stream.status,
    })
}

/// A body has one row of frames and one rest, so it has one list of messages and one status.
pub fn frames_are_unique(limits: Limits)
    ensures row { HasOneRow limits }
    ensures reading { HasOneReading limits }
{}
