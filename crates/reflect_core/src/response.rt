//! The bytes of a response: the replies in frames, and the trailer.

ghost use Rattle.std.specs.Prelude.{◌≡◌, ◌++◌, IfOk, OnOk, flat_map, length, map};
ghost use Rattle.reflect_core.specs.Reply.{services_bytes};
ghost use Rattle.reflect_core.specs.Response.{replies_to, trailer};
ghost use Rattle.reflect_core.specs.ResponseSteps.{AreContentsLengths, AreReplyable, AreServicesFor, asked_of, files_of};
ghost use Rattle.reflect_requests.specs.Frames.{frame};

use crate::answer::Answer;
use crate::asked::Asked;
use crate::reply::{Material, reply_len};
use proto_compilation::Compiled;
use proto_links::FileId;
use std::alloc::{AllocError, Global};
use wire_format::{FieldValue, field_len, put_field, put_varint};

/// The flag of a frame of trailers.
const TRAILERS: u8 = 128;

/// The bytes of a frame in front of its message.
const FRAME_HEAD: u64 = 5;

/// The most bytes of a frame of trailers.
const TRAILER_MOST: u64 = 32;

/// The services as a `ListServiceResponse`.
fn list_of_services(alloc: Global, compiled: &Compiled) -> Result<Vec<u8>, AllocError>
    ensures { IfOk result (λ bytes. bytes.items ≡ services_bytes compiled.now) }
{
    let mut out = Vec::new(alloc);
    for name in compiled.names().services() {
        let name = FieldValue::Delimited(name.as_bytes());
        put_varint(&mut out, 1 * 8 + 2)?;
        put_varint(&mut out, field_len(1, &name))?;
        put_field(&mut out, 1, &name)?;
    }
    Ok(out)
}

/// The services as a `ListServiceResponse`, made once, and only where a request asks for them.
pub(crate) fn services_for(
    alloc: Global,
    compiled: &Compiled,
    asked: &[Asked],
) -> Result<Vec<u8>, AllocError>
    ensures { IfOk result (λ bytes. AreServicesFor compiled.now asked.now bytes.items) }
{
    for request in asked {
        if let Answer::Services = request.answer {
            return list_of_services(alloc, compiled);
        }
    }
    Ok(Vec::new(alloc))
}

/// How long is what the member of each reply holds: its files are gone over once for it.
fn contents_lengths(
    alloc: Global,
    material: Material,
    asked: &[Asked],
    carried: &[Vec<FileId>],
) -> Result<Vec<u64>, AllocError>
    requires { AreReplyable material.compiled.now material.services.now asked.now carried.now }
    ensures { IfOk result (λ lengths. AreContentsLengths material.entry.compiled.now asked.now
        carried.now lengths.items (length asked.now)) }
{
    let mut lengths = Vec::with_capacity(alloc, asked.len())?;
    for (position, request) in asked.iter().enumerate() {
        let files = carried[position].as_slice();
        lengths.push(material.contents_len(request.answer, files))?;
    }
    Ok(lengths)
}

/// How many bytes a response may have.
fn room_for(material: Material, asked: &[Asked], carried: &[Vec<FileId>], lengths: &[u64]) -> u64
    requires replyable { AreReplyable material.compiled.now material.services.now asked.now
        carried.now }
    requires lengths { AreContentsLengths material.compiled.now asked.now carried.now lengths.now
        (length asked.now) }
{
    let mut room = TRAILER_MOST;
    for (position, request) in asked.iter().enumerate() {
        let len = reply_len(request, lengths[position]);
        room = room.saturating_add(FRAME_HEAD + len);
    }
    room
}

/// Appends the trailers of a stream that ends with this status.
fn put_trailer(alloc: Global, out: &mut Vec<u8>, status: u8) -> Result<(), AllocError>
    ensures { OnOk result (out.new.items ≡ out.old.items ++ frame 128 (trailer status)) }
{
    let text = format!(in alloc; "grpc-status:{status}\r\n")?;
    out.push(TRAILERS)?;
    out.extend_from_slice(&(text.len() as u32).to_be_bytes())?;
    out.extend_from_slice(text.as_bytes())
}

/// The response of a stream that ends with this status (gRPC's statuscodes.md) before any reply.
pub fn response_without_replies(alloc: Global, status: u8) -> Result<Vec<u8>, AllocError>
    ensures { IfOk result (λ bytes. bytes.items ≡ frame 128 (trailer status)) }
{
    let mut out = Vec::new(alloc);
    put_trailer(alloc, &mut out, status)?;
    Ok(out)
}

/// The response to requests, of which each reply carries these files.
pub(crate) fn response_to(
    alloc: Global,
    material: Material,
    asked: &[Asked],
    carried: &[Vec<FileId>],
    status: u8,
) -> Result<Vec<u8>, AllocError>
    requires { AreReplyable material.compiled.now material.services.now asked.now carried.now }
    ensures { IfOk result (λ bytes. bytes.items
        ≡ flat_map (frame 0) (replies_to material.entry.compiled.now (map asked_of asked.now)
        (map files_of carried.now)) ++ frame 128 (trailer status)) }
{
    let lengths = contents_lengths(alloc, material, asked, carried)?;
    let room = room_for(material, asked, carried, &lengths);
    let mut out = Vec::with_capacity(alloc, usize::try_from(room).unwrap_or(usize::MAX))?;
    for (position, request) in asked.iter().enumerate() {
        let files = carried[position].as_slice();
        material.put_frame(&mut out, request, files, lengths[position])?;
    }
    put_trailer(alloc, &mut out, status)?;
    Ok(out)
}
