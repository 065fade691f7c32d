//! The bytes of one reply (`reflection.proto`, `ServerReflectionResponse`).

ghost use Rattle.std.specs.Prelude.{◌≡◌, ℕ, ◌+◌, ◌++◌, ◌<◌, ◌^◌, Contains, OnOk, flat_map, length};
ghost use Rattle.proto_links.specs.Linked.{count_of};
ghost use Rattle.reflect_core.specs.ProgramAnswers.{answer_of};
ghost use Rattle.proto_compilation.specs.Extensions.{numbers_of};
ghost use Rattle.reflect_core.specs.Reply.{contents_of, extensions_bytes, files_bytes, host_field, member_of, reply};
ghost use Rattle.reflect_core.specs.ResponseSteps.{HasContents, IsReplyable, asked_of, reply_size};
ghost use Rattle.reflect_requests.specs.Frames.{frame};
ghost use Rattle.wire_format.specs.Field.{bytes_field};
ghost use Rattle.wire_format.specs.Varint.{varint_bytes};

use crate::answer::Answer;
use crate::asked::Asked;
use proto_compilation::Compiled;
use proto_links::FileId;
use std::alloc::AllocError;
use wire_format::{FieldValue, field_len, put_field, put_varint, varint_len};

/// `ErrorResponse`s: the code, which is gRPC's, and the message.
const NOT_FOUND: &[u8] = b"\x08\x05\x12\x09not found";

const EMPTY_REQUEST: &[u8] = b"\x08\x03\x12\x0Dempty request";

/// The tag of `extension_number` of an `ExtensionNumberResponse`, which is packed.
const NUMBERS_TAG: u64 = 2 * 8 + 2;

/// What replies are made of: the compilation, and its services as a `ListServiceResponse`, which may be empty where no request
/// asks for them.
#[derive(Clone, Copy)]
pub(crate) struct Material<'a> {
    pub(crate) compiled: &'a Compiled,
    pub(crate) services: &'a [u8],
}

impl Material<'_> {
    /// How long the descriptors of files are as a `FileDescriptorResponse`.
    fn files_len(&self, files: &[FileId]) -> u64
        requires inside { (a : ℕ) → Contains files.now a
            → a < count_of self.now.compiled.now.links }
        requires short { length (files_bytes self.now.compiled.now files.now) < 2 ^ 32 }
        ensures { result ≡ length (files_bytes self.now.compiled.now files.now) }
    {
        let mut len = 0;
        for file in files {
            len += field_len(1, &FieldValue::Delimited(self.compiled.bytes_at(*file)));
        }
        len
    }

    fn put_files(&self, out: &mut Vec<u8>, files: &[FileId]) -> Result<(), AllocError>
        requires inside { (a : ℕ) → Contains files.now a
            → a < count_of self.now.compiled.now.links }
        ensures { OnOk result (out.new.items ≡ out.old.items
            ++ files_bytes self.now.compiled.now files.now) }
    {
        for file in files {
            put_field(
                out,
                1,
                &FieldValue::Delimited(self.compiled.bytes_at(*file)),
            )?;
        }
        Ok(())
    }

    /// How long the numbers of a message's extensions are as varints.
    fn numbers_len(&self, message: &str) -> u64
        requires { length (flat_map varint_bytes
            (numbers_of self.now.compiled.now.extensions message.now)) < 2 ^ 32 }
        ensures { result ≡ length (flat_map varint_bytes
            (numbers_of self.now.compiled.now.extensions message.now)) }
    {
        let mut len = 0;
        for extension in self.compiled.extensions() {
            if extension.message.as_str() == message {
                len += varint_len(u64::from(extension.number)) as u64;
            }
        }
        len
    }

    /// Puts the numbers of a message's extensions as varints.
    fn put_numbers(&self, out: &mut Vec<u8>, message: &str) -> Result<(), AllocError>
        ensures { OnOk result (out.new.items ≡ out.old.items ++ flat_map varint_bytes
            (numbers_of self.now.compiled.now.extensions message.now)) }
    {
        for extension in self.compiled.extensions() {
            if extension.message.as_str() == message {
                put_varint(out, u64::from(extension.number))?;
            }
        }
        Ok(())
    }

    /// How long an `ExtensionNumberResponse` is.
    fn extensions_len(&self, message: &str) -> u64
        requires { length (extensions_bytes self.now.compiled.now message.now) < 2 ^ 32 }
        ensures { result ≡ length (extensions_bytes self.now.compiled.now message.now) }
    {
        let name = field_len(1, &FieldValue::Delimited(message.as_bytes()));
        match self.numbers_len(message) {
            0 => name,
            len => name + (varint_len(NUMBERS_TAG) + varint_len(len)) as u64 + len,
        }
    }

    /// Puts an `ExtensionNumberResponse`: no numbers, where there is none.
    fn put_extensions(&self, out: &mut Vec<u8>, message: &str) -> Result<(), AllocError>
        requires { length (extensions_bytes self.now.compiled.now message.now) < 2 ^ 32 }
        ensures { OnOk result (out.new.items ≡ out.old.items
            ++ extensions_bytes self.now.compiled.now message.now) }
    {
        put_field(out, 1, &FieldValue::Delimited(message.as_bytes()))?;
        match self.numbers_len(message) {
            0 => Ok(()),
            len => {
                put_varint(out, NUMBERS_TAG)?;
                put_varint(out, len)?;
                self.put_numbers(out, message)
            }
        }
    }

    /// How long is what the member of a reply holds.
    pub(crate) fn contents_len(&self, answer: Answer, files: &[FileId]) -> u64
        requires { HasContents self.now.compiled.now self.now.services.now (answer_of answer)
            files.now }
        ensures { result ≡ length (contents_of self.now.compiled.now files.now
            (answer_of answer.entry)) }
    {
        match answer {
            Answer::File(_) => self.files_len(files),
            Answer::Extensions(name) => self.extensions_len(name),
            Answer::Services => self.services.len() as u64,
            Answer::NotFound => NOT_FOUND.len() as u64,
            Answer::EmptyRequest => EMPTY_REQUEST.len() as u64,
        }
    }

    fn put_contents(
        &self,
        out: &mut Vec<u8>,
        answer: Answer,
        files: &[FileId],
    ) -> Result<(), AllocError>
        requires { HasContents self.now.compiled.now self.now.services.now (answer_of answer)
            files.now }
        ensures { OnOk result (out.new.items ≡ out.old.items
            ++ contents_of self.now.compiled.now files.now (answer_of answer.entry)) }
    {
        match answer {
            Answer::File(_) => self.put_files(out, files),
            Answer::Extensions(name) => self.put_extensions(out, name),
            Answer::Services => out.extend_from_slice(self.services),
            Answer::NotFound => out.extend_from_slice(NOT_FOUND),
            Answer::EmptyRequest => out.extend_from_slice(EMPTY_REQUEST),
        }
    }

    /// Appends the reply to a request that carries these files; what its member holds has this length.
    fn put_reply(
        &self,
        out: &mut Vec<u8>,
        asked: &Asked,
        files: &[FileId],
        contents_len: u64,
    ) -> Result<(), AllocError>
        requires replyable { IsReplyable self.now.compiled.now self.now.services.now
            (asked_of asked.now) files.now }
        requires len { contents_len
            ≡ length (contents_of self.now.compiled.now files.now (asked_of asked.now).answer) }
        ensures { OnOk result (out.new.items ≡ out.old.items
            ++ reply self.now.compiled.now (asked_of asked.now) files.now) }
    {
        put_host(out, asked.host)?;
        put_field(out, 2, &FieldValue::Delimited(asked.message))?;
        put_varint(out, u64::from(member(asked.answer)) * 8 + 2)?;
        put_varint(out, contents_len)?;
        self.put_contents(out, asked.answer, files)
    }

    /// Appends the reply to a request that carries these files, in a frame; what its member holds has this length.
    pub(crate) fn put_frame(
        &self,
        out: &mut Vec<u8>,
        asked: &Asked,
        files: &[FileId],
        contents_len: u64,
    ) -> Result<(), AllocError>
        requires replyable { IsReplyable self.now.compiled.now self.now.services.now
            (asked_of asked.now) files.now }
        requires len { contents_len
            ≡ length (contents_of self.now.compiled.now files.now (asked_of asked.now).answer) }
        ensures { OnOk result (out.new.items ≡ out.old.items
            ++ frame 0 (reply self.now.compiled.now (asked_of asked.now) files.now)) }
    {
        let len = reply_len(asked, contents_len) as u32;
        out.push(0)?;
        out.extend_from_slice(&len.to_be_bytes())?;
        self.put_reply(out, asked, files, contents_len)
    }
}

/// How many bytes the reply to a request has whose member holds so many.
pub(crate) fn reply_len(asked: &Asked, contents_len: u64) -> u64
    requires { reply_size (asked_of asked.now) contents_len < 2 ^ 32 }
    ensures len { result ≡ reply_size (asked_of asked.now) contents_len }
    ensures most { result < 2 ^ 32 }
{
    let tag = u64::from(member(asked.answer)) * 8 + 2;
    let message = field_len(2, &FieldValue::Delimited(asked.message));
    let header = (varint_len(tag) + varint_len(contents_len)) as u64;
    host_len(asked.host) + message + header + contents_len
}

/// The number of the member of the oneof `message_response` that holds an answer.
fn member(answer: Answer) -> u32
    ensures { result ≡ member_of (answer_of answer.entry) }
{
    match answer {
        Answer::File(_) => 4,
        Answer::Extensions(_) => 5,
        Answer::Services => 6,
        Answer::NotFound | Answer::EmptyRequest => 7,
    }
}

fn host_len(host: &str) -> u64
    ensures len { result ≡ length (host_field host.now) }
    ensures most { result < 2 ^ 63 + 20 }
{
    if host.is_empty() {
        0
    } else {
        field_len(1, &FieldValue::Delimited(host.as_bytes()))
    }
}

fn put_host(out: &mut Vec<u8>, host: &str) -> Result<(), AllocError>
    ensures { OnOk result (out.new.items ≡ out.old.items ++ host_field host.now) }
{
    if host.is_empty() {
        Ok(())
    } else {
        put_field(out, 1, &FieldValue::Delimited(host.as_bytes()))
    }
}
