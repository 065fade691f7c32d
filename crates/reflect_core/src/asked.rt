//! The requests of a body, each with what answers it.

ghost use Rattle.std.specs.Prelude.{◌≡◌, ◌<◌, All, IfOk, map};
ghost use Rattle.std.specs.List.{AllZip};
ghost use Rattle.std.specs.Option.{ForSome};
ghost use Rattle.proto_links.specs.Linked.{count_of};
ghost use Rattle.reflect_core.specs.Response.{IsAsked, root};
ghost use Rattle.reflect_core.specs.ResponseSteps.{IsRootWithin, asked_of};
ghost use Rattle.reflect_requests.specs.ProgramFrames.{Reads, bytes_of};

use crate::answer::{Answer, answer_to};
use proto_compilation::Compiled;
use proto_links::FileId;
use reflect_requests::Message;
use std::alloc::{AllocError, Global};

/// A request of a body, and what answers it.
#[derive(Clone, Copy)]
pub(crate) struct Asked<'b> {
    pub(crate) message: &'b [u8],
    pub(crate) host: &'b str,
    pub(crate) answer: Answer<'b>,
}

impl Asked<'_> {
    /// The file that the request is answered with.
    fn root(&self) -> Option<FileId>
        ensures { result ≡ root (asked_of self.now) }
    {
        match self.answer {
            Answer::File(file) => Some(file),
            _ => None,
        }
    }
}

/// The requests of messages.
pub(crate) fn asked_in<'b>(
    alloc: Global,
    compiled: &Compiled,
    messages: &[Message<'b>],
) -> Result<Vec<Asked<'b>>, AllocError>
    requires { All Reads messages.now }
    ensures asked { IfOk result (λ asked. AllZip (IsAsked compiled.now) (map bytes_of messages.now)
        (map asked_of asked.items)) }
    ensures within { IfOk result (λ asked. All
        (λ a. IsRootWithin (count_of compiled.now.links) (root (asked_of a))) asked.items) }
{
    let mut asked = Vec::with_capacity(alloc, messages.len())?;
    for message in messages {
        asked.push(Asked {
            message: message.bytes,
            host: message.request.host,
            answer: answer_to(compiled, message.request.ask),
        })?;
    }
    Ok(asked)
}

/// The file that each request is answered with.
pub(crate) fn roots_of(alloc: Global, asked: &[Asked]) -> Result<Vec<Option<FileId>>, AllocError>
    ensures { IfOk result (λ roots. roots.items ≡ map root (map asked_of asked.now)) }
{
    let mut roots = Vec::with_capacity(alloc, asked.len())?;
    for request in asked {
        roots.push(request.root())?;
    }
    Ok(roots)
}
