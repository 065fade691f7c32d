//! The calls that may have no memory.

use crate::answers::Answer;
use crate::{bodies, files, one_file, tables};
use proto_compile::Compiled;
use proto_desc::file::FileDesc;
use proto_tokens::Tokens;
use proto_tree::FileTree;
use std::alloc::{AllocGlobal, Global};
use std::rt::Files;
use std::thread::Threads;

/// A call, with what it is made on beside constants.
#[derive(Clone, Copy)]
pub(crate) enum Call<'a> {
    Alone(Alone),
    ReadFolder(&'a str),
    OnFile(OnFile<'a>),
    OnFiles(&'a [FileDesc<'static>], OnFiles),
    OnCompiled(&'a Compiled, OnCompiled),
}

impl Call<'_> {
    /// Makes the call, and tells what it answers.
    pub(crate) fn make<R>(self, rt: &R) -> Answer
    where
        R: Threads + Files + AllocGlobal + Sync,
    {
        match self {
            Call::Alone(call) => call.make(rt),
            Call::ReadFolder(root) => files::are_read(rt, root),
            Call::OnFile(call) => call.make(rt.alloc()),
            Call::OnFiles(descs, call) => call.make(rt, descs),
            Call::OnCompiled(compiled, call) => call.make(rt, compiled),
        }
    }
}

/// A call on constants alone.
#[derive(Clone, Copy)]
pub(crate) enum Alone {
    Tokenize,
    JsonName,
    EntryName,
    OneofName,
    PutVarint,
    PutField,
    Compile,
    Describe,
    ReadFields,
    ReadRequest,
    ReadFrames,
    InShares,
    LeastTable,
    MarkTable,
}

impl Alone {
    fn make<R: Threads + AllocGlobal + Sync>(self, rt: &R) -> Answer {
        match self {
            Alone::Tokenize => one_file::has_tokens(rt.alloc()),
            Alone::JsonName => one_file::has_json_name(rt.alloc()),
            Alone::EntryName => one_file::has_entry_name(rt.alloc()),
            Alone::OneofName => one_file::has_oneof_name(rt.alloc()),
            Alone::PutVarint => bodies::puts_varint(rt.alloc()),
            Alone::PutField => bodies::puts_field(rt.alloc()),
            Alone::Compile => files::is_compiled(rt),
            Alone::Describe => one_file::is_described(rt),
            Alone::ReadFields => bodies::has_fields(rt.alloc()),
            Alone::ReadRequest => bodies::has_request(rt.alloc()),
            Alone::ReadFrames => bodies::has_frames(rt.alloc()),
            Alone::InShares => tables::is_shared(rt),
            Alone::LeastTable => tables::has_least(rt.alloc()),
            Alone::MarkTable => tables::has_marks(rt.alloc()),
        }
    }
}

/// A call on what is made of one file.
#[derive(Clone, Copy)]
pub(crate) enum OnFile<'a> {
    Parse(&'a Tokens<'static>),
    Lower(&'a FileTree<'static>),
    FirstCheckFault(&'a FileTree<'static>, &'a FileDesc<'static>),
    FileBytes(&'a FileDesc<'static>),
    FileBytesWithin(&'a FileDesc<'static>),
}

impl OnFile<'_> {
    fn make(self, alloc: Global) -> Answer {
        match self {
            OnFile::Parse(tokens) => one_file::has_tree(alloc, tokens),
            OnFile::Lower(tree) => one_file::has_descriptor(alloc, tree),
            OnFile::FirstCheckFault(tree, desc) => one_file::has_no_fault(alloc, tree, desc),
            OnFile::FileBytes(desc) => one_file::has_bytes(alloc, desc),
            OnFile::FileBytesWithin(desc) => one_file::has_bytes_within(alloc, desc),
        }
    }
}

/// A call on descriptors of files that import each other.
#[derive(Clone, Copy)]
pub(crate) enum OnFiles {
    Link,
    Build,
}

impl OnFiles {
    fn make<R>(self, rt: &R, descs: &[FileDesc<'static>]) -> Answer
    where
        R: Threads + AllocGlobal + Sync,
    {
        match self {
            OnFiles::Link => files::are_linked(rt.alloc(), descs),
            OnFiles::Build => files::are_indexed(rt, descs),
        }
    }
}

/// A call on what sources are compiled to.
#[derive(Clone, Copy)]
pub(crate) enum OnCompiled {
    SetBytes,
    Resolve,
    AnswerBody,
    Respond,
    AnswerIo,
}

impl OnCompiled {
    fn make<R>(self, rt: &R, compiled: &Compiled) -> Answer
    where
        R: Threads + AllocGlobal + Sync,
    {
        match self {
            OnCompiled::SetBytes => files::has_set(rt.alloc(), compiled),
            OnCompiled::Resolve => files::is_resolved(rt.alloc(), compiled),
            OnCompiled::AnswerBody => bodies::is_answered(rt, compiled),
            OnCompiled::Respond => bodies::is_responded(rt, compiled),
            OnCompiled::AnswerIo => bodies::is_exchanged(rt, compiled),
        }
    }
}
