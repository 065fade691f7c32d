//! Lists of files: what they are compiled to, their links and names, and a folder of them.

ghost use Rattle.std.specs.Prelude.{◌≡◌};
ghost use Rattle.proto_links.specs.Linked.{count_of};

use crate::answers::{Answer, answer_of, failed};
use crate::one_file::{BYTES, NAME, TEXT};
use proto_base::Limits;
use proto_compile::{CompileError, Compiled, Source, compile};
use proto_desc::file::FileDesc;
use proto_desc::name_kind::NameKind;
use proto_file::describe;
use proto_links::{LinkError, Links, in_name_order, link};
use proto_names::{Defined, NameError, NameIndex, ResolveError, Resolved, Want};
use share_work::{NoGate, Plan};
use source_folder::{FolderFault, NamedText, read_folder};
use std::alloc::{AllocError, AllocGlobal, Global};
use std::rt::Files;
use std::thread::Threads;

/// The file of one message.
pub(crate) static ONE: [Source<'static>; 1] = [Source {
    name: NAME,
    text: TEXT,
}];

/// The first sees the message of the last by public imports. The third has a package so long that an index keeps the last
/// parts of names.
pub(crate) static LINKED: [Source<'static>; 4] = [
    Source {
        name: "a.proto",
        text: b"syntax = \"proto3\"; import \"b.proto\"; message A { D d = 1; }",
    },
    Source {
        name: "b.proto",
        text: b"syntax = \"proto3\"; import public \"c.proto\";",
    },
    Source {
        name: "c.proto",
        text: b"syntax = \"proto3\"; package a_package.of_one_hundred_and_twenty_eight_bytes.or_more.\
            in_which_a_name.is_looked_up_in_many_scopes.one_for_each_of_its_parts.and_one_around;\
            import public \"d.proto\";",
    },
    Source {
        name: "d.proto",
        text: b"syntax = \"proto3\"; message D {}",
    },
];

/// The first and the third import the second, which declares a service.
pub(crate) static REQUESTED: [Source<'static>; 3] = [
    Source {
        name: "a.proto",
        text: b"syntax = \"proto3\"; import \"b.proto\";",
    },
    Source {
        name: "b.proto",
        text: b"syntax = \"proto3\"; package p; service S {}",
    },
    Source {
        name: "c.proto",
        text: b"syntax = \"proto3\"; import \"b.proto\";",
    },
];

/// Puts what a source describes behind the descriptors, and tells whether it did.
fn is_file_put(
    alloc: Global,
    descs: &mut Vec<FileDesc<'static>>,
    source: &Source<'static>,
) -> bool {
    match describe(alloc, source.name, source.text, &Limits::standard()) {
        Ok(desc) => descs.push(desc).is_ok(),
        Err(_) => false,
    }
}

/// Puts what the linked files describe behind the descriptors, and tells whether it did.
pub(crate) fn are_described(alloc: Global, descs: &mut Vec<FileDesc<'static>>) -> bool {
    for source in &LINKED {
        if !is_file_put(alloc, descs, source) {
            return false;
        }
    }
    true
}

/// Whether the one file has its bytes.
fn is_one_file(compiled: &Compiled) -> bool {
    compiled.bytes_of(NAME) == Some(BYTES)
}

fn compiled_answer(made: &Result<Compiled, CompileError>) -> Answer {
    match made {
        Ok(compiled) => answer_of(is_one_file(compiled)),
        Err(error) => failed(matches!(error, CompileError::NoMemory)),
    }
}

pub(crate) fn is_compiled<R: Threads + AllocGlobal + Sync>(rt: &R) -> Answer {
    let made = compile(rt, &ONE, &Limits::standard(), Plan::single(), &NoGate);
    let answer = compiled_answer(&made);
    drop(made);
    answer
}

/// The set of the one file: a field that holds its 36 bytes.
pub(crate) fn has_set(alloc: Global, compiled: &Compiled) -> Answer {
    match compiled.set_bytes(alloc) {
        Ok(set) => answer_of(set.strip_prefix(b"\x0A\x24".as_slice()) == Some(BYTES)),
        Err(AllocError) => Answer::NoMemory,
    }
}

/// Whether each file has its rank, and the first sees all of them.
fn are_ranked(links: &Links) -> bool
    requires { count_of links.now ≡ 4 }
{
    let ranks = [links.rank(0), links.rank(1), links.rank(2), links.rank(3)];
    let is_seen = links.sees(0, 1) && links.sees(0, 2) && links.sees(0, 3);
    ranks == [3, 2, 1, 0] && is_seen
}

/// Whether these are the links of the files.
fn are_links(links: &Links) -> bool {
    links.count() == 4
        && links.set_order() == [3, 2, 1, 0].as_slice()
        && links.reach(0) == [3, 2, 1, 0].as_slice()
        && are_ranked(links)
}

fn links_answer(made: &Result<Links, LinkError>) -> Answer {
    match made {
        Ok(links) => answer_of(are_links(links)),
        Err(error) => failed(matches!(error, LinkError::NoMemory)),
    }
}

pub(crate) fn are_linked(alloc: Global, descs: &[FileDesc<'static>]) -> Answer {
    if !in_name_order(descs) {
        return Answer::Other;
    }
    let made = link(alloc, descs);
    let answer = links_answer(&made);
    drop(made);
    answer
}

/// Whether a name is that of a message of this file.
fn is_message(index: &NameIndex, name: &str, wanted: usize) -> bool {
    match index.find(name) {
        Some(Defined { kind, file }) => kind == NameKind::Message && file == wanted,
        None => false,
    }
}

fn index_answer(made: &Result<NameIndex, NameError>) -> Answer {
    match made {
        Ok(index) => answer_of(is_message(index, "A", 0) && is_message(index, "D", 3)),
        Err(error) => failed(matches!(error, NameError::NoMemory)),
    }
}

pub(crate) fn are_indexed<R: Threads + AllocGlobal + Sync>(
    rt: &R,
    descs: &[FileDesc<'static>],
) -> Answer {
    let made = NameIndex::build(rt, descs, &Limits::standard());
    let answer = index_answer(&made);
    drop(made);
    answer
}

/// The type that the field of the first file has.
fn type_answer(made: &Result<Resolved, ResolveError>) -> Answer {
    match made {
        Ok(found) => {
            answer_of(found.full_name.as_str() == "D" && found.kind == NameKind::Message)
        }
        Err(error) => failed(matches!(error, ResolveError::NoMemory)),
    }
}

pub(crate) fn is_resolved(alloc: Global, compiled: &Compiled) -> Answer {
    compiled.is_sound();
    let links = compiled.links();
    if links.count() == 0 {
        return Answer::Other;
    }
    let names = compiled.names();
    type_answer(&names.resolve(alloc, links, 0, "A", "D", Want::AnyType))
}

/// Whether these are the files of the folder.
fn are_texts(texts: &[NamedText]) -> bool {
    for (found, source) in texts.iter().zip(&LINKED) {
        if found.name.as_str() != source.name || found.text.as_slice() != source.text {
            return false;
        }
    }
    texts.len() == LINKED.len()
}

pub(crate) fn are_read<R: Files + AllocGlobal>(rt: &R, root: &str) -> Answer {
    match read_folder(rt, root, &Limits::standard()) {
        Ok(texts) => answer_of(are_texts(&texts)),
        Err(error) => failed(matches!(error, FolderFault::NoMemory)),
    }
}
