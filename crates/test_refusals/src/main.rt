//! Calls that may have no memory, each made twice in a round: an allocation is refused in the first, and the second has what it
//! needs.
//!
//! The first answers that it had no memory, or as ever, and the second as ever. tests/refused_calls.sh refuses the allocations of
//! each call in turn, until a round meets no refusal; without it none is refused, and one round of each call is made. `DIR`
//! names the folder that is read, data/.
#![tactic(auto)]

mod answers;
mod bodies;
mod calls;
mod files;
mod one_file;
mod rounds;
mod tables;

use calls::{Alone, Call, OnCompiled, OnFile, OnFiles};
use files::{LINKED, ONE, REQUESTED, are_described};
use one_file::{NAME, TEXT};
use proto_base::Limits;
use proto_compile::{Compiled, Source, compile};
use proto_desc::file::FileDesc;
use proto_lower::lower;
use proto_syntax::parse;
use proto_tokens::{Tokens, tokenize};
use proto_tree::FileTree;
use rounds::{in_rounds, told};
use share_work::{NoGate, Plan};
use std::alloc::AllocGlobal;
use std::process::ExitCode;
use std::rt::Files;
use std::thread::Threads;
use std::{env, io};

/// The calls on constants alone, by their names.
static ALONE: [(&str, Alone); 14] = [
    ("tokenize", Alone::Tokenize),
    ("json_name", Alone::JsonName),
    ("entry_name", Alone::EntryName),
    ("oneof_name", Alone::OneofName),
    ("put_varint", Alone::PutVarint),
    ("put_field", Alone::PutField),
    ("compile", Alone::Compile),
    ("describe", Alone::Describe),
    ("read_fields", Alone::ReadFields),
    ("read_request", Alone::ReadRequest),
    ("read_frames", Alone::ReadFrames),
    ("in_shares", Alone::InShares),
    ("LeastTable::new", Alone::LeastTable),
    ("MarkTable::new", Alone::MarkTable),
];

/// Makes the calls on constants alone.
fn calls_alone<R>(rt: &R, console: &HostRuntime) -> bool
where
    R: Threads + Files + AllocGlobal + Sync,
{
    let mut is_right = true;
    for (name, call) in &ALONE {
        is_right &= in_rounds(rt, console, name, Call::Alone(*call));
    }
    is_right
}

/// Makes a call on what is made of one file.
fn on_file<R>(rt: &R, console: &HostRuntime, name: &str, call: OnFile<'_>) -> bool
where
    R: Threads + Files + AllocGlobal + Sync,
{
    in_rounds(rt, console, name, Call::OnFile(call))
}

/// Makes the calls on a file's descriptor.
fn calls_on_descriptor<R>(
    rt: &R,
    console: &HostRuntime,
    tree: &FileTree<'static>,
    desc: &FileDesc<'static>,
) -> bool
where
    R: Threads + Files + AllocGlobal + Sync,
{
    let call = OnFile::FirstCheckFault(tree, desc);
    on_file(rt, console, "first_check_fault", call)
        & on_file(rt, console, "file_bytes", OnFile::FileBytes(desc))
        & on_file(
            rt,
            console,
            "file_bytes_within",
            OnFile::FileBytesWithin(desc),
        )
}

/// Makes the calls on a file's tree.
fn calls_on_tree<R>(rt: &R, console: &HostRuntime, tree: &FileTree<'static>) -> bool
where
    R: Threads + Files + AllocGlobal + Sync,
{
    let is_right = on_file(rt, console, "lower", OnFile::Lower(tree));
    let made = lower(rt.alloc(), NAME, tree);
    let are_right = match &made {
        Ok(desc) => calls_on_descriptor(rt, console, tree, desc),
        Err(_) => told(console, NAME, "no descriptor"),
    };
    drop(made);
    is_right & are_right
}

/// Makes the calls on a file's tokens.
fn calls_on_tokens<R>(rt: &R, console: &HostRuntime, tokens: &Tokens<'static>) -> bool
where
    R: Threads + Files + AllocGlobal + Sync,
{
    let is_right = on_file(rt, console, "parse", OnFile::Parse(tokens));
    let made = parse(rt.alloc(), tokens, &Limits::standard());
    let are_right = match &made {
        Ok(tree) => calls_on_tree(rt, console, tree),
        Err(_) => told(console, NAME, "no tree"),
    };
    drop(made);
    is_right & are_right
}

/// Makes the calls on one file.
fn calls_on_file<R>(rt: &R, console: &HostRuntime) -> bool
where
    R: Threads + Files + AllocGlobal + Sync,
{
    match tokenize(rt.alloc(), TEXT, &Limits::standard()) {
        Ok(tokens) => calls_on_tokens(rt, console, &tokens),
        Err(_) => told(console, NAME, "no tokens"),
    }
}

/// Makes the calls on descriptors of files that import each other.
fn calls_on_descriptors<R>(rt: &R, console: &HostRuntime, descs: &[FileDesc<'static>]) -> bool
where
    R: Threads + Files + AllocGlobal + Sync,
{
    in_rounds(rt, console, "link", Call::OnFiles(descs, OnFiles::Link))
        & in_rounds(
            rt,
            console,
            "NameIndex::build",
            Call::OnFiles(descs, OnFiles::Build),
        )
}

/// Makes the calls on files that import each other.
fn calls_on_files<R>(rt: &R, console: &HostRuntime) -> bool
where
    R: Threads + Files + AllocGlobal + Sync,
{
    let mut descs = Vec::new(rt.alloc());
    if !are_described(rt.alloc(), &mut descs) {
        return told(console, NAME, "no descriptors");
    }
    calls_on_descriptors(rt, console, &descs)
}

/// Calls on what sources are compiled to, by their names.
type NamedCalls = &'static [(&'static str, OnCompiled)];

static SET: [(&str, OnCompiled); 1] = [("set_bytes", OnCompiled::SetBytes)];

static TYPES: [(&str, OnCompiled); 1] = [("resolve", OnCompiled::Resolve)];

static ANSWERS: [(&str, OnCompiled); 3] = [
    ("answer_body", OnCompiled::AnswerBody),
    ("respond", OnCompiled::Respond),
    ("answer_io", OnCompiled::AnswerIo),
];

/// Makes calls on a compilation.
fn calls_on_compiled<R>(
    rt: &R,
    console: &HostRuntime,
    compiled: &Compiled,
    calls: NamedCalls,
) -> bool
where
    R: Threads + Files + AllocGlobal + Sync,
{
    let mut is_right = true;
    for (name, call) in calls {
        is_right &= in_rounds(rt, console, name, Call::OnCompiled(compiled, *call));
    }
    is_right
}

/// Makes calls on what sources are compiled to.
fn calls_on_sources<R>(
    rt: &R,
    console: &HostRuntime,
    sources: &[Source<'static>],
    calls: NamedCalls,
) -> bool
where
    R: Threads + Files + AllocGlobal + Sync,
{
    let made = compile(rt, sources, &Limits::standard(), Plan::single(), &NoGate);
    let is_right = match &made {
        Ok(compiled) => calls_on_compiled(rt, console, compiled, calls),
        Err(_) => told(console, NAME, "no compilation"),
    };
    drop(made);
    is_right
}

/// Makes all calls.
fn make_all<R>(rt: &R, console: &HostRuntime, root: &str) -> bool
where
    R: Threads + Files + AllocGlobal + Sync,
{
    calls_alone(rt, console)
        & in_rounds(rt, console, "read_folder", Call::ReadFolder(root))
        & calls_on_file(rt, console)
        & calls_on_files(rt, console)
        & calls_on_sources(rt, console, &ONE, &SET)
        & calls_on_sources(rt, console, &LINKED, &TYPES)
        & calls_on_sources(rt, console, &REQUESTED, &ANSWERS)
}

fn words_of(rt: &HostRuntime) -> io::Result<Vec<String>> {
    Ok(env::args(rt)?.collect(rt.alloc())?)
}

/// Makes all calls with the folder that the words name.
fn is_right<R>(rt: &R, console: &HostRuntime, words: &[String]) -> bool
where
    R: Threads + Files + AllocGlobal + Sync,
{
    match words {
        [_, root] => make_all(rt, console, root.as_str()),
        _ => told(console, "test_refusals", "DIR"),
    }
}

fn main(rt: HostRuntime) -> ExitCode {
    let Ok(words) = words_of(&rt) else {
        return ExitCode::FAILURE;
    };
    if is_right(&rt, &rt, &words) {
        ExitCode::SUCCESS
    } else {
        ExitCode::FAILURE
    }
}
