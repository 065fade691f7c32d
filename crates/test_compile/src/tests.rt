//! Lists of sources and what is found of them: the first fault of each pass, and the set of descriptors.

use proto_base::{Fault, Limit, Limits};
use proto_compile::{CompileError, Compiled, Source, compile};
use share_work::{NoGate, Plan};
use std::alloc::AllocGlobal;
use std::process::Abort;
use std::thread::Threads;

/// The name of a file of a row, and its text.
type File = (&'static str, &'static str);

fn sources_of<R: AllocGlobal + Abort>(rt: &R, files: &[File]) -> Vec<Source<'static>> {
    let mut sources = Vec::new(rt.alloc());
    for (name, text) in files {
        let text = text.as_bytes();
        sources.push(Source { name, text }).expect(rt, "memory");
    }
    sources
}

/// Puts the name of the file at a position behind names.
fn put_name<R: Abort>(
    rt: &R,
    names: &mut String,
    compiled: &Compiled,
    files: &[File],
    position: usize,
) {
    for (name, _) in files {
        if compiled.file_id(name) == Some(position) {
            names.push_str(" ").expect(rt, "memory");
            names.push_str(name).expect(rt, "memory");
        }
    }
}

/// The names of the files in set order.
fn set_order<R: AllocGlobal + Abort>(rt: &R, compiled: &Compiled, files: &[File]) -> String {
    let mut names = String::from_str(rt.alloc(), "compiled:").expect(rt, "memory");
    for position in compiled.links().set_order() {
        put_name(rt, &mut names, compiled, files, *position);
    }
    names
}

/// A fault as a text: its pass, its file, its step, its place and its kind.
fn told<R: AllocGlobal + Abort>(rt: &R, fault: &Fault) -> String {
    let (pass, step, place) = (fault.pass, fault.step, fault.place);
    let (file, kind) = (fault.file.as_str(), fault.kind.name());
    format!(in rt.alloc(); "pass {pass}, file [{file}], step {step}, at {place}: {kind}").expect(
        rt, "memory",
    )
}

/// The names of the files in set order, or the first fault.
fn shown<R>(rt: &R, made: &Result<Compiled, CompileError>, files: &[File]) -> String
where
    R: AllocGlobal + Abort,
{
    match made {
        Ok(compiled) => set_order(rt, compiled, files),
        Err(CompileError::First(fault)) => told(rt, fault),
        Err(CompileError::NoMemory) => panic!(rt; "no memory"),
    }
}

/// What sources are compiled to by a plan, with the names of these files.
fn answer<R>(rt: &R, sources: &[Source], files: &[File], limits: &Limits, plan: Plan) -> String
where
    R: Threads + AllocGlobal + Abort + Sync,
{
    let made = compile(rt, sources, limits, plan, &NoGate);
    let answer = shown(rt, &made, files);
    drop(made);
    answer
}

struct Row {
    title: &'static str,
    files: &'static [File],
    lowered: Option<(Limit, u64)>,
    answer: &'static str,
}

static ROWS: [Row; 34] = [
    Row {
        title: "no files",
        files: &[],
        lowered: None,
        answer: "compiled:",
    },
    Row {
        title: "files in another order than that of their names",
        files: &[
            ("b.proto", r#"syntax = "proto3"; message B {}"#),
            ("a.proto", r#"syntax = "proto3"; import "b.proto";"#),
        ],
        lowered: None,
        answer: "compiled: b.proto a.proto",
    },
    Row {
        title: "names in the order of their bytes",
        files: &[
            ("a/b.proto", r#"syntax = "proto3";"#),
            ("a.proto", r#"syntax = "proto3";"#),
            ("B.proto", r#"syntax = "proto3";"#),
        ],
        lowered: None,
        answer: "compiled: B.proto a.proto a/b.proto",
    },
    Row {
        title: "as many files as there may be",
        files: &[
            ("a.proto", r#"syntax = "proto3";"#),
            ("b.proto", r#"syntax = "proto3";"#),
        ],
        lowered: Some((Limit::Files, 2)),
        answer: "compiled: a.proto b.proto",
    },
    Row {
        title: "two files of one name",
        files: &[
            ("a.proto", r#"syntax = "proto3";"#),
            ("a.proto", r#"syntax = "proto3";"#),
        ],
        lowered: None,
        answer: "pass 0, file [a.proto], step 0, at 0: FileNameTwice",
    },
    Row {
        title: "two names repeated, by files without a syntax",
        files: &[
            ("b.proto", "1"),
            ("a.proto", "2"),
            ("b.proto", "3"),
            ("a.proto", "4"),
        ],
        lowered: None,
        answer: "pass 0, file [a.proto], step 0, at 0: FileNameTwice",
    },
    Row {
        title: "too many files, of one name",
        files: &[
            ("a.proto", r#"syntax = "proto3";"#),
            ("a.proto", r#"syntax = "proto3";"#),
        ],
        lowered: Some((Limit::Files, 1)),
        answer: "pass 0, file [], step 0, at 0: TooManyFiles",
    },
    Row {
        title: "an unknown type, and a field without a name",
        files: &[
            ("a.proto", r#"syntax = "proto3"; message A { X x = 1; }"#),
            ("b.proto", r#"syntax = "proto3"; message B { int32 = 1; }"#),
        ],
        lowered: None,
        answer: "pass 1, file [b.proto], step 1, at 37: Unexpected",
    },
    Row {
        title: "the same in the other order",
        files: &[
            ("b.proto", r#"syntax = "proto3"; message B { int32 = 1; }"#),
            ("a.proto", r#"syntax = "proto3"; message A { X x = 1; }"#),
        ],
        lowered: None,
        answer: "pass 1, file [b.proto], step 1, at 37: Unexpected",
    },
    Row {
        title: "no bytes",
        files: &[("e.proto", "")],
        lowered: None,
        answer: "pass 1, file [e.proto], step 1, at 0: UnexpectedEnd",
    },
    Row {
        title: "a fault of tokens behind one of the grammar, in one file",
        files: &[(
            "a.proto",
            r#"syntax = "proto3"; message B { int32 = 1; } é"#,
        )],
        lowered: None,
        answer: "pass 1, file [a.proto], step 0, at 44: BadByte",
    },
    Row {
        title: "a fault of tokens behind one of the grammar, in a later file",
        files: &[
            ("b.proto", r#"syntax = "proto3"; é"#),
            ("a.proto", r#"syntax = "proto3"; message B { int32 = 1; }"#),
        ],
        lowered: None,
        answer: "pass 1, file [a.proto], step 1, at 37: Unexpected",
    },
    Row {
        title: "messages inside one another, beyond the depth",
        files: &[(
            "a.proto",
            r#"syntax = "proto3"; message A { message B {} }"#,
        )],
        lowered: Some((Limit::Depth, 1)),
        answer: "pass 1, file [a.proto], step 1, at 31: TooDeep",
    },
    Row {
        title: "a missing import, and a broken rule of a later file",
        files: &[
            ("a.proto", r#"syntax = "proto3"; import "c.proto";"#),
            ("b.proto", r#"syntax = "proto3"; enum E {}"#),
        ],
        lowered: None,
        answer: "pass 1, file [b.proto], step 2, at 24: EnumEmpty",
    },
    Row {
        title: "files that import each other",
        files: &[
            ("b.proto", r#"syntax = "proto3"; import "a.proto";"#),
            ("a.proto", r#"syntax = "proto3"; import "b.proto";"#),
        ],
        lowered: None,
        answer: "pass 2, file [a.proto], step 0, at 26: ImportCycle",
    },
    Row {
        title: "a missing import",
        files: &[("a.proto", r#"syntax = "proto3"; import "b.proto";"#)],
        lowered: None,
        answer: "pass 2, file [a.proto], step 0, at 26: ImportMissing",
    },
    Row {
        title: "a repeated name, and a missing import of a later file",
        files: &[
            ("a.proto", r#"syntax = "proto3"; message A {} message A {}"#),
            ("b.proto", r#"syntax = "proto3"; import "c.proto";"#),
        ],
        lowered: None,
        answer: "pass 2, file [b.proto], step 0, at 26: ImportMissing",
    },
    Row {
        title: "a message and a package of one name",
        files: &[
            ("a.proto", r#"syntax = "proto3"; message A {}"#),
            ("b.proto", r#"syntax = "proto3"; package A;"#),
        ],
        lowered: None,
        answer: "pass 3, file [b.proto], step 0, at 27: NameTwice",
    },
    Row {
        title: "as many names as there may be",
        files: &[(
            "a.proto",
            r#"syntax = "proto3"; message A { int32 x = 1; }"#,
        )],
        lowered: Some((Limit::Names, 2)),
        answer: "compiled: a.proto",
    },
    Row {
        title: "too many names",
        files: &[(
            "a.proto",
            r#"syntax = "proto3"; message A { int32 x = 1; }"#,
        )],
        lowered: Some((Limit::Names, 1)),
        answer: "pass 3, file [], step 0, at 0: TooManyNames",
    },
    Row {
        title: "too many names, one of them repeated",
        files: &[("a.proto", r#"syntax = "proto3"; message A {} message A {}"#)],
        lowered: Some((Limit::Names, 1)),
        answer: "pass 3, file [], step 0, at 0: TooManyNames",
    },
    Row {
        title: "a type that no file has",
        files: &[("a.proto", r#"syntax = "proto3"; message A { X x = 1; }"#)],
        lowered: None,
        answer: "pass 4, file [a.proto], step 0, at 31: TypeNotFound",
    },
    Row {
        title: "a type whose first part the inner scope decides",
        files: &[(
            "a.proto",
            r#"syntax = "proto3"; package a.b; message a { a.b.C x = 1; } message C {}"#,
        )],
        lowered: None,
        answer: "pass 4, file [a.proto], step 0, at 44: TypeNotFound",
    },
    Row {
        title: "a type behind a dot",
        files: &[(
            "a.proto",
            r#"syntax = "proto3"; package a.b; message a { .a.b.C x = 1; } message C {}"#,
        )],
        lowered: None,
        answer: "compiled: a.proto",
    },
    Row {
        title: "an enum as a method's type",
        files: &[(
            "a.proto",
            r#"syntax = "proto3"; enum E { Z = 0; } service S { rpc R(E) returns (E); }"#,
        )],
        lowered: None,
        answer: "pass 4, file [a.proto], step 0, at 55: TypeNotMessage",
    },
    Row {
        title: "a packed field of messages",
        files: &[(
            "a.proto",
            r#"syntax = "proto3"; message A { repeated A x = 1 [packed = true]; }"#,
        )],
        lowered: None,
        answer: "pass 4, file [a.proto], step 0, at 49: PackedOnMessage",
    },
    Row {
        title: "a descriptor of as many bytes as there may be",
        files: &[("a.proto", POINT)],
        lowered: Some((Limit::DescriptorBytes, 36)),
        answer: "compiled: a.proto",
    },
    Row {
        title: "a descriptor of one byte more",
        files: &[("a.proto", POINT)],
        lowered: Some((Limit::DescriptorBytes, 35)),
        answer: "pass 5, file [a.proto], step 0, at 0: DescriptorTooLong",
    },
    Row {
        title: "two long descriptors, the first in set order the second by name",
        files: &[
            ("b.proto", r#"syntax = "proto3"; message B {}"#),
            ("a.proto", r#"syntax = "proto3"; import "b.proto";"#),
        ],
        lowered: Some((Limit::DescriptorBytes, 1)),
        answer: "pass 5, file [a.proto], step 0, at 0: DescriptorTooLong",
    },
    Row {
        title: "a long descriptor, and an unknown type of a later file",
        files: &[
            ("a.proto", POINT),
            ("b.proto", r#"syntax = "proto3"; message B { X x = 1; }"#),
        ],
        lowered: Some((Limit::DescriptorBytes, 35)),
        answer: "pass 4, file [b.proto], step 0, at 31: TypeNotFound",
    },
    Row {
        title: "a set of as many bytes as there may be",
        files: &[("a.proto", POINT)],
        lowered: Some((Limit::SetBytes, 38)),
        answer: "compiled: a.proto",
    },
    Row {
        title: "a set of one byte more",
        files: &[("a.proto", POINT)],
        lowered: Some((Limit::SetBytes, 37)),
        answer: "pass 6, file [], step 0, at 0: SetTooLong",
    },
    Row {
        title: "a type that is seen by public imports",
        files: &[
            (
                "a.proto",
                r#"syntax = "proto3"; import "b.proto"; message A { D d = 1; }"#,
            ),
            ("b.proto", r#"syntax = "proto3"; import public "c.proto";"#),
            ("c.proto", r#"syntax = "proto3"; import public "d.proto";"#),
            ("d.proto", r#"syntax = "proto3"; message D {}"#),
        ],
        lowered: None,
        answer: "compiled: d.proto c.proto b.proto a.proto",
    },
    Row {
        title: "a type that a private import of an import has",
        files: &[
            (
                "a.proto",
                r#"syntax = "proto3"; import "b.proto"; message A { D d = 1; }"#,
            ),
            ("b.proto", r#"syntax = "proto3"; import public "c.proto";"#),
            ("c.proto", r#"syntax = "proto3"; import "d.proto";"#),
            ("d.proto", r#"syntax = "proto3"; message D {}"#),
        ],
        lowered: None,
        answer: "pass 4, file [a.proto], step 0, at 49: TypeNotFound",
    },
];

/// A file whose descriptor has 36 bytes.
const POINT: &str = r#"syntax = "proto3"; message A { int32 x = 1; }"#;

/// Files whose set order is that of their names turned round.
static SEEN: [File; 4] = [
    (
        "a.proto",
        r#"syntax = "proto3"; import "b.proto"; message A { D d = 1; }"#,
    ),
    ("b.proto", r#"syntax = "proto3"; import public "c.proto";"#),
    ("c.proto", r#"syntax = "proto3"; import public "d.proto";"#),
    ("d.proto", r#"syntax = "proto3"; message D {}"#),
];

/// A row's limits.
fn limits_of<R: Abort>(rt: &R, row: &Row) -> Limits {
    match row.lowered {
        Some((limit, value)) => lowered(rt, limit, value),
        None => Limits::standard(),
    }
}

/// The standard limits with a lower one.
fn lowered<R: Abort>(rt: &R, limit: Limit, value: u64) -> Limits {
    Limits::standard()
        .lowered(limit, value)
        .expect(rt, "a limit")
}

/// Compares what is found with what is wanted.
fn expect<R: Abort>(rt: &R, title: &str, found: &str, wanted: &str) {
    assert!(rt; found == wanted, "{title}: {found}");
}

/// Workers and cuts.
static PLANS: [(u32, u32); 6] = [(1, 1), (2, 1), (64, 1), (1, 4_096), (2, 4_096), (64, 4_096)];

/// Compares a row's answer by each plan with the one that is wanted.
fn compare<R>(rt: &R, row: &Row)
where
    R: Threads + AllocGlobal + Sync + Abort,
{
    let limits = limits_of(rt, row);
    let sources = sources_of(rt, row.files);
    for (workers, cut) in &PLANS {
        let plan = Plan::new(*workers, *cut).expect(rt, "a plan");
        let found = answer(rt, &sources, row.files, &limits, plan);
        expect(rt, row.title, found.as_str(), row.answer);
    }
}

/// Compares the answers of rows. It knows no table: a function that does has all its rows at each point.
fn compare_rows<R>(rt: &R, rows: &[Row])
where
    R: Threads + AllocGlobal + Sync + Abort,
{
    for row in rows {
        compare(rt, row);
    }
}

#[test]
fn answers(rt: HostRuntime) {
    compare_rows(&rt, &ROWS);
}

/// A file of a compilation: its name, its position, and the bytes of its descriptor.
type Described = (&'static str, usize, &'static [u8]);

/// Whether a file has its position and its bytes.
fn is_described(compiled: &Compiled, file: &Described) -> bool {
    let (name, position, bytes) = *file;
    match compiled.file_id(name) {
        Some(found) => {
            found == position
                && compiled.bytes_at(found) == bytes
                && compiled.bytes_of(name) == Some(bytes)
        }
        None => false,
    }
}

/// Whether all files are so, one of another name is not known, and the links, the index and the limits are theirs.
fn are_described(compiled: &Compiled, files: &[Described]) -> bool {
    for file in files {
        if !is_described(compiled, file) {
            return false;
        }
    }
    compiled.file_id("none").is_none()
        && compiled.bytes_of("none").is_none()
        && compiled.links().count() == files.len()
        && compiled.names().find("A").is_some()
        && compiled.limits().get(Limit::SetBytes) == 1_073_741_824
}

/// Whether a compilation has this set.
fn has_set<R: AllocGlobal + Abort>(rt: &R, compiled: &Compiled, set: &[u8]) -> bool {
    let written = compiled.set_bytes(rt.alloc()).expect(rt, "memory");
    written.as_slice() == set
}

/// Whether there is a compilation, with these files and this set.
fn is_compiled_to<R>(
    rt: &R,
    made: &Result<Compiled, CompileError>,
    wanted: &[Described],
    set: &[u8],
) -> bool
where
    R: AllocGlobal + Abort,
{
    match made {
        Ok(compiled) => has_set(rt, compiled, set) && are_described(compiled, wanted),
        Err(_) => false,
    }
}

/// Whether files are compiled to these, and to this set.
fn compiles_to<R>(rt: &R, files: &[File], wanted: &[Described], set: &[u8]) -> bool
where
    R: Threads + AllocGlobal + Abort + Sync,
{
    let sources = sources_of(rt, files);
    let made = compile(rt, &sources, &Limits::standard(), Plan::single(), &NoGate);
    let is_right = is_compiled_to(rt, &made, wanted, set);
    drop(made);
    is_right
}

/// The file of one message, its descriptor and its set.
static ONE: [File; 1] = [("a.proto", POINT)];

static ONE_DESCRIBED: [Described; 1] = [(
    "a.proto",
    0,
    b"\x0a\x07a.proto\x22\x11\x0a\x01A\x12\x0c\x0a\x01x\x18\x01\x20\x01\x28\x05\x52\x01x\x62\x06proto3",
)];

static ONE_SET: &[u8] =
    b"\x0a\x24\x0a\x07a.proto\x22\x11\x0a\x01A\x12\x0c\x0a\x01x\x18\x01\x20\x01\x28\x05\x52\x01x\x62\x06proto3";

/// Descriptors of the files that see each other, and their set.
static SEEN_DESCRIBED: [Described; 4] = [
    (
        "d.proto",
        3,
        b"\x0a\x07d.proto\x22\x03\x0a\x01D\x62\x06proto3",
    ),
    (
        "c.proto",
        2,
        b"\x0a\x07c.proto\x1a\x07d.proto\x50\x00\x62\x06proto3",
    ),
    (
        "b.proto",
        1,
        b"\x0a\x07b.proto\x1a\x07c.proto\x50\x00\x62\x06proto3",
    ),
    (
        "a.proto",
        0,
        b"\x0a\x07a.proto\x1a\x07b.proto\x22\x15\x0a\x01A\x12\x10\x0a\x01d\x18\x01\x20\x01\x28\x0b\x32\x02.D\x52\x01d\x62\x06proto3",
    ),
];

static SEEN_SET: &[u8] = b"\x0a\x16\x0a\x07d.proto\x22\x03\x0a\x01D\x62\x06proto3\
    \x0a\x1c\x0a\x07c.proto\x1a\x07d.proto\x50\x00\x62\x06proto3\
    \x0a\x1c\x0a\x07b.proto\x1a\x07c.proto\x50\x00\x62\x06proto3\
    \x0a\x31\x0a\x07a.proto\x1a\x07b.proto\x22\x15\x0a\x01A\x12\x10\x0a\x01d\x18\x01\x20\x01\x28\x0b\x32\x02.D\x52\x01d\x62\x06proto3";

#[test]
fn compilations(rt: HostRuntime) {
    assert!(rt; compiles_to(&rt, &ONE, &ONE_DESCRIBED, ONE_SET));
    assert!(rt; compiles_to(&rt, &SEEN, &SEEN_DESCRIBED, SEEN_SET));
}

/// A text of so many messages, each inside the one before.
fn nested<R: AllocGlobal + Abort>(rt: &R, count: usize) -> String {
    let open = "message A { "
        .repeat(rt.alloc(), count)
        .expect(rt, "memory");
    let close = "}".repeat(rt.alloc(), count).expect(rt, "memory");
    format!(in rt.alloc(); "syntax = \"proto3\"; {open}{close}").expect(rt, "memory")
}

/// Compares what is found of so many messages inside each other, where 32 are allowed.
fn nest<R>(rt: &R, count: usize, wanted: &str)
where
    R: Threads + AllocGlobal + Abort + Sync,
{
    let text = nested(rt, count);
    let text = text.as_bytes();
    let name = "a.proto";
    let limits = lowered(rt, Limit::Depth, 32);
    let found = answer(rt, &[Source { name, text }], &[], &limits, Plan::single());
    expect(rt, "messages inside each other", found.as_str(), wanted);
}

#[test]
fn messages_up_to_a_limit(rt: HostRuntime) {
    nest(&rt, 32, "compiled:");
    let too_deep = "pass 1, file [a.proto], step 1, at 403: TooDeep";
    nest(&rt, 33, too_deep);
}

/// Names of so many files, in the order of their numbers.
fn names_of<R: AllocGlobal + Abort>(rt: &R, count: usize) -> Vec<String> {
    let mut names = Vec::new(rt.alloc());
    for number in 0..count {
        let name = format!(in rt.alloc(); "{number}.proto");
        names.push(name.expect(rt, "memory")).expect(rt, "memory");
    }
    names
}

/// A file of each of the names, without statements.
fn empty_files<'n, R: AllocGlobal + Abort>(rt: &R, names: &'n [String]) -> Vec<Source<'n>> {
    let mut sources = Vec::new(rt.alloc());
    for name in names {
        let name = name.as_str();
        let text = b"syntax = \"proto3\"; ";
        sources.push(Source { name, text }).expect(rt, "memory");
    }
    sources
}

/// Compares what is found of so many files, where 4,096 are allowed.
fn compile_empty<R>(rt: &R, count: usize, wanted: &str)
where
    R: Threads + AllocGlobal + Abort + Sync,
{
    let names = names_of(rt, count);
    let sources = empty_files(rt, &names);
    let limits = lowered(rt, Limit::Files, 4_096);
    let found = answer(rt, &sources, &[], &limits, Plan::single());
    expect(rt, "files", found.as_str(), wanted);
}

#[test]
fn files_up_to_a_limit(rt: HostRuntime) {
    compile_empty(&rt, 4_096, "compiled:");
    let too_many = "pass 0, file [], step 0, at 0: TooManyFiles";
    compile_empty(&rt, 4_097, too_many);
}
