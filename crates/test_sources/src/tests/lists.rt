//! Lists of files: their links, the names in them, and what a spelled name means in a scope. More of their rows are
//! folders that the program compiles (tests/folders.txt).

ghost use Rattle.std.specs.Prelude.{◌≡◌, ◌<◌, length};
ghost use Rattle.proto_links.specs.Linked.{count_of};

use super::{expect, field};
use proto_base::{Limit, Limits};
use proto_desc::file::FileDesc;
use proto_file::describe;
use proto_links::{LinkError, Links, in_name_order, link};
use proto_names::{Defined, NameError, NameIndex, ResolveError, Resolved, Want};
use std::alloc::{AllocError, AllocGlobal};
use std::process::Abort;
use std::thread::Threads;

/// What is asked of files, and the answer: `links`, `names` of which so many may occur, `find` a full name, `services`,
/// or what a name means in a scope of the file of this number, as a `type` or as a `message`.
#[derive(Clone, Copy)]
struct Row {
    kind: &'static str,
    number: usize,
    scope: &'static str,
    name: &'static str,
    answer: &'static str,
}

/// A line of five fields. What may come behind them says what it is about.
fn row_of<R: Abort>(rt: &R, line: &'static str) -> Row {
    let (kind, rest) = field(rt, line);
    let (number, rest) = field(rt, rest);
    let (scope, rest) = field(rt, rest);
    let (name, rest) = field(rt, rest);
    let (answer, _) = rest.split_once('|').unwrap_or((rest, ""));
    let number = number.parse().expect(rt, "a number");
    Row {
        kind,
        number,
        scope,
        name,
        answer,
    }
}

/// The name and the statements of a source.
fn source_of<R: Abort>(rt: &R, line: &'static str) -> (&'static str, &'static str) {
    line.split_once(':').expect(rt, "a name")
}

/// The texts of sources: their statements stand behind `syntax = "proto3"; `, which is 19 bytes long.
fn texts_of<R: AllocGlobal + Abort>(rt: &R, sources: &'static str) -> Vec<String> {
    let mut texts = Vec::new(rt.alloc());
    for line in sources.lines() {
        let (_, statements) = source_of(rt, line);
        let text = format!(in rt.alloc(); "syntax = \"proto3\";{statements}");
        texts.push(text.expect(rt, "memory")).expect(rt, "memory");
    }
    texts
}

/// Puts what a source of this name and text describes behind the files.
fn put_file<'s, R: AllocGlobal + Abort>(
    rt: &R,
    files: &mut Vec<FileDesc<'s>>,
    name: &'s str,
    text: &'s str,
) {
    let limits = Limits::standard();
    let Ok(file) = describe(rt.alloc(), name, text.as_bytes(), &limits) else {
        panic!(rt; "no file: {name}")
    };
    files.push(file).expect(rt, "memory");
}

/// Puts what sources of these texts describe behind the files.
fn put_files<'s, R: AllocGlobal + Abort>(
    rt: &R,
    files: &mut Vec<FileDesc<'s>>,
    sources: &'static str,
    texts: &'s [String],
) {
    for (line, text) in sources.lines().zip(texts) {
        let (name, _) = source_of(rt, line);
        put_file(rt, files, name, text.as_str());
    }
}

/// Puts the files of a list of numbers behind a text, as `1 0`.
fn put_numbers<R: AllocGlobal + Abort>(rt: &R, text: &mut String, files: &[usize]) {
    for (place, file) in files.iter().enumerate() {
        let blank = if place == 0 { "" } else { " " };
        write!(text, "{blank}{file}").expect(rt, "memory");
    }
}

/// Puts the files that a file sees behind a text.
fn put_seen<R: AllocGlobal + Abort>(rt: &R, text: &mut String, links: &Links, file: usize)
    requires { file < count_of links.now }
{
    let mut seen = Vec::new(rt.alloc());
    for other in 0..links.count() {
        if links.sees(file, other) {
            seen.push(other).expect(rt, "memory");
        }
    }
    put_numbers(rt, text, &seen);
}

/// Puts a file's rank, what it reaches and what it sees behind a text.
fn put_shown<R: AllocGlobal + Abort>(rt: &R, text: &mut String, links: &Links, file: usize)
    requires { file < count_of links.now }
{
    let rank = links.rank(file);
    write!(text, "; {file}: rank {rank}, reaches ").expect(rt, "memory");
    put_numbers(rt, text, links.reach(file));
    text.push_str(", sees ").expect(rt, "memory");
    put_seen(rt, text, links, file);
}

/// Links as a text: set order, and for each file its rank, what it reaches and what it sees.
fn shown<R: AllocGlobal + Abort>(rt: &R, links: &Links) -> String {
    let mut text = String::from_str(rt.alloc(), "order ").expect(rt, "memory");
    put_numbers(rt, &mut text, links.set_order());
    for file in 0..links.count() {
        put_shown(rt, &mut text, links, file);
    }
    text
}

/// A text of its own.
fn owned<R: AllocGlobal + Abort>(rt: &R, text: &str) -> String {
    String::from_str(rt.alloc(), text).expect(rt, "memory")
}

/// What a full name is declared for, as `Message 0`.
fn found<R: AllocGlobal + Abort>(rt: &R, index: &NameIndex, name: &str) -> String {
    let Some(Defined { kind, file }) = index.find(name) else {
        return owned(rt, "nothing");
    };
    format!(in rt.alloc(); "{kind:?} {file}").expect(rt, "memory")
}

/// The services, as `a.S;b;`.
fn services<R: AllocGlobal + Abort>(rt: &R, index: &NameIndex) -> String {
    let mut text = String::new(rt.alloc());
    for name in index.services() {
        text.push_str(name.as_str()).expect(rt, "memory");
        text.push(';').expect(rt, "memory");
    }
    text
}

/// The kind and the full name of the type that a name means, or why it is none.
fn meaning<R: AllocGlobal + Abort>(
    rt: &R,
    links: &Links,
    index: &NameIndex,
    row: &Row,
    want: Want,
) -> String
    requires { count_of links.now ≡ index.now.files }
{
    assert!(rt; row.number < links.count());
    match index.resolve(rt.alloc(), links, row.number, row.scope, row.name, want) {
        Ok(resolved) => type_shown(rt, &resolved),
        Err(error) => owned(rt, why(&error)),
    }
}

/// The kind and the full name of a type.
fn type_shown<R: AllocGlobal + Abort>(rt: &R, resolved: &Resolved) -> String {
    let (kind, name) = (resolved.kind, &resolved.full_name);
    format!(in rt.alloc(); "{kind:?} {name}").expect(rt, "memory")
}

/// Why a name means no type.
fn why(error: &ResolveError) -> &'static str {
    match error {
        ResolveError::TypeNotFound => "not found",
        ResolveError::TypeNotMessage => "no message",
        ResolveError::NoMemory => "no memory",
    }
}

/// The answer of files that are linked and indexed.
fn indexed<R: AllocGlobal + Abort>(rt: &R, links: &Links, index: &NameIndex, row: &Row) -> String
    requires { count_of links.now ≡ index.now.files }
{
    match row.kind {
        "links" => shown(rt, links),
        "names" => owned(rt, "built"),
        "find" => found(rt, index, row.name),
        "services" => services(rt, index),
        "type" => meaning(rt, links, index, row, Want::AnyType),
        "message" => meaning(rt, links, index, row, Want::MessageOnly),
        _ => owned(rt, "no question"),
    }
}

/// The limits for a question.
fn limits_for<R: Abort>(rt: &R, row: &Row) -> Limits {
    let standard = Limits::standard();
    if row.kind == "names" {
        let lowered = standard.lowered(Limit::Names, row.number as u64);
        lowered.expect(rt, "limits")
    } else {
        standard
    }
}

/// The answer of files that are linked, or why they are not indexed.
fn linked<R>(rt: &R, files: &[FileDesc], links: &Links, row: &Row) -> String
where
    R: Threads + AllocGlobal + Sync + Abort,
    requires { count_of links.now ≡ length files.now }
{
    match NameIndex::build(rt, files, &limits_for(rt, row)) {
        Ok(index) => indexed(rt, links, &index, row),
        Err(error) => unindexed(rt, &error),
    }
}

/// Why files are not indexed.
fn unindexed<R: AllocGlobal + Abort>(rt: &R, error: &NameError) -> String {
    match error {
        NameError::At(file, place) => format!(in rt.alloc(); "{file} at {place}"),
        NameError::TooMany => String::from_str(rt.alloc(), "too many"),
        NameError::NoMemory => Err(AllocError),
    }
    .expect(rt, "memory")
}

/// The answer of files, or why they are not linked or not indexed.
fn answer<R>(rt: &R, files: &[FileDesc], row: &Row) -> String
where
    R: Threads + AllocGlobal + Sync + Abort,
{
    if !in_name_order(files) {
        return owned(rt, "not in the order of the names");
    }
    match link(rt.alloc(), files) {
        Ok(links) => linked(rt, files, &links, row),
        Err(error) => unlinked(rt, &error),
    }
}

/// Why files are not linked.
fn unlinked<R: AllocGlobal + Abort>(rt: &R, error: &LinkError) -> String {
    match error {
        LinkError::At(file, place, kind) => { format!(in rt.alloc(); "{file} at {place}: {kind}") }
        LinkError::NoMemory => Err(AllocError),
    }
    .expect(rt, "memory")
}

/// Compares the answers of files with those that are wanted.
fn compare_rows<R>(rt: &R, files: &[FileDesc], rows: &'static str)
where
    R: Threads + AllocGlobal + Sync + Abort,
{
    for line in rows.lines() {
        let row = row_of(rt, line);
        expect(rt, line, answer(rt, files, &row).as_str(), row.answer);
    }
}

/// Groups, each of a title, files by their names and statements, and rows.
static GROUPS: &str = r##"# Names of files are compared byte by byte, and no two are the same
a.proto:
b.proto:
--
links|0|||order 0 1; 0: rank 0, reaches 0, sees 0; 1: rank 0, reaches 1, sees 1

# the same
B.proto:
a.proto:
--
links|0|||order 0 1; 0: rank 0, reaches 0, sees 0; 1: rank 0, reaches 1, sees 1

# the same
a:
a.proto:
--
links|0|||order 0 1; 0: rank 0, reaches 0, sees 0; 1: rank 0, reaches 1, sees 1

# the same
a.proto:
a.proto:
--
links|0|||not in the order of the names

# the same
b.proto:
a.proto:
--
links|0|||not in the order of the names

# No files
--
links|0|||order |no files

# A chain of public imports is seen whole
a.proto: import "b.proto";
b.proto: import public "c.proto";
c.proto: import public "d.proto";
d.proto:
--
links|0|||order 3 2 1 0; 0: rank 3, reaches 3 2 1 0, sees 0 1 2 3; 1: rank 2, reaches 3 2 1, sees 1 2 3; 2: rank 1, reaches 3 2, sees 2 3; 3: rank 0, reaches 3, sees 3

# An import of an import is reached, and not seen
a.proto: import "b.proto";
b.proto: import public "c.proto";
c.proto: import "d.proto";
d.proto:
--
links|0|||order 3 2 1 0; 0: rank 3, reaches 3 2 1 0, sees 0 1 2; 1: rank 2, reaches 3 2 1, sees 1 2; 2: rank 1, reaches 3 2, sees 2 3; 3: rank 0, reaches 3, sees 3

# A public import is an import of its file
a.proto: import public "b.proto";
b.proto: import "c.proto";
c.proto:
--
links|0|||order 2 1 0; 0: rank 2, reaches 2 1 0, sees 0 1; 1: rank 1, reaches 2 1, sees 1 2; 2: rank 0, reaches 2, sees 2

# Files of one rank by name, and a file by two ways once
a.proto:
b.proto: import "c.proto"; import "d.proto";
c.proto: import "e.proto";
d.proto: import "e.proto";
e.proto:
--
links|0|||order 0 4 2 3 1; 0: rank 0, reaches 0, sees 0; 1: rank 2, reaches 4 2 3 1, sees 1 2 3; 2: rank 1, reaches 4 2, sees 2 4; 3: rank 1, reaches 4 3, sees 3 4; 4: rank 0, reaches 4, sees 4

# Files that import each other, of which the first is told
a.proto: import "b.proto";
b.proto: import "a.proto";
--
links|0|||0 at 26: ImportCycle

# A file that imports itself
a.proto: import "a.proto";
--
links|0|||0 at 26: ImportCycle

# An import that is not there
a.proto: import "b.proto";
--
links|0|||0 at 26: ImportMissing

# As many names as the limit are indexed, and one more is too many, whatever else is wrong
a.proto: message A { int32 x = 1; }
--
names|2|||built
names|1|||too many

# the same
a.proto: package a.b.c;
--
names|3|||built
names|2|||too many

# the same
a.proto: message A { map<int32, int32> a = 1; }
--
names|5|||built
names|4|||too many

# the same
a.proto: message A {} message A {}
--
names|2|||0 at 40
names|1|||too many

# A message and a package of one name
a.proto: message A {}
b.proto: package A;
--
names|2|||1 at 27

# What names are declared for. A package is found nowhere
a.proto: package p.q; message M { map<int32, string> m = 1; optional int32 x = 2; oneof o { int32 y = 3; } message N {} }
b.proto: package p; enum E { Z = 0; } service S { rpc R(M) returns (M); }
--
find|0||p.q.M|Message 0
find|0||p.q.M.m|Field 0
find|0||p.q.M.MEntry|Message 0
find|0||p.q.M.MEntry.key|Field 0
find|0||p.q.M.MEntry.value|Field 0
find|0||p.q.M.x|Field 0
find|0||p.q.M._x|Oneof 0
find|0||p.q.M.o|Oneof 0
find|0||p.q.M.y|Field 0
find|0||p.q.M.N|Message 0
find|0||p.E|Enum 1
find|0||p.Z|Value 1
find|0||p.S|Service 1
find|0||p.S.R|Method 1
find|0||p|nothing
find|0||p.q|nothing
find|0||p.q.M.o.y|nothing
find|0||p.E.Z|nothing
find|0||p.R|nothing
find|0||M|nothing
find|0||q.M|nothing
find|0||p.q.|nothing
find|0||.p.q.M|nothing
find|0||p.q.M.|nothing
find|0||p.q.m|nothing
find|0|||nothing
services|0|||p.S;

# the same
a.proto: package A;
b.proto: package A;
--
find|0||A|nothing
services|0|||

# the same
a.proto: service b { rpc R(M) returns (M); } service T { rpc R(M) returns (M); } message M {}
b.proto: package a; service S { rpc R(M) returns (M); } service S_ { rpc R(M) returns (M); }
c.proto: package a.S0; service R { rpc R(M) returns (M); }
--
services|0|||T;a.S;a.S0.R;a.S_;b;

# A package whose first part is also the name of a message in it
p.proto: package a.b; message a { a.b.C x = 1; } message C {}
--
type|0|a.b.a|a.b.C|not found|the message that has the name of the first part decides
type|0|a.b.a|.a.b.C|Message a.b.C|a leading dot
type|0|a.b.a|b.C|Message a.b.C|a part of the package
type|0|a.b.a|C|Message a.b.C|a simple name in the package
type|0|a.b.a|a|Message a.b.a|the message itself
type|0|a.b.a|b|not found|a package is no type

# The first file sees the fourth by public imports
a.proto: import "b.proto"; message A { D d = 1; }
b.proto: import public "c.proto";
c.proto: import public "d.proto";
d.proto: message D {}
--
type|0|A|D|Message D|a chain of public imports

# The last import is not public
a.proto: import "b.proto"; message A { D d = 1; }
b.proto: import public "c.proto";
c.proto: import "d.proto";
d.proto: message D {}
--
type|0|A|D|not found|a chain with an import that is not public
type|0|A|.D|not found|a leading dot before what is not seen
type|0||A|Message A
type|0||D|not found
type|1||A|not found
type|1||D|not found
type|2||A|not found
type|2||D|Message D
type|3||A|not found
type|3||D|Message D

# An enum and a service beside it
a.proto: enum E { Z = 0; } service S { rpc R(E) returns (E); }
--
type|0|S|E|Enum E|an enum
type|0|S|Z|not found|a value
type|0|S|E.Z|not found|a value by its enum
type|0|S|S|not found|a service

# Elements that are no types stand in the inner scopes
a.proto: message B { message C {} } message F { int32 B = 1; B c = 2; } message O { oneof B { int32 x = 1; } } message V { enum E { B = 0; } } service S { rpc B(B) returns (B); }
--
type|0|F|B|Message B|a field is passed over
type|0|F|B.C|Message B.C|a field is passed over as a first part
type|0|O|B|Message B|a oneof is passed over
type|0|O|B.C|Message B.C|a oneof is passed over as a first part
type|0|V|B|Message B|a value is passed over
type|0|V|B.C|Message B.C|a value is passed over as a first part
type|0|S|B|Message B|a method is passed over
type|0|S|B.C|Message B.C|a method is passed over as a first part

# A service of the name of an imported message
a.proto: package p; import "b.proto"; service B { rpc R(M) returns (M); } message M {}
b.proto: message B { message C {} }
--
type|0|p.M|B.C|not found|a service decides as a first part

# An enum in a message, of the name of another message
a.proto: message A { enum E { Z = 0; } E.F x = 1; } message E { message F {} }
--
type|0|A|E.F|not found|an enum decides as a first part

# A message within another one, beside one of its name
a.proto: message B { message C {} } message A { message B { message D {} } B b = 1; }
--
type|0|A|B|Message A.B|a nested message before an outer one
type|0|A.B|B|Message A.B|within the nested message
type|0|A|B.C|not found|a nested message decides for a name that only the outer one has
type|0|A|.B.C|Message B.C|the outer message by a leading dot
type|0|B.C|C|Message B.C|the outer message from its own scope
type|0|x.y|A.B|Message A.B|a scope that nothing declares
type|0|A.x.y|B|Message A.B|a scope that nothing declares within one that is declared
type|0||B|Message B|the empty scope
type|0|AB|B|Message B|a scope that begins with a declared one's letters
type|0|A||not found|an empty text
type|0|A|.|not found|a dot alone
type|0|A|B.|not found|a dot at the end
type|0|A|..B|not found|two dots in front

# Two packages that the first file imports, of which one stands in the other's parent
a.proto: package p.r; import "b.proto"; import "c.proto"; message A {}
b.proto: package p.q.s; message M { enum E { Z = 0; } }
c.proto: package q; message M {} message N {}
--
type|0|p.r.A|q.M|not found|a part of a package of an imported file decides
type|0|p.r.A|q.s.M|Message p.q.s.M|a compound name by such a part
type|0|p.r.A|p.q.s.M.E|Enum p.q.s.M.E|a whole package
type|0|p.r.A|.q.N|Message q.N|an imported package that an inner one hides, by a leading dot
type|0|p.r.A|M|not found|a message of an imported package without the package

# A file that is not imported has a package within the first file's
a.proto: package a; import "b.proto"; message M { b.T x = 1; }
b.proto: package b; message T {}
c.proto: package a.b; message U {}
--
type|0|a.M|b.T|Message b.T|a package that is not seen decides nothing

# The same, where that file is imported
a.proto: package a; import "b.proto"; import "c.proto"; message M { b.T x = 1; }
b.proto: package b; message T {}
c.proto: package a.b; message U {}
--
type|0|a.M|b.T|not found|a package that is seen decides

# A map and its entry
a.proto: message A { map<int32, int32> a = 1; }
--
type|0|A|AEntry|Message A.AEntry|the entry of a map

# Where a message is wanted an enum is refused, in the scope that decides: no outer one is asked
a.proto: enum E { Z = 0; } message M { enum N { Y = 0; } } message N {} service S { rpc R(E) returns (E); }
--
message|0|S|E|no message
message|0|S|.E|no message
message|0|M|N|no message
message|0|S|M.N|no message
message|0|S|N|Message N
message|0|M|.N|Message N
message|0|S|Z|not found
message|0|S|S|not found
"##;

/// Compares the answers of a group's sources with those that are wanted.
fn compare_sources<R>(rt: &R, sources: &'static str, rows: &'static str)
where
    R: Threads + AllocGlobal + Sync + Abort,
{
    let texts = texts_of(rt, sources);
    let mut files = Vec::new(rt.alloc());
    put_files(rt, &mut files, sources, &texts);
    compare_rows(rt, &files, rows);
}

#[test]
fn lists(rt: HostRuntime) {
    for group in GROUPS.split("\n\n") {
        let (_, group) = group.split_once('\n').expect(&rt, "a title");
        let (sources, rows) = group.split_once("--\n").expect(&rt, "rows");
        compare_sources(&rt, sources, rows);
    }
}
