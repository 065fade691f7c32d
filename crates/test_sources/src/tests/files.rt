//! Files by themselves: what they describe, under the standard limits and under lower ones.

use super::{expect, field};
use proto_base::{FileError, Limit, Limits, Spot};
use proto_desc::file::FileDesc;
use proto_desc::is_resolved;
use proto_desc::options::{OptionDescriptor, OptionValue};
use proto_file::describe;
use std::alloc::{AllocError, AllocGlobal, Global};
use std::borrow::CowStr;
use std::process::Abort;

/// Whether the value of the first option, if there is one, is a text that is the source's own.
fn lends(alloc: Global, options: &[OptionDescriptor]) -> Result<bool, AllocError> {
    let Some(option) = options.first() else {
        return Ok(false);
    };
    let OptionValue::Text(text) = &option.value else {
        return Ok(false);
    };
    let text = text.try_clone(alloc)?.into_cow();
    Ok(matches!(&text, CowStr::Borrowed(_)))
}

/// What is told of a descriptor: whether each name of a type is resolved, and whether the first option is lent.
fn told(alloc: Global, file: &FileDesc) -> Result<String, AllocError> {
    let is_lent = lends(alloc, file.options.as_slice())?;
    let words = match (is_resolved(file), is_lent) {
        (true, false) => "a file",
        (true, true) => "a file, lent",
        (false, false) => "a file, with names",
        (false, true) => "a file, with names, lent",
    };
    String::from_str(alloc, words)
}

/// What is told of the file that a text is, or the kind and the place of its fault, as `NameTooLong at 27`.
fn judged(alloc: Global, text: &str, limits: &Limits) -> Result<String, AllocError> {
    match describe(alloc, "a.proto", text.as_bytes(), limits) {
        Ok(file) => told(alloc, &file),
        Err(FileError::First(fault)) => {
            let Spot { place, kind } = fault.spot;
            format!(in alloc; "{kind} at {place}")
        }
        Err(FileError::NoMemory) => Err(AllocError),
    }
}

/// Sources, and what is told of them: whether each name of a type is resolved, at each depth (that of a map field is from
/// the start), and whether the value of an option is the source's own, as one string without escapes is.
static ROWS: &str =
    r##"syntax = "proto3"; message A { bool x = 1; message B { int32 y = 1; } } -> a file
syntax = "proto3"; message A { message B { map<int32, int32> m = 1; } } -> a file
syntax = "proto3"; message A { message B { E e = 1; } int32 x = 1; } -> a file, with names
syntax = "proto3"; message A { map<int32, E> m = 1; } -> a file, with names
syntax = "proto3"; service S {} -> a file
syntax = "proto3"; service S { rpc R(A) returns (A); } -> a file, with names
syntax = "proto3"; option java_package = "j"; -> a file, lent
syntax = "proto3"; option java_package = "j" "k"; -> a file
syntax = "proto3"; option java_package = "\x6A"; -> a file
"##;

#[test]
fn described(rt: HostRuntime) {
    let standard = Limits::standard();
    for row in ROWS.lines() {
        let (text, wanted) = row.split_once(" -> ").expect(&rt, "a row");
        let found = judged(rt.alloc(), text, &standard).expect(&rt, "memory");
        expect(&rt, row, found.as_str(), wanted);
    }
}

/// A limit, the least that suffices for a source, and its fault under one less.
#[derive(Clone, Copy)]
struct LimitRow {
    limit: Limit,
    least: u64,
    fault: &'static str,
    text: &'static str,
}

fn limit_of(name: &str) -> Option<Limit> {
    match name {
        "FileBytes" => Some(Limit::FileBytes),
        "NameBytes" => Some(Limit::NameBytes),
        "FullNameBytes" => Some(Limit::FullNameBytes),
        "Depth" => Some(Limit::Depth),
        _ => None,
    }
}

fn row_of<R: Abort>(rt: &R, line: &'static str) -> LimitRow {
    let (limit, rest) = field(rt, line);
    let (least, rest) = field(rt, rest);
    let (fault, text) = field(rt, rest);
    let limit = limit_of(limit).expect(rt, "a limit");
    let least = least.parse().expect(rt, "a number");
    LimitRow {
        limit,
        least,
        fault,
        text,
    }
}

/// The names of limits, the least that suffices, the fault under one less, and the source.
static LIMIT_ROWS: &str =
    r##"FileBytes|45|FileTooLong at 0|syntax = "proto3"; message A { int32 x = 1; }
NameBytes|3|NameTooLong at 27|syntax = "proto3"; message Abc {}
NameBytes|8|NameTooLong at 49|syntax = "proto3"; message A { map<int32, int32> foo = 1; }
NameBytes|3|NameTooLong at 46|syntax = "proto3"; message A { optional int32 ab = 1; }
NameBytes|3|NameTooLong at 37|syntax = "proto3"; message A { int32 abc = 1; }
NameBytes|3|NameTooLong at 37|syntax = "proto3"; message A { oneof abc { int32 x = 1; } }
NameBytes|3|NameTooLong at 51|syntax = "proto3"; message A { message B { message Abc {} } }
NameBytes|3|NameTooLong at 28|syntax = "proto3"; enum E { ABC = 0; }
NameBytes|3|NameTooLong at 36|syntax = "proto3"; message A { enum Abc { A = 0; } }
NameBytes|3|NameTooLong at 27|syntax = "proto3"; service Abc { rpc M(A) returns (A); }
NameBytes|3|NameTooLong at 35|syntax = "proto3"; service S { rpc Abc(A) returns (A); }
NameBytes|3|NameTooLong at 27|syntax = "proto3"; package ab.abc.d;
NameBytes|3|NameTooLong at 27|syntax = "proto3"; package abc;
FullNameBytes|3|NameTooLong at 38|syntax = "proto3"; package a; message B {}
FullNameBytes|6|NameTooLong at 27|syntax = "proto3"; package ab.abc;
FullNameBytes|6|NameTooLong at 51|syntax = "proto3"; package ab; message A { message B {} }
FullNameBytes|6|NameTooLong at 40|syntax = "proto3"; package ab; enum E { Zed = 0; }
FullNameBytes|5|NameTooLong at 40|syntax = "proto3"; message A { enum E { Zed = 0; } }
FullNameBytes|4|NameTooLong at 35|syntax = "proto3"; service S { rpc Ab(A) returns (A); }
FullNameBytes|14|NameTooLong at 49|syntax = "proto3"; message A { map<int32, int32> a = 1; }
FullNameBytes|5|NameTooLong at 46|syntax = "proto3"; message A { optional int32 ab = 1; }
FullNameBytes|4|NameTooLong at 27|syntax = "proto3"; message Abcd {}
Depth|1|no limit|syntax = 'proto3'; message A {}
Depth|2|TooDeep at 31|syntax = 'proto3'; message A { message B {} }
"##;

/// What is told of a row's source where its limit has this value. No limit is 0.
fn judged_at(alloc: Global, row: &LimitRow, value: u64) -> Result<String, AllocError> {
    match Limits::standard().lowered(row.limit, value) {
        Some(limits) => judged(alloc, row.text, &limits),
        None => String::from_str(alloc, "no limit"),
    }
}

/// Compares what is told under the least that suffices and under one less with what is wanted.
fn compare<R: AllocGlobal + Abort>(rt: &R, row: &LimitRow) {
    let enough = judged_at(rt.alloc(), row, row.least).expect(rt, "memory");
    assert!(rt; enough.starts_with("a file"), "{}", row.text);
    let found = judged_at(rt.alloc(), row, row.least.saturating_sub(1));
    let found = found.expect(rt, "memory");
    expect(rt, row.text, found.as_str(), row.fault);
}

#[test]
fn limited(rt: HostRuntime) {
    for line in LIMIT_ROWS.lines() {
        compare(&rt, &row_of(&rt, line));
    }
}
