//! Sources and what they spell, by the proto3 language specification, "Lexical elements".

use super::expect;
use proto_base::{Kind, Limit, Limits, Place};
use proto_syntax::ParseError;
use proto_tokens::{Token, TokenError, TokenKind, Tokens, tokenize};
use std::alloc::{AllocError, AllocGlobal, Global};
use std::borrow::CowStr;
use std::process::Abort;

/// A string literal. One that is not the source's own is marked as made.
fn literal(alloc: Global, value: &CowStr) -> Result<String, AllocError> {
    match value {
        CowStr::Borrowed(value) => format!(in alloc; "'{value}'"),
        CowStr::Owned(value) => format!(in alloc; "made '{value}'"),
    }
}

/// What a token says.
fn said(alloc: Global, kind: &TokenKind) -> Result<String, AllocError> {
    match kind {
        TokenKind::Identifier(name) => String::from_str(alloc, name),
        TokenKind::Number(value) => format!(in alloc; "#{value}"),
        TokenKind::StringLiteral(value) => literal(alloc, value.get()),
        TokenKind::Punctuation(mark) => format!(in alloc; "{mark}"),
    }
}

/// A token with the bytes that it is, a blank before it.
fn shown(alloc: Global, token: &Token) -> Result<String, AllocError> {
    let start = token.span.start;
    let end = token.span.end;
    let said = said(alloc, &token.kind)?;
    format!(in alloc; " {start}-{end} {said}")
}

/// Tokens in one line.
fn line_of(alloc: Global, tokens: &[Token]) -> Result<String, AllocError> {
    let mut line = String::new(alloc);
    for token in tokens {
        line.push_str(shown(alloc, token)?.as_str())?;
    }
    Ok(line)
}

/// Tokens in one line, if they end where their text does.
fn shown_to_end(alloc: Global, tokens: &Tokens, end: usize) -> Result<String, AllocError> {
    if tokens.end.offset as usize == end {
        line_of(alloc, &tokens.items)
    } else {
        String::from_str(alloc, "another end")
    }
}

/// The answer in one line: each token with the bytes that it is, or the fault and its place.
fn answer(alloc: Global, text: &[u8], limits: &Limits) -> Result<String, AllocError> {
    match tokenize(alloc, text, limits) {
        Ok(tokens) => shown_to_end(alloc, &tokens, text.len()),
        Err(TokenError::At(place, kind)) => format!(in alloc; "{kind} at {place}"),
        Err(TokenError::NoMemory) => Err(AllocError),
    }
}

/// Sources, and their tokens or their first fault: rows with an empty line between them. More sources that are no tokens are
/// judged by the program (tests/sources.txt).
static ROWS: &str = " -> \n\n\
    \x20\t\n\r\x0B\x0C -> \n\n\
    a\rb\x0Cc\x0Bd -> 0-1 a 2-3 b 4-5 c 6-7 d\n\n\
    a // b\nc -> 0-1 a 7-8 c\n\n\
    // to the end -> \n\n\
    //\ra -> \n\n\
    // \u{e9} \x00 ' -> \n\n\
    /**/a -> 4-5 a\n\n\
    /***/a -> 5-6 a\n\n\
    /*\x00\u{e9}\n'*/a -> 9-10 a\n\n\
    /* a /* b */ c -> 13-14 c\n\n\
    /* a */ */ -> 8-9 * 9-10 /\n\n\
    a/b -> 0-1 a 1-2 / 2-3 b\n\n\
    / -> 0-1 /\n\n\
    _ A9_z -> 0-1 _ 2-6 A9_z\n\n\
    message messages -> 0-7 message 8-16 messages\n\n\
    a.b -> 0-1 a 1-2 . 2-3 b\n\n\
    ab9=-1; -> 0-3 ab9 3-4 = 4-5 - 5-6 #1 6-7 ;\n\n\
    !#$%& -> 0-1 ! 1-2 # 2-3 $ 3-4 % 4-5 &\n\n\
    ()*+,-.:; -> 0-1 ( 1-2 ) 2-3 * 3-4 + 4-5 , 5-6 - 6-7 . 7-8 : 8-9 ;\n\n\
    <=>?@[\\]^`{|}~ -> 0-1 < 1-2 = 2-3 > 3-4 ? 4-5 @ 5-6 [ 6-7 \\ 7-8 ] 8-9 ^ 9-10 ` 10-11 { 11-12 | 12-13 } 13-14 ~\n\n\
    0 -> 0-1 #0\n\n\
    00 -> 0-2 #0\n\n\
    017 -> 0-3 #15\n\n\
    907 -> 0-3 #907\n\n\
    0x1F 0Xaf -> 0-4 #31 5-9 #175\n\n\
    0x00000000000000000001 -> 0-22 #1\n\n\
    1 .5 -> 0-1 #1 2-3 . 3-4 #5\n\n\
    1'a' -> 0-1 #1 1-4 'a'\n\n\
    18446744073709551615 -> 0-20 #18446744073709551615\n\n\
    0xFFFFFFFFFFFFFFFF -> 0-18 #18446744073709551615\n\n\
    01777777777777777777777 -> 0-23 #18446744073709551615\n\n\
    \u{feff} -> \n\n\
    \u{feff}a -> 3-4 a\n\n\
    'proto' \"\\063\" -> 0-7 'proto' 8-14 made '3'\n\n\
    'a''b' -> 0-3 'a' 3-6 'b'\n\n\
    \u{feff}'ab' -> 3-7 'ab'\n\n\
    '' -> 0-2 ''\n\n\
    \"a'b\" -> 0-5 'a'b'\n\n\
    'a\"b' -> 0-5 'a\"b'\n\n\
    'a\rb\x7F' -> 0-6 'a\rb\x7F'\n\n\
    '\u{e9}' -> 0-4 '\u{e9}'\n\n\
    '\u{feff}' -> 0-5 '\u{feff}'\n\n\
    '\\a\\b\\f\\n\\r\\t\\v' -> 0-16 made '\x07\x08\x0C\n\r\t\x0B'\n\n\
    '\\\\\\'\\\"\\?' -> 0-10 made '\\'\"?'\n\n\
    '\\0' -> 0-4 made '\x00'\n\n\
    '\\18' -> 0-5 made '\x018'\n\n\
    '\\1018' -> 0-7 made 'A8'\n\n\
    '\\177' -> 0-6 made '\x7F'\n\n\
    '\\303\\251' -> 0-10 made '\u{e9}'\n\n\
    '\\x4' -> 0-5 made '\x04'\n\n\
    '\\x41' -> 0-6 made 'A'\n\n\
    '\\X4a4' -> 0-7 made 'J4'\n\n\
    '\\x4g' -> 0-6 made '\x04g'\n\n\
    '\\xC3\\xa9' -> 0-10 made '\u{e9}'\n\n\
    '\\u00E9' -> 0-8 made '\u{e9}'\n\n\
    '\\u00e94' -> 0-9 made '\u{e9}4'\n\n\
    '\\ud7ff' -> 0-8 made '\u{d7ff}'\n\n\
    '\\ue000' -> 0-8 made '\u{e000}'\n\n\
    '\\U0001f600' -> 0-12 made '\u{1f600}'\n\n\
    '\\U0010FFFF' -> 0-12 made '\u{10ffff}'\n\n\
    '\\U0010FFFF0' -> 0-13 made '\u{10ffff}0'\n\n\
    'a\\u00e9b\\x41c' -> 0-15 made 'a\u{e9}bAc'\n\n\
    syntax = \"proto3\"; message A { int32 x = 1.5; } -> BadNumber at 41\n\n\
    syntax = \"proto3\"; message A { int32 x = 18446744073709551616; } -> NumberTooBig at 41\n\n\
    syntax = \"proto3\"; /* x -> UnclosedComment at 19\n\n\
    syntax = \"pro\\qto3\"; -> BadEscape at 13";

/// Sources under a limit of two bytes.
static AT_LIMIT: [(&[u8], &str); 5] = [
    (b"ab", "0-2 ab"),
    (b"abc", "FileTooLong at 0"),
    (b"\xFF\xFF", "NotUtf8 at 0"),
    (b"\xFF\xFF\xFF", "FileTooLong at 0"),
    (b"\x01\x01\x01", "FileTooLong at 0"),
];

/// Compares what is told of a source with what is wanted.
fn compare<R: AllocGlobal + Abort>(rt: &R, text: &[u8], limits: &Limits, wanted: &str) {
    let found = answer(rt.alloc(), text, limits).expect(rt, "memory");
    expect(rt, wanted, found.as_str().trim_start(), wanted);
}

#[test]
fn tokens(rt: HostRuntime) {
    let standard = Limits::standard();
    for row in ROWS.split("\n\n") {
        let (text, wanted) = row.split_once(" -> ").expect(&rt, "a row");
        compare(&rt, text.as_bytes(), &standard, wanted);
    }
}

#[test]
fn tokens_at_a_limit(rt: HostRuntime) {
    let short = Limits::standard().lowered(Limit::FileBytes, 2);
    let short = short.expect(&rt, "a limit");
    for (text, wanted) in &AT_LIMIT {
        compare(&rt, text, &short, wanted);
    }
}

#[test]
fn errors(rt: HostRuntime) {
    let fault = TokenError::At(Place { offset: 7 }, Kind::BadByte);
    let refused = TokenError::NoMemory;
    let unfit = ParseError::At(Place { offset: 7 }, Kind::TooDeep);
    let text = format!(in rt.alloc(); "{fault}, {refused}, {unfit}").expect(&rt, "memory");
    assert!(rt; text.as_str() == "BadByte at byte 7, out of memory, TooDeep at byte 7");
}
