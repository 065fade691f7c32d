//! One file, from its text to the bytes of its descriptor, and the names that are made.

use crate::answers::{Answer, answer_of, bytes_answer, failed, text_answer};
use proto_base::Limits;
use proto_base::scalar_type::ScalarType;
use proto_checks::first_check_fault;
use proto_compile::CompileError;
use proto_desc::field::{FieldDesc, FieldKind, FieldLabel};
use proto_desc::file::FileDesc;
use proto_desc::is_resolved;
use proto_lower::{entry_name, json_name, lower, oneof_name};
use proto_syntax::{ParseError, parse};
use proto_tokens::{Token, TokenError, TokenKind, Tokens, tokenize};
use proto_tree::{Field, FieldType, FileTree, Message, MessageItem, Statement};
use schema_headline::describe;
use std::alloc::{AllocError, AllocGlobal, Global};
use std::thread::Threads;
use wire_bytes::{file_bytes, file_bytes_within};

/// The file's name.
pub(crate) const NAME: &str = "a.proto";

/// A message with a field.
pub(crate) const TEXT: &[u8] = b"syntax = \"proto3\"; message A { int32 x = 1; }";

/// The bytes of its descriptor.
pub(crate) const BYTES: &[u8] =
    b"\x0A\x07a.proto\x22\x11\x0A\x01A\x12\x0C\x0A\x01x\x18\x01\x20\x01\x28\x05\x52\x01x\x62\x06proto3";

/// Its tokens: where each begins and ends, and what it says.
static TOKENS: [(u32, u32, &str); 13] = [
    (0, 6, "syntax"),
    (7, 8, "="),
    (9, 17, "proto3"),
    (17, 18, ";"),
    (19, 26, "message"),
    (27, 28, "A"),
    (29, 30, "{"),
    (31, 36, "int32"),
    (37, 38, "x"),
    (39, 40, "="),
    (41, 42, "1"),
    (42, 43, ";"),
    (44, 45, "}"),
];

/// Whether a token says this text, and stands where it does.
fn is_token(token: &Token, start: u32, end: u32, text: &str) -> bool {
    let says = match &token.kind {
        TokenKind::Identifier(name) => *name == text,
        TokenKind::Number(number) => text.parse() == Ok(*number),
        TokenKind::StringLiteral(value) => value.get().as_str() == text,
        TokenKind::Punctuation(mark) => text.starts_with(*mark),
    };
    says && token.span.start.offset == start && token.span.end.offset == end
}

/// Whether these are the tokens of the text.
fn are_tokens(tokens: &[Token]) -> bool {
    for (token, (start, end, text)) in tokens.iter().zip(&TOKENS) {
        if !is_token(token, *start, *end, text) {
            return false;
        }
    }
    tokens.len() == TOKENS.len()
}

pub(crate) fn has_tokens(alloc: Global) -> Answer {
    match tokenize(alloc, TEXT, &Limits::standard()) {
        Ok(tokens) => answer_of(are_tokens(&tokens.items)),
        Err(error) => failed(matches!(error, TokenError::NoMemory)),
    }
}

fn is_field(field: &Field) -> bool {
    let is_number = matches!(field.field_type, FieldType::Scalar(ScalarType::Int32, _));
    is_number && field.declarator.name.text == "x" && field.declarator.number.value == 1
}

/// Whether this is the message of the text.
fn is_message(message: &Message) -> bool {
    match message.items.as_slice().first() {
        Some(MessageItem::Field(field)) => {
            message.items.len() == 1 && message.name.text == "A" && is_field(field.get())
        }
        _ => false,
    }
}

/// Whether this is the tree of the text.
fn is_tree(file: &FileTree) -> bool {
    match file.statements.as_slice().first() {
        Some(Statement::Message(message)) => {
            file.statements.len() == 1 && is_message(message.get())
        }
        _ => false,
    }
}

fn tree_answer(made: &Result<FileTree<'static>, ParseError>) -> Answer {
    match made {
        Ok(file) => answer_of(is_tree(file)),
        Err(error) => failed(matches!(error, ParseError::NoMemory)),
    }
}

pub(crate) fn has_tree(alloc: Global, tokens: &Tokens<'static>) -> Answer {
    let made = parse(alloc, tokens, &Limits::standard());
    let answer = tree_answer(&made);
    drop(made);
    answer
}

fn is_field_desc(alloc: Global, field: &FieldDesc) -> bool {
    field.name.as_str() == "x"
        && field.number == 1
        && field.label == FieldLabel::Optional
        && matches!(field.field_type, FieldKind::Scalar(ScalarType::Int32))
        && matches!(field.json_name.text(alloc), Ok(text) if text.as_str() == "x")
}

/// Whether this is the descriptor of the text.
fn is_descriptor(alloc: Global, file: &FileDesc) -> bool {
    let [message] = file.messages.as_slice() else {
        return false;
    };
    let [field] = message.fields.as_slice() else {
        return false;
    };
    file.name.as_str() == NAME && message.name.as_str() == "A" && is_field_desc(alloc, field)
}

fn descriptor_answer(alloc: Global, made: &Result<FileDesc<'static>, AllocError>) -> Answer {
    match made {
        Ok(file) => answer_of(is_descriptor(alloc, file)),
        Err(AllocError) => Answer::NoMemory,
    }
}

pub(crate) fn has_descriptor(alloc: Global, tree: &FileTree<'static>) -> Answer {
    let made = lower(alloc, NAME, tree);
    let answer = descriptor_answer(alloc, &made);
    drop(made);
    answer
}

pub(crate) fn has_no_fault(
    alloc: Global,
    tree: &FileTree<'static>,
    desc: &FileDesc<'static>,
) -> Answer {
    match first_check_fault(alloc, tree, desc, &Limits::standard()) {
        Ok(fault) => answer_of(fault.is_none()),
        Err(AllocError) => Answer::NoMemory,
    }
}

pub(crate) fn has_bytes(alloc: Global, desc: &FileDesc<'static>) -> Answer {
    if !is_resolved(desc) {
        return Answer::Other;
    }
    bytes_answer(&file_bytes(alloc, desc), BYTES)
}

pub(crate) fn has_bytes_within(alloc: Global, desc: &FileDesc<'static>) -> Answer {
    if !is_resolved(desc) {
        return Answer::Other;
    }
    match file_bytes_within(alloc, desc, BYTES.len() as u64) {
        Ok(Some(bytes)) => answer_of(bytes.as_slice() == BYTES),
        Ok(None) => Answer::Other,
        Err(AllocError) => Answer::NoMemory,
    }
}

pub(crate) fn is_described<R: Threads + AllocGlobal + Sync>(rt: &R) -> Answer {
    match describe(rt, NAME, TEXT, &Limits::standard()) {
        Ok(bytes) => answer_of(bytes.as_slice() == BYTES),
        Err(error) => failed(matches!(error, CompileError::NoMemory)),
    }
}

pub(crate) fn has_json_name(alloc: Global) -> Answer {
    text_answer(&json_name(alloc, "x"), "x")
}

pub(crate) fn has_entry_name(alloc: Global) -> Answer {
    text_answer(&entry_name(alloc, "my_map"), "MyMapEntry")
}

pub(crate) fn has_oneof_name(alloc: Global) -> Answer {
    let made = oneof_name(alloc, "a", &["a", "_a", "k", "b"]);
    text_answer(&made, "X_a")
}
