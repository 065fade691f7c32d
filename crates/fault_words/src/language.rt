//! Which language a file is written in, by its first statement, however little of the rest can be read.

use proto_base::Limits;
use proto_tokens::{TokenError, TokenKind, Tokens, tokenize};
use std::alloc::{AllocError, Global};

/// A language of Protocol Buffers, as the first statement of a file says it.
#[derive(Clone, Copy, PartialEq, Eq)]
pub(crate) enum Language {
    Proto3,
    Proto2,
    Edition,
    /// No statement says it, which is proto2.
    Unsaid,
    /// There is no statement.
    Unknown,
}

/// What is said of each fault of a file of another language.
pub(crate) fn foreign_words(language: Language) -> Option<&'static str> {
    match language {
        Language::Proto2 => Some(
            "the file is proto2, as its syntax says; protoc and buf compile it, and --set serves what they write",
        ),
        Language::Edition => Some(
            "the file is of an edition, as its first statement says; protoc and buf compile it, and --set serves what they write",
        ),
        Language::Unsaid => Some(
            "the file has no syntax, so it is proto2; a proto3 file begins with `syntax = \"proto3\";`",
        ),
        Language::Proto3 | Language::Unknown => None,
    }
}

/// The value of a token that is a string.
fn string_of<'t>(kind: &'t TokenKind<'_>) -> Option<&'t str> {
    match kind {
        TokenKind::StringLiteral(value) => Some(value.get().as_str()),
        _ => None,
    }
}

/// The language that a `syntax` statement with this version names.
fn language_named(version: Option<&str>) -> Language {
    match version {
        Some("proto3") => Language::Proto3,
        Some("proto2") => Language::Proto2,
        _ => Language::Unknown,
    }
}

/// The language of a file whose first tokens are these.
fn language_by(tokens: &Tokens) -> Language {
    let mut kinds = tokens.items.iter().map(|token| &token.kind);
    match kinds.next() {
        Some(TokenKind::Identifier("syntax")) => {
            let _equals = kinds.next();
            language_named(kinds.next().and_then(|kind| string_of(kind)))
        }
        Some(TokenKind::Identifier("edition")) => Language::Edition,
        Some(_) => Language::Unsaid,
        None => Language::Unknown,
    }
}

/// In comments before the first statement so many semicolons are passed over.
const MOST_TRIES: usize = 100;

/// The language of a file that begins with a text; unknown where its bytes are no tokens.
fn language_by_head(alloc: Global, head: &[u8], limits: &Limits) -> Result<Language, AllocError> {
    match tokenize(alloc, head, limits) {
        Ok(tokens) => Ok(language_by(&tokens)),
        Err(TokenError::At(..)) => Ok(Language::Unknown),
        Err(TokenError::NoMemory) => Err(AllocError),
    }
}

/// The language of a text: its bytes are read up to a semicolon, the first at which they are tokens.
pub(crate) fn language_of(
    alloc: Global,
    text: &[u8],
    limits: &Limits,
) -> Result<Language, AllocError> {
    let mut tries = 0usize;
    for (at, byte) in text.iter().enumerate() {
        if *byte == b';' {
            let language = language_by_head(alloc, &text[..at], limits)?;
            tries = tries.saturating_add(1);
            if language != Language::Unknown || tries == MOST_TRIES {
                return Ok(language);
            }
        }
    }
    Ok(Language::Unknown)
}
