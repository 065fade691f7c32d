//! What is said of faults of tokens and of the grammar, by the text at their place.

use crate::expected::expected_at;
use crate::words::Words;
use proto_base::{Kind, Limits, Place};
use std::alloc::{AllocError, Global};

/// Of a word or a number so many characters are shown.
const MOST_SHOWN: usize = 60;

/// The bytes of a text from a place on.
pub(crate) fn from_place(text: &[u8], place: Place) -> &[u8] {
    let (_, rest) = text.split_at(text.len().min(place.offset as usize));
    rest
}

/// Whether a byte goes on with a word or a number.
fn is_of_word(byte: u8) -> bool {
    byte.is_ascii_alphanumeric() || byte == b'_' || byte == b'.'
}

/// The word or the number that begins a text, as far as it is shown.
pub(crate) fn word_at(alloc: Global, text: &[u8]) -> Result<String, AllocError> {
    text.iter()
        .copied()
        .take_while(|byte| is_of_word(*byte))
        .take(MOST_SHOWN)
        .map(|byte| char::from(byte))
        .collect(alloc)
}

/// The character that begins a text.
fn first_char(alloc: Global, text: &[u8]) -> Result<Option<char>, AllocError> {
    let head = &text[..text.len().min(4)];
    let shown = String::from_utf8_lossy(alloc, head)?;
    Ok(shown.chars().next())
}

/// What begins a text: a word or a number as it is, a character of ASCII, or any other by its number.
fn shown_at(alloc: Global, text: &[u8]) -> Result<String, AllocError> {
    let word = word_at(alloc, text)?;
    if !word.is_empty() {
        return format!(in alloc; "`{word}`");
    }
    match first_char(alloc, text)? {
        Some(c) if c.is_ascii_graphic() => format!(in alloc; "`{c}`"),
        Some(c) => format!(in alloc; "U+{:04X}", u32::from(c)),
        None => String::from_str(alloc, "the end of the file"),
    }
}

/// What is said of a character that begins no token.
fn bad_byte_words(alloc: Global, text: &[u8]) -> Result<String, AllocError> {
    match first_char(alloc, text)? {
        Some(c) if c.is_alphanumeric() => {
            format!(in alloc; "no token begins with `{c}` (U+{:04X})", u32::from(c))
        }
        Some(c) => format!(in alloc; "no token begins with U+{:04X}", u32::from(c)),
        None => String::from_str(alloc, "no token begins here"),
    }
}

/// What is said of an escape that is none, or of a string whose value is no UTF-8.
fn bad_escape_words(alloc: Global, text: &[u8]) -> Result<String, AllocError> {
    match text {
        [b'\\', escaped, ..] if escaped.is_ascii_graphic() => {
            format!(in alloc; "`\\{}` is no escape", char::from(*escaped))
        }
        [b'\\', ..] => String::from_str(alloc, "what stands behind the backslash is no escape"),
        _ => String::from_str(alloc, "the value of this string is no UTF-8"),
    }
}

/// What is said of a byte that belongs to no character.
fn no_utf8_words(alloc: Global, text: &[u8]) -> Result<String, AllocError> {
    match text.first() {
        Some(byte) => format!(in alloc; "the byte 0x{byte:02x} belongs to no character of UTF-8"),
        None => String::from_str(alloc, "a character is cut short"),
    }
}

/// What is said of a fault of tokens.
pub(crate) fn token_words<'s>(
    alloc: Global,
    text: &[u8],
    place: Place,
    kind: Kind,
) -> Result<Option<Words<'s>>, AllocError> {
    let rest = from_place(text, place);
    let about = match kind {
        Kind::NotUtf8 => no_utf8_words(alloc, rest)?,
        Kind::BadByte => bad_byte_words(alloc, rest)?,
        Kind::BadNumber => format!(in alloc; "`{}` is no integer", word_at(alloc, rest)?)?,
        Kind::NumberTooBig => format!(in alloc;
            "`{}` is over 18,446,744,073,709,551,615",
            word_at(alloc, rest)?
        )?,
        Kind::BadEscape => bad_escape_words(alloc, rest)?,
        Kind::FileTooLong => format!(in alloc; "the file has {} bytes", text.len())?,
        _ => return Ok(None),
    };
    Ok(Some(Words::alone(about)))
}

/// What is said of a token that cannot stand where it stands: what could.
fn unexpected_words(
    alloc: Global,
    text: &[u8],
    place: Place,
    limits: &Limits,
) -> Result<String, AllocError> {
    let shown = shown_at(alloc, from_place(text, place))?;
    let expected = expected_at(alloc, text, place, limits)?;
    if expected.is_empty() {
        return format!(in alloc; "{shown} cannot stand here");
    }
    format!(in alloc; "{shown} cannot stand here; expected {expected}")
}

/// What is said of a fault of the grammar.
pub(crate) fn grammar_words<'s>(
    alloc: Global,
    text: &[u8],
    place: Place,
    kind: Kind,
    limits: &Limits,
) -> Result<Option<Words<'s>>, AllocError> {
    let about = match kind {
        Kind::Unexpected | Kind::UnexpectedEnd => unexpected_words(alloc, text, place, limits)?,
        Kind::CustomOption => String::from_str(
            alloc,
            "a custom option; --skip-custom-options takes the sources as if it were not there, and --set serves a set that has it",
        )?,
        Kind::LeftOut => format!(in alloc;
            "`{}` is no part of proto3 here; --skip-custom-options passes over `extend` and `weak`, and --set serves a set that has any",
            word_at(alloc, from_place(text, place))?
        )?,
        _ => return Ok(None),
    };
    Ok(Some(Words::alone(about)))
}
