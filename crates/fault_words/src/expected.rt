//! What could stand where a token can't: each kind of token that the grammar goes on with behind the same tokens.
//!
//! The grammar is asked by its parser: behind the tokens before the place one more is put, and it may stand there where the
//! fault, if there is one, comes later.

use proto_base::boxed::Boxed;
use proto_base::{Limits, Place, Span};
use proto_syntax::{ParseError, parse};
use proto_tokens::{Token, TokenError, TokenKind, Tokens, tokenize};
use std::alloc::{AllocError, Global};
use std::borrow::CowStr;
use std::fmt::Write;

/// A token that is tried.
#[derive(Clone, Copy)]
enum Trial {
    Word(&'static str),
    /// A word that is no keyword.
    Name,
    Number,
    Text,
    Sign(char),
}

/// What is tried, with what is said of it, in the order in which it is told.
static TRIALS: [(Trial, &str); 30] = [
    (Trial::Sign('='), "`=`"),
    (Trial::Number, "a number"),
    (Trial::Text, "a string"),
    (Trial::Name, "a name"),
    (Trial::Word("syntax"), "`syntax`"),
    (Trial::Word("message"), "`message`"),
    (Trial::Word("enum"), "`enum`"),
    (Trial::Word("service"), "`service`"),
    (Trial::Word("import"), "`import`"),
    (Trial::Word("package"), "`package`"),
    (Trial::Word("rpc"), "`rpc`"),
    (Trial::Word("returns"), "`returns`"),
    (Trial::Word("stream"), "`stream`"),
    (Trial::Word("option"), "`option`"),
    (Trial::Word("to"), "`to`"),
    (Trial::Word("max"), "`max`"),
    (Trial::Sign(';'), "`;`"),
    (Trial::Sign('{'), "`{`"),
    (Trial::Sign('}'), "`}`"),
    (Trial::Sign('['), "`[`"),
    (Trial::Sign(']'), "`]`"),
    (Trial::Sign('('), "`(`"),
    (Trial::Sign(')'), "`)`"),
    (Trial::Sign('<'), "`<`"),
    (Trial::Sign('>'), "`>`"),
    (Trial::Sign(','), "`,`"),
    (Trial::Sign('.'), "`.`"),
    (Trial::Sign('-'), "`-`"),
    (Trial::Sign('+'), "`+`"),
    (Trial::Word("int32"), "the type of a key"),
];

/// At most so many are told.
const MOST_TOLD: usize = 6;

/// A token of this kind.
fn kind_of<'s>(alloc: Global, trial: Trial) -> Result<TokenKind<'s>, AllocError> {
    Ok(match trial {
        Trial::Word(word) => TokenKind::Identifier(word),
        Trial::Name => TokenKind::Identifier("x"),
        Trial::Number => TokenKind::Number(1),
        Trial::Text => TokenKind::StringLiteral(Boxed::new(alloc, CowStr::Borrowed("x"))?),
        Trial::Sign(sign) => TokenKind::Punctuation(sign),
    })
}

/// Whether a token of this kind may stand behind these, whose end is its place.
fn can_stand(
    alloc: Global,
    tokens: &mut Tokens<'_>,
    trial: Trial,
    limits: &Limits,
) -> Result<bool, AllocError> {
    let start = tokens.end;
    let end = Place {
        offset: start.offset.saturating_add(1),
    };
    let kind = kind_of(alloc, trial)?;
    tokens.items.push(Token {
        kind,
        span: Span { start, end },
    })?;
    tokens.end = end;
    let answer = match parse(alloc, tokens, limits) {
        Ok(_) => Ok(true),
        Err(ParseError::At(place, _)) => Ok(place != start),
        Err(ParseError::NoMemory) => Err(AllocError),
    };
    let _tried = tokens.items.pop();
    tokens.end = start;
    answer
}

/// How far a list of tokens goes as statements of a file that are whole: behind the last `;` or `}` outside of braces.
fn whole_len(tokens: &[Token]) -> usize {
    let mut depth = 0usize;
    let mut whole = 0;
    for (at, token) in tokens.iter().enumerate() {
        match token.kind {
            TokenKind::Punctuation('{') => depth = depth.saturating_add(1),
            TokenKind::Punctuation('}') => depth = depth.saturating_sub(1),
            TokenKind::Punctuation(';') => {}
            _ => continue,
        }
        if depth == 0 && !matches!(token.kind, TokenKind::Punctuation('{')) {
            whole = at.saturating_add(1);
        }
    }
    whole
}

/// The number of tokens of the `syntax` statement, which each file begins with.
const HEAD: usize = 4;

/// Where the text ends that has the first tokens of a list.
fn end_of(tokens: &[Token], count: usize) -> usize {
    match tokens.iter().take(count).last() {
        Some(token) => token.span.end.offset as usize,
        None => 0,
    }
}

/// The text before a place without the statements that are whole there, but for the first one.
fn text_before(
    alloc: Global,
    text: &[u8],
    place: Place,
    limits: &Limits,
) -> Result<Vec<u8>, TokenError> {
    let before = &text[..text.len().min(place.offset as usize)];
    let tokens = tokenize(alloc, before, limits)?;
    let whole = whole_len(&tokens.items);
    if whole <= HEAD {
        return Ok(Vec::from_slice(alloc, before)?);
    }
    let head = end_of(&tokens.items, HEAD).min(before.len());
    let statement = end_of(&tokens.items, whole).min(before.len());
    let mut short = Vec::from_slice(alloc, &before[..head])?;
    short.push(b'\n')?;
    short.extend_from_slice(&before[statement..])?;
    Ok(short)
}

/// The names of these tokens, with commas between them and `or` before the last.
fn listed(alloc: Global, names: &[&str]) -> Result<String, AllocError> {
    let mut text = String::new(alloc);
    for (at, name) in names.iter().enumerate() {
        let between = match at {
            0 => "",
            _ if at.saturating_add(1) == names.len() => " or ",
            _ => ", ",
        };
        write!(text, "{between}{name}")?;
    }
    Ok(text)
}

/// What may stand behind a text that is the beginning of a file: at most so much as is told.
fn next_of(alloc: Global, before: &[u8], limits: &Limits) -> Result<Vec<&'static str>, AllocError> {
    let mut names = Vec::new(alloc);
    let mut tokens = match tokenize(alloc, before, limits) {
        Ok(tokens) => tokens,
        Err(TokenError::At(..)) => return Ok(names),
        Err(TokenError::NoMemory) => return Err(AllocError),
    };
    // Where any name may stand, keywords may too, as names.
    let mut takes_names = false;
    for (trial, name) in &TRIALS {
        let is_tried = names.len() < MOST_TOLD && !(takes_names && matches!(trial, Trial::Word(_)));
        if is_tried && can_stand(alloc, &mut tokens, *trial, limits)? {
            takes_names = takes_names || matches!(trial, Trial::Name);
            names.push(*name)?;
        }
    }
    Ok(names)
}

/// What may stand at a place in a text whose tokens before it are the beginning of a file, as a list of at most six; nothing where
/// they are none.
pub(crate) fn expected_at(
    alloc: Global,
    text: &[u8],
    place: Place,
    limits: &Limits,
) -> Result<String, AllocError> {
    let before = match text_before(alloc, text, place, limits) {
        Ok(before) => before,
        Err(TokenError::At(..)) => return Ok(String::new(alloc)),
        Err(TokenError::NoMemory) => return Err(AllocError),
    };
    listed(alloc, &next_of(alloc, &before, limits)?)
}
