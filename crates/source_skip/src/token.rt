//! The tokens of a text, whatever is wrong with it.

ghost use Rattle.std.specs.Prelude.{◌≡◌, ◌≤◌, ◌<◌, ◌∷◌, [], length, map, IfOk, IfSome, MatchOption};
ghost use Rattle.proto_syntax.specs.Grammar.{NoneOf, OneOf, fits, AnyNumber, AnyString};
ghost use Rattle.proto_tokens.specs.Spelling as spelling;
ghost use Rattle.source_skip.specs.Pieces as spec;
ghost use Rattle.source_skip.specs.ProgramPieces.{lexeme_of, tokens_behind};
ghost use Rattle.source_skip.specs.ProgramTokens.{lexeme_of_kind, spelled};
ghost use Rattle.source_skip.specs.Shapes as shapes;

use crate::pieces::{first_piece, is_letter, is_quote, is_word};
use std::alloc::{AllocError, Global};

/// What a token is. Strings have their quotes.
#[derive(Clone, Copy)]
pub(crate) enum TokenKind<'s> {
    Identifier(&'s [u8]),
    Number,
    Text(&'s [u8]),
    Symbol(u8),
}

/// The bytes of a text from one place up to another.
#[derive(Clone, Copy)]
pub(crate) struct Span {
    pub(crate) start: usize,
    pub(crate) end: usize,
}

#[derive(Clone, Copy)]
pub(crate) struct Token<'s> {
    pub(crate) kind: TokenKind<'s>,
    pub(crate) span: Span,
}

impl<'s> Token<'s> {
    pub(crate) fn is_symbol(&self, symbol: u8) -> bool
        ensures { result ≡ shapes.is_symbol symbol (spelled self.now) }
    {
        match self.kind {
            TokenKind::Symbol(found) => symbol == found,
            _ => false,
        }
    }

    pub(crate) fn is_word(&self, word: &[u8]) -> bool
        ensures { result ≡ fits (OneOf (word.now ∷ [])) (spelled self.now).lexeme }
    {
        match self.kind {
            TokenKind::Identifier(found) => found == word,
            _ => false,
        }
    }

    pub(crate) fn is_identifier(&self) -> bool
        ensures { result ≡ fits (NoneOf []) (spelled self.now).lexeme }
    {
        matches!(self.kind, TokenKind::Identifier(_))
    }

    pub(crate) fn is_number(&self) -> bool
        ensures { result ≡ fits AnyNumber (spelled self.now).lexeme }
    {
        matches!(self.kind, TokenKind::Number)
    }

    pub(crate) fn is_text(&self) -> bool
        ensures { result ≡ fits AnyString (spelled self.now).lexeme }
    {
        matches!(self.kind, TokenKind::Text(_))
    }
}

/// What the bytes of a token are.
fn kind_of(bytes: &[u8]) -> TokenKind<'_>
    ensures { lexeme_of_kind result ≡ lexeme_of bytes.now }
{
    match bytes.first() {
        Some(first) if is_letter(*first) => TokenKind::Identifier(bytes),
        Some(first) if is_word(*first) => TokenKind::Number,
        Some(first) if is_quote(*first) => TokenKind::Text(bytes),
        Some(first) => TokenKind::Symbol(*first),
        None => TokenKind::Symbol(0),
    }
}

/// The length of the byte order mark at the start, if there is one.
pub(crate) fn mark_len(text: &[u8]) -> usize
    ensures len { result ≡ spelling.mark_len text.now }
    ensures within { result ≤ length text.now }
{
    if text.starts_with(b"\xef\xbb\xbf") {
        3
    } else {
        0
    }
}

/// The first token from a place on, if pieces stand up to it.
pub(crate) fn next_token(text: &[u8], from: usize) -> Option<Token<'_>>
    requires { from ≤ length text.now }
    ensures token { MatchOption result (tokens_behind text.now from ≡ [])
        (λ t. tokens_behind text.now from ≡ spelled t ∷ tokens_behind text.now t.span.end) }
    ensures within { IfSome result (λ t. t.span.end ≤ length text.now) }
    ensures some { IfSome result (λ t. from < t.span.end) }
{
    let mut at = from;
    while let Some((len, is_token)) = first_piece(&text[at..]) {
        let end = at + len;
        if is_token {
            return Some(Token {
                kind: kind_of(&text[at..end]),
                span: Span { start: at, end },
            });
        }
        at = end;
    }
    None
}

/// The tokens of a text, as far as pieces stand.
pub(crate) fn tokens_of(alloc: Global, text: &[u8]) -> Result<Vec<Token<'_>>, AllocError>
    ensures { IfOk result (λ tokens. map spelled tokens.items ≡ spec.loose_tokens text.now) }
{
    let mut tokens = Vec::new(alloc);
    let mut at = mark_len(text);
    while let Some(token) = next_token(text, at) {
        at = token.span.end;
        tokens.push(token)?;
    }
    Ok(tokens)
}
