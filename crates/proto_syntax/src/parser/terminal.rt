//! Single tokens: tests of the next one, and methods that take it.

ghost use Rattle.std.specs.Cow.{cow_str_bytes};
ghost use Rattle.std.specs.Prelude.{◌≡◌, [], ◌∷◌, ◌++◌, IfOk, IsTrue, codes};
ghost use Rattle.proto_tokens.specs.Token.{identifier};
ghost use Rattle.proto_tokens.specs.ProgramTokens.{lexeme_of};
ghost use Rattle.proto_syntax.specs.Grammar.{Symbol, OneOf, NoneOf, One, fits};
ghost use Rattle.proto_syntax.specs.Reading.{next_fits};
ghost use Rattle.proto_syntax.specs.Language.{number, string_token, scalar_words, key_words};
ghost use Rattle.proto_syntax.specs.Position.{excluded_words};
ghost use Rattle.proto_syntax.specs.Trees.{symbol_tree, word_tree, name_tree, number_tree, string_tree, word_of_scalar, word_of_key};
ghost use Rattle.proto_syntax.specs.Gives.{Reads, TakesIf, spellings};

use crate::parser::Parser;
use crate::parser::position::{Position, is_enum_statement_word, is_excluded};
use crate::parser::rule::{Parse, Peek};
use crate::parser::scalar::{key_type, scalar_type};
use crate::parser::stop::Stop;
use proto_base::Span;
use proto_base::scalar_type::{KeyType, ScalarType};
use proto_base::text::Text;
use proto_tokens::TokenKind;
use proto_tree::{Name, NumberLiteral, StringLiteral};
use std::alloc::AllocError;
use std::borrow::CowStr;

/// Whether a token is this symbol.
pub(crate) fn is_symbol(kind: &TokenKind, symbol: char) -> bool
    ensures { result ≡ fits (Symbol symbol) (lexeme_of kind.now) }
{
    match kind {
        TokenKind::Punctuation(found) => symbol == *found,
        _ => false,
    }
}

/// Whether a token is this word.
#[tactic(auto, using(crate::proofs::Steps::fits_word))]
pub(crate) fn is_keyword(kind: &TokenKind, word: &str) -> bool
    ensures fits { result ≡ fits (OneOf (word.now ∷ [])) (lexeme_of kind.now) }
    ensures same { IsTrue result → lexeme_of kind.now ≡ identifier word.now }
{
    match kind {
        TokenKind::Identifier(name) => *name == word,
        _ => false,
    }
}

impl<'s, 't> Parser<'s, 't> {
    /// Whether the next token is this symbol.
    pub(crate) fn at_symbol(&self, symbol: char) -> bool
        ensures { result ≡ next_fits (Symbol symbol ∷ []) (spellings self.now.rest.now) }
    {
        match self.rest.first() {
            Some(token) => is_symbol(&token.kind, symbol),
            None => false,
        }
    }

    /// Whether the next token is this word.
    pub(crate) fn at_keyword(&self, word: &str) -> bool
        ensures { result ≡ next_fits (OneOf (word.now ∷ []) ∷ []) (spellings self.now.rest.now) }
    {
        match self.rest.first() {
            Some(token) => is_keyword(&token.kind, word),
            None => false,
        }
    }

    /// Whether the next token is an identifier.
    pub(crate) fn at_name(&self) -> bool
        ensures { result ≡ next_fits (NoneOf [] ∷ []) (spellings self.now.rest.now) }
    {
        match self.rest.first() {
            Some(token) => matches!(&token.kind, TokenKind::Identifier(_)),
            None => false,
        }
    }

    /// This symbol.
    pub(crate) fn symbol(&mut self, symbol: char) -> Result<Span, Stop>
        ensures { Reads (symbol_tree symbol) (One (Symbol symbol)) result self.old.rest.now
            self.new.rest.now }
    {
        self.optional_symbol(symbol).ok_or(Stop::Unexpected)
    }

    /// This symbol, if it is the next token.
    pub(crate) fn optional_symbol(&mut self, symbol: char) -> Option<Span>
        ensures { TakesIf (symbol_tree symbol) (One (Symbol symbol)) result self.old.rest.now
            self.new.rest.now }
    {
        match self.rest {
            [token, rest @ ..] if is_symbol(&token.kind, symbol) => {
                self.rest = rest;
                Some(token.span)
            }
            _ => None,
        }
    }

    /// This word.
    pub(crate) fn keyword(&mut self, word: &str) -> Result<Span, Stop>
        ensures { Reads (word_tree word.now) (One (OneOf (word.now ∷ []))) result self.old.rest.now
            self.new.rest.now }
    {
        self.optional_keyword(word).ok_or(Stop::Unexpected)
    }

    /// This word, if it is the next token.
    pub(crate) fn optional_keyword(&mut self, word: &str) -> Option<Span>
        ensures { TakesIf (word_tree word.now) (One (OneOf (word.now ∷ []))) result self.old.rest.now
            self.new.rest.now }
    {
        match self.rest {
            [token, rest @ ..] if is_keyword(&token.kind, word) => {
                self.rest = rest;
                Some(token.span)
            }
            _ => None,
        }
    }

    /// An identifier.
    pub(crate) fn name(&mut self) -> Result<Name<'s>, Stop>
        ensures { Reads name_tree (One (NoneOf [])) result self.old.rest.now self.new.rest.now }
    {
        if let [token, rest @ ..] = self.rest
            && let TokenKind::Identifier(text) = &token.kind
        {
            self.rest = rest;
            return Ok(Name {
                text: *text,
                span: token.span,
            });
        }
        Err(Stop::Unexpected)
    }

    /// This word, as a name.
    #[tactic(auto, using(crate::proofs::Steps::fits_word))]
    pub(crate) fn word_name(&mut self, word: &str) -> Result<Name<'s>, Stop>
        ensures gives { Reads name_tree (One (OneOf (word.now ∷ []))) result self.old.rest.now
            self.new.rest.now }
        ensures text { IfOk result (λ name. name.text ≡ word.now) }
    {
        if let [token, rest @ ..] = self.rest
            && let TokenKind::Identifier(text) = &token.kind
            && *text == word
        {
            self.rest = rest;
            return Ok(Name {
                text: *text,
                span: token.span,
            });
        }
        Err(Stop::Unexpected)
    }

    /// The first word of the name of a type, without a leading dot.
    pub(crate) fn type_word(&mut self, position: Position) -> Result<Name<'s>, Stop>
        ensures { Reads name_tree (One (NoneOf (scalar_words ++ excluded_words position))) result
            self.old.rest.now self.new.rest.now }
    {
        if let [token, rest @ ..] = self.rest
            && let TokenKind::Identifier(text) = &token.kind
            && !is_excluded(text, position)
        {
            self.rest = rest;
            return Ok(Name {
                text: *text,
                span: token.span,
            });
        }
        Err(Stop::Unexpected)
    }

    /// The name of an enum's value.
    pub(crate) fn value_name(&mut self) -> Result<Name<'s>, Stop>
        ensures { Reads name_tree (One (NoneOf (codes "option" ∷ codes "reserved" ∷ []))) result
            self.old.rest.now self.new.rest.now }
    {
        if let [token, rest @ ..] = self.rest
            && let TokenKind::Identifier(text) = &token.kind
            && !is_enum_statement_word(text)
        {
            self.rest = rest;
            return Ok(Name {
                text: *text,
                span: token.span,
            });
        }
        Err(Stop::Unexpected)
    }

    /// The word of a scalar type, if it is the next token.
    pub(crate) fn optional_scalar(&mut self) -> Option<(ScalarType, Span)>
        ensures { TakesIf (λ s. word_tree (word_of_scalar s.0) s.1) (One (OneOf scalar_words))
            result self.old.rest.now self.new.rest.now }
    {
        if let [token, rest @ ..] = self.rest
            && let TokenKind::Identifier(text) = &token.kind
            && let Some(scalar) = scalar_type(text)
        {
            self.rest = rest;
            return Some((scalar, token.span));
        }
        None
    }

    /// The word of the type of a map's key.
    pub(crate) fn key(&mut self) -> Result<(KeyType, Span), Stop>
        ensures { Reads (λ k. word_tree (word_of_key k.0) k.1) (One (OneOf key_words)) result
            self.old.rest.now self.new.rest.now }
    {
        if let [token, rest @ ..] = self.rest
            && let TokenKind::Identifier(text) = &token.kind
            && let Some(key) = key_type(text)
        {
            self.rest = rest;
            return Ok((key, token.span));
        }
        Err(Stop::Unexpected)
    }
}

impl<'s> Parse<'s> for NumberLiteral {
    ghost rule = { number };

    ghost tree = { number_tree };

    fn parse(parser: &mut Parser<'s, '_>) -> Result<Self, Stop> {
        if let [token, rest @ ..] = parser.rest
            && let TokenKind::Number(value) = &token.kind
        {
            parser.rest = rest;
            return Ok(NumberLiteral {
                value: *value,
                span: token.span,
            });
        }
        Err(Stop::Unexpected)
    }
}

impl<'s> Peek<'s> for NumberLiteral {
    fn is_next(parser: &Parser<'s, '_>) -> bool {
        match parser.rest.first() {
            Some(token) => matches!(&token.kind, TokenKind::Number(_)),
            None => false,
        }
    }
}

impl<'s> Parse<'s> for StringLiteral<'s> {
    ghost rule = { string_token };

    ghost tree = { string_tree };

    fn parse(parser: &mut Parser<'s, '_>) -> Result<Self, Stop> {
        if let [token, rest @ ..] = parser.rest
            && let TokenKind::StringLiteral(value) = &token.kind
        {
            let value = text_of(value.get())?;
            parser.rest = rest;
            return Ok(StringLiteral {
                value,
                span: token.span,
            });
        }
        Err(Stop::Unexpected)
    }
}

impl<'s> Peek<'s> for StringLiteral<'s> {
    fn is_next(parser: &Parser<'s, '_>) -> bool {
        match parser.rest.first() {
            Some(token) => matches!(&token.kind, TokenKind::StringLiteral(_)),
            None => false,
        }
    }
}

/// The value of a string literal: borrowed where the token borrows it, and else copied.
fn text_of<'s>(value: &CowStr<'s>) -> Result<Text<'s>, AllocError>
    ensures { IfOk result (λ text. text ≡ cow_str_bytes value.now) }
{
    match value {
        CowStr::Borrowed(text) => Ok(Text::borrowed(*text)),
        CowStr::Owned(text) => Ok(Text::owned(text.clone()?)),
    }
}
