//! What is left out, rule by rule: each function gives what stands behind its rule's tokens, if they stand there.

ghost use Rattle.std.specs.Prelude.{◌∷◌, [], map, Some};
ghost use Rattle.proto_syntax.specs.Grammar.{AnyString, NoneOf, OneOf, Symbol};
ghost use Rattle.source_skip.specs.ProgramTokens.{IsClosing, Takes, spelled, words_of};
ghost use Rattle.source_skip.specs.Shapes as spec;
ghost use Rattle.source_skip.specs.Shapes.{One, Optional};

use crate::braces::braces;
use crate::token::{Token, TokenKind};
use crate::words::{Position, is_unwritten};

pub(crate) fn symbol<'t, 's>(tokens: &'t [Token<'s>], symbol: u8) -> Option<&'t [Token<'s>]>
    ensures { Takes (One (Symbol symbol)) tokens.now result }
{
    let (token, rest) = tokens.split_first()?;
    token.is_symbol(symbol).then_some(rest)
}

pub(crate) fn word<'t, 's>(tokens: &'t [Token<'s>], word: &[u8]) -> Option<&'t [Token<'s>]>
    ensures { Takes (One (OneOf (word.now ∷ []))) tokens.now result }
{
    let (token, rest) = tokens.split_first()?;
    token.is_word(word).then_some(rest)
}

fn identifier<'t, 's>(tokens: &'t [Token<'s>]) -> Option<&'t [Token<'s>]>
    ensures { Takes spec.identifier tokens.now result }
{
    let (token, rest) = tokens.split_first()?;
    token.is_identifier().then_some(rest)
}

pub(crate) fn text<'t, 's>(tokens: &'t [Token<'s>]) -> Option<&'t [Token<'s>]>
    ensures { Takes (One AnyString) tokens.now result }
{
    let (token, rest) = tokens.split_first()?;
    token.is_text().then_some(rest)
}

/// A word of a value: an identifier, a number, a dot or a sign.
fn value_word<'t, 's>(tokens: &'t [Token<'s>]) -> Option<&'t [Token<'s>]>
    ensures { Takes spec.value_word tokens.now result }
{
    let (token, rest) = tokens.split_first()?;
    matches!(
        token.kind,
        TokenKind::Identifier(_) | TokenKind::Number | TokenKind::Symbol(b'.' | b'-' | b'+')
    )
    .then_some(rest)
}

/// A word that is a name which no table has.
fn unwritten_word<'t, 's>(tokens: &'t [Token<'s>], position: Position) -> Option<&'t [Token<'s>]>
    ensures { Takes (One (OneOf (words_of position))) tokens.now result }
{
    let (token, rest) = tokens.split_first()?;
    match token.kind {
        TokenKind::Identifier(name) if is_unwritten(position, name) => Some(rest),
        _ => None,
    }
}

/// Any other word.
fn written_word<'t, 's>(tokens: &'t [Token<'s>], position: Position) -> Option<&'t [Token<'s>]>
    ensures { Takes (One (NoneOf (words_of position))) tokens.now result }
{
    let (token, rest) = tokens.split_first()?;
    match token.kind {
        TokenKind::Identifier(name) if !is_unwritten(position, name) => Some(rest),
        _ => None,
    }
}

fn optional_dot<'t, 's>(tokens: &'t [Token<'s>]) -> &'t [Token<'s>]
    ensures { Takes (Optional (spec.symbol ".")) tokens.now (Some result) }
{
    if let Some(rest) = symbol(tokens, b'.') {
        return rest;
    }
    tokens
}

/// A dot and a part of a name.
fn part<'t, 's>(tokens: &'t [Token<'s>]) -> Option<&'t [Token<'s>]>
    ensures { Takes spec.part tokens.now result }
{
    identifier(symbol(tokens, b'.')?)
}

/// A name with dots.
fn full_name<'t, 's>(tokens: &'t [Token<'s>]) -> Option<&'t [Token<'s>]>
    ensures { Takes spec.full tokens.now result }
{
    let mut rest = identifier(tokens)?;
    while let Some(behind) = part(rest) {
        rest = behind;
    }
    Some(rest)
}

/// A name in parentheses.
fn custom<'t, 's>(tokens: &'t [Token<'s>]) -> Option<&'t [Token<'s>]>
    ensures { Takes spec.custom tokens.now result }
{
    let name = optional_dot(symbol(tokens, b'(')?);
    symbol(full_name(name)?, b')')
}

/// A dot, and a part of an option's name.
fn further_part<'t, 's>(tokens: &'t [Token<'s>]) -> Option<&'t [Token<'s>]>
    ensures { Takes spec.further tokens.now result }
{
    let name = symbol(tokens, b'.')?;
    match identifier(name) {
        Some(rest) => Some(rest),
        None => custom(name),
    }
}

/// The name of an option that begins with a name in parentheses.
fn custom_name<'t, 's>(tokens: &'t [Token<'s>]) -> Option<&'t [Token<'s>]>
    ensures { Takes spec.custom_name tokens.now result }
{
    let mut rest = custom(tokens)?;
    while let Some(behind) = further_part(rest) {
        rest = behind;
    }
    Some(rest)
}

/// The name of an option that begins with a word which tables may have.
fn written_name<'t, 's>(tokens: &'t [Token<'s>], position: Position) -> Option<&'t [Token<'s>]>
    ensures { Takes (spec.written_name (words_of position)) tokens.now result }
{
    let mut rest = written_word(tokens, position)?;
    while let Some(behind) = further_part(rest) {
        rest = behind;
    }
    Some(rest)
}

fn texts<'t, 's>(tokens: &'t [Token<'s>]) -> Option<&'t [Token<'s>]>
    ensures { Takes (spec.one_or_more (One AnyString)) tokens.now result }
{
    let mut rest = text(tokens)?;
    while let Some(behind) = text(rest) {
        rest = behind;
    }
    Some(rest)
}

fn value_words<'t, 's>(tokens: &'t [Token<'s>]) -> Option<&'t [Token<'s>]>
    ensures { Takes (spec.one_or_more spec.value_word) tokens.now result }
{
    let mut rest = value_word(tokens)?;
    while let Some(behind) = value_word(rest) {
        rest = behind;
    }
    Some(rest)
}

fn value<'t, 's>(tokens: &'t [Token<'s>], closes: &[Option<usize>]) -> Option<&'t [Token<'s>]>
    requires { IsClosing closes.now (map spelled tokens.now) }
    ensures { Takes spec.value tokens.now result }
{
    if let Some(rest) = braces(tokens, closes) {
        return Some(rest);
    }
    if let Some(rest) = texts(tokens) {
        return Some(rest);
    }
    value_words(tokens)
}

/// The name of a setting that goes.
fn leaving_name<'t, 's>(tokens: &'t [Token<'s>], position: Position) -> Option<&'t [Token<'s>]>
    ensures { Takes (spec.leaving_name (words_of position)) tokens.now result }
{
    match custom_name(tokens) {
        Some(rest) => Some(rest),
        None => unwritten_word(tokens, position),
    }
}

/// A setting that goes.
pub(crate) fn leaving<'t, 's>(
    tokens: &'t [Token<'s>],
    closes: &[Option<usize>],
    position: Position,
) -> Option<&'t [Token<'s>]>
    requires { IsClosing closes.now (map spelled tokens.now) }
    ensures { Takes (spec.leaving (words_of position)) tokens.now result }
{
    let equals = leaving_name(tokens, position)?;
    value(symbol(equals, b'=')?, closes)
}

/// A setting that stays.
pub(crate) fn staying<'t, 's>(
    tokens: &'t [Token<'s>],
    closes: &[Option<usize>],
    position: Position,
) -> Option<&'t [Token<'s>]>
    requires { IsClosing closes.now (map spelled tokens.now) }
    ensures { Takes (spec.staying (words_of position)) tokens.now result }
{
    let equals = written_name(tokens, position)?;
    value(symbol(equals, b'=')?, closes)
}

fn option_statement<'t, 's>(
    tokens: &'t [Token<'s>],
    closes: &[Option<usize>],
) -> Option<&'t [Token<'s>]>
    requires { IsClosing closes.now (map spelled tokens.now) }
    ensures { Takes spec.option_statement tokens.now result }
{
    let setting = word(tokens, b"option")?;
    symbol(leaving(setting, closes, Position::Statement)?, b';')
}

fn extend_statement<'t, 's>(
    tokens: &'t [Token<'s>],
    closes: &[Option<usize>],
) -> Option<&'t [Token<'s>]>
    requires { IsClosing closes.now (map spelled tokens.now) }
    ensures { Takes spec.extend_statement tokens.now result }
{
    let name = optional_dot(word(tokens, b"extend")?);
    braces(full_name(name)?, closes)
}

/// A statement that goes.
pub(crate) fn statement<'t, 's>(
    tokens: &'t [Token<'s>],
    closes: &[Option<usize>],
) -> Option<&'t [Token<'s>]>
    requires { IsClosing closes.now (map spelled tokens.now) }
    ensures { Takes spec.statement tokens.now result }
{
    match option_statement(tokens, closes) {
        Some(rest) => Some(rest),
        None => extend_statement(tokens, closes),
    }
}
