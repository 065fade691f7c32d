//! Sources as lists of tokens.

ghost use Rattle.std.specs.Prelude.{◌≡◌, ◌<◌, ◌≤◌, ◌^◌, ℕ, length, List, map, IfOk, IfErr, IsErrAnd, MatchResult};
ghost use Rattle.proto_base.specs.Limits.{limit_of};
ghost use Rattle.proto_tokens.specs.Token.{Spelled};
ghost use Rattle.proto_tokens.specs.ProgramTokens.{spelled, tokens_of};
ghost use Rattle.proto_tokens.specs.Spelling.{mark_len, SpellsFrom, IsTokenList, IsFault};
ghost use Rattle.proto_tokens.specs.Told.{IsPlacedWithin, IsFaultOf, TellsFault};
ghost use Rattle.proto_tokens.specs.Steps.{IsFaultFrom};
ghost use Rattle.proto_tokens.specs.declared.token.TokenError.TheVariants as errors;
ghost use Rattle.proto_base.specs.declared.kind.Kind.{Kind};

use crate::piece::piece_at;
use crate::token::{Token, TokenError, Tokens};
use proto_base::{Kind, Limit, Limits, Place, Span};
use std::alloc::Global;

/// How many bytes the byte order mark at the front has, if there is one.
fn mark_len(text: &[u8]) -> usize
    ensures value { result ≡ mark_len text.now }
    ensures within { result ≤ length text.now }
{
    if text.starts_with(b"\xEF\xBB\xBF") {
        3
    } else {
        0
    }
}

/// How many bytes a source without comments has for each of its tokens: room is made for so many at first.
const BYTES_FOR_A_TOKEN: usize = 6;

/// The tokens of a source from a place on.
fn tokens_from<'s>(
    alloc: Global,
    source: &'s str,
    start: usize,
) -> Result<Vec<Token<'s>>, TokenError>
    requires within { start ≤ length source.now }
    requires short { length source.now < 2 ^ 32 }
    ensures { MatchResult result (λ tokens. SpellsFrom source.now start (map spelled tokens.items))
        (IsFaultFrom source.now start) }
{
    let mut tokens = Vec::with_capacity(alloc, source.len() / BYTES_FOR_A_TOKEN)?;
    let mut at = start;
    while at < source.len() {
        let (kind, len) = piece_at(alloc, source, at)?;
        let end = at + len;
        if let Some(kind) = kind {
            tokens.push(Token {
                kind,
                span: Span {
                    start: Place { offset: at as u32 },
                    end: Place { offset: end as u32 },
                },
            })?;
        }
        at = end;
    }
    Ok(tokens)
}

/// The tokens of a text of at most `limit` bytes, or the first fault.
fn first_answer<'s>(alloc: Global, text: &'s [u8], limit: u32) -> Result<Tokens<'s>, TokenError>
    ensures tokens { MatchResult result (λ tokens. IsTokenList limit text.now (tokens_of tokens))
        (IsFaultOf limit text.now) }
    ensures end { IfOk result (λ tokens. tokens.end.offset ≡ length text.now) }
    ensures within { IfErr result (IsPlacedWithin (length text.now)) }
{
    if text.len() > limit as usize {
        return Err(TokenError::At(Place { offset: 0 }, Kind::FileTooLong));
    }
    match std::str::from_utf8(text) {
        Ok(source) => {
            let items = tokens_from(alloc, source, mark_len(text))?;
            let end = Place {
                offset: text.len() as u32,
            };
            Ok(Tokens { items, end })
        }
        Err(fault) => {
            let place = Place {
                offset: fault.valid_up_to() as u32,
            };
            Err(TokenError::At(place, Kind::NotUtf8))
        }
    }
}

/// The tokens of a source, by the proto3 language specification, "Lexical elements": identifiers,
/// integer literals, string literals and punctuation. Each is the longest that fits at its place.
/// Blanks and comments between them, and a byte order mark at the start, are skipped.
///
/// `At` names the first fault: that the source has more bytes than the limit, then the first byte
/// that belongs to no whole UTF-8 character, then the first from left to right. `NoMemory` comes
/// only where the allocator had none.
pub fn tokenize<'s>(
    alloc: Global,
    text: &'s [u8],
    limits: &Limits,
) -> Result<Tokens<'s>, TokenError>
    ensures tokens { IfOk result (λ tokens. IsTokenList (limit_of limits.now Limit.FileBytes)
        text.now (tokens_of tokens)) }
    ensures end { IfOk result (λ tokens. tokens.end.offset ≡ length text.now) }
    ensures within { IfErr result (IsPlacedWithin (length text.now)) }
    ensures fault { IfErr result (IsFaultOf (limit_of limits.now Limit.FileBytes) text.now) }

    // So a text that spells tokens gives these, and one with a fault gives it, unless memory runs out.
    ensures every_spelling { (ts : List Spelled)
        → IsTokenList (limit_of limits.now Limit.FileBytes) text.now ts
        → MatchResult result (λ tokens. tokens_of tokens ≡ ts) (λ e. e ≡ TokenError.NoMemory) }
    ensures every_fault { (place : ℕ) (kind : Kind)
        → IsFault (limit_of limits.now Limit.FileBytes) text.now place kind
        → IsErrAnd result (TellsFault place kind) }
{
    first_answer(alloc, text, limits.get(Limit::FileBytes) as u32)
}
