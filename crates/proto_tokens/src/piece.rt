//! The pieces that a source is cut into.

ghost use Rattle.std.specs.Prelude.{◌≡◌, ◌+◌, ◌<◌, ◌≤◌, ◌^◌, Some, length, take, drop, IsTrue, MatchOption, MatchResult};
ghost use Rattle.std.specs.List.{prefix_len};
ghost use Rattle.std.specs.Option.{option_map};
ghost use Rattle.std.specs.Char.{is_ascii_digit};
ghost use Rattle.proto_tokens.specs.Bytes as spec;
ghost use Rattle.proto_tokens.specs.Piece.{HasNoClose, IsLongestPiece, IsPieceFault};
ghost use Rattle.proto_tokens.specs.Token.{number, punctuation};
ghost use Rattle.proto_tokens.specs.ProgramTokens.{lexeme_of};
ghost use Rattle.proto_tokens.specs.Steps.{IsFirstClose, IsFaultAfter};

use crate::bytes::{
    blanks_len, bytes_behind, is_blank, is_letter, is_punctuation, is_quote, line_len, numeric_len,
    word_len,
};
use crate::numeral::numeral_value;
use crate::quoted::string;
use crate::token::{TokenError, TokenKind, fault_at};
use memchr::memmem;
use proto_base::Kind;
use proto_base::boxed::Boxed;
use std::alloc::Global;

/// The number at the front, and how many bytes it takes.
fn number(rest: &[u8]) -> Result<(u64, usize), Kind>
    requires { IsTrue (spec.begins is_ascii_digit rest.now) }
    ensures { MatchResult result (λ found. IsLongestPiece rest.now found.1 (Some (number found.0)))
        (IsPieceFault rest.now 0) }
{
    let len = numeric_len(rest);
    let value = numeral_value(&rest[..len])?;
    Ok((value, len))
}

/// Where the first `*/` stands.
fn close_position(bytes: &[u8]) -> Option<usize>
    ensures { MatchOption result (HasNoClose bytes.now) (IsFirstClose bytes.now) }
{
    memmem::find(bytes, b"*/")
}

/// The bytes of the source from a place on.
fn bytes_from(source: &str, at: usize) -> &[u8]
    requires { at ≤ length source.now }
    ensures rest { result.now ≡ drop at source.now }
    ensures len { length result.now + at ≡ length source.now }
{
    bytes_behind(source.as_bytes(), at)
}

/// The identifier at a place.
fn identifier<'s>(source: &'s str, at: usize) -> &'s str
    requires within { at ≤ length source.now }
    requires letter { IsTrue (spec.begins spec.is_letter (drop at source.now)) }
    ensures { result.now ≡ take (prefix_len spec.is_word (drop at source.now))
        (drop at source.now) }
{
    let end = at + word_len(bytes_from(source, at));
    &source[at..end]
}

/// The comment or the punctuation at the front, and how many bytes it takes.
fn comment_or_punctuation(rest: &[u8]) -> Result<(Option<char>, usize), Kind>
    requires { IsTrue (spec.begins spec.is_punctuation rest.now) }
    ensures { MatchResult result (λ found. IsLongestPiece rest.now found.1
        (option_map punctuation found.0)) (IsPieceFault rest.now 0) }
{
    match rest {
        [b'/', b'/', line @ ..] => Ok((None, line_len(line) + 2)),
        [b'/', b'*', after @ ..] => match close_position(after) {
            Some(close) => Ok((None, close + 4)),
            None => Err(Kind::UnclosedComment),
        },
        _ => Ok((Some(char::from(rest[0])), 1)),
    }
}

/// The longest piece at a place and how many bytes it has; a piece that is no token is a blank or a comment.
pub(crate) fn piece_at<'s>(
    alloc: Global,
    source: &'s str,
    at: usize,
) -> Result<(Option<TokenKind<'s>>, usize), TokenError>
    requires within { at < length source.now }
    requires short { length source.now < 2 ^ 32 }
    ensures { MatchResult result (λ found. IsLongestPiece (drop at source.now) found.1
        (option_map lexeme_of found.0)) (IsFaultAfter (drop at source.now) at) }
{
    let rest = bytes_from(source, at);
    let first = rest[0];
    if is_blank(first) {
        return Ok((None, blanks_len(rest)));
    }
    if is_letter(first) {
        let name = identifier(source, at);
        return Ok((Some(TokenKind::Identifier(name)), name.len()));
    }
    if first.is_ascii_digit() {
        return match number(rest) {
            Ok((value, len)) => Ok((Some(TokenKind::Number(value)), len)),
            Err(kind) => Err(fault_at(at, kind)),
        };
    }
    if is_quote(first) {
        let (value, len) = string(alloc, source, at)?;
        let value = Boxed::new(alloc, value)?;
        return Ok((Some(TokenKind::StringLiteral(value)), len));
    }
    if is_punctuation(first) {
        return match comment_or_punctuation(rest) {
            Ok((Some(mark), len)) => Ok((Some(TokenKind::Punctuation(mark)), len)),
            Ok((None, len)) => Ok((None, len)),
            Err(kind) => Err(fault_at(at, kind)),
        };
    }
    Err(fault_at(at, Kind::BadByte))
}
