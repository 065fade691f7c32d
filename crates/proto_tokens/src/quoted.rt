//! String literals.

ghost use Rattle.std.specs.Prelude.{◌≡◌, ◌+◌, ◌<◌, ◌≤◌, ◌^◌, ◌∷◌, Some, length, drop, IsTrue, MatchResult};
ghost use Rattle.std.specs.List.{prefix_len};
ghost use Rattle.std.specs.Cow.{cow_str_bytes};
ghost use Rattle.proto_tokens.specs.Bytes.{begins, is_quote};
ghost use Rattle.proto_tokens.specs.Quoted.{is_plain};
ghost use Rattle.proto_tokens.specs.Token.{string_literal};
ghost use Rattle.proto_tokens.specs.Piece.{IsLongestPiece};
ghost use Rattle.proto_tokens.specs.Steps.{IsFaultAfter, IsClosed};

use crate::bytes::bytes_behind;
use crate::escape::{longest_escape, push_escaped};
use crate::token::{TokenError, fault_at};
use proto_base::Kind;
use std::alloc::Global;
use std::borrow::CowStr;

/// How many bytes stand before the first that is no plain part of a string.
fn plain_len(quote: u8, bytes: &[u8]) -> usize
    ensures run { result ≡ prefix_len (is_plain quote) bytes.now }
    ensures within { result ≤ length bytes.now }
{
    bytes
        .iter()
        .take_while(|byte| is_plain(quote, **byte))
        .count()
}

fn is_plain(quote: u8, byte: u8) -> bool
    ensures { result ≡ is_plain quote byte }
{
    !(byte == quote || matches!(byte, b'\\' | b'\n' | 0))
}

/// The value of the string whose opening quote stands at a place and has these bytes behind it, of which the first
/// `plain` are plain, and where among them it closes.
fn string_value(
    alloc: Global,
    quote: u8,
    after: &[u8],
    plain: usize,
    at: usize,
) -> Result<(Vec<u8>, usize), TokenError>
    requires quote { IsTrue (is_quote quote) }
    requires plain { plain ≡ prefix_len (is_plain quote) after.now }
    requires within { plain ≤ length after.now }
    requires short { at + length after.now + 1 < 2 ^ 32 }
    ensures { MatchResult result (λ found. IsClosed quote after.now found.0.items found.1)
        (IsFaultAfter (quote ∷ after.now) at) }
{
    let mut value = Vec::from_slice(alloc, &after[..plain])?;
    let mut end = plain;
    while end < after.len() {
        let byte = after[end];
        if byte == quote {
            return Ok((value, end));
        }
        if byte == b'\\' {
            match longest_escape(bytes_behind(after, end + 1)) {
                Some((escaped, len)) => {
                    push_escaped(&mut value, escaped)?;
                    end += len;
                }
                None => return Err(fault_at(at + (end + 1), Kind::BadEscape)),
            }
        } else if byte == 0 {
            return Err(fault_at(at + (end + 1), Kind::BadByte));
        } else if byte == b'\n' {
            return Err(fault_at(at, Kind::UnclosedString));
        } else {
            let rest = bytes_behind(after, end);
            let len = plain_len(quote, rest);
            value.extend_from_slice(&rest[..len])?;
            end += len;
        }
    }
    Err(fault_at(at, Kind::UnclosedString))
}

/// The string at a place, and how many bytes it takes.
pub(crate) fn string<'s>(
    alloc: Global,
    source: &'s str,
    at: usize,
) -> Result<(CowStr<'s>, usize), TokenError>
    requires quote { IsTrue (begins is_quote (drop at source.now)) }
    requires within { at < length source.now }
    requires short { length source.now < 2 ^ 32 }
    ensures { MatchResult result (λ found. IsLongestPiece (drop at source.now) found.1
        (Some (string_literal (cow_str_bytes found.0)))) (IsFaultAfter (drop at source.now) at) }
{
    let bytes = source.as_bytes();
    let quote = bytes[at];
    let start = at + 1;
    let after = bytes_behind(bytes, start);
    let len = plain_len(quote, after);
    if len < after.len() && after[len] == quote {
        return Ok((CowStr::Borrowed(&source[start..start + len]), len + 2));
    }
    let (value, end) = string_value(alloc, quote, after, len, at)?;
    match String::from_utf8(value) {
        Ok(value) => Ok((CowStr::Owned(value), end + 2)),
        Err(_) => Err(fault_at(at, Kind::BadEscape)),
    }
}
