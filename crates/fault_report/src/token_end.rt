//! Where the token ends that begins at a place.

ghost use Rattle.std.specs.Prelude.{◌≡◌, ◌==◌, ℕ, IfOk, List, find, option_map};
ghost use Rattle.std.specs.List.Sorted.{IsNonDecreasingBy};
ghost use Rattle.fault_report.specs.Tokens.{AreTokens, IsTokenEnd, end_among, offset_of};
ghost use Rattle.proto_base.specs.Limits.{limit_of};
ghost use Rattle.proto_base.specs.declared.limits.Limit.TheVariants as limit;
ghost use Rattle.proto_tokens.specs.ProgramTokens.{tokens_of};

use proto_base::{Limits, Place};
use proto_tokens::{Token, TokenError, Tokens, tokenize};
use std::alloc::{AllocError, Global};

/// The tokens of a text, as `excerpt_at` takes them: none where it has a fault of its tokens.
pub fn tokens_in<'s>(
    alloc: Global,
    text: &'s [u8],
    limits: &Limits,
) -> Result<Option<Tokens<'s>>, AllocError>
    ensures { IfOk result (AreTokens (limit_of limits.now limit.FileBytes) text.now) }
{
    match tokenize(alloc, text, limits) {
        Ok(tokens) => Ok(Some(tokens)),
        Err(TokenError::At(..)) => Ok(None),
        Err(TokenError::NoMemory) => Err(AllocError),
    }
}

/// The token that begins at a place, if one does.
fn token_at<'a, 's>(tokens: &'a [Token<'s>], place: Place) -> Option<&'a Token<'s>>
    ensures { IsNonDecreasingBy (λ t. t.span.start.offset) tokens.now → option_map (λ t. t.now) result
        ≡ find (λ t. t.span.start.offset == place.offset) tokens.now }
{
    let at = tokens.partition_point(|token| token.span.start.offset < place.offset);
    match tokens.get(at) {
        Some(token) if token.span.start.offset == place.offset => Some(token),
        _ => None,
    }
}

/// Where the token ends that begins at a place, if one does.
fn end_among(tokens: &Tokens<'_>, place: Place) -> Option<Place>
    ensures { IsNonDecreasingBy (λ t. t.span.start.offset) tokens.now.items.items
        → offset_of result ≡ end_among (tokens_of tokens.now) place.offset }
{
    let token = token_at(&tokens.items, place)?;
    Some(token.span.end)
}

/// Where the token of a text ends that begins at a place. A text with a fault of its tokens has none.
pub(crate) fn token_end(tokens: &Option<Tokens<'_>>, place: Place) -> Option<Place>
    ensures { (limit : ℕ) (text : List ℕ) → AreTokens limit text tokens.now
        → IsTokenEnd limit text place.offset (offset_of result) }
{
    match tokens {
        Some(tokens) => end_among(tokens, place),
        None => None,
    }
}
