//! Tokens, and why a source has none.

ghost use Rattle.std.specs.Prelude.{◌≡◌, ◌<◌, ◌^◌};
ghost use Rattle.proto_tokens.specs.declared.token.TokenError.TheVariants as errors;

use proto_base::boxed::Boxed;
use proto_base::{Kind, Place, Span};
use std::alloc::{AllocError, AllocFailed};
use std::borrow::CowStr;
use thiserror::Error;

/// A token, and the bytes of the source that it is.
#[derive(Drop)]
pub struct Token<'s> {
    pub kind: TokenKind<'s>,
    pub span: Span,
}

/// The tokens of a source in their order, and the place behind its last byte.
#[derive(Drop)]
pub struct Tokens<'s> {
    pub items: Vec<Token<'s>>,
    pub end: Place,
}

/// What a token is. Every keyword is an identifier.
#[derive(Drop)]
pub enum TokenKind<'s> {
    /// A letter or `_`, then letters, digits and `_`; borrowed from the source.
    Identifier(&'s str),
    /// An integer literal, decimal, octal or hexadecimal, by its value.
    Number(u64),
    /// A string literal, by its value, which borrows the source where no escape stands in it. It stands behind a pointer, so
    /// that all other tokens take less memory.
    StringLiteral(Boxed<CowStr<'s>>),
    /// Any other visible ASCII character.
    Punctuation(char),
}

/// Why a source has no tokens: `At` names its first fault and where it stands, `NoMemory` that the
/// allocator had no memory for them.
#[derive(Debug, Drop, Error)]
pub enum TokenError {
    #[error("{1} at byte {0}")]
    At(Place, Kind),
    #[error("out of memory")]
    NoMemory,
}

impl From<AllocError> for TokenError {
    ghost from_gives = { λ _ e. e ≡ errors.NoMemory };

    fn from(_error: AllocError) -> TokenError {
        TokenError::NoMemory
    }
}

impl<T: Drop> From<AllocFailed<T>> for TokenError {
    ghost from_gives = { λ _ e. e ≡ errors.NoMemory };

    fn from(_error: AllocFailed<T>) -> TokenError {
        TokenError::NoMemory
    }
}

/// The error that tells a fault at a place, given in bytes from the source's first.
pub(crate) fn fault_at(offset: usize, kind: Kind) -> TokenError
    requires { offset < 2 ^ 32 }
    ensures { result ≡ errors.At (record { offset = offset }) kind }
{
    TokenError::At(
        Place {
            offset: offset as u32,
        },
        kind,
    )
}
