//! The place and the kind of a fault.

ghost use Rattle.std.specs.Prelude.{◌≡◌};
ghost use Rattle.std.specs.Option.{option_map};
ghost use Rattle.proto_tokens.specs.ProgramTokens.{lexeme_of, spelled, tokens_of};
ghost use Rattle.proto_syntax.specs.Grammar.{OneOf, fits};
ghost use Rattle.proto_syntax.specs.Fault as spec;
ghost use Rattle.proto_syntax.specs.Gives as gives;
ghost use Rattle.proto_syntax.specs.Gives.{spellings};
ghost use Rattle.proto_syntax.specs.Told.{place_of_token};

use crate::parser::terminal::{is_keyword, is_symbol};
use proto_base::{Kind, Place};
use proto_tokens::{Token, TokenKind, Tokens};

/// Whether `(` behind this token begins the name of a custom option.
fn is_before_option_name(kind: &TokenKind) -> bool
    ensures { result ≡ spec.is_before_option_name (lexeme_of kind.now) }
{
    is_keyword(kind, "option") || is_symbol(kind, '[') || is_symbol(kind, ',')
}

/// Whether the token begins what is left out of the language.
fn is_left_out(kind: &TokenKind) -> bool
    ensures { result ≡ fits (OneOf spec.left_out_words) (lexeme_of kind.now) }
{
    match kind {
        TokenKind::Identifier(word) => matches!(
            *word,
            "extend" | "extensions" | "required" | "group" | "weak"
        ),
        _ => false,
    }
}

/// The kind of a fault at a token behind another, where it is not the depth.
fn kind_of(before: Option<&Token>, token: &Token) -> Kind
    ensures { result ≡ spec.kind_of (option_map (λ t. spelled t.now) before.entry)
        (spelled token.now) }
{
    let is_custom = match before {
        Some(before) => is_before_option_name(&before.kind) && is_symbol(&token.kind, '('),
        None => false,
    };
    if is_custom {
        Kind::CustomOption
    } else if is_left_out(&token.kind) {
        Kind::LeftOut
    } else {
        Kind::Unexpected
    }
}

/// The token before the one with this index.
#[tactic(auto, using(crate::proofs::Steps::spelling_at))]
fn token_before<'a, 's>(tokens: &'a [Token<'s>], index: usize) -> Option<&'a Token<'s>>
    ensures { option_map (λ t. spelled t.now) result
        ≡ spec.token_before (spellings tokens.now) index }
{
    if index == 0 {
        return None;
    }
    match tokens.get(index - 1) {
        Some(token) => Some(token),
        None => None,
    }
}

/// The kind of a fault at the token with this index, where it is not the depth.
#[tactic(auto, using(crate::proofs::Steps::spelling_at))]
pub(crate) fn kind_at(tokens: &[Token], index: usize) -> Kind
    ensures { result ≡ gives.kind_at (spellings tokens.now) index }
{
    let before = token_before(tokens, index);
    match tokens.get(index) {
        Some(token) => kind_of(before, token),
        None => Kind::UnexpectedEnd,
    }
}

/// Where the token with this index starts, or where the source ends.
pub(crate) fn place_at(tokens: &Tokens, index: usize) -> Place
    ensures { result.offset
        ≡ place_of_token (tokens_of tokens.now) index tokens.now.end.offset }
{
    match tokens.items.get(index) {
        Some(token) => token.span.start,
        None => tokens.end,
    }
}
