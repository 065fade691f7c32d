//! Texts of another language.

ghost use Rattle.std.specs.Prelude.{◌≡◌, not};
ghost use Rattle.source_skip.specs.Languages as spec;
ghost use Rattle.source_skip.specs.Pieces.{loose_tokens};
ghost use Rattle.source_skip.specs.ProgramTokens.{spelled};

use crate::token::{Token, TokenKind, mark_len, next_token};

/// Whether the token is a string that says `proto2`.
fn is_proto2(token: &Token) -> bool
    ensures { result ≡ spec.is_proto2 (spelled token.now).lexeme }
{
    match token.kind {
        TokenKind::Text(bytes) => {
            bytes == b"\"proto2\"".as_slice() || bytes == b"'proto2'".as_slice()
        }
        _ => false,
    }
}

/// Whether a text is of another language: it begins with another token than `syntax`, or its third is a string that says
/// `proto2`. A text without tokens is not.
pub fn begins_other(text: &[u8]) -> bool
    ensures { result ≡ spec.begins_other (loose_tokens text.now) }
{
    let Some(syntax) = next_token(text, mark_len(text)) else {
        return false;
    };
    if !syntax.is_word(b"syntax") {
        return true;
    }
    let Some(equals) = next_token(text, syntax.span.end) else {
        return false;
    };
    match next_token(text, equals.span.end) {
        Some(version) => is_proto2(&version),
        None => false,
    }
}
