//! Which statement of a message comes next.

ghost use Rattle.std.specs.Prelude.{[], ◌∷◌};
ghost use Rattle.proto_tokens.specs.Token.{identifier};
ghost use Rattle.proto_syntax.specs.Reading.{fits_any, next_fits};
ghost use Rattle.proto_syntax.specs.Gives.{BeginsItem, spellings};

use crate::parser::Parser;
use crate::parser::scalar::initial;
use proto_tokens::TokenKind;

/// The statements of a message that are no message, by the token that begins them.
#[derive(Clone, Copy)]
pub enum ItemKind {
    Enum,
    Option,
    Oneof,
    Reserved,
    /// A map field, or a field whose type begins with the word `map`.
    Map,
    Empty,
    /// A field that begins with any other token, or what is no statement.
    Field,
}

/// The statement that begins with this word.
fn item_of_word(word: &str) -> ItemKind
    ensures { BeginsItem result (λ class. fits_any (class ∷ []) (identifier word.now)) }
{
    match initial(word) {
        b'e' if word == "enum" => ItemKind::Enum,
        b'm' if word == "map" => ItemKind::Map,
        b'o' if word == "option" => ItemKind::Option,
        b'o' if word == "oneof" => ItemKind::Oneof,
        b'r' if word == "reserved" => ItemKind::Reserved,
        _ => ItemKind::Field,
    }
}

impl<'s, 't> Parser<'s, 't> {
    /// The statement of a message that the next token begins.
    pub(crate) fn item_kind(&self) -> ItemKind
        ensures { BeginsItem result (λ class. next_fits (class ∷ []) (spellings self.now.rest.now)) }
    {
        match self.rest.first() {
            Some(token) => match &token.kind {
                TokenKind::Identifier(word) => item_of_word(word),
                TokenKind::Punctuation(';') => ItemKind::Empty,
                _ => ItemKind::Field,
            },
            None => ItemKind::Field,
        }
    }
}
