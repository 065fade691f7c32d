//! Where the name of a type stands, which says with which words it does not begin.

ghost use Rattle.std.specs.Prelude.{◌≡◌, [], ◌∷◌, ◌++◌, codes};
ghost use Rattle.proto_syntax.specs.Grammar.{among};
ghost use Rattle.proto_syntax.specs.Language.{scalar_words, statement_words};
ghost use Rattle.proto_syntax.specs.Position.{excluded_words};

use crate::parser::scalar::{initial, scalar_type};

/// Where the name of a type stands.
#[derive(Clone, Copy)]
pub enum Position {
    /// At the start of a message's statement.
    Statement,
    /// At the start of a oneof's statement.
    Member,
    /// Behind a label.
    Labelled,
    /// Where the mark `stream` of a method may stand.
    Streamable,
    Free,
}

/// Whether this is the word of a scalar type.
pub fn is_scalar(text: &str) -> bool
    ensures { result ≡ among text.now scalar_words }
{
    scalar_type(text).is_some()
}

/// Whether a statement of an enum that begins with this word is no value.
pub fn is_enum_statement_word(text: &str) -> bool
    ensures { result ≡ among text.now (codes "option" ∷ codes "reserved" ∷ []) }
{
    matches!(text, "option" | "reserved")
}

fn is_statement_word(text: &str) -> bool
    ensures { result ≡ among text.now statement_words }
{
    match initial(text) {
        b'e' => matches!(text, "enum" | "extend" | "extensions"),
        b'g' => text == "group",
        b'm' => text == "message",
        b'o' => matches!(text, "option" | "oneof" | "optional"),
        b'r' => matches!(text, "reserved" | "repeated" | "required"),
        _ => false,
    }
}

/// Whether this word begins something else at this position.
fn begins_other(text: &str, position: Position) -> bool
    ensures { result ≡ among text.now (excluded_words position) }
{
    match position {
        Position::Statement => text == "map" || is_statement_word(text),
        Position::Member => is_statement_word(text),
        Position::Labelled => text == "group",
        Position::Streamable => text == "stream",
        Position::Free => false,
    }
}

/// Whether the name of a type at this position does not begin with this word.
pub fn is_excluded(text: &str, position: Position) -> bool
    ensures { result ≡ among text.now (scalar_words ++ excluded_words position) }
{
    let scalar = is_scalar(text);
    let other = begins_other(text, position);
    scalar || other
}
