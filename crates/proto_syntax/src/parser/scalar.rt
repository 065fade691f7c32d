//! The words of scalar types (proto3 language specification, "Fields", "Map field").
//!
//! The first letter of a word is looked at before it is compared: that of most names of types begins no word of a
//! scalar type.

ghost use Rattle.std.specs.Prelude.{◌≡◌, false, slice_index, MatchOption};
ghost use Rattle.proto_syntax.specs.Grammar.{among};
ghost use Rattle.proto_syntax.specs.Language.{scalar_words, key_words};
ghost use Rattle.proto_syntax.specs.Trees.{word_of_scalar, word_of_key};

use proto_base::scalar_type::{KeyType, ScalarType};

/// The first byte of a word; 0 if it has none.
pub(crate) fn initial(word: &str) -> u8
    ensures { result ≡ slice_index word.now 0 }
{
    word.as_bytes().first().copied().unwrap_or(0)
}

/// The scalar type with this word.
pub(crate) fn scalar_type(word: &str) -> Option<ScalarType>
    ensures { MatchOption result (among word.now scalar_words ≡ false)
        (λ scalar. word_of_scalar scalar ≡ word.now) }
{
    match initial(word) {
        b'b' => match word {
            "bool" => Some(ScalarType::Bool),
            "bytes" => Some(ScalarType::Bytes),
            _ => None,
        },
        b'd' if word == "double" => Some(ScalarType::Double),
        b'f' => match word {
            "float" => Some(ScalarType::Float),
            "fixed32" => Some(ScalarType::Fixed32),
            "fixed64" => Some(ScalarType::Fixed64),
            _ => None,
        },
        b'i' => match word {
            "int32" => Some(ScalarType::Int32),
            "int64" => Some(ScalarType::Int64),
            _ => None,
        },
        b's' => match word {
            "string" => Some(ScalarType::String),
            "sint32" => Some(ScalarType::Sint32),
            "sint64" => Some(ScalarType::Sint64),
            "sfixed32" => Some(ScalarType::Sfixed32),
            "sfixed64" => Some(ScalarType::Sfixed64),
            _ => None,
        },
        b'u' => match word {
            "uint32" => Some(ScalarType::Uint32),
            "uint64" => Some(ScalarType::Uint64),
            _ => None,
        },
        _ => None,
    }
}

/// The type of a map's key with this word.
pub(crate) fn key_type(word: &str) -> Option<KeyType>
    ensures { MatchOption result (among word.now key_words ≡ false)
        (λ key. word_of_key key ≡ word.now) }
{
    match initial(word) {
        b'b' if word == "bool" => Some(KeyType::Bool),
        b'f' => match word {
            "fixed32" => Some(KeyType::Fixed32),
            "fixed64" => Some(KeyType::Fixed64),
            _ => None,
        },
        b'i' => match word {
            "int32" => Some(KeyType::Int32),
            "int64" => Some(KeyType::Int64),
            _ => None,
        },
        b's' => match word {
            "string" => Some(KeyType::String),
            "sint32" => Some(KeyType::Sint32),
            "sint64" => Some(KeyType::Sint64),
            "sfixed32" => Some(KeyType::Sfixed32),
            "sfixed64" => Some(KeyType::Sfixed64),
            _ => None,
        },
        b'u' => match word {
            "uint32" => Some(KeyType::Uint32),
            "uint64" => Some(KeyType::Uint64),
            _ => None,
        },
        _ => None,
    }
}
