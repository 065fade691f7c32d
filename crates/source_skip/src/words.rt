//! Options of descriptor.proto that the language leaves out.

ghost use Rattle.std.specs.Prelude.{◌≡◌, map};
ghost use Rattle.proto_syntax.specs.Grammar.{among};
ghost use Rattle.source_skip.specs.ProgramTokens.{words_of};

/// Where a setting stands.
#[derive(Clone, Copy)]
pub(crate) enum Position {
    Statement,
    Brackets,
}

const UNWRITTEN: [&[u8]; 8] = [
    b"cc_generic_services",
    b"java_generic_services",
    b"py_generic_services",
    b"php_generic_services",
    b"java_generate_equals_and_hash",
    b"java_string_check_utf8",
    b"message_set_wire_format",
    b"no_standard_descriptor_accessor",
];

const UNWRITTEN_OF_FIELDS: [&[u8]; 4] = [b"ctype", b"lazy", b"unverified_lazy", b"weak"];

/// Whether it is one of these words.
fn is_among(name: &[u8], words: &[&[u8]]) -> bool
    ensures { result ≡ among name.now (map (λ word. word.now) words.now) }
{
    words.iter().any(|word| name == *word)
}

/// Whether no table has an option of this name there.
pub(crate) fn is_unwritten(position: Position, name: &[u8]) -> bool
    ensures { result ≡ among name.now (words_of position) }
{
    match position {
        Position::Statement => is_among(name, &UNWRITTEN),
        Position::Brackets => is_among(name, &UNWRITTEN_OF_FIELDS),
    }
}
