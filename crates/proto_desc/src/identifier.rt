//! Identifiers of a source (proto3 language specification, "Identifiers").

ghost use Rattle.std.specs.Prelude.{◌≡◌};

use std::marker::Model;

/// A name that borrows the source. Contracts see its bytes.
#[derive(Drop)]
pub struct Identifier<'s> {
    text: &'s str,
}

impl<'s> Model for Identifier<'s> {
    ghost use Rattle.std.specs.Prelude.{List, ℕ};

    ghost Value = { List ℕ };

    ghost view = { λ identifier. identifier.text.now };
}

impl<'s> Identifier<'s> {
    /// The name of this text, whatever characters it has.
    pub fn new(text: &'s str) -> Identifier<'s>
        ensures { result ≡ text.now }
    {
        Identifier { text }
    }

    /// The name, as long as the source is lent.
    pub fn as_str(&self) -> &'s str
        ensures { result.now ≡ self.now }
    {
        self.text
    }
}
