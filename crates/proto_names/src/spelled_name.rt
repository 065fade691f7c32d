//! Names of types as files spell them.

ghost use Rattle.std.specs.Prelude.{◌≡◌};
ghost use Rattle.proto_names.specs.Hashes.{hash_of};
ghost use Rattle.proto_names.specs.Steps.{first_part, has_dot};

use crate::hashing::HashedName;

/// A name of a type as it is spelled, taken apart and hashed once for all scopes in which it is looked up.
#[derive(Clone, Copy)]
pub struct SpelledName<'n> {
    pub text: &'n str,
    /// All of its text.
    pub(crate) whole: HashedName<'n>,
    /// What stands before the first dot, or all of it.
    pub(crate) first: HashedName<'n>,
    /// Whether more than the first part is spelled.
    pub(crate) is_compound: bool,
    ghost entire: { whole.text.now ≡ text.now },
    ghost parted: { first.text.now ≡ first_part text.now },
    ghost compound: { is_compound ≡ has_dot text.now },
}

impl<'n> SpelledName<'n> {
    /// The name of this text, which may begin with a dot.
    pub fn new(text: &'n str) -> SpelledName<'n>
        ensures { result.text.now ≡ text.entry.now }
    {
        let whole = HashedName::new(text);
        let (first, is_compound) = match text.split_once('.') {
            Some((first, _)) => (HashedName::new(first), true),
            None => (whole, false),
        };
        SpelledName {
            text,
            whole,
            first,
            is_compound,
        }
    }

    /// The hash of its text.
    pub fn hash(self) -> u32
        ensures { result ≡ hash_of self.entry.text.now }
    {
        self.whole.hash()
    }
}
