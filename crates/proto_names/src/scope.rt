//! Scopes: texts of parts with dots between them.

ghost use Rattle.std.specs.Prelude.{◌≡◌, ◌⊎◌, ℕ, ◌<◌, ◌++◌, [], ◌∷◌, List, drop, length, MatchOption};
ghost use Rattle.proto_desc.specs.DeclaredNames.{scoped};
ghost use Rattle.proto_names.specs.Hashes.{hash_of, rolling_hash};
ghost use Rattle.proto_names.specs.Scopes.{IsCandidate, prefixes};

use crate::hashing::{HashedName, hash_before, spread, with_byte, with_bytes, without_byte};

/// The longest prefix of a text that a dot follows, if there is a dot.
pub(crate) fn shorter_prefix(text: &str) -> Option<&str>
    ensures { MatchOption result (prefixes text.now ≡ text.now ∷ [])
        (λ prefix. (prefixes text.now ≡ text.now ∷ prefixes prefix.now)
        × (length prefix.now < length text.now)
        × (text.now ≡ prefix.now ++ drop (length prefix.now) text.now)) }
{
    let dot = text.rfind('.')?;
    Some(&text[..dot])
}

/// The text of the scope around this one.
fn parent(scope: &str) -> &str
    requires { 0 < length scope.now }
    ensures candidate { IsCandidate result.now scope.now }
    ensures shorter { length result.now < length scope.now }
    ensures next { (c : List ℕ) → IsCandidate c scope.now
        → (c ≡ scope.now) ⊎ IsCandidate c result.now }
{
    match scope.rfind('.') {
        Some(at) => &scope[..at],
        None => "",
    }
}

/// Where the names in a scope start in their full names, in bytes.
fn start_inside(scope: &str) -> usize
    ensures { result ≡ length (scoped scope.now []) }
{
    if scope.is_empty() { 0 } else { scope.len() + 1 }
}

/// A scope. It keeps the rolling hash of what stands before a name in it, which is computed once for all names that are
/// looked up in it (language guide, "Packages and Name Resolution").
#[derive(Clone, Copy)]
pub struct Scope<'s> {
    /// The full name, empty for what stands in no package.
    pub text: &'s str,
    pub(crate) before_name: u32,
    ghost hashed: { before_name ≡ rolling_hash (scoped text.now []) },
}

impl<'s> Scope<'s> {
    /// The scope of this full name.
    pub fn new(text: &'s str) -> Scope<'s>
        ensures { result.text.now ≡ text.entry.now }
    {
        Scope::top().inside(text)
    }

    /// The scope of what stands in no package.
    pub(crate) fn top() -> Scope<'static>
        ensures { result.text.now ≡ [] }
    {
        Scope {
            text: "",
            before_name: 0,
        }
    }

    /// The scope of a full name that stands in this one, or is that of this one. Only what stands behind this one is hashed.
    pub(crate) fn inside<'t>(self, text: &'t str) -> Scope<'t>
        requires { IsCandidate self.text.now text.now }
        ensures { result.text.now ≡ text.entry.now }
    {
        if text.len() <= self.text.len() {
            return Scope {
                text,
                before_name: self.before_name,
            };
        }
        let start = start_inside(self.text);
        let rolling = with_bytes(self.before_name, &text.as_bytes()[start..]);
        Scope {
            text,
            before_name: with_byte(rolling, b'.'),
        }
    }

    /// The hash of the name in the scope, without a walk over its bytes.
    pub(crate) fn hash_with(self, name: HashedName) -> u32
        ensures { result ≡ hash_of (scoped self.entry.text.now name.entry.text.now) }
    {
        spread(name.behind(self.before_name))
    }

    /// The scope around this one, which is not the outermost. Its hash comes out of this one's.
    pub(crate) fn parent(self) -> Scope<'s>
        requires { 0 < length self.text.now }
        ensures candidate { IsCandidate result.text.now self.entry.text.now }
        ensures shorter { length result.text.now < length self.entry.text.now }
        ensures next { (c : List ℕ) → IsCandidate c self.entry.text.now
            → (c ≡ self.entry.text.now) ⊎ IsCandidate c result.text.now }
    {
        let text = parent(self.text);
        let rolling = without_byte(self.before_name, b'.');
        let before_name = hash_before(rolling, &self.text.as_bytes()[start_inside(text)..]);
        Scope { text, before_name }
    }
}
