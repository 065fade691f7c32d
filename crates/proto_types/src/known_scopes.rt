//! The scopes in which a file's types were found. Names of types share them: each may be long, and a file names many
//! types in few of them.

ghost use Rattle.std.specs.Prelude.{◌≡◌, IfOk, IfSome, IsTrue, string_bytes};
ghost use Rattle.std.specs.Arc.{arc_str_bytes};
ghost use Rattle.proto_types.specs.Steps.{behind_dot};

use std::alloc::{AllocError, Global};
use std::sync::ArcStr;

/// Whether this text is the scope's full name behind a leading dot.
fn is_behind_dot(known: &str, scope: &str) -> bool
    ensures { IsTrue result → known.now ≡ behind_dot scope.now }
{
    match known.strip_prefix('.') {
        Some(full) => full == scope && !scope.is_empty(),
        None => known.is_empty() && scope.is_empty(),
    }
}

/// The scope's full name behind a leading dot.
fn text_behind_dot(alloc: Global, scope: &str) -> Result<String, AllocError>
    ensures { IfOk result (λ text. string_bytes text ≡ behind_dot scope.now) }
{
    if scope.is_empty() {
        return Ok(String::new(alloc));
    }
    let mut text = String::with_capacity(alloc, scope.len().saturating_add(1))?;
    text.push_str(".")?;
    text.push_str(scope)?;
    Ok(text)
}

/// Scopes, each at the place of its length. All those around one name differ in length. One more takes the place of
/// the one there.
#[derive(Drop)]
pub(crate) struct KnownScopes {
    alloc: Global,
    places: Vec<Option<ArcStr>>,
}

impl KnownScopes {
    pub(crate) fn new(alloc: Global) -> KnownScopes {
        KnownScopes {
            alloc,
            places: Vec::new(alloc),
        }
    }

    /// The scope's full name behind a leading dot, if it is known.
    fn known(&self, scope: &str) -> Option<&ArcStr>
        ensures { IfSome result (λ known. arc_str_bytes known.now ≡ behind_dot scope.now) }
    {
        match self.places.get(scope.len()) {
            Some(Some(known)) if is_behind_dot(known.as_str(), scope) => Some(known),
            _ => None,
        }
    }

    /// Makes a scope known.
    fn put(&mut self, scope: &str, known: ArcStr) -> Result<(), AllocError> {
        let place = scope.len();
        for _ in self.places.len()..place.saturating_add(1) {
            self.places.push(None)?;
        }
        if let Some(there) = self.places.get_mut(place) {
            *there = Some(known);
        }
        Ok(())
    }

    /// The full name of a scope behind a leading dot, or nothing for the scope of what stands in no package.
    pub(crate) fn shared(&mut self, scope: &str) -> Result<ArcStr, AllocError>
        ensures { IfOk result (λ shared. arc_str_bytes shared ≡ behind_dot scope.now) }
    {
        if let Some(known) = self.known(scope) {
            return known.clone();
        }
        let shared = ArcStr::from_string(text_behind_dot(self.alloc, scope)?)?;
        self.put(scope, shared.clone()?)?;
        Ok(shared)
    }
}
