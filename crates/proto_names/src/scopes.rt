//! A scope with those around it, as a list.

ghost use Rattle.std.specs.Prelude.{IfOk};
ghost use Rattle.proto_names.specs.Around.{AreScopes, IsNoScope};
ghost use Rattle.proto_names.specs.Scopes.{IsCandidate};

use crate::scope::Scope;
use std::alloc::{AllocError, Global};
use std::marker::Model;

/// Scopes, each of which stands in the next one. Contracts see them as their full names.
#[derive(Drop)]
pub struct Scopes<'s> {
    pub(crate) scopes: Vec<Scope<'s>>,
}

impl<'s> Model for Scopes<'s> {
    ghost use Rattle.std.specs.Prelude.{List, ℕ};
    ghost use Rattle.proto_names.specs.Around.{texts_of};

    ghost Value = { List (List ℕ) };

    ghost view = { λ all. texts_of all.scopes.items };
}

impl<'s> Scopes<'s> {
    /// A scope, and those around it that stand in another one around it.
    fn up_to(alloc: Global, scope: Scope<'s>, outside: Scope<'_>) -> Result<Scopes<'s>, AllocError>
        requires { IsCandidate outside.text.now scope.text.now }
        ensures { IfOk result (AreScopes scope.entry.text.now
            (λ c. IsCandidate c outside.entry.text.now)) }
    {
        let mut scopes = Vec::new(alloc);
        let mut inner = scope;
        while inner.text.len() > outside.text.len() {
            scopes.push(inner)?;
            inner = inner.parent();
        }
        Ok(Scopes { scopes })
    }

    /// The scope of a full name, and those around it that stand in another one around it.
    pub fn inside(
        alloc: Global,
        text: &'s str,
        outside: Scope<'_>,
    ) -> Result<Scopes<'s>, AllocError>
        requires { IsCandidate outside.text.now text.now }
        ensures { IfOk result (AreScopes text.now (λ c. IsCandidate c outside.entry.text.now)) }
    {
        Scopes::up_to(alloc, outside.inside(text), outside)
    }

    /// A scope, and all around it.
    pub fn around(alloc: Global, scope: Scope<'s>) -> Result<Scopes<'s>, AllocError>
        ensures { IfOk result (AreScopes scope.entry.text.now IsNoScope) }
    {
        let mut all = Scopes::up_to(alloc, scope, Scope::top())?;
        all.scopes.push(Scope::top())?;
        Ok(all)
    }
}
