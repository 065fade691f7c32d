//! What a spelled name means in a scope, as a type.

ghost use Rattle.std.specs.Prelude.{◌≡◌, ◌↔◌, ℕ, ◌<◌, List, Bool, Err, IfOk, IsTrue, MatchOption, string_bytes};
ghost use Rattle.proto_desc.specs.DeclaredNames.{scoped};
ghost use Rattle.proto_desc.specs.declared.name_kind.NameKind.{NameKind};
ghost use Rattle.proto_desc.specs.declared.name_kind.NameKind.TheVariants as kinds;
ghost use Rattle.proto_links.specs.Linked.{count_of};
ghost use Rattle.proto_names.specs.Around.{AreScopes, IsNoScope, texts_of};
ghost use Rattle.proto_names.specs.Found.{IsFound, IsFoundInside};
ghost use Rattle.proto_names.specs.Occurrences.{Occurrence};
ghost use Rattle.proto_names.specs.Resolution.{SeenBy, Decides, IsType, Resolves, ResolvesNowhere, Visible};
ghost use Rattle.proto_names.specs.SeenAlike.{AreSeenAlike, IsSeen};
ghost use Rattle.proto_names.specs.Scopes.{IsCandidate};
ghost use Rattle.proto_names.specs.Steps.{IsDecision, IsFirstDecided, IsFoundAmong, IsFoundIn, IsNoType, NoneDecides, fits};
ghost use Rattle.proto_names.specs.declared.resolve.ResolveError.TheVariants as errors;
ghost use Rattle.proto_names.specs.declared.resolve.Want.TheVariants as wants;

use crate::full_name::name_in;
use crate::hashing::HashedName;
use crate::index::NameIndex;
use crate::scope::Scope;
use crate::scopes::Scopes;
use crate::spelled_name::SpelledName;
use crate::visible::{Role, sees_one, type_among};
use proto_desc::name_kind::NameKind;
use proto_links::{FileId, Links};
use std::alloc::{AllocError, Global};
use thiserror::Error;

/// What a type may be.
#[derive(Clone, Copy)]
pub enum Want {
    AnyType,
    MessageOnly,
}

impl Want {
    /// Whether a type of this kind is wanted.
    pub fn allows(self, kind: NameKind) -> bool
        ensures { IsTrue result ↔ (self ≡ wants.MessageOnly → kind ≡ kinds.Message) }
    {
        match self {
            Want::AnyType => true,
            Want::MessageOnly => kind == NameKind::Message,
        }
    }
}

/// A type, by its full name.
#[derive(Drop)]
pub struct Resolved {
    pub full_name: String,
    pub kind: NameKind,
}

/// A type, by the scope in which its name was found and the name there.
#[derive(Clone, Copy)]
pub struct FoundType<'n> {
    /// The full name of the scope, empty where the name is a full name.
    pub scope: &'n str,
    pub name: &'n str,
    pub kind: NameKind,
}

/// What a name was found to mean in a scope and those around it that stand in another one.
#[derive(Clone, Copy)]
pub enum FoundInside<'n> {
    /// One of them decides: the name is this type, or none.
    Here(Option<FoundType<'n>>),
    /// None of them decides. The name means what it means in the other one.
    Outside,
}

/// What a scope decides of a spelled name.
#[derive(Clone, Copy)]
enum Decision {
    /// The name is a type of this kind there.
    Known(NameKind),
    /// The first part of the name is a scope there, in which the rest is looked up.
    Scope,
}

/// Why a spelled name is no type.
#[derive(Debug, Drop, Error)]
pub enum ResolveError {
    #[error("no type of this name")]
    TypeNotFound,
    /// An enum where a message is wanted.
    #[error("a type that is no message")]
    TypeNotMessage,
    #[error("out of memory")]
    NoMemory,
}

impl From<AllocError> for ResolveError {
    ghost from_gives = { λ _ e. e ≡ errors.NoMemory };

    fn from(_error: AllocError) -> ResolveError {
        ResolveError::NoMemory
    }
}

impl NameIndex {
    /// Whether a file sees the name in a scope, of a kind that fits.
    fn is_visible(
        &self,
        links: &Links,
        file: FileId,
        role: Role,
        scope: Scope,
        name: HashedName,
    ) -> bool
        requires links { count_of links.now ≡ self.now.files }
        requires file { file < self.now.files }
        ensures { IsTrue result ↔ Visible self.now.occurrences (SeenBy links.now file) (fits role)
            (scoped scope.entry.text.now name.entry.text.now) }
    {
        sees_one(links, file, role, &self.entries.named(scope, name))
    }

    /// The kind of the type of the name in a scope.
    fn type_of(
        &self,
        links: &Links,
        file: FileId,
        scope: Scope,
        name: HashedName,
    ) -> Option<NameKind>
        requires links { count_of links.now ≡ self.now.files }
        requires file { file < self.now.files }
        ensures { MatchOption result (IsNoType self.now.occurrences (SeenBy links.now file)
            (scoped scope.entry.text.now name.entry.text.now)) (IsType self.now.occurrences
            (SeenBy links.now file) (scoped scope.entry.text.now name.entry.text.now)) }
    {
        type_among(links, file, &self.entries.named(scope, name))
    }

    /// Whether a scope may decide what a spelled name means. Of most scopes a bit tells that they don't.
    fn may_decide(&self, scope: Scope, spelled: SpelledName) -> bool
        ensures { (seen : ℕ → Bool) → Decides self.now.occurrences (IsSeen seen)
            scope.entry.text.now spelled.entry.text.now → IsTrue result }
    {
        self.entries.may_be_scope(scope, spelled.first)
    }

    /// What a scope decides of a spelled name, if it does, by the entries of the names there.
    fn decision_by_entries(
        &self,
        links: &Links,
        file: FileId,
        scope: Scope,
        spelled: SpelledName,
    ) -> Option<Decision>
        requires links { count_of links.now ≡ self.now.files }
        requires file { file < self.now.files }
        ensures { MatchOption result (Decides self.now.occurrences (SeenBy links.now file)
            scope.entry.text.now spelled.entry.text.now → ⊥)
            (IsDecision self.now.occurrences (SeenBy links.now file) scope.entry.text.now
            spelled.entry.text.now) }
    {
        if !spelled.is_compound {
            let kind = self.type_of(links, file, scope, spelled.first)?;
            Some(Decision::Known(kind))
        } else if self.is_visible(links, file, Role::Scope, scope, spelled.first) {
            Some(Decision::Scope)
        } else {
            None
        }
    }

    /// What a scope decides of a spelled name, if it does.
    fn decision(
        &self,
        links: &Links,
        file: FileId,
        scope: Scope,
        spelled: SpelledName,
    ) -> Option<Decision>
        requires links { count_of links.now ≡ self.now.files }
        requires file { file < self.now.files }
        ensures { MatchOption result (Decides self.now.occurrences (SeenBy links.now file)
            scope.entry.text.now spelled.entry.text.now → ⊥)
            (IsDecision self.now.occurrences (SeenBy links.now file) scope.entry.text.now
            spelled.entry.text.now) }
    {
        if self.may_decide(scope, spelled) {
            self.decision_by_entries(links, file, scope, spelled)
        } else {
            None
        }
    }

    /// The first of some scopes that decides what a spelled name means, with what it decides.
    fn innermost<'s>(
        &self,
        links: &Links,
        file: FileId,
        scopes: &[Scope<'s>],
        spelled: SpelledName,
    ) -> Option<(Scope<'s>, Decision)>
        requires links { count_of links.now ≡ self.now.files }
        requires file { file < self.now.files }
        ensures { MatchOption result (NoneDecides self.now.occurrences (SeenBy links.now file)
            (texts_of scopes.now) spelled.entry.text.now)
            (λ inner. IsFirstDecided self.now.occurrences (SeenBy links.now file) (texts_of scopes.now)
            spelled.entry.text.now inner.0.text.now × IsDecision self.now.occurrences
            (SeenBy links.now file) inner.0.text.now spelled.entry.text.now inner.1) }
    {
        for scope in scopes {
            if let Some(decision) = self.decision(links, file, *scope, spelled) {
                return Some((*scope, decision));
            }
        }
        None
    }

    /// The type that a spelled name is in the innermost scope that decides, if it is one, by what this scope decides.
    fn type_in<'n>(
        &self,
        links: &Links,
        file: FileId,
        inner: Scope<'n>,
        decision: Decision,
        spelled: SpelledName<'n>,
    ) -> Option<FoundType<'n>>
        requires links { count_of links.now ≡ self.now.files }
        requires file { file < self.now.files }
        requires decided { IsDecision self.now.occurrences (SeenBy links.now file) inner.text.now
            spelled.text.now decision }
        ensures { IsFoundIn self.now.occurrences (SeenBy links.now file) inner.entry.text.now
            spelled.entry.text.now result }
    {
        let kind = match decision {
            Decision::Known(kind) => kind,
            Decision::Scope => self.type_of(links, file, inner, spelled.whole)?,
        };
        Some(FoundType {
            scope: inner.text,
            name: spelled.text,
            kind,
        })
    }

    /// What a spelled name without a leading dot is in the first of some scopes that decides, or that none does.
    fn find_among<'n>(
        &self,
        links: &Links,
        file: FileId,
        scopes: &Scopes<'n>,
        spelled: SpelledName<'n>,
    ) -> FoundInside<'n>
        requires links { count_of links.now ≡ self.now.files }
        requires file { file < self.now.files }
        ensures { IsFoundAmong self.now.occurrences (SeenBy links.now file) scopes.now
            spelled.entry.text.now result }
    {
        match self.innermost(links, file, &scopes.scopes, spelled) {
            Some((inner, decision)) => {
                FoundInside::Here(self.type_in(links, file, inner, decision, spelled))
            }
            None => FoundInside::Outside,
        }
    }

    /// The type that a spelled name means in a scope of a file (language guide, "Packages and Name Resolution"), among
    /// what the file sees, if it means one. The scopes are this one and all around it. It takes no memory.
    pub fn find_type<'n>(
        &self,
        links: &Links,
        file: FileId,
        scopes: &Scopes<'n>,
        spelled: SpelledName<'n>,
    ) -> Option<FoundType<'n>>
        requires links { count_of links.now ≡ self.now.files }
        requires file { file < self.now.files }
        ensures { (scope : List ℕ) → AreScopes scope IsNoScope scopes.now
            → IsFound self.now.occurrences (SeenBy links.now file) scope spelled.entry.text.now
            result }
    {
        match spelled.text.strip_prefix('.') {
            Some(full) => {
                let kind = self.type_of(links, file, Scope::top(), HashedName::new(full))?;
                Some(FoundType {
                    scope: "",
                    name: full,
                    kind,
                })
            }
            None => match self.find_among(links, file, scopes, spelled) {
                FoundInside::Here(found) => found,
                FoundInside::Outside => None,
            },
        }
    }

    /// The same, where the scopes are the one of the name and those around it that stand in another one: what the name
    /// means, if one of them decides, and else that it means what it means in this other one.
    pub fn find_inside<'n>(
        &self,
        links: &Links,
        file: FileId,
        scopes: &Scopes<'n>,
        spelled: SpelledName<'n>,
    ) -> FoundInside<'n>
        requires links { count_of links.now ≡ self.now.files }
        requires file { file < self.now.files }
        ensures { (scope outside : List ℕ) → IsCandidate outside scope
            → AreScopes scope (λ c. IsCandidate c outside) scopes.now
            → IsFoundInside self.now.occurrences (SeenBy links.now file) scope outside
            spelled.entry.text.now result }
    {
        match spelled.text.strip_prefix('.') {
            Some(_) => FoundInside::Outside,
            None => self.find_among(links, file, scopes, spelled),
        }
    }

    /// The type that a spelled name means in a scope of a file (language guide, "Packages and Name Resolution"), among
    /// what the file sees. `TypeNotMessage` comes where it is an enum and a message is wanted. `NoMemory` comes only
    /// where the allocator had none.
    pub fn resolve(
        &self,
        alloc: Global,
        links: &Links,
        file: FileId,
        scope: &str,
        spelled: &str,
        want: Want,
    ) -> Result<Resolved, ResolveError>
        requires links { count_of links.now ≡ self.now.files }
        requires file { file < self.now.files }
        ensures found { IfOk result (λ r. Resolves self.now.occurrences (SeenBy links.now file)
            scope.now spelled.now (string_bytes r.full_name) r.kind) }
        ensures wanted { IfOk result (λ r. want ≡ wants.MessageOnly → r.kind ≡ kinds.Message) }
        ensures not_found { result ≡ Err errors.TypeNotFound
            → ResolvesNowhere self.now.occurrences (SeenBy links.now file) scope.now spelled.now }
        ensures not_message { result ≡ Err errors.TypeNotMessage
            → (want ≡ wants.MessageOnly) × ((full : List ℕ)
            × Resolves self.now.occurrences (SeenBy links.now file) scope.now spelled.now full
            kinds.Enum) }
    {
        let scopes = Scopes::around(alloc, Scope::new(scope))?;
        let Some(found) = self.find_type(links, file, &scopes, SpelledName::new(spelled)) else {
            return Err(ResolveError::TypeNotFound);
        };
        if !want.allows(found.kind) {
            return Err(ResolveError::TypeNotMessage);
        }
        let full_name = name_in(alloc, found.scope, found.name)?;
        Ok(Resolved {
            full_name,
            kind: found.kind,
        })
    }
}

/// A spelled name means one thing in a scope: the same occurrences, as far as they are seen, give it one full name and
/// one kind, whatever their order.
pub fn resolution_is_unique()
    ensures one { (os ps : List Occurrence) (seen sees : ℕ → Bool)
        (scope spelled full other : List ℕ) (what kind : NameKind)
        → AreSeenAlike os (IsSeen seen) ps (IsSeen sees)
        → Resolves os (IsSeen seen) scope spelled full what
        → Resolves ps (IsSeen sees) scope spelled other kind → (full ≡ other) × (what ≡ kind) }
    ensures same { (os ps : List Occurrence) (seen sees : ℕ → Bool) (scope spelled full : List ℕ)
        (what : NameKind) → AreSeenAlike os (IsSeen seen) ps (IsSeen sees)
        → Resolves os (IsSeen seen) scope spelled full what
        → Resolves ps (IsSeen sees) scope spelled full what }
{}
