//! The tables of all shares.

ghost use Rattle.std.specs.Prelude.{◌≡◌, Contains, IfSome, IsTrue};
ghost use Rattle.proto_desc.specs.DeclaredNames.{scoped};
ghost use Rattle.proto_names.specs.Hashes.{hash_of};
ghost use Rattle.proto_names.specs.Occurrences.{Occurrence};
ghost use Rattle.proto_names.specs.Packages.{IsPackageOf};
ghost use Rattle.proto_names.specs.Resolution.{is_scope};
ghost use Rattle.proto_names.specs.ScopeParts.{HasNoDot, TellsParts};
ghost use Rattle.proto_names.specs.Shares.{AreInShares, all_of};

use crate::hashing::HashedName;
use crate::scope::Scope;
use crate::scope_parts::ScopeParts;
use crate::share::share_of_hash;
use crate::table::{EntryTable, NameEntries};
use std::marker::Model;

/// The tables of all shares, in their order. Contracts see them as the occurrences in all of them.
#[derive(Drop)]
pub(crate) struct Tables {
    tables: Vec<EntryTable>,
    /// The last parts of the names of scopes, where names are looked up in many scopes.
    parts: Option<ScopeParts>,
}

impl Model for Tables {
    ghost use Rattle.std.specs.Prelude.{IfSome, List};
    ghost use Rattle.proto_names.specs.Occurrences.{Occurrence};
    ghost use Rattle.proto_names.specs.ScopeParts.{TellsParts};
    ghost use Rattle.proto_names.specs.Shares.{AreInShares, all_of};

    ghost Value = { List Occurrence };

    ghost view = { λ tables. all_of tables.tables.items };

    ghost invariant = { λ tables. AreInShares tables.tables.items
        × IfSome tables.parts
        (λ parts. TellsParts (all_of tables.tables.items) parts.bits parts.slots) };
}

impl Tables {
    /// The tables of shares, which are all, with the last parts of the names of scopes in them.
    pub(crate) fn new(tables: Vec<EntryTable>, parts: Option<ScopeParts>) -> Tables
        requires shares { AreInShares tables.items }
        requires parts { IfSome parts
            (λ parts. TellsParts (all_of tables.items) parts.bits parts.slots) }
        ensures { result ≡ all_of tables.items }
    {
        Tables { tables, parts }
    }

    /// The table of the share that has the names of a hash.
    fn with_hash(&self, hash: u32) -> &EntryTable
        ensures found { (o : Occurrence) → Contains result.now o → Contains self.now o }
        ensures all { (o : Occurrence) → Contains self.now o → hash_of o.name ≡ hash
            → Contains result.now o }
    {
        &self.tables[share_of_hash(hash, self.tables.len())]
    }

    /// Whether the name in a scope, which is one part, may be a scope's full name, as far as last parts tell.
    fn may_be_part(&self, scope: Scope, name: HashedName) -> bool
        requires { HasNoDot name.text.now }
        ensures { (o : Occurrence) → Contains self.now o
            → o.name ≡ scoped scope.entry.text.now name.entry.text.now → IsTrue (is_scope o.kind)
            → IsTrue result }
    {
        match &self.parts {
            Some(parts) => parts.tells(scope, name),
            None => true,
        }
    }

    /// Whether the name in a scope, which is one part, may be a scope's full name.
    pub(crate) fn may_be_scope(&self, scope: Scope, name: HashedName) -> bool
        requires { HasNoDot name.text.now }
        ensures { (o : Occurrence) → Contains self.now o
            → o.name ≡ scoped scope.entry.text.now name.entry.text.now → IsTrue (is_scope o.kind)
            → IsTrue result }
    {
        if !self.may_be_part(scope, name) {
            return false;
        }
        let hash = scope.hash_with(name);
        self.with_hash(hash).may_be_scope(hash)
    }

    /// The entries of the name in a scope.
    pub(crate) fn named(&self, scope: Scope, name: HashedName) -> NameEntries<'_>
        ensures found { (o : Occurrence) → Contains result.names o
            → Contains self.now o × (o.name ≡ scoped scope.entry.text.now name.entry.text.now) }
        ensures all { (o : Occurrence) → Contains self.now o
            → o.name ≡ scoped scope.entry.text.now name.entry.text.now → Contains result.names o }
        ensures files { IfSome result.files (λ p. IsPackageOf result.names p.files.now p.row) }
    {
        let hash = scope.hash_with(name);
        self.with_hash(hash).named(scope.text, hash, name.text)
    }
}
