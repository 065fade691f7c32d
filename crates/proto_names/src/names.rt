//! The names of entries, with what they are declared for and where.

ghost use Rattle.std.specs.Prelude.{◌≡◌, ◌↔◌, ◌<◌, ◌≤◌, length, take, drop, IsTrue, IsUtf8};
ghost use Rattle.proto_desc.specs.DeclaredNames.{scoped};
ghost use Rattle.proto_names.specs.Hashes.{hash_of};
ghost use Rattle.proto_names.specs.Keys.{AreKeysAmong, found_by};
ghost use Rattle.proto_names.specs.Order.{location_of};
ghost use Rattle.proto_names.specs.Runs.{at};

use crate::collected::Collected;
use crate::entry::Location;
use crate::keys::hash_in;
use crate::name_bytes::{NameBytes, is_same_name};
use proto_desc::name_kind::NameKind;
use std::marker::Model;

/// Entries that are found by keys, in the order of these. Contracts see them as the occurrences that they stand for.
#[derive(Drop)]
pub(crate) struct Names<'e> {
    pub(crate) collected: &'e Collected,
    pub(crate) keys: &'e [u64],
}

impl<'e> Model for Names<'e> {
    ghost use Rattle.std.specs.Prelude.{List};
    ghost use Rattle.proto_names.specs.Keys.{AreKeysAmong, found_by};
    ghost use Rattle.proto_names.specs.Occurrences.{Occurrence};

    ghost Value = { List Occurrence };

    ghost view = { λ names. found_by names.collected.now names.keys.now };

    ghost invariant = { λ names. AreKeysAmong names.collected.now names.keys.now };
}

impl<'e> Names<'e> {
    /// What these keys find.
    pub(crate) fn new(collected: &'e Collected, keys: &'e [u64]) -> Names<'e>
        requires { AreKeysAmong collected.now keys.now }
        ensures { result ≡ found_by collected.now keys.now }
    {
        Names { collected, keys }
    }

    /// How many entries there are.
    pub(crate) fn len(&self) -> usize
        ensures { result ≡ length self.now }
    {
        self.keys.len()
    }

    /// The hash of the name at a position.
    pub(crate) fn hash(&self, position: usize) -> u32
        requires { position < length self.now }
        ensures { result ≡ hash_of (at self.now position).name }
    {
        let keys = self.keys;
        hash_in(keys[position])
    }

    /// The bytes of the name at a position.
    pub(crate) fn bytes(&self, position: usize) -> NameBytes<'e>
        requires { position < length self.now }
        ensures name { result ≡ (at self.now position).name }
        ensures text { IsUtf8 result }
    {
        let (collected, keys) = (self.collected, self.keys);
        collected.bytes(keys[position])
    }

    /// What the name at a position is declared for; none where it is a package.
    pub(crate) fn kind(&self, position: usize) -> Option<NameKind>
        requires { position < length self.now }
        ensures { result ≡ (at self.now position).kind }
    {
        self.collected.kind(self.keys[position])
    }

    /// Where the name at a position stands.
    pub(crate) fn location(&self, position: usize) -> Location
        requires { position < length self.now }
        ensures { result ≡ location_of (at self.now position) }
    {
        self.collected.location(self.keys[position])
    }

    /// Whether the entry at a position has the name in a scope.
    pub(crate) fn has_name(&self, position: usize, scope: &str, name: &str) -> bool
        requires { position < length self.now }
        ensures { IsTrue result ↔ ((at self.now position).name ≡ scoped scope.now name.now) }
    {
        is_same_name(self.bytes(position), NameBytes::scoped(scope, name))
    }

    /// Whether the entries at two positions have one name, by their hashes first.
    pub(crate) fn have_one_name(&self, first: usize, second: usize) -> bool
        requires first { first < length self.now }
        requires second { second < length self.now }
        ensures { IsTrue result ↔ ((at self.now first).name ≡ (at self.now second).name) }
    {
        self.hash(first) == self.hash(second) && is_same_name(self.bytes(first), self.bytes(second))
    }

    /// The entries behind so many.
    pub(crate) fn skip(&self, count: usize) -> Names<'e>
        requires { count ≤ length self.now }
        ensures { result ≡ drop count self.now }
    {
        Names {
            collected: self.collected,
            keys: &self.keys[count..],
        }
    }

    /// So many entries, from the first on.
    pub(crate) fn take(&self, count: usize) -> Names<'e>
        requires { count ≤ length self.now }
        ensures { result ≡ take count self.now }
    {
        Names {
            collected: self.collected,
            keys: &self.keys[..count],
        }
    }
}
