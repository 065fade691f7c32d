//! The entries of an index: the occurrences of full names, whose own names stand in one text.

ghost use Rattle.std.specs.Prelude.{◌≡◌, ◌≢◌, ◌⊎◌, ℕ, ◌<◌, ◌≤◌, All, ◌++◌, ◌∷◌, [], List, length, IfOk, IsUtf8, MatchOption, None, OnOk, map};
ghost use Rattle.std.specs.List.{fold};
ghost use Rattle.proto_names.specs.Entries.{AreEntriesOf, IsFirstLonger, IsScopeAmong, occurrences_of_entries, scope_name};
ghost use Rattle.proto_names.specs.Hashes.{hash_of, hash_step, rolling_hash};
ghost use Rattle.proto_names.specs.Occurrences.{package_occurrence};
ghost use Rattle.proto_names.specs.Order.{location_of};
ghost use Rattle.proto_names.specs.Runs.{at};
ghost use Rattle.proto_names.specs.Scopes.{prefixes};
ghost use Rattle.proto_desc.specs.DeclaredNames.{scoped};

use crate::entry::{Entry, FIRST_LOCATION, Location};
use crate::hashing::{hash_before, spread, with_byte, with_text};
use crate::name_bytes::NameBytes;
use crate::scope::shorter_prefix;
use crate::scope_before::ScopeBefore;
use proto_desc::name_kind::NameKind;
use proto_desc::narrow;
use std::alloc::{AllocError, Global};
use std::marker::Model;

/// Entries and the text of their own names, in which each stands behind the last. Contracts see them as the occurrences that
/// they stand for.
#[derive(Drop)]
pub struct Entries {
    text: String,
    entries: Vec<Entry>,
}

impl Model for Entries {
    ghost use Rattle.std.specs.Prelude.{List, string_bytes};
    ghost use Rattle.proto_names.specs.Entries.{AreEntriesOf, occurrences_of_entries};
    ghost use Rattle.proto_names.specs.Occurrences.{Occurrence};

    ghost Value = { List Occurrence };

    ghost view = { λ es. occurrences_of_entries (string_bytes es.text) es.entries.items };

    ghost invariant = { λ es. AreEntriesOf (string_bytes es.text) es.entries.items };
}

/// What an entry that stands in no scope has as the position of its scope's entry.
const NO_SCOPE: u32 = u32::MAX;

/// The scope that an entry of this name is for what stands in it: none, where its full name is empty.
fn as_scope(position: u32, scope: Option<u32>, name: &str) -> Option<u32>
    ensures { MatchOption result ((scope ≡ None) × (name.now ≡ []))
        (λ k. (k ≡ position) × ((scope ≢ None) ⊎ (name.now ≢ []))) }
{
    if scope.is_none() && name.is_empty() {
        None
    } else {
        Some(position)
    }
}

/// Puts entries of a package's name and its shorter prefixes, the longest first. All have the text of the name, which
/// starts there. Where there is no memory, some may be put.
fn put_prefixes(
    entries: &mut Vec<Entry>,
    start: u32,
    name: &str,
    location: Location,
) -> Result<(), AllocError>
    ensures kept { (old : List ℕ) → start ≡ length old → AreEntriesOf (old ++ name.now) entries.old.items
        → AreEntriesOf (old ++ name.now) entries.new.items }
    ensures put { OnOk result ((old : List ℕ) → start ≡ length old
        → AreEntriesOf (old ++ name.now) entries.old.items
        → occurrences_of_entries (old ++ name.now) entries.new.items
        ≡ occurrences_of_entries (old ++ name.now) entries.old.items
        ++ map (package_occurrence location.file location.place) (prefixes name.now)) }
{
    let mut prefix = name;
    let mut rolling = with_text(0, name);
    loop {
        let len = narrow(prefix.len())?;
        // So no entry before this one has the position that stands for no scope.
        narrow(entries.len())?;
        entries.push(Entry {
            start,
            len,
            scope: NO_SCOPE,
            location,
            rolling,
            kind: None,
        })?;
        let Some(shorter) = shorter_prefix(prefix) else {
            return Ok(());
        };
        rolling = hash_before(rolling, &prefix.as_bytes()[shorter.len()..]);
        prefix = shorter;
    }
}

impl Entries {
    /// No entries, which take no memory.
    pub fn new(alloc: Global) -> Entries
        ensures { result ≡ [] }
    {
        Entries {
            text: String::new(alloc),
            entries: Vec::new(alloc),
        }
    }

    /// The rolling hash of what stands before a name in a scope.
    fn hash_before_name(&self, scope: Option<u32>) -> u32
        requires { IsScopeAmong self.now scope }
        ensures { (name : List ℕ) → fold hash_step result name
            ≡ rolling_hash (scoped (scope_name self.now scope) name) }
    {
        match scope {
            Some(position) => with_byte(self.entries[position as usize].rolling, b'.'),
            None => 0,
        }
    }

    /// Puts entries of a package's name and its shorter prefixes behind the others, the longest first. It gives the first as a
    /// scope, which is none where the name is empty.
    pub fn push_package(
        &mut self,
        name: &str,
        location: Location,
    ) -> Result<Option<u32>, AllocError>
        ensures put { OnOk result (self.new ≡ self.old
            ++ map (package_occurrence location.file location.place) (prefixes name.now)) }
        ensures scope { IfOk result (IsScopeAmong self.new) }
        ensures named { IfOk result (λ inside. scope_name self.new inside ≡ name.now) }
    {
        let start = narrow(self.text.len())?;
        let position = narrow(self.entries.len())?;
        self.text.push_str(name)?;
        put_prefixes(&mut self.entries, start, name, location)?;
        Ok(as_scope(position, None, name))
    }

    /// Puts an entry of a name behind the others, in the scope whose entry stands at a position; without one, in no scope. It
    /// gives the new entry as a scope, which is none where its full name is empty.
    pub fn push(
        &mut self,
        scope: Option<u32>,
        name: &str,
        location: Location,
        kind: Option<NameKind>,
    ) -> Result<Option<u32>, AllocError>
        requires { IsScopeAmong self.old scope }
        ensures put { OnOk result (self.new ≡ self.old ++ record {
          name = scoped (scope_name self.old scope) name.now;
          file = location.file;
          place = location.place;
          kind = kind;
        } ∷ []) }
        ensures scope { IfOk result (IsScopeAmong self.new) }
        ensures named { IfOk result (λ inside. scope_name self.new inside
            ≡ scoped (scope_name self.old scope) name.now) }
    {
        let rolling = with_text(self.hash_before_name(scope), name);
        let start = narrow(self.text.len())?;
        let len = narrow(name.len())?;
        let position = narrow(self.entries.len())?;
        self.text.push_str(name)?;
        let inside = as_scope(position, scope, name);
        self.entries.push(Entry {
            start,
            len,
            scope: scope.unwrap_or(NO_SCOPE),
            location,
            rolling,
            kind,
        })?;
        Ok(inside)
    }

    /// How many entries there are.
    pub fn len(&self) -> usize
        ensures { result ≡ length self.now }
    {
        self.entries.len()
    }

    /// Where the first name stands that has more bytes than this.
    pub fn first_longer(&self, most: usize) -> Option<Location>
        ensures { MatchOption result (All (λ o. length o.name ≤ most) self.now)
            (λ location. (k : ℕ) × IsFirstLonger most self.now k
            × (location ≡ location_of (at self.now k))) }
    {
        for position in 0..self.len() {
            if !self.bytes(position).is_within(most) {
                return Some(self.location(position));
            }
        }
        None
    }

    /// The hash of the name at a position.
    pub(crate) fn hash(&self, position: usize) -> u32
        requires { position < length self.now }
        ensures { result ≡ hash_of (at self.now position).name }
    {
        spread(self.entries[position].rolling)
    }

    /// The bytes of the name at a position, none where there is no entry.
    pub(crate) fn bytes(&self, position: usize) -> NameBytes<'_>
        ensures name { result ≡ (at self.now position).name }
        ensures text { IsUtf8 result }
    {
        let Some(entry) = self.entries.get(position) else {
            return NameBytes::empty();
        };
        let scope = if (entry.scope as usize) < position {
            ScopeBefore::Entry(self, entry.scope as usize)
        } else {
            ScopeBefore::Nothing
        };
        NameBytes {
            unread: entry.own_name(self.text.as_bytes()),
            scope,
        }
    }

    /// Where the name at a position stands; at the first byte of the first file where there is no entry.
    pub(crate) fn location(&self, position: usize) -> Location
        ensures { result ≡ location_of (at self.now position) }
    {
        match self.entries.get(position) {
            Some(entry) => entry.location,
            None => FIRST_LOCATION,
        }
    }

    /// What the name at a position is declared for; none where it is a package, or where there is no entry.
    pub(crate) fn kind(&self, position: usize) -> Option<NameKind>
        ensures { result ≡ (at self.now position).kind }
    {
        match self.entries.get(position) {
            Some(entry) => entry.kind,
            None => None,
        }
    }
}
