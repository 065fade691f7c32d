//! The entries of an index, where they were collected: part by part, and none is moved.

ghost use Rattle.std.specs.Prelude.{◌≡◌, ◌∷◌, [], IfOk, IsUtf8};
ghost use Rattle.proto_names.specs.Keys.{at_key, index_in, part_in};
ghost use Rattle.proto_names.specs.Order.{location_of};

use crate::entries::Entries;
use crate::entry::{FIRST_LOCATION, Location};
use crate::keys::{index_in, part_in};
use crate::name_bytes::NameBytes;
use proto_desc::name_kind::NameKind;
use std::alloc::{AllocError, Global};
use std::marker::Model;

/// The entries of each part. A key tells the part, and the entry in it. Contracts see the parts as lists of occurrences.
#[derive(Drop)]
pub(crate) struct Collected {
    pub(crate) parts: Vec<Entries>,
}

impl Model for Collected {
    ghost use Rattle.std.specs.Prelude.{List};
    ghost use Rattle.proto_names.specs.Occurrences.{Occurrence};

    ghost Value = { List (List Occurrence) };

    ghost view = { λ collected. collected.parts.items };
}

impl Collected {
    /// The entries of one part, which has all.
    pub(crate) fn in_one(alloc: Global, entries: Entries) -> Result<Collected, AllocError>
        ensures { IfOk result (λ collected. collected ≡ entries ∷ []) }
    {
        let mut parts = Vec::with_capacity(alloc, 1)?;
        parts.push(entries)?;
        Ok(Collected { parts })
    }

    /// The bytes of the name that a key finds, none where it finds no entry.
    pub(crate) fn bytes(&self, key: u64) -> NameBytes<'_>
        ensures name { result ≡ (at_key self.now key).name }
        ensures text { IsUtf8 result }
    {
        let Some(entries) = self.parts.get(part_in(key)) else {
            return NameBytes::empty();
        };
        entries.bytes(index_in(key))
    }

    /// Where the name that a key finds stands; at the first byte of the first file where it finds no entry.
    pub(crate) fn location(&self, key: u64) -> Location
        ensures { result ≡ location_of (at_key self.now key) }
    {
        match self.parts.get(part_in(key)) {
            Some(entries) => entries.location(index_in(key)),
            None => FIRST_LOCATION,
        }
    }

    /// What the name that a key finds is declared for; none where it is a package, or where the key finds no entry.
    pub(crate) fn kind(&self, key: u64) -> Option<NameKind>
        ensures { result ≡ (at_key self.now key).kind }
    {
        match self.parts.get(part_in(key)) {
            Some(entries) => entries.kind(index_in(key)),
            None => None,
        }
    }
}
