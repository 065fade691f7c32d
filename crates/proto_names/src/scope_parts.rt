//! The last parts of the names of scopes. A name that is looked up in many scopes is a scope in few of them, and one bit
//! tells so of most others. All bits of a name lie side by side.

ghost use Rattle.std.specs.Prelude.{◌≡◌, ◌*◌, ◌<◌, ◌≤◌, [], IfOk, IfSome, IsTrue, List, ℕ};
ghost use Rattle.bit_matrix.specs.Changes.{IsAsLarge, columns_of};
ghost use Rattle.proto_desc.specs.DeclaredNames.{scoped};
ghost use Rattle.proto_names.specs.ScopeParts.{TellsParts, column_of, tells_part};
ghost use Rattle.proto_names.specs.Shares.{all_of};

use crate::hashing::{HashedName, hash_before, spread, unspread, with_bytes};
use crate::names::Names;
use crate::scope::Scope;
use crate::starts::slot_of;
use crate::table::EntryTable;
use crate::visible::Role;
use bit_matrix::BitMatrix;
use proto_desc::file::FileDesc;
use std::alloc::{AllocError, Global};

/// A row of bits, in which a slot of each last part has a bit for each slot of what stands before it.
#[derive(Drop)]
pub(crate) struct ScopeParts {
    bits: BitMatrix,
    slots: usize,
    ghost row: { 0 < bits.rows },
    ghost some: { 0 < slots },
    ghost few: { slots < 4_294_967_296 },
    ghost columns: { slots * 64 ≤ columns_of bits },
}

/// How many slots there are for what stands before a part. A slot of parts then has the bits of one word.
const SLOTS_BEFORE: usize = 64;

/// How many slots of parts there are at least.
const LEAST_SLOTS: usize = 8_192;

/// How many slots of parts there are at most, one for each name that there may be.
const MOST_SLOTS: usize = 1_048_576;

/// How many bytes a package has at least whose names are looked up in many scopes.
const LONG_PACKAGE: usize = 128;

/// The column for a part of this hash, behind a text of this rolling hash.
#[tactic(auto, unfolding(crate::specs::ScopeParts::column_of))]
fn column_of(slots: usize, part: u32, before: u32) -> usize
    requires some { 0 < slots }
    requires few { slots < 4_294_967_296 }
    ensures column { result ≡ column_of slots part before }
    ensures within { result < slots * 64 }
{
    slot_of(slots, part) * SLOTS_BEFORE + slot_of(SLOTS_BEFORE, spread(before))
}

/// How many slots there are for the parts of names in tables: one for each name, but for a bound.
fn slots_for(tables: &[EntryTable]) -> usize
    ensures some { 0 < result }
    ensures few { result ≤ 1_048_576 }
{
    let mut count: usize = 0;
    for table in tables {
        count = count.saturating_add(table.names().len());
    }
    count.clamp(LEAST_SLOTS, MOST_SLOTS)
}

/// Sets the bits of the scopes among names.
fn put_scopes(bits: &mut BitMatrix, slots: usize, names: &Names)
    requires some { 0 < slots }
    requires few { slots < 4_294_967_296 }
    requires row { 0 < bits.old.rows }
    requires columns { slots * 64 ≤ columns_of bits.old }
    ensures large { IsAsLarge bits.old bits.new }
    ensures kept { (before part : List ℕ) → IsTrue (tells_part bits.old slots before part)
        → IsTrue (tells_part bits.new slots before part) }
    ensures told { TellsParts names.now bits.new slots }
{
    for position in 0..names.len() {
        if Role::Scope.fits(names.kind(position)) {
            let part = names.bytes(position).last_part();
            let before = hash_before(unspread(names.hash(position)), part);
            bits.insert(0, column_of(slots, spread(with_bytes(0, part)), before));
        }
    }
}

impl ScopeParts {
    /// Those of the scopes in tables.
    pub(crate) fn among(alloc: Global, tables: &[EntryTable]) -> Result<ScopeParts, AllocError>
        ensures { IfOk result (λ parts. TellsParts (all_of tables.now) parts.bits parts.slots) }
    {
        let slots = slots_for(tables);
        let mut bits = BitMatrix::new(alloc, slots * SLOTS_BEFORE);
        bits.push_row()?;
        for table in tables {
            put_scopes(&mut bits, slots, &table.names());
        }
        Ok(ScopeParts { bits, slots })
    }

    /// Those of the scopes in tables, where a file's package is so long that its names are looked up in many scopes.
    pub(crate) fn for_files(
        alloc: Global,
        files: &[FileDesc],
        tables: &[EntryTable],
    ) -> Result<Option<ScopeParts>, AllocError>
        ensures { IfOk result (λ found. IfSome found
            (λ parts. TellsParts (all_of tables.now) parts.bits parts.slots)) }
    {
        for file in files {
            if file.scope().len() >= LONG_PACKAGE {
                return Ok(Some(ScopeParts::among(alloc, tables)?));
            }
        }
        Ok(None)
    }

    /// Whether the name in a scope may be a scope's full name.
    #[tactic(auto, unfolding(crate::specs::ScopeParts::tells_part))]
    pub(crate) fn tells(&self, scope: Scope, name: HashedName) -> bool
        ensures { result ≡ tells_part self.now.bits self.now.slots (scoped scope.entry.text.now [])
            name.entry.text.now }
    {
        let column = column_of(self.slots, name.hash(), scope.before_name);
        self.bits.contains(0, column)
    }
}
