//! The entries of an index, in the order of their names, with the slots by which those of one name are found, and the
//! packages that many files have.

ghost use Rattle.std.specs.Prelude.{◌≡◌, ◌≢◌, ◌↔◌, ◌<◌, ◌≤◌, length, slice_index_or, All, Contains, IfOk, IfSome, IsTrue};
ghost use Rattle.std.specs.List.Sorted.{IsPartitionPoint};
ghost use Rattle.std.specs.declared.cmp.Ordering.TheVariants.{Less};
ghost use Rattle.proto_desc.specs.DeclaredNames.{scoped};
ghost use Rattle.proto_names.specs.Hashes.{hash_of};
ghost use Rattle.proto_names.specs.Order.{AreInHashOrder, AreInOrder, name_cmp};
ghost use Rattle.proto_names.specs.Occurrences.{Occurrence};
ghost use Rattle.proto_names.specs.Packages.{ArePackagesOf, IsPackageOf};
ghost use Rattle.proto_names.specs.Resolution.{is_scope};
ghost use Rattle.proto_names.specs.ScopeHashes.{TellsScopes};
ghost use Rattle.proto_names.specs.Starts.{AreStarts};

use crate::halving::count_named;
use crate::keyed_entries::KeyedEntries;
use crate::names::Names;
use crate::packages::{PackageFiles, Packages};
use crate::scope_hashes::ScopeHashes;
use crate::starts::{Starts, starts_of};
use std::alloc::{AllocError, Global};
use std::marker::Model;

/// The entries of one name. Where these are a package's, and many, it has the package's files.
#[derive(Drop)]
pub(crate) struct NameEntries<'t> {
    pub(crate) names: Names<'t>,
    pub(crate) files: Option<PackageFiles<'t>>,
}

/// Entries with what is found among them. Contracts see them as the occurrences that they stand for.
#[derive(Drop)]
pub(crate) struct EntryTable {
    entries: KeyedEntries,
    starts: Starts,
    scopes: ScopeHashes,
    packages: Packages,
}

impl Model for EntryTable {
    ghost use Rattle.std.specs.Prelude.{List, length};
    ghost use Rattle.proto_names.specs.Occurrences.{Occurrence};
    ghost use Rattle.proto_names.specs.Order.{AreInOrder};
    ghost use Rattle.proto_names.specs.Packages.{ArePackagesOf};
    ghost use Rattle.proto_names.specs.ScopeHashes.{TellsScopes};
    ghost use Rattle.proto_names.specs.Starts.{AreStarts};

    ghost Value = { List Occurrence };

    ghost view = { λ table. table.entries };

    ghost invariant = { λ table. AreInOrder table.entries
        × AreStarts table.entries table.starts.counts.items
        × TellsScopes table.entries table.scopes.bits table.scopes.slots
        × ArePackagesOf table.entries table.packages.runs.items table.packages.files };
}

impl EntryTable {
    /// The entries, which stand in so many files, with the hashes of the scopes among them, and with what else is found.
    pub(crate) fn new(
        alloc: Global,
        entries: KeyedEntries,
        scopes: ScopeHashes,
        files: usize,
    ) -> Result<EntryTable, AllocError>
        requires order { AreInOrder entries }
        requires many { length entries ≤ 1_048_576 }
        requires scopes { TellsScopes entries scopes.bits scopes.slots }
        requires files { All (λ o. o.file < files) entries }
        ensures { IfOk result (λ table. table ≡ entries) }
    {
        let starts = starts_of(alloc, &entries.names())?;
        let packages = Packages::among(alloc, &entries.names(), files)?;
        Ok(EntryTable {
            entries,
            starts,
            scopes,
            packages,
        })
    }

    /// The names of the entries, in their order.
    pub(crate) fn names(&self) -> Names<'_>
        ensures { result ≡ self.now }
    {
        self.entries.names()
    }

    /// Whether the full name of a scope may have this hash. Of most names that are none a bit tells so.
    pub(crate) fn may_be_scope(&self, hash: u32) -> bool
        ensures { (o : Occurrence) → Contains self.now o → IsTrue (is_scope o.kind)
            → hash_of o.name ≡ hash → IsTrue result }
    {
        self.scopes.tells(hash)
    }

    /// The entries of the name in a scope, which has this hash.
    pub(crate) fn named(&self, scope: &str, hash: u32, name: &str) -> NameEntries<'_>
        requires hash { hash ≡ hash_of (scoped scope.now name.now) }
        ensures found { (o : Occurrence) → Contains result.names o
            → Contains self.now o × (o.name ≡ scoped scope.now name.now) }
        ensures all { (o : Occurrence) → Contains self.now o
            → o.name ≡ scoped scope.now name.now → Contains result.names o }
        ensures files { IfSome result.files (λ p. IsPackageOf result.names p.files.now p.row) }
    {
        entries_named(
            &self.entries.names(),
            &self.starts,
            &self.packages,
            scope,
            hash,
            name,
        )
    }
}

/// How many of the entries have the name in a scope, where the first has it. Most names have one entry.
fn run_length(names: &Names, scope: &str, name: &str) -> usize
    requires order { AreInHashOrder names.now }
    requires behind { All (λ o. name_cmp o.name (scoped scope.now name.now) ≢ Less) names.now }
    requires some { 0 < length names.now }
    requires first { (d : Occurrence) → (slice_index_or names.now 0 d).name
        ≡ scoped scope.now name.now }
    ensures bound { result ≤ length names.now }
    ensures point { IsPartitionPoint (λ o. o.name ≡ scoped scope.now name.now)
        (λ o. o.name ≢ scoped scope.now name.now) names.now result }
{
    if names.len() > 1 && names.hash(1) == names.hash(0) && names.has_name(1, scope, name) {
        count_named(names, scope, name)
    } else {
        1
    }
}

/// The entries of the name in a scope, which has this hash.
fn entries_named<'e>(
    names: &Names<'e>,
    starts: &Starts,
    packages: &'e Packages,
    scope: &str,
    hash: u32,
    name: &str,
) -> NameEntries<'e>
    requires hash { hash ≡ hash_of (scoped scope.now name.now) }
    requires order { AreInOrder names.now }
    requires starts { AreStarts names.now starts.now.counts.items }
    requires packages { ArePackagesOf names.now packages.now.runs.items packages.now.files }
    ensures named { (o : Occurrence) → Contains result.names o
        ↔ (Contains names.now o × (o.name ≡ scoped scope.now name.now)) }
    ensures files { IfSome result.files (λ p. IsPackageOf result.names p.files.now p.row) }
{
    match starts.start_of(names, scope, hash, name) {
        Some(start) => {
            let behind = names.skip(start);
            let names = behind.take(run_length(&behind, scope, name));
            let files = packages.files_of(start, names.len());
            NameEntries { names, files }
        }
        None => NameEntries {
            names: names.take(0),
            files: None,
        },
    }
}
