//! The index of the names of files.

ghost use Rattle.std.specs.Prelude.{◌≡◌, ℕ, ◌<◌, All, flat_map, map, Err, IfOk, IfSome, None, Some, Contains, string_bytes, length, IsPermutation, IsSorted};
ghost use Rattle.std.specs.Cmp.Lexicographic.{slice_cmp};
ghost use Rattle.std.specs.Ordering.{nat_cmp};
ghost use Rattle.proto_names.specs.Index.{Indexes, IndexesNames, services_of};
ghost use Rattle.proto_names.specs.Shares.{IsFirstOf, services_in, table_of, twice_of};
ghost use Rattle.proto_names.specs.Repeated.{AreDeclaredOnce, IsRepeated, IsRepeatedAmong};
ghost use Rattle.proto_names.specs.declared.index.Defined.{Defined};
ghost use Rattle.proto_names.specs.Occurrences.{Occurrence, IsPackage, occurrences};
ghost use Rattle.proto_names.specs.declared.index.NameError.TheVariants as errors;
ghost use Rattle.proto_base.specs.Limits.{limit_of};
ghost use Rattle.proto_base.specs.declared.limits.Limit.TheVariants as limit;
ghost use Rattle.proto_base.specs.declared.place.Place.{Place};

use crate::entries::Entries;
use crate::entry::Location;
use crate::hashing::HashedName;
use crate::scope::Scope;
use crate::scope_parts::ScopeParts;
use crate::shares::{sort_alone, sorted_shares};
use crate::sorted::SortedShare;
use crate::table::EntryTable;
use crate::tables::Tables;
use crate::threading::Threading;
use crate::twice::lesser;
use proto_base::{Limit, Limits, Place};
use proto_desc::file::FileDesc;
use proto_desc::name_kind::NameKind;
use proto_links::FileId;
use std::alloc::{AllocError, AllocGlobal, Global};
use std::marker::Model;
use std::thread::Threads;
use thiserror::Error;

/// Why files have no index.
#[derive(Debug, Drop, Error)]
pub enum NameError {
    /// The first occurrence with another one of its name that comes no later, by file, then by place.
    #[error("a name that occurs twice")]
    At(FileId, Place),
    /// More occurrences than the limit.
    #[error("too many names")]
    TooMany,
    #[error("out of memory")]
    NoMemory,
}

impl From<AllocError> for NameError {
    ghost from_gives = { λ _ e. e ≡ errors.NoMemory };

    fn from(_error: AllocError) -> NameError {
        NameError::NoMemory
    }
}

/// The first of the occurrences that occur twice, by the first of each share.
fn first_of(shares: &[SortedShare]) -> Option<Location>
    ensures { IsFirstOf (map twice_of shares.now) result }
{
    let mut first = None;
    for share in shares {
        if let Some(location) = share.twice {
            first = Some(lesser(first, location));
        }
    }
    first
}

/// Shares taken apart: their tables, and the names of all services in byte order.
fn taken_apart(
    alloc: Global,
    shares: Vec<SortedShare>,
) -> Result<(Vec<EntryTable>, Vec<String>), AllocError>
    ensures tables { IfOk result (λ r. r.0.items ≡ map table_of shares.items) }
    ensures services { IfOk result (λ r. IsPermutation (flat_map services_in shares.items)
        (map string_bytes r.1.items)) }
    ensures order { IfOk result (λ r. IsSorted (slice_cmp nat_cmp) (map string_bytes r.1.items)) }
{
    let mut tables = Vec::with_capacity(alloc, shares.len())?;
    let mut services = Vec::new(alloc);
    for mut share in shares {
        services.append(&mut share.services)?;
        tables.push(share.table)?;
    }
    services.sort_unstable();
    Ok((tables, services))
}

/// What a full name is declared for, and the file that declares it.
#[derive(Clone, Copy, PartialEq, Eq)]
pub struct Defined {
    pub kind: NameKind,
    pub file: FileId,
}

/// The occurrences of names in files. Contracts see it as these, in any order, and the names of the services.
#[derive(Drop)]
pub struct NameIndex {
    pub(crate) files: usize,
    pub(crate) entries: Tables,
    /// The names of the services, in byte order.
    pub(crate) services: Vec<String>,
}

impl Model for NameIndex {
    ghost use Rattle.std.specs.Prelude.{map, string_bytes};
    ghost use Rattle.proto_names.specs.Index.{Index, IsSound};
    ghost use Rattle.proto_names.specs.Repeated.{IsOfFiles};

    ghost Value = { Index };

    ghost view = { λ index. record {
      files = index.files;
      occurrences = index.entries;
      services = map string_bytes index.services.items;
    } };

    ghost invariant = { λ index. IsSound (record {
      files = index.files;
      occurrences = index.entries;
      services = map string_bytes index.services.items;
    })
        × IsOfFiles (record {
          files = index.files;
          occurrences = index.entries;
          services = map string_bytes index.services.items;
        }) };
}

impl NameIndex {
    /// Finds what occurs in files: what they declare, with map entries and made oneofs, and their packages by every
    /// prefix.
    ///
    /// `TooMany` where more occurs than the limit of names, else `At` the first occurrence, by file and place, with
    /// another one of its name that comes no later, where not both are packages. `NoMemory` comes only where the
    /// allocator had none, or where files, entries or the bytes of names come to 2^32. No files within the standard
    /// limits come to that.
    pub fn build<R>(rt: &R, files: &[FileDesc], limits: &Limits) -> Result<NameIndex, NameError>
    where
        R: Threads + AllocGlobal + Sync,
        ensures indexed { IfOk result (Indexes files.now limits.now) }
        ensures twice { (file : ℕ) (place : Place) → result ≡ Err (errors.At file place)
            → IsRepeated files.now limits.now file place }
        ensures many { result ≡ Err errors.TooMany
            → limit_of limits.now limit.Names < length (occurrences files.now) }
    {
        NameIndex::build_by(rt, files, limits, Threading::Shared)
    }

    /// As `build`, in threads or on the calling thread alone. That changes nothing of the answer.
    pub fn build_by<R>(
        rt: &R,
        files: &[FileDesc],
        limits: &Limits,
        threading: Threading,
    ) -> Result<NameIndex, NameError>
    where
        R: Threads + AllocGlobal + Sync,
        ensures indexed { IfOk result (Indexes files.now limits.now) }
        ensures twice { (file : ℕ) (place : Place) → result ≡ Err (errors.At file place)
            → IsRepeated files.now limits.now file place }
        ensures many { result ≡ Err errors.TooMany
            → limit_of limits.now limit.Names < length (occurrences files.now) }
    {
        let alloc = rt.alloc();
        let limit = limits.get(Limit::Names);
        let Some(shares) = sorted_shares(rt, files, limit, threading)? else {
            return Err(NameError::TooMany);
        };
        if let Some(location) = first_of(&shares) {
            return Err(NameError::At(location.file as FileId, location.place));
        }
        let (tables, services) = taken_apart(alloc, shares)?;
        let parts = ScopeParts::for_files(alloc, files, &tables)?;
        Ok(NameIndex {
            files: files.len(),
            entries: Tables::new(tables, parts),
            services,
        })
    }

    /// The index of names that were put in so many files. It starts no thread.
    pub fn of_names(
        alloc: Global,
        names: Entries,
        files: usize,
        limits: &Limits,
    ) -> Result<NameIndex, NameError>
        requires { All (λ o. o.file < files) names }
        ensures indexed { IfOk result (IndexesNames files names limits.now) }
        ensures twice { (file : ℕ) (place : Place) → result ≡ Err (errors.At file place)
            → IsRepeatedAmong names limits.now file place }
        ensures many { result ≡ Err errors.TooMany
            → limit_of limits.now limit.Names < length names }
    {
        if names.len() as u64 > limits.get(Limit::Names) {
            return Err(NameError::TooMany);
        }
        let shares = sort_alone(alloc, names, files)?;
        if let Some(location) = first_of(&shares) {
            return Err(NameError::At(location.file as FileId, location.place));
        }
        let (tables, services) = taken_apart(alloc, shares)?;
        Ok(NameIndex {
            files,
            entries: Tables::new(tables, None),
            services,
        })
    }

    /// What a full name is declared for. A package is declared for nothing.
    pub fn find(&self, name: &str) -> Option<Defined>
        ensures none { result ≡ None → (o : Occurrence) → Contains self.now.occurrences o
            → o.name ≡ name.now → IsPackage o }
        ensures found { (d : Defined) → result ≡ Some d
            → (o : Occurrence) × Contains self.now.occurrences o × (o.name ≡ name.now)
            × (o.kind ≡ Some d.kind) × (o.file ≡ d.file) }
        ensures within { IfSome result (λ d. d.file < self.now.files) }
    {
        let names = self
            .entries
            .named(Scope::top(), HashedName::new(name))
            .names;
        for position in 0..names.len() {
            if let Some(kind) = names.kind(position) {
                let file = names.location(position).file as FileId;
                return Some(Defined { kind, file });
            }
        }
        None
    }

    /// A law: whatever files are indexed, the full name of an element has one occurrence, which stands once.
    pub fn names_are_declared_once(&self)
        ensures { AreDeclaredOnce self.now }
    {
        let _ = &self.files;
    }

    /// The full names of all services, in byte order.
    pub fn services(&self) -> &[String]
        ensures listed { map string_bytes result.now ≡ self.now.services }
        ensures services { IsPermutation (services_of self.now.occurrences)
            (map string_bytes result.now) }
        ensures order { IsSorted (slice_cmp nat_cmp) (map string_bytes result.now) }
    {
        self.services.as_slice()
    }
}
