//! All names that occur twice.

ghost use Rattle.std.specs.Prelude.{◌≡◌, ◌↔◌, ◌<◌, ◌≤◌, AllPairs, Contains, IfOk, IfSome, IsPermutation, MatchOption, length};
ghost use Rattle.proto_base.specs.Limits.{limit_of};
ghost use Rattle.proto_base.specs.declared.limits.Limit.TheVariants as limit;
ghost use Rattle.proto_links.specs.Bad.{Precedes};
ghost use Rattle.proto_links.specs.declared.bad.FileSpot.{FileSpot};
ghost use Rattle.proto_names.specs.Occurrences.{Occurrence, IsTwice, occurrences};
ghost use Rattle.proto_names.specs.Order.{AreInOrder};
ghost use Rattle.proto_names.specs.Repeated.{AreAllTwice, name_twice};

use crate::collect::collect_files;
use crate::collected::Collected;
use crate::entries::Entries;
use crate::keyed_entries::KeyedEntries;
use crate::share::Share;
use crate::twice::all_twice;
use proto_base::{Limit, Limits};
use proto_desc::file::FileDesc;
use proto_links::FileSpot;
use std::alloc::{AllocError, Global};
use std::sync::Arc;

/// Occurrences by their names, then by file and place.
fn in_order(alloc: Global, entries: Entries) -> Result<KeyedEntries, AllocError>
    requires { length entries ≤ 1_048_576 }
    ensures all { IfOk result (λ sorted. IsPermutation entries sorted) }
    ensures order { IfOk result (λ sorted. AreInOrder sorted) }
{
    let collected = Collected::in_one(alloc, entries)?;
    let shared = Arc::new(alloc, collected)?;
    let all = Share {
        position: 0,
        count: 1,
    };
    KeyedEntries::of_share(alloc, &shared, all)?.sorted(alloc)
}

/// All occurrences with another one of their name that comes no later, as faults. One may stand there more than once.
fn repeated_among(alloc: Global, entries: Entries) -> Result<Vec<FileSpot>, AllocError>
    requires { length entries ≤ 1_048_576 }
    ensures { IfOk result (λ spots. (x : FileSpot)
        → Contains spots.items x ↔ ((b : Occurrence) × IsTwice entries b × (x ≡ name_twice b))) }
{
    let sorted = in_order(alloc, entries)?;
    all_twice(alloc, &sorted.names())
}

/// Sorts faults, and keeps each of them once.
fn sort_file_spots(spots: &mut Vec<FileSpot>)
    ensures same { (x : FileSpot) → Contains spots.new.items x ↔ Contains spots.old.items x }
    ensures order { AllPairs Precedes spots.new.items }
{
    spots.sort_unstable();
    spots.dedup();
}

/// All occurrences with another one of their name that comes no later, where not both are packages: by file and then by
/// place, each place once. None where there are more occurrences than the limit of names.
///
/// Only memory can be refused, also where files, entries or the bytes of names come to 2^32. It starts no thread.
pub fn repeated_names(
    alloc: Global,
    files: &[FileDesc],
    limits: &Limits,
) -> Result<Option<Vec<FileSpot>>, AllocError>
    ensures few { IfOk result (λ found. MatchOption found
        (limit_of limits.now limit.Names < length (occurrences files.now))
        (λ _. length (occurrences files.now) ≤ limit_of limits.now limit.Names)) }
    ensures all { IfOk result (λ found. IfSome found
        (λ spots. AreAllTwice (occurrences files.now) spots.items)) }
{
    let Some(entries) = collect_files(alloc, 0, files, limits.get(Limit::Names))? else {
        return Ok(None);
    };
    let mut spots = repeated_among(alloc, entries)?;
    sort_file_spots(&mut spots);
    Ok(Some(spots))
}
