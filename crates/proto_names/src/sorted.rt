//! Entries in the order of their names, with what is found by walks over them.

ghost use Rattle.std.specs.Prelude.{◌≡◌, ◌<◌, ◌≤◌, All, IfOk, length, map, string_bytes};
ghost use Rattle.proto_names.specs.Index.{is_service_kind, services_of};
ghost use Rattle.proto_names.specs.ScopeHashes.{TellsScopes};
ghost use Rattle.proto_names.specs.Shares.{IsSortedOf, all_of, share_of};

use crate::collected::Collected;
use crate::entry::Location;
use crate::keyed_entries::KeyedEntries;
use crate::names::Names;
use crate::scope_hashes::ScopeHashes;
use crate::share::Share;
use crate::table::EntryTable;
use crate::twice::first_twice;
use proto_desc::name_kind::NameKind;
use std::alloc::{AllocError, Global};
use std::sync::Arc;

/// The table of entries, the names of the services among them, and the first that occurs twice.
#[derive(Drop)]
pub(crate) struct SortedShare {
    pub(crate) table: EntryTable,
    pub(crate) services: Vec<String>,
    pub(crate) twice: Option<Location>,
}

/// Whether a name is declared for a service.
fn is_service(kind: Option<NameKind>) -> bool
    ensures { result ≡ is_service_kind kind }
{
    matches!(kind, Some(NameKind::Service))
}

/// The names of the services among entries, of which the hashes of the scopes are told, in the order of the entries.
fn listed_services(
    alloc: Global,
    names: &Names,
    scopes: &ScopeHashes,
) -> Result<Vec<String>, AllocError>
    requires { TellsScopes names.now scopes.now.bits scopes.now.slots }
    ensures { IfOk result (λ services. map string_bytes services.items ≡ services_of names.now) }
{
    let mut services = Vec::new(alloc);
    for position in 0..names.len() {
        if scopes.tells(names.hash(position)) && is_service(names.kind(position)) {
            services.push(names.bytes(position).to_text(alloc)?)?;
        }
    }
    Ok(services)
}

/// The entries of a share, which stand in so many files, in their order.
pub(crate) fn sort_share(
    alloc: Global,
    collected: &Arc<Collected>,
    share: Share,
    files: usize,
) -> Result<SortedShare, AllocError>
    requires parts { length collected.now.value ≤ 4096 }
    requires few { length (all_of collected.now.value) ≤ 1_048_576 }
    requires files { All (λ o. o.file < files) (all_of collected.now.value) }
    ensures { IfOk result (IsSortedOf
        (share_of share.count share.position (all_of collected.now.value))) }
{
    let keyed = KeyedEntries::of_share(alloc, collected, share)?;
    let scopes = ScopeHashes::among(alloc, &keyed.names())?;
    let entries = keyed.sorted(alloc)?;
    let twice = first_twice(&entries.names());
    let services = listed_services(alloc, &entries.names(), &scopes)?;
    let table = EntryTable::new(alloc, entries, scopes, files)?;
    Ok(SortedShare {
        table,
        services,
        twice,
    })
}
