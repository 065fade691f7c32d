//! The sources of a run.

ghost use Rattle.std.specs.Prelude.{All, Contains, IfOk, IfSome, map};
ghost use Rattle.source_folder.specs.Folder.{named_bytes, names_of};
ghost use Rattle.proto_base.specs.NameOrder.{NamesRise};
ghost use Rattle.source_search.specs.Wanted.{AreWanted};

use crate::order::sort_by_name;
use crate::search::Search;
use crate::shelf::Shelf;
use proto_base::Limits;
use share_work::Plan;
use source_folder::{FolderTrouble, NamedText};
use std::alloc::AllocGlobal;
use std::thread::Threads;

/// The given sources, and with each source those that it imports, as far as the shelf has them and no given one has the
/// name, in the order of their names. A text that is no file by its tokens and its grammar imports nothing, and a name that
/// can be no path below a folder is not looked up. Workers share the reading of texts; the calling thread looks each name up
/// once.
///
/// A trouble is the shelf's own; `Listing` at no entry, where there are more than 1,048,576 sources; or `NoMemory`.
pub fn with_imports<R, S>(
    rt: &R,
    given: Vec<NamedText>,
    shelf: &S,
    limits: &Limits,
    plan: Plan,
) -> Result<Vec<NamedText>, FolderTrouble>
where
    R: Threads + AllocGlobal + Sync,
    S: Shelf,
    requires { NamesRise (names_of given.items) }
    ensures order { IfOk result (λ sources. NamesRise (names_of sources.items)) }
    ensures given { IfOk result (λ sources. All (Contains (map named_bytes sources.items))
        (map named_bytes given.items)) }
    // The least such set, where it is known what the shelf has.
    ensures least { IfOk result (λ sources. IfSome (S.texts shelf.now)
        (λ lookup. AreWanted limits.now lookup (map named_bytes given.items)
        (map named_bytes sources.items))) }
{
    let mut search = Search::new(rt.alloc(), given)?;
    search.complete(rt, shelf, limits, plan)?;
    let mut sources = search.into_sources();
    sort_by_name(&mut sources);
    Ok(sources)
}
