//! Linking: finding each import's file, and what is wrong with the imports.

ghost use Rattle.std.specs.Prelude.{◌≡◌, ℕ, Err, IfOk, map};
ghost use Rattle.proto_links.specs.Bad.{IsFirstBad};
ghost use Rattle.proto_links.specs.Imports.{name_of};
ghost use Rattle.proto_base.specs.NameOrder.{NamesRise};
ghost use Rattle.proto_links.specs.Linked.{AreLinked};
ghost use Rattle.proto_links.specs.Positioned.{AreRanked};
ghost use Rattle.proto_base.specs.declared.kind.Kind.{Kind};
ghost use Rattle.proto_base.specs.declared.place.Place.{Place};
ghost use Rattle.proto_links.specs.declared.linking.LinkError.TheVariants as errors;

use crate::faults::first_bad;
use crate::graph::{Graph, import_graph};
use crate::links::{FileId, Links};
use crate::positioned::{by_positions, files_reached, files_seen};
use digraph::{Ranking, rank_nodes};
use proto_base::{Kind, Place};
use proto_desc::file::FileDesc;
use std::alloc::{AllocError, Global};
use thiserror::Error;

/// Why files have no links.
#[derive(Debug, Drop, Error)]
pub enum LinkError {
    /// The first import that no file's name is, or by which a file reaches itself: by file, then by place.
    #[error("a bad import")]
    At(FileId, Place, Kind),
    #[error("out of memory")]
    NoMemory,
}

impl From<AllocError> for LinkError {
    ghost from_gives = { λ _ e. e ≡ errors.NoMemory };

    fn from(_error: AllocError) -> LinkError {
        LinkError::NoMemory
    }
}

/// The links of files whose imports name files, by the ranks of the files.
fn link_files(
    alloc: Global,
    files: &[FileDesc],
    graph: &Graph,
    ranking: Ranking,
) -> Result<Links, AllocError>
    requires { AreRanked files.now graph.now ranking }
    ensures { IfOk result (AreLinked files.now) }
{
    let positioned = by_positions(alloc, files, graph, &ranking)?;
    let reach = files_reached(alloc, &positioned, &ranking)?;
    let seen = files_seen(alloc, &positioned, &ranking)?;
    Ok(Links {
        ranking,
        positions: positioned.positions,
        reach,
        seen,
    })
}

/// Finds the file that each import names, and the files that each file reaches and sees. The files are named by their
/// positions in the list.
///
/// `At` is the first bad import, by file, place and the number of its kind: `ImportMissing` where no file has the name,
/// `ImportCycle` where the file that has it reaches the importer. Files without a bad import are linked. `NoMemory`
/// comes only where the allocator had none.
pub fn link(alloc: Global, files: &[FileDesc]) -> Result<Links, LinkError>
    requires { NamesRise (map name_of files.now) }
    ensures linked { IfOk result (AreLinked files.now) }
    ensures bad { (file : ℕ) (place : Place) (kind : Kind)
        → result ≡ Err (errors.At file place kind) → IsFirstBad files.now file place kind }
{
    let graph = import_graph(alloc, files)?;
    if let Some(ranking) = rank_nodes(alloc, &graph.imports)? {
        if graph.is_whole {
            return Ok(link_files(alloc, files, &graph, ranking)?);
        }
    }
    match first_bad(alloc, files, &graph.imports)? {
        Some((file, spot)) => Err(LinkError::At(file, spot.place, spot.kind)),
        None => unreachable!(),
    }
}
