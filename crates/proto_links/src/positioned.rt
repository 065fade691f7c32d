//! Files by their positions in set order. A file imports only files at lower positions, so its lists are made from theirs.

ghost use Rattle.std.specs.Prelude.{◌≡◌, ◌<◌, All, IfOk, length};
ghost use Rattle.digraph.specs.Edges.{IsFalling, graph_of};
ghost use Rattle.proto_links.specs.Positioned.{AreFilesReached, AreFilesSeen, ArePositioned, AreRanked};

use crate::graph::Graph;
use bit_matrix::BitMatrix;
use digraph::{
    Lists, Ranking, join_successors, positions_of, reach_lists, reach_rows, renumber_rows,
    with_nodes,
};
use proto_desc::file::FileDesc;
use std::alloc::{AllocError, Global};

/// Files by their positions in set order.
#[derive(Drop)]
pub(crate) struct Positioned {
    /// The position of each file.
    pub(crate) positions: Vec<usize>,
    /// The positions of the files that the file at a position imports.
    pub(crate) imports: Vec<Vec<usize>>,
    /// The positions of those that it imports publicly.
    pub(crate) public_imports: Vec<Vec<usize>>,
}

/// The positions of files in the order of a ranking, and the imports between these.
pub(crate) fn by_positions(
    alloc: Global,
    files: &[FileDesc],
    graph: &Graph,
    ranking: &Ranking,
) -> Result<Positioned, AllocError>
    requires { AreRanked files.now graph.now ranking.now }
    ensures { IfOk result (ArePositioned files.now graph.now ranking.now) }
{
    let positions = positions_of(alloc, ranking)?;
    let imports = renumber_rows(alloc, &graph.imports, &ranking.order, &positions)?;
    let public_imports = renumber_rows(alloc, &graph.public_imports, &ranking.order, &positions)?;
    Ok(Positioned {
        positions,
        imports,
        public_imports,
    })
}

/// The files that the file at each position reaches, in set order.
pub(crate) fn files_reached(
    alloc: Global,
    positioned: &Positioned,
    ranking: &Ranking,
) -> Result<Lists, AllocError>
    requires falls { IsFalling (graph_of positioned.now.imports.items) }
    requires size { length positioned.now.imports.items ≡ length ranking.now.order.items }
    ensures { IfOk result (AreFilesReached ranking.now positioned.now) }
{
    let reach = reach_lists(alloc, &positioned.imports)?;
    with_nodes(alloc, &reach, &ranking.order)
}

/// The files that the file at each position sees: itself, and what its imports reach by public imports.
pub(crate) fn files_seen(
    alloc: Global,
    positioned: &Positioned,
    ranking: &Ranking,
) -> Result<BitMatrix, AllocError>
    requires imports { IsFalling (graph_of positioned.now.imports.items) }
    requires public { IsFalling (graph_of positioned.now.public_imports.items) }
    requires size { length positioned.now.imports.items ≡ length ranking.now.order.items }
    requires public_size { length positioned.now.public_imports.items
        ≡ length ranking.now.order.items }
    requires files { All (λ file. file < length ranking.now.order.items) ranking.now.order.items }
    ensures { IfOk result (AreFilesSeen ranking.now positioned.now) }
{
    // By public imports a file reaches what it sees but for what its other imports reach.
    let mut seen = reach_rows(alloc, &positioned.public_imports, &ranking.order)?;
    join_successors(&mut seen, &positioned.imports);
    Ok(seen)
}
