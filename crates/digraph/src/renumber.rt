//! Nodes by their positions in an order, and back.

ghost use Rattle.std.specs.Prelude.{◌≡◌, ◌↔◌, ℕ, ◌<◌, length, map, Contains, IfOk, slice_index_or, [], List, Vec};
ghost use Rattle.std.specs.declared.alloc.Global.{Global};
ghost use Rattle.digraph.specs.Edges.{IsWithin, graph_of};
ghost use Rattle.digraph.specs.Ranks.{IsRankOrder};
ghost use Rattle.digraph.specs.Renumbered.{ArePositions, HasPosition, IsRenumbered, node_at};

use crate::lists::Lists;
use crate::ranks::Ranking;
use crate::search::row;
use std::alloc::{AllocError, Global};

/// The position of each node in the order of a ranking.
pub fn positions_of(alloc: Global, ranking: &Ranking) -> Result<Vec<usize>, AllocError>
    requires { IsRankOrder ranking.now.ranks.items ranking.now.order.items }
    ensures { IfOk result (λ positions. ArePositions ranking.now.order.items positions.items) }
{
    let order = ranking.order.as_slice();
    let mut positions = vec![in alloc; 0; order.len()]?;
    for (position, node) in order.iter().enumerate() {
        positions[*node] = position;
    }
    Ok(positions)
}

/// The positions of nodes.
fn positions_in(
    alloc: Global,
    nodes: &[usize],
    positions: &[usize],
) -> Result<Vec<usize>, AllocError>
    requires { (b : ℕ) → Contains nodes.now b → b < length positions.now }
    ensures { IfOk result (λ row. row.items
        ≡ map (λ b. slice_index_or positions.now b 0) nodes.now) }
{
    let mut row = Vec::with_capacity(alloc, nodes.len())?;
    for node in nodes {
        row.push(positions[*node])?;
    }
    Ok(row)
}

/// The positions of nodes, in falling order.
fn falling_positions(
    alloc: Global,
    nodes: &[usize],
    positions: &[usize],
) -> Result<Vec<usize>, AllocError>
    requires { (b : ℕ) → Contains nodes.now b → b < length positions.now }
    ensures { IfOk result (λ row. (j : ℕ)
        → Contains row.items j ↔ HasPosition positions.now nodes.now j) }
{
    let mut row = positions_in(alloc, nodes, positions)?;
    row.sort_unstable();
    row.reverse();
    Ok(row)
}

/// The same edges between positions. A row has the greatest position first: of the lists of a row's nodes the longest
/// come first then, and most others stand in them.
pub fn renumber_rows(
    alloc: Global,
    graph: &[Vec<usize>],
    order: &[usize],
    positions: &[usize],
) -> Result<Vec<Vec<usize>>, AllocError>
    requires positions { ArePositions order.now positions.now }
    requires size { length graph.now ≡ length order.now }
    requires within { IsWithin (graph_of graph.now) (length graph.now) }
    ensures { IfOk result (λ rows. IsRenumbered (graph_of graph.now) order.now
        (graph_of rows.items)) }
{
    let mut rows = Vec::with_capacity(alloc, order.len())?;
    for node in order {
        let row = falling_positions(alloc, row(graph, *node), positions)?;
        rows.push(row)?;
    }
    Ok(rows)
}

/// Lists of positions as lists of the nodes there.
pub fn with_nodes(alloc: Global, lists: &Lists, order: &[usize]) -> Result<Lists, AllocError>
    requires { (a k : ℕ) → a < length lists.now → Contains (slice_index_or lists.now a []) k
        → k < length order.now }
    ensures { IfOk result (λ named. named
        ≡ map (λ (list : List ℕ). map (node_at order.now) list) lists.now) }
{
    lists.with_names(alloc, order)
}
