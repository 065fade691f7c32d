//! What a node leads to, in any graph, and graphs with their edges turned round.

ghost use Rattle.std.specs.Prelude.{◌≡◌, ◌⊎◌, ◌↔◌, ℕ, ◌<◌, [], length, Contains, IfOk, OnOk};
ghost use Rattle.digraph.specs.Edges.{Edge, IsWithin, graph_of, successors};
ghost use Rattle.digraph.specs.Leads.{Leads};
ghost use Rattle.digraph.specs.Marks.{AreMarked, IsMarked, NoneMarked};

use crate::marks::{no_marks, visit};
use std::alloc::{AllocError, Global};

/// The successors of a node.
pub(crate) fn row(graph: &[Vec<usize>], node: usize) -> &[usize]
    requires { node < length graph.now }
    ensures { result.now ≡ successors (graph_of graph.now) node }
{
    graph[node].as_slice()
}

/// Marks what a node leads to.
fn search(
    graph: &[Vec<usize>],
    start: usize,
    marks: &mut [bool],
    found: &mut Vec<usize>,
) -> Result<(), AllocError>
    requires start { start < length graph.now }
    requires within { IsWithin (graph_of graph.now) (length graph.now) }
    requires room { length marks.old ≡ length graph.now }
    requires none { NoneMarked marks.old }
    requires empty { found.old.items ≡ [] }
    ensures { OnOk result ((c : ℕ) → IsMarked marks.new c
        ↔ Leads (Edge (graph_of graph.now)) c start) }
{
    let first = [start];
    visit(&first, marks, found)?;
    let mut next = 0;
    while next < found.len() {
        let node = found[next];
        visit(row(graph, node), marks, found)?;
        next += 1;
    }
    Ok(())
}

/// A mark at each node that `start` leads to, itself among them.
pub fn mark_reached(
    alloc: Global,
    graph: &[Vec<usize>],
    start: usize,
) -> Result<Vec<bool>, AllocError>
    requires start { start < length graph.now }
    requires within { IsWithin (graph_of graph.now) (length graph.now) }
    ensures size { IfOk result (λ marks. length marks.items ≡ length graph.now) }
    ensures marked { IfOk result (λ marks. (c : ℕ)
        → IsMarked marks.items c ↔ Leads (Edge (graph_of graph.now)) c start) }
{
    let mut marks = no_marks(alloc, graph.len())?;
    let mut found = Vec::new(alloc);
    search(graph, start, &mut marks, &mut found)?;
    Ok(marks)
}

/// Rows without nodes.
fn empty_rows(alloc: Global, count: usize) -> Result<Vec<Vec<usize>>, AllocError>
    ensures size { IfOk result (λ rows. length rows.items ≡ count) }
    ensures empty { IfOk result (λ rows. (a b : ℕ) → Edge (graph_of rows.items) a b → ⊥) }
{
    let mut rows = Vec::new(alloc);
    for _ in 0..count {
        rows.push(Vec::new(alloc))?;
    }
    Ok(rows)
}

/// Appends a node to the row of each of its successors.
fn turn(nodes: &[usize], node: usize, rows: &mut [Vec<usize>]) -> Result<(), AllocError>
    requires room { (b : ℕ) → Contains nodes.now b → b < length rows.old }
    ensures { OnOk result ((b a : ℕ) → Edge (graph_of rows.new) b a
        ↔ (Edge (graph_of rows.old) b a ⊎ ((a ≡ node) × Contains nodes.now b))) }
{
    for successor in nodes {
        rows[*successor].push(node)?;
    }
    Ok(())
}

/// The graph whose edges go the other way.
pub fn predecessors(alloc: Global, graph: &[Vec<usize>]) -> Result<Vec<Vec<usize>>, AllocError>
    requires { IsWithin (graph_of graph.now) (length graph.now) }
    ensures size { IfOk result (λ rows. length rows.items ≡ length graph.now) }
    ensures turned { IfOk result (λ rows. (b a : ℕ)
        → Edge (graph_of rows.items) b a ↔ Edge (graph_of graph.now) a b) }
{
    let mut rows = empty_rows(alloc, graph.len())?;
    for node in 0..graph.len() {
        turn(row(graph, node), node, &mut rows)?;
    }
    Ok(rows)
}
